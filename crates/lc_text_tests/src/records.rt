// Headers and lines worked out by hand.
ghost use Rattle.std.specs.Prelude.{◌≡◌};
ghost use Rattle.lc_record.specs.Record.{IsSample};

use lc_num::{Memory, Rgb, Rule, Text};
use lc_rated::Answer;
use lc_record::{Header, Line, RecordStop, header_text, line_text, read_record};
use std::alloc::Global;
use std::process::Abort;
use std::test::*;

#[test]
fn headers(rt: HostRuntime) -> Result<(), Fail> {
    let mut text = Text::new(rt.alloc());
    let least = Header {
        rule: Rule::One,
        width: 1,
        height: 1,
        grid: 1,
        cut: 1000,
        permille: 20,
    };
    assert_eq!(rt; header_text(&least, &mut text), Ok(()));
    assert_eq!(rt; text.as_slice(), b"LCB 1 1 1 1 1000 20\n".as_slice());
    // Each number in its place, after what the text held.
    let other = Header {
        rule: Rule::Two,
        width: 64,
        height: 4096,
        grid: 16,
        cut: 65_536,
        permille: 0,
    };
    assert_eq!(rt; header_text(&other, &mut text), Ok(()));
    assert_eq!(rt;
        text.as_slice(),
        b"LCB 1 1 1 1 1000 20\nLCB 2 64 4096 16 65536 0\n".as_slice()
    );
    let most = Header {
        rule: Rule::Two,
        width: u32::MAX,
        height: u32::MAX,
        grid: u32::MAX,
        cut: u32::MAX,
        permille: u32::MAX,
    };
    let mut text = Text::new(rt.alloc());
    assert_eq!(rt; header_text(&most, &mut text), Ok(()));
    assert_eq!(rt;
        text.as_slice(),
        b"LCB 2 4294967295 4294967295 4294967295 4294967295 4294967295\n".as_slice()
    );
    Ok(())
}

fn gray(n: u128) -> Rgb
    ensures { result ≡ record { r = n; g = n; b = n } }
{
    Rgb { r: n, g: n, b: n }
}

/// Writes the line over what `line` holds, and compares it.
fn same(rt: &impl Abort, a: Answer, line: &mut Line, wanted: &[u8])
    requires { IsSample 65_536 a }
{
    line_text(&a, line);
    assert_eq!(rt; line.as_slice(), wanted, "of {a:?}");
}

#[test]
fn lines(rt: HostRuntime) {
    let mut line = Line::new();
    assert_eq!(rt; line.as_slice(), b"".as_slice());
    let one = Answer {
        size: 1,
        evals: 1,
        est: gray(5_242_880_000_000_000_000_000),
        bound: gray(0),
    };
    same(
        &rt,
        one,
        &mut line,
        b"1 1 5242880000000000000000 5242880000000000000000 5242880000000000000000 0 0 0\n",
    );
    // The longest line.
    let most = 166_153_499_473_114_484_112_975_882_535_043_071;
    let long = Answer {
        size: 65_536,
        evals: 131_072,
        est: gray(most),
        bound: gray(most),
    };
    same(
        &rt,
        long,
        &mut line,
        b"65536 131072 166153499473114484112975882535043071 166153499473114484112975882535043071 166153499473114484112975882535043071 166153499473114484112975882535043071 166153499473114484112975882535043071 166153499473114484112975882535043071\n",
    );
    assert_eq!(rt; line.as_slice().len(), 235);
    // A sample that hits nothing, in the place of the longest line.
    let none = Answer {
        size: 0,
        evals: 0,
        est: gray(0),
        bound: gray(0),
    };
    same(&rt, none, &mut line, b"0 0 0 0 0 0 0 0\n");
    // Each number in its place.
    let each = Answer {
        size: 2,
        evals: 3,
        est: Rgb { r: 4, g: 5, b: 6 },
        bound: Rgb { r: 7, g: 8, b: 9 },
    };
    same(&rt, each, &mut line, b"2 3 4 5 6 7 8 9\n");
}

const MOST: u128 = 166_153_499_473_114_484_112_975_882_535_043_071;

fn answer(size: u32, evals: u32, est: u128, bound: u128) -> Answer {
    Answer {
        size,
        evals,
        est: gray(est),
        bound: gray(bound),
    }
}

#[test]
fn records(rt: HostRuntime) {
    for (text, parts, line) in [
        (
            b"LCB 1 1 1 1 1000 20\n1 1 5242880000000000000000 5242880000000000000000 5242880000000000000000 0 0 0\n".as_slice(),
            (Rule::One, 1, 1, 1, 1_000, 20),
            answer(1, 1, 5_242_880_000_000_000_000_000, 0),
        ),
        // Each number in its place.
        (
            b"LCB 1 1 1 1 1000 0\n2 3 4 5 6 7 8 9\n",
            (Rule::One, 1, 1, 1, 1_000, 0),
            Answer {
                size: 2,
                evals: 3,
                est: Rgb { r: 4, g: 5, b: 6 },
                bound: Rgb { r: 7, g: 8, b: 9 },
            },
        ),
        // The greatest of each number.
        (
            b"LCB 2 1 1 1 65536 1000\n65536 131072 166153499473114484112975882535043071 166153499473114484112975882535043071 166153499473114484112975882535043071 166153499473114484112975882535043071 166153499473114484112975882535043071 166153499473114484112975882535043071\n",
            (Rule::Two, 1, 1, 1, 65_536, 1_000),
            answer(65_536, 131_072, MOST, MOST),
        ),
        (
            b"LCB 1 1 1 1 3 0\n3 6 0 0 0 10 10 10\n",
            (Rule::One, 1, 1, 1, 3, 0),
            answer(3, 6, 0, 10),
        ),
    ] {
        assert!(rt; text.len() <= 1_000);
        let record = read_record(rt.alloc(), text).expect(&rt, "a record");
        let header = Header {
            rule: parts.0,
            width: parts.1,
            height: parts.2,
            grid: parts.3,
            cut: parts.4,
            permille: parts.5,
        };
        assert_eq!(rt; record.header, header, "at {text:?}");
        assert_eq!(rt; record.lines.as_slice(), [line].as_slice(), "at {text:?}");
    }
}

#[test]
fn samples_of_each_pixel(rt: HostRuntime) -> Result<(), Fail> {
    let mut text = Text::new(rt.alloc());
    text.append(b"LCB 1 2 3 2 1000 20\n")?;
    for count in 0..24_u32 {
        assert!(rt; text.len() <= 1_000);
        let stop = read_record(rt.alloc(), text.as_slice()).err();
        assert_eq!(rt;
            stop,
            Some(RecordStop::Fault {
                line: count + 2,
                kind: 3
            })
        );
        text.append(b"1 2 3 3 3 4 4 4\n")?;
    }
    assert!(rt; text.len() <= 1_000);
    let record = read_record(rt.alloc(), text.as_slice()).expect(&rt, "a record");
    assert_eq!(rt; record.header.height, 3);
    assert_eq!(rt; record.lines.len(), 24);
    for line in record.lines.as_slice() {
        assert_eq!(rt; *line, answer(1, 2, 3, 4));
    }
    text.append(b"1 2 3 3 3 4 4 4\n")?;
    assert!(rt; text.len() <= 1_000);
    let stop = read_record(rt.alloc(), text.as_slice()).err();
    assert_eq!(rt; stop, Some(RecordStop::Fault { line: 26, kind: 3 }));
    Ok(())
}

#[test]
fn no_headers(rt: HostRuntime) {
    for text in [
        b"".as_slice(),
        b"\n",
        b"LCB 1 1 1 1 1000 020\n",
        b"LCB 1 1 1 1 1000 20",
        b"LCB 1 1 1 1 1000 20\r\n1 1 0 0 0 0 0 0\n",
        b"LCB 1 1 1 1 1000 20 \n1 1 0 0 0 0 0 0\n",
        b"LCB 1  1 1 1 1000 20\n1 1 0 0 0 0 0 0\n",
        b"LCB 1 1\t1 1 1000 20\n1 1 0 0 0 0 0 0\n",
        b" LCB 1 1 1 1 1000 20\n1 1 0 0 0 0 0 0\n",
        b"lcb 1 1 1 1 1000 20\n1 1 0 0 0 0 0 0\n",
        b"LCB 0 1 1 1 1000 20\n1 1 0 0 0 0 0 0\n",
        b"LCB 3 1 1 1 1000 20\n1 1 0 0 0 0 0 0\n",
        b"LCB 01 1 1 1 1000 20\n1 1 0 0 0 0 0 0\n",
        b"LCB 11 1 1 1 1000 20\n1 1 0 0 0 0 0 0\n",
        b"LCB  1 1 1 1 1000 20\n1 1 0 0 0 0 0 0\n",
        b"LCB 1 1 1 1000 20\n1 1 0 0 0 0 0 0\n",
        b"LCB 2 1 1 1 1000 20 0\n1 1 0 0 0 0 0 0\n",
        b"\xEF\xBB\xBFLCB 1 1 1 1 1000 20\n1 1 0 0 0 0 0 0\n",
        b"LCB 1 1 1 1 1000\n1 1 0 0 0 0 0 0\n",
        b"LCB 1 1 1 1 1000 20 0\n1 1 0 0 0 0 0 0\n",
        b"LCB 1 0 1 1 1000 20\n",
        b"LCB 1 4097 1 1 1000 20\n",
        b"LCB 1 1 0 1 1000 20\n",
        b"LCB 1 1 4097 1 1000 20\n",
        b"LCB 1 1 1 0 1000 20\n",
        b"LCB 1 1 1 17 1000 20\n",
        b"LCB 1 1 1 1 2 20\n",
        b"LCB 1 1 1 1 65537 20\n",
        b"LCB 1 1 1 1 1000 1001\n",
        b"LCB 1 1 1 1 1000 -1\n",
        b"LCB 1 1 1 1 1000 +1\n",
        b"LCB 1 01 1 1 1000 20\n",
        b"LCB 1 1 1 1 1000 \n",
    ] {
        assert!(rt; text.len() <= 1_000);
        let stop = read_record(rt.alloc(), text).err();
        assert_eq!(rt;
            stop,
            Some(RecordStop::Fault { line: 1, kind: 1 }),
            "at {text:?}"
        );
    }
}

#[test]
fn faults_of_lines(rt: HostRuntime) -> Result<(), Fail> {
    // One sample with cuts of at most 3, and two samples.
    for (header, lines, line, kind) in [
        (b"LCB 1 1 1 1 3 20\n".as_slice(), b"".as_slice(), 2, 3),
        (b"LCB 1 1 1 1 3 20\n", b"01 1 0 0 0 0 0 0\n", 2, 2),
        (b"LCB 1 1 1 1 3 20\n", b"1 1 0 0 0 0 0 00\n", 2, 2),
        (b"LCB 1 1 1 1 3 20\n", b"1 1 0 0 0 0 0 0", 2, 2),
        (
            b"LCB 1 1 1 1 3 20\n",
            b"1 1 0 0 0 0 0 0\n1 1 0 0 0 0 0 0\n",
            3,
            3,
        ),
        (b"LCB 1 1 1 1 3 20\n", b"1 1 0 0 0 0 0 0\n\n", 3, 3),
        (b"LCB 1 1 1 1 3 20\n", b"1 1 0 0 0 0 0 0\n1", 3, 3),
        (b"LCB 1 1 1 1 3 20\n", b"1 1 0 0 0 0 0 0\n\0", 3, 3),
        (b"LCB 1 1 1 1 3 20\n", b"x", 2, 2),
        (b"LCB 1 1 1 1 3 20\n", b"\n1 1 0 0 0 0 0 0\n", 2, 2),
        (b"LCB 1 1 1 1 3 20\n", b"4 6 0 0 0 0 0 0\n", 2, 2),
        (b"LCB 1 1 1 1 3 20\n", b"3 7 0 0 0 0 0 0\n", 2, 2),
        (
            b"LCB 1 1 1 1 3 20\n",
            b"1 1 166153499473114484112975882535043072 0 0 0 0 0\n",
            2,
            2,
        ),
        (
            b"LCB 1 1 1 1 3 20\n",
            b"1 1 0 0 0 0 0 166153499473114484112975882535043072\n",
            2,
            2,
        ),
        (b"LCB 1 1 1 1 3 20\n", b"1 1 0 0 0 0 0\n", 2, 2),
        (b"LCB 1 1 1 1 3 20\n", b"1 1 0 0 0 0 0 0 0\n", 2, 2),
        (b"LCB 1 1 1 1 3 20\n", b"1 1  0 0 0 0 0 0\n", 2, 2),
        (b"LCB 1 1 1 1 3 20\n", b" 1 1 0 0 0 0 0 0\n", 2, 2),
        (b"LCB 1 1 1 1 3 20\n", b"1 1 0 0 0 0 0 0 \n", 2, 2),
        (b"LCB 1 1 1 1 3 20\n", b"1 1 0\t0 0 0 0 0\n", 2, 2),
        (b"LCB 1 1 1 1 3 20\n", b"1 1 0 0 0 0 0 0\r\n", 2, 2),
        (b"LCB 1 1 1 1 3 20\n", b"1 1 0 0 0 -1 0 0\n", 2, 2),
        (b"LCB 1 1 1 1 3 20\n", b"1 1 0 0 0 0x1 0 0\n", 2, 2),
        (b"LCB 1 2 1 1 3 20\n", b"1 1 0 0 0 0 0 0\n", 3, 3),
        (
            b"LCB 1 2 1 1 3 20\n",
            b"1 1 0 0 0 0 0 0\n1 1 0 0 0 0 0 0",
            3,
            2,
        ),
        (b"LCB 1 2 1 1 3 20\n", b"1 1 0 0 0 0 0 0\n1", 3, 2),
        (b"LCB 1 2 1 1 3 20\n", b"1 1 0 0 0 0 0 0\n\n", 3, 2),
        (
            b"LCB 1 1 2 1 3 20\n",
            b"1 1 0 0 0 0 0 0\n1 1 0 0 0 0 0 0\n1",
            4,
            3,
        ),
        (
            b"LCB 1 1 2 1 3 20\n",
            b"1 1 0 0 0 0 0\n1 1 0 0 0 0 0 0\n1",
            2,
            2,
        ),
    ] {
        let text = with_digits(rt.alloc(), header, 0, lines)?;
        assert!(rt; text.len() <= 1_000);
        let stop = read_record(rt.alloc(), text.as_slice()).err();
        assert_eq!(rt;
            stop,
            Some(RecordStop::Fault { line, kind }),
            "at {lines:?}"
        );
    }
    Ok(())
}

/// The text `before`, so many digits 1, and `after`.
fn with_digits(alloc: Global, before: &[u8], count: u32, after: &[u8]) -> Result<Text, Memory> {
    let mut text = Text::new(alloc);
    text.append(before)?;
    for _ in 0..count {
        text.append(b"1")?;
    }
    text.append(after)?;
    Ok(text)
}

#[test]
fn long_numbers(rt: HostRuntime) -> Result<(), Fail> {
    let header = RecordStop::Fault { line: 1, kind: 1 };
    let line = RecordStop::Fault { line: 2, kind: 2 };
    let front = b"LCB 1 1 1 1 3 20\n1 1 ".as_slice();
    for (before, count, after, wanted) in [
        (front, 35, b" 0 0 0 0 0\n".as_slice(), None),
        (front, 36, b" 0 0 0 0 0\n", None),
        (front, 37, b" 0 0 0 0 0\n", Some(line)),
        (front, 39, b" 0 0 0 0 0\n", Some(line)),
        (front, 40, b" 0 0 0 0 0\n", Some(line)),
        (front, 60, b" 0 0 0 0 0\n", Some(line)),
        (front, 64, b" 0 0 0 0 0\n", Some(line)),
        (front, 65, b" 0 0 0 0 0\n", Some(line)),
        (front, 1_000, b" 0 0 0 0 0\n", Some(line)),
        (front, 1_000, b"", Some(line)),
        (
            b"LCB 1 ",
            3,
            b" 1 1 3 20\n",
            Some(RecordStop::Fault { line: 2, kind: 3 }),
        ),
        (b"LCB 1 ", 39, b" 1 1 3 20\n", Some(header)),
        (b"LCB 1 ", 60, b" 1 1 3 20\n", Some(header)),
        (b"LCB 1 ", 1_000, b" 1 1 3 20\n", Some(header)),
    ] {
        let text = with_digits(rt.alloc(), before, count, after)?;
        assert!(rt; text.len() <= 10_000);
        let stop = read_record(rt.alloc(), text.as_slice()).err();
        assert_eq!(rt; stop, wanted, "at {count} digits after {before:?}");
    }
    Ok(())
}
