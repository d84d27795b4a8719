// Probes over a desk in memory.
use crate::cases::{Case, NOTHING, USAGE, desk_of, expect, expect_all, expect_over, serve};
use lc_desk::MemoryDesk;
use lc_num::Memory;
use std::alloc::{AllocGlobal, Global};
use std::process::Abort;
use std::test::Fail;

/// A probe at the origin of a surface that faces up.
const PROBE: Case = Case {
    words: &["probe", "l.txt", "0", "0", "0", "0", "0", "1"],
    lights: &["point 0 0 1 1 1 1\n"],
    ..NOTHING
};

/// Texts of lights, each with the line of their light at the origin.
const ANSWERS: &[(&str, &str)] = &[
    (
        "point 0 0 1 1 1 1",
        "1 1 6553600000000000000000 6553600000000000000000 6553600000000000000000 0 0 0\n",
    ),
    (
        "point 1 0 1 1 1 1",
        "1 1 2317000000000000000000 2317000000000000000000 2317000000000000000000 0 0 0\n",
    ),
    ("point 0 0 -1 1 1 1", "1 1 0 0 0 0 0 0\n"),
    ("point 1 0 0 1 1 1", "1 1 0 0 0 0 0 0\n"),
    ("point 0 0 0 1 1 1", "1 1 0 0 0 0 0 0\n"),
    (
        "point 0 0 0.005 1 1 1",
        "1 1 65536000000000000000000000 65536000000000000000000000 65536000000000000000000000 0 0 0\n",
    ),
    ("", "0 0 0 0 0 0 0 0\n"),
    ("# no light\n \t\r\n", "0 0 0 0 0 0 0 0\n"),
    (
        "point 0 0 2 1 2 3\npoint 0 0 2 0 0 0.0001\r\n",
        "2 2 1638400000000000000000 3276800000000000000000 4915363840000000000000 0 0 0\n",
    ),
    (
        "point 0 0 1 1 1 1\npoint 0 0 1 1 1 1\n",
        "2 2 13107200000000000000000 13107200000000000000000 13107200000000000000000 0 0 0\n",
    ),
    (
        "point 1 0 1 1 1 1\npoint -1 0 -1 1 1 1\n",
        "2 2 2317000000000000000000 2317000000000000000000 2317000000000000000000 0 0 0\n",
    ),
    (
        "point 0 0 1e0 1 1 1",
        "1 1 6553600000000000000000 6553600000000000000000 6553600000000000000000 0 0 0\n",
    ),
    (
        "\u{FEFF}point 0 0 \\\n1 1 1 1\n",
        "1 1 6553600000000000000000 6553600000000000000000 6553600000000000000000 0 0 0\n",
    ),
    (
        "point 0 0 1.00005 1 1 1",
        "1 1 6552289470054400000000 6552289470054400000000 6552289470054400000000 0 0 0\n",
    ),
    (
        "sun 0 0 5 1 1 1",
        "1 1 6553600000000000000000 6553600000000000000000 6553600000000000000000 0 0 0\n",
    ),
    ("sun 0 0 -5 1 1 1", "1 1 0 0 0 0 0 0\n"),
    (
        "point 0 0 1 1 1 1\nsun 0 0 5 1 1 1",
        "2 2 13107200000000000000000 13107200000000000000000 13107200000000000000000 0 0 0\n",
    ),
    (
        "area 0 0 1 0 0.0001 0 0.0001 0 0 1 1 1 3",
        "3 3 6553600000000000000000 6553600000000000000000 6553600000000000000000 0 0 0\n",
    ),
    // An area that shines upwards gives nothing below.
    (
        "area 0 0 1 0.0001 0 0 0 0.0001 0 1 1 1 3",
        "1 1 0 0 0 0 0 0\n",
    ),
    (
        "sun 0 0 1 1 1 1\npoint 0 0 1 1 1 1\narea 0 0 1 0 0.0001 0 0.0001 0 0 1 1 1 1",
        "3 3 19660800000000000000000 19660800000000000000000 19660800000000000000000 0 0 0\n",
    ),
];

#[test]
fn answers_the_light_at_the_origin(rt: HostRuntime) -> Result<(), Fail> {
    for (lights, report) in ANSWERS {
        let case = Case {
            shows: lights,
            lights: &[*lights],
            report,
            ..PROBE
        };
        expect(&rt, &case)?;
    }
    Ok(())
}

/// So many lights that give nothing at the origin.
fn dark_lights(alloc: Global, count: u32) -> Result<String, Memory> {
    let mut text = String::new(alloc);
    for _ in 0..count {
        text.push_str("point 0 0 -1 1 1 1\n")?;
    }
    Ok(text)
}

#[test]
fn takes_many_lights(rt: HostRuntime) -> Result<(), Fail> {
    for (count, status, report, note) in [
        (1_000, 0, "1 1 0 0 0 0 0 0\n", ""),
        (1_001, 0, "1 1 0 0 0 0 0 0\n", ""),
        (65_536, 0, "1 1 0 0 0 0 0 0\n", ""),
        (65_537, 6, "", "l.txt: line 65537: kind 9\n"),
    ] {
        let lights = dark_lights(rt.alloc(), count)?;
        let mut desk = MemoryDesk::new(rt.alloc());
        desk.add("l.txt", lights.as_bytes())?;
        let case = Case {
            shows: "many lights",
            status,
            report,
            note,
            ..PROBE
        };
        expect_over(&rt, &mut desk, &case);
    }
    Ok(())
}

/// Texts of lights that are refused, each with the line on Note.
const FAULTY: &[(&str, &str)] = &[
    ("point 0 0 1.0000x 1 1 1", "l.txt: line 1: kind 2\n"),
    ("\n# x\nspot 0 0 1 1 1 1", "l.txt: line 3: kind 1\n"),
    ("point 0 0 1 1 1", "l.txt: line 1: kind 3\n"),
    ("point 6000 0 0 1 1 1", "l.txt: line 1: kind 4\n"),
    ("point 0 0 1 -1 1 1", "l.txt: line 1: kind 5\n"),
    ("sun 0 0 0 1 1 1", "l.txt: line 1: kind 6\n"),
    ("area 0 0 0 1 0 0 2 0 0 1 1 1 4", "l.txt: line 1: kind 7\n"),
    ("area 0 0 0 1 0 0 0 1 0 1 1 1 0", "l.txt: line 1: kind 8\n"),
];

#[test]
fn refuses_faulty_light_files(rt: HostRuntime) -> Result<(), Fail> {
    for (lights, note) in FAULTY {
        let case = Case {
            shows: lights,
            lights: &[*lights],
            status: 6,
            note,
            ..PROBE
        };
        expect(&rt, &case)?;
    }
    Ok(())
}

/// Words that are no command.
const NO_COMMANDS: &[&[&str]] = &[
    &[],
    &["plain"],
    &["--help"],
    &["probe", "l.txt", "0", "0", "0", "0", "0"],
    &["probe", "l.txt", "0", "0", "0", "0", "0", "1", "1"],
    &["Probe", "l.txt", "0", "0", "0", "0", "0", "1"],
    &["make"],
    &["make", "1", "2"],
    &["make", "10000"],
    &["make", "-1"],
    &["make", "+1"],
    &["make", "1.0"],
    &["make", "1x"],
    &["make", ""],
    &["make", " 1"],
    &["make", "18446744073709551616"],
];

#[test]
fn refuses_words_that_are_no_command(rt: HostRuntime) -> Result<(), Fail> {
    for words in NO_COMMANDS {
        let case = Case {
            shows: "words that are no command",
            words,
            status: 2,
            note: USAGE,
            ..PROBE
        };
        expect(&rt, &case)?;
    }
    Ok(())
}

/// Words for the first number of a place, each with the status.
const NUMBERS: &[(&str, u8)] = &[
    ("5000", 0),
    ("-5000.0000", 0),
    ("+0", 0),
    ("-0", 0),
    ("5000.0001", 2),
    ("-5000.0001", 2),
    ("1e0", 0),
    ("1.", 0),
    (".5", 0),
    ("0.00000", 0),
    ("0000000", 0),
    ("-5000.00004", 0),
    ("5000.00005", 2),
    ("1e41", 2),
    ("1e11", 2),
    ("nan", 2),
    ("0\\\n", 2),
    ("", 2),
    ("+", 2),
    (" 1", 2),
];

#[test]
fn reads_numbers_of_places(rt: HostRuntime) -> Result<(), Fail> {
    let mut desk = desk_of(rt.alloc(), &PROBE)?;
    for (number, status) in NUMBERS {
        let words = ["probe", "l.txt", *number, "0", "0", "0", "0", "1"];
        assert_eq!(rt; serve(rt.alloc(), &words, &mut desk), *status, "{number}");
    }
    Ok(())
}

const REFUSED_OUTSIDE: &[Case] = &[
    Case {
        shows: "a file that is absent",
        lights: &[],
        status: 7,
        note: "l.txt: absent\n",
        ..PROBE
    },
    Case {
        shows: "a read that fails",
        failing: &[(1, 0)],
        status: 8,
        note: "l.txt: read fault\n",
        ..PROBE
    },
    Case {
        shows: "a put on Report that fails",
        failing: &[(2, 3)],
        status: 9,
        report: "1 1",
        note: "report: write fault\n",
        ..PROBE
    },
    Case {
        shows: "a read and a put on Note that fail",
        failing: &[(1, 3), (2, 3)],
        status: 8,
        note: "l.t",
        ..PROBE
    },
];

#[test]
fn tells_what_the_outside_refused(rt: HostRuntime) -> Result<(), Fail> {
    expect_all(&rt, REFUSED_OUTSIDE)
}
