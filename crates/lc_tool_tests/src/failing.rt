// One failing call at each place of a render and of an audit.
use crate::cases::{Case, expect, expect_all};
use crate::renders::{NAMES, REFUSED};
use std::alloc::AllocGlobal;
use std::process::Abort;
use std::test::Fail;

const PICTURE: &[u8] = b"P6\n1 3\n255\n\0\0\0\xE4\xE4\xE4\0\0\0";

const RECORD: &str =
    "LCB 1 1 3 1 1000 20\n0 0 0 0 0 0 0 0\n1 1 5242880000000000000000 5242880000000000000000 5242880000000000000000 0 0 0\n0 0 0 0 0 0 0 0\n";

/// A render of a triangle in the middle of three pixels.
const RENDER: Case = Case {
    job: &[NAMES, "eye 0 0 5\nat 0 0 0\nsize 1 3\n"],
    ..REFUSED
};

/// The call that fails, the status, the line on Note, and the bytes in Picture and in Bounds, the first ones of what they
/// are to hold. A put that fails takes two bytes of its piece.
const STOPS: &[(u64, u8, &str, usize, usize)] = &[
    (1, 8, "j.txt: read fault\n", 0, 0),
    (2, 8, "s.obj: read fault\n", 0, 0),
    (3, 8, "l.txt: read fault\n", 0, 0),
    (4, 9, "picture: write fault\n", 0, 0),
    (5, 9, "picture: write fault\n", 2, 0),
    (6, 9, "bounds: write fault\n", 11, 0),
    (7, 9, "bounds: write fault\n", 11, 2),
    (8, 9, "bounds: write fault\n", 11, 22),
    (9, 9, "picture: write fault\n", 13, 36),
    (10, 9, "bounds: write fault\n", 14, 38),
    (11, 9, "picture: write fault\n", 16, 115),
    (12, 9, "bounds: write fault\n", 17, 117),
    (13, 9, "picture: write fault\n", 19, 131),
    (14, 0, "", 20, 131),
];

/// What a render leaves where these calls fail.
fn expect_parts<'a>(
    rt: &(impl Abort + AllocGlobal),
    failing: &'a [(u64, u64)],
    note: &'a str,
    stop: &'a (u64, u8, &'a str, usize, usize),
) -> Result<(), Fail> {
    let (_, status, shows, picture, record) = stop;
    let case = Case {
        shows,
        failing,
        status: *status,
        picture: PICTURE.get(..*picture).ok_or("a part of the picture")?,
        bounds: RECORD.get(..*record).ok_or("a part of the record")?,
        note,
        ..RENDER
    };
    expect(rt, &case)
}

#[test]
fn stops_at_each_call(rt: HostRuntime) -> Result<(), Fail> {
    for stop in STOPS {
        expect_parts(&rt, &[(stop.0, 2)], stop.2, stop)?;
    }
    Ok(())
}

/// Where the put on Note fails as well, the status and the files are the same, and Note has the first two bytes of the line.
#[test]
fn stops_at_each_call_and_at_the_next(rt: HostRuntime) -> Result<(), Fail> {
    for stop in STOPS {
        if stop.1 != 0 {
            let note = stop.2.get(..2).ok_or("a part of the line")?;
            expect_parts(
                &rt,
                &[(stop.0, 2), (stop.0.saturating_add(1), 2)],
                note,
                stop,
            )?;
        }
    }
    Ok(())
}

const READ_FAULT: Case = Case {
    status: 8,
    ..RENDER
};

const WRITE_FAULT: Case = Case {
    status: 9,
    ..RENDER
};

const PIECES: &[Case] = &[
    Case {
        shows: "the first piece of a read fault, which is taken whole, though its put fails, and nothing after it",
        failing: &[(1, 100), (2, 100)],
        note: "j.txt",
        ..READ_FAULT
    },
    Case {
        shows: "the second piece of a read fault, which is taken whole, though its put fails",
        failing: &[(1, 100), (3, 100)],
        note: "j.txt: read fault\n",
        ..READ_FAULT
    },
    Case {
        shows: "the first piece of a write fault, which is taken whole, though its put fails, and nothing after it",
        failing: &[(4, 100), (5, 100)],
        note: "picture:",
        ..WRITE_FAULT
    },
    Case {
        shows: "the second piece of a write fault, which is taken whole, though its put fails",
        failing: &[(4, 100), (6, 100)],
        note: "picture: write fault\n",
        ..WRITE_FAULT
    },
    Case {
        shows: "the first piece of a read fault, of whose room there is much",
        failing: &[(1, 1000), (2, 1000)],
        note: "j.txt",
        ..READ_FAULT
    },
    Case {
        shows: "the second piece of a read fault, of whose room there is much",
        failing: &[(1, 1000), (3, 1000)],
        note: "j.txt: read fault\n",
        ..READ_FAULT
    },
    Case {
        shows: "the first piece of a write fault, of whose room there is much",
        failing: &[(4, 1000), (5, 1000)],
        note: "picture:",
        ..WRITE_FAULT
    },
    Case {
        shows: "the second piece of a write fault, of whose room there is much",
        failing: &[(4, 1000), (6, 1000)],
        note: "picture: write fault\n",
        ..WRITE_FAULT
    },
];

/// The line on Note comes in two pieces: the first up to the file's name, or up to the first blank, and then the rest.
#[test]
fn puts_a_line_on_note_in_two_pieces(rt: HostRuntime) -> Result<(), Fail> {
    expect_all(&rt, PIECES)
}

/// An audit of the record of that render.
const AUDIT: Case = Case {
    words: &["audit", "j.txt", "1"],
    others: &[("b.lcb", &[RECORD])],
    ..RENDER
};

/// The call of an audit that fails, the status, the line on Note, and the bytes in Report.
const AUDIT_STOPS: &[(u64, u8, &str, usize)] = &[
    (1, 8, "j.txt: read fault\n", 0),
    (2, 8, "s.obj: read fault\n", 0),
    (3, 8, "l.txt: read fault\n", 0),
    (4, 8, "b.lcb: read fault\n", 0),
    (5, 9, "report: write fault\n", 2),
    (6, 0, "", 12),
];

/// What an audit leaves where these calls fail. Picture and Bounds hold nothing.
fn expect_report<'a>(
    rt: &(impl Abort + AllocGlobal),
    failing: &'a [(u64, u64)],
    note: &'a str,
    stop: &'a (u64, u8, &'a str, usize),
) -> Result<(), Fail> {
    let (_, status, shows, report) = stop;
    let case = Case {
        shows,
        failing,
        status: *status,
        report: "audit yes 3\n"
            .get(..*report)
            .ok_or("a part of the report")?,
        note,
        ..AUDIT
    };
    expect(rt, &case)
}

#[test]
fn stops_an_audit_at_each_call(rt: HostRuntime) -> Result<(), Fail> {
    for stop in AUDIT_STOPS {
        expect_report(&rt, &[(stop.0, 2)], stop.2, stop)?;
    }
    Ok(())
}

/// Where the put on Note fails as well, the status and Report are the same, and Note has the first two bytes of the line.
#[test]
fn stops_an_audit_at_each_call_and_at_the_next(rt: HostRuntime) -> Result<(), Fail> {
    for stop in AUDIT_STOPS {
        if stop.1 != 0 {
            let note = stop.2.get(..2).ok_or("a part of the line")?;
            expect_report(
                &rt,
                &[(stop.0, 2), (stop.0.saturating_add(1), 2)],
                note,
                stop,
            )?;
        }
    }
    Ok(())
}
