// Runs over a desk in memory.
use crate::run;
use lc_desk::{MemoryDesk, Slot};
use lc_num::Memory;
use std::alloc::{AllocGlobal, Global};
use std::process::Abort;
use std::test::Fail;

const USAGE: &str = "usage: boundmap RECORD PICTURE bound|size|missed\n";

/// A run over a desk in memory, and what it is to leave.
#[derive(Clone, Copy)]
struct Case<'a> {
    /// What the case shows, which stands in the message where it fails.
    shows: &'a str,
    words: &'a [&'a str],
    /// The text of `r.lcb`. With none there is no such file.
    text: &'a str,
    /// The calls that fail, each of which still takes two bytes of its piece.
    failing: &'a [u64],
    status: u8,
    picture: &'a [u8],
    note: &'a str,
}

/// Two rows of two pixels, of one sample each.
const FOUR: &str =
    "LCB 1 2 2 1 10 20\n10 10 1000 7 7 1 0 0\n5 5 7 1000 7 0 1000 0\n1 1 0 0 0 0 0 1\n0 0 0 0 0 0 0 0\n";

/// One pixel of four samples.
const ONE: &str =
    "LCB 2 1 1 2 4 20\n4 4 1000 1000 1000 20 20 20\n3 3 1000 1000 1000 0 21 0\n0 0 0 0 0 0 0 0\n1 1 1000 1000 1000 1 2 3\n";

const BOUND: &[&str] = &["r.lcb", "m.ppm", "bound"];

/// A map of the bounds of four pixels.
const MAP: Case = Case {
    shows: "bounds of 1 and of 1000 thousandths, one of no light, and none",
    words: BOUND,
    text: FOUR,
    failing: &[],
    status: 0,
    picture: b"P6\n2 2\n255\n\x10\x10\x10\xAF\xAF\xAF\xFF\xFF\xFF\0\0\0",
    note: "",
};

const MAPS: &[Case] = &[
    MAP,
    Case {
        shows: "sizes of four pixels",
        words: &["r.lcb", "m.ppm", "size"],
        picture: b"P6\n2 2\n255\n\xFF\xFF\xFF\x7F\x7F\x7F\x19\x19\x19\0\0\0",
        ..MAP
    },
    Case {
        shows: "pixels that miss the permille",
        words: &["r.lcb", "m.ppm", "missed"],
        picture: b"P6\n2 2\n255\n\0\0\0\xFF\xFF\xFF\xFF\xFF\xFF\0\0\0",
        ..MAP
    },
    Case {
        shows: "the greatest bound of four samples, of 21 thousandths",
        text: ONE,
        picture: b"P6\n1 1\n255\n\x55\x55\x55",
        ..MAP
    },
    Case {
        shows: "the mean size of four samples",
        words: &["r.lcb", "m.ppm", "size"],
        text: ONE,
        picture: b"P6\n1 1\n255\n\x7F\x7F\x7F",
        ..MAP
    },
    Case {
        shows: "one of four samples that misses the permille",
        words: &["r.lcb", "m.ppm", "missed"],
        text: ONE,
        picture: b"P6\n1 1\n255\n\x3F\x3F\x3F",
        ..MAP
    },
];

const REFUSED: Case = Case {
    picture: b"",
    status: 2,
    note: USAGE,
    ..MAP
};

const REFUSALS: &[Case] = &[
    Case {
        shows: "no words",
        words: &[],
        ..REFUSED
    },
    Case {
        shows: "one word too many",
        words: &["r.lcb", "m.ppm", "bound", "size"],
        ..REFUSED
    },
    Case {
        shows: "another kind",
        words: &["r.lcb", "m.ppm", "bounds"],
        ..REFUSED
    },
    Case {
        shows: "a picture in the place of the record",
        words: &["r.lcb", "r.lcb", "bound"],
        ..REFUSED
    },
    Case {
        shows: "no record",
        text: "",
        status: 7,
        note: "r.lcb: absent\n",
        ..REFUSED
    },
    Case {
        shows: "a record with a line too few",
        text: "LCB 1 2 1 1 10 20\n0 0 0 0 0 0 0 0\n",
        status: 12,
        note: "r.lcb: line 3: kind 3\n",
        ..REFUSED
    },
];

const STOPS: &[Case] = &[
    Case {
        shows: "a read that fails",
        failing: &[1],
        status: 8,
        note: "r.lcb: read fault\n",
        ..REFUSED
    },
    Case {
        shows: "a begin that fails",
        failing: &[2],
        status: 9,
        note: "picture: write fault\n",
        ..REFUSED
    },
    Case {
        shows: "a row that is put in part",
        failing: &[4],
        status: 9,
        picture: b"P6\n2 2\n255\n\x10\x10",
        note: "picture: write fault\n",
        ..REFUSED
    },
    Case {
        shows: "a row that is put in part, and a line that is",
        failing: &[5, 6],
        status: 9,
        picture: b"P6\n2 2\n255\n\x10\x10\x10\xAF\xAF\xAF\xFF\xFF",
        note: "pi",
        ..REFUSED
    },
];

/// The desk of a case, before its run.
fn desk_of(alloc: Global, case: &Case) -> Result<MemoryDesk, Memory> {
    let mut desk = MemoryDesk::new(alloc);
    if !case.text.is_empty() {
        desk.add("r.lcb", case.text.as_bytes())?;
    }
    for call in case.failing {
        desk.fail(*call, 2)?;
    }
    Ok(desk)
}

fn expect(rt: &(impl Abort + AllocGlobal), case: &Case) -> Result<(), Fail> {
    let mut desk = desk_of(rt.alloc(), case)?;
    let shows = case.shows;
    let status = run(rt.alloc(), case.words, &mut desk);
    assert_eq!(rt; status.code(), case.status, "{shows}");
    assert_eq!(rt; desk.told(Slot::Picture), case.picture, "{shows}");
    assert_eq!(rt; desk.told(Slot::Note), case.note.as_bytes(), "{shows}");
    Ok(())
}

fn expect_all(rt: &(impl Abort + AllocGlobal), cases: &[Case]) -> Result<(), Fail> {
    for case in cases {
        expect(rt, case)?;
    }
    Ok(())
}

#[test]
fn maps_each_kind(rt: HostRuntime) -> Result<(), Fail> {
    expect_all(&rt, MAPS)
}

#[test]
fn refuses_words_and_records(rt: HostRuntime) -> Result<(), Fail> {
    expect_all(&rt, REFUSALS)
}

#[test]
fn stops_where_a_call_fails(rt: HostRuntime) -> Result<(), Fail> {
    expect_all(&rt, STOPS)
}
