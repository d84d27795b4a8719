// Runs over a desk in memory.
ghost use Rattle.std.specs.Prelude.{◌≡◌, ◌<◌};

use lc_desk::{MemoryDesk, Slot};
use lc_num::{Memory, Steps};
use lc_tool::run;
use std::alloc::{AllocGlobal, Global};
use std::marker::Brand;
use std::process::Abort;
use std::sync::ledger::{Blank, Ledger};
use std::test::Fail;

pub(crate) const USAGE: &str =
    "usage: lightcuts probe LIGHTS X Y Z NX NY NZ | render JOB | plain JOB | audit JOB STEP | make N\n";

fn count<L: Ledger>(alloc: Global, words: &[&str], desk: &mut MemoryDesk, blank: Blank) -> u8
    requires name { blank.name ≡ L.name }
    requires parts { blank.parts ≡ L.parts }
    requires some { 0 < blank.parts }
{
    run(alloc, words, desk, &mut Steps::<L>::start(blank))
}

pub(crate) fn serve(alloc: Global, words: &[&str], desk: &mut MemoryDesk) -> u8 {
    count::<Brand>(alloc, words, desk, Blank::new(1))
}

/// A run over a desk in memory, and what it is to leave.
#[derive(Clone, Copy)]
pub(crate) struct Case<'a> {
    /// What the case shows, which stands in the message where it fails.
    pub shows: &'a str,
    pub words: &'a [&'a str],
    /// The pieces of `j.txt`, `s.obj` and `l.txt`. With no piece there is no such file.
    pub job: &'a [&'a str],
    pub scene: &'a [&'a str],
    pub lights: &'a [&'a str],
    /// Further files, each by its name and its pieces.
    pub others: &'a [(&'a str, &'a [&'a str])],
    /// The calls that fail, and how many bytes of its piece each still takes.
    pub failing: &'a [(u64, u64)],
    pub status: u8,
    pub picture: &'a [u8],
    pub bounds: &'a str,
    pub report: &'a str,
    pub note: &'a str,
}

/// No word, no file and no call that fails, and a run that is done and leaves each slot empty.
pub(crate) const NOTHING: Case = Case {
    shows: "",
    words: &[],
    job: &[],
    scene: &[],
    lights: &[],
    others: &[],
    failing: &[],
    status: 0,
    picture: b"",
    bounds: "",
    report: "",
    note: "",
};

/// Adds a file of these pieces, if there are any.
fn add(alloc: Global, desk: &mut MemoryDesk, name: &str, pieces: &[&str]) -> Result<(), Memory> {
    if pieces.is_empty() {
        return Ok(());
    }
    let mut text = String::new(alloc);
    for piece in pieces {
        text.push_str(piece)?;
    }
    desk.add(name, text.as_bytes())
}

fn add_others(alloc: Global, desk: &mut MemoryDesk, case: &Case) -> Result<(), Memory> {
    for (name, pieces) in case.others {
        add(alloc, desk, name, pieces)?;
    }
    Ok(())
}

/// The desk of a case, before its run.
pub(crate) fn desk_of(alloc: Global, case: &Case) -> Result<MemoryDesk, Memory> {
    let mut desk = MemoryDesk::new(alloc);
    add(alloc, &mut desk, "j.txt", case.job)?;
    add(alloc, &mut desk, "s.obj", case.scene)?;
    add(alloc, &mut desk, "l.txt", case.lights)?;
    add_others(alloc, &mut desk, case)?;
    for (call, taken) in case.failing {
        desk.fail(*call, *taken)?;
    }
    Ok(desk)
}

/// A slot holds this.
fn expect_told(rt: &impl Abort, desk: &MemoryDesk, slot: Slot, bytes: &[u8], shows: &str) {
    assert_eq!(rt; desk.told(slot), bytes, "{shows}");
}

/// A run of the case's words over this desk leaves what it is to leave.
pub(crate) fn expect_over(rt: &(impl Abort + AllocGlobal), desk: &mut MemoryDesk, case: &Case) {
    let shows = case.shows;
    assert_eq!(rt; serve(rt.alloc(), case.words, desk), case.status, "{shows}");
    expect_told(rt, desk, Slot::Picture, case.picture, shows);
    expect_told(rt, desk, Slot::Bounds, case.bounds.as_bytes(), shows);
    expect_told(rt, desk, Slot::Report, case.report.as_bytes(), shows);
    expect_told(rt, desk, Slot::Note, case.note.as_bytes(), shows);
}

pub(crate) fn expect(rt: &(impl Abort + AllocGlobal), case: &Case) -> Result<(), Fail> {
    let mut desk = desk_of(rt.alloc(), case)?;
    expect_over(rt, &mut desk, case);
    Ok(())
}

pub(crate) fn expect_all(rt: &(impl Abort + AllocGlobal), cases: &[Case]) -> Result<(), Fail> {
    for case in cases {
        expect(rt, case)?;
    }
    Ok(())
}
