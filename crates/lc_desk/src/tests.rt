// Both desks, call by call.
ghost use Rattle.std.specs.Prelude.{OnOk, IsTrue};

use crate::streams::{read_within, write_piece};
use crate::{Desk, HostDesk, MemoryDesk, PutStop, ReadStop, Slot};
use lc_num::Memory;
use made_up::{Plan, SOUND, Stream, Tape};
use std::alloc::Global;
use std::fs;
use std::process::Abort;
use std::test::Fail;

mod made_up;
mod system;

// The calls of a desk without what they promise, so that a test is proved without what it compares.

fn read<D: Desk>(
    desk: &mut D,
    name: &str,
    limit: u64,
    bytes: &mut Vec<u8>,
) -> Result<(), ReadStop> {
    desk.read(name, limit, bytes)
}

fn begin<D: Desk>(desk: &mut D, slot: Slot, name: &str) -> Result<(), PutStop> {
    desk.begin(slot, name)
}

fn report<D: Desk>(desk: &mut D, piece: &[u8]) -> Result<(), PutStop> {
    desk.put(Slot::Report, piece)
}

fn note<D: Desk>(desk: &mut D, piece: &[u8]) -> Result<(), PutStop> {
    desk.put(Slot::Note, piece)
}

// Begins the picture, and puts a piece.
fn write_picture<D: Desk>(desk: &mut D, name: &str, piece: &[u8]) -> Result<(), PutStop>
    ensures open { OnOk result (IsTrue (D.state desk.new).slots.picture.begun) }
{
    desk.begin(Slot::Picture, name)?;
    desk.put(Slot::Picture, piece)
}

// Goes on with a picture that was begun: puts a piece, is refused another name, and puts a piece.
fn go_on<D: Desk>(desk: &mut D, pieces: [&[u8]; 2], name: &str) -> [Result<(), PutStop>; 3]
    requires { IsTrue (D.state desk.old).slots.picture.begun }
{
    let first = desk.put(Slot::Picture, pieces[0]);
    let refused = desk.begin(Slot::Picture, name);
    let second = desk.put(Slot::Picture, pieces[1]);
    [first, refused, second]
}

// Begins the record, and puts a piece where that went well.
fn write_bounds<D: Desk>(desk: &mut D, name: &str, piece: &[u8]) -> (Result<(), PutStop>, bool) {
    match desk.begin(Slot::Bounds, name) {
        Ok(()) => (desk.put(Slot::Bounds, piece), true),
        Err(stop) => (Err(stop), false),
    }
}

#[test]
fn reads_from_memory(rt: HostRuntime) -> Result<(), Fail> {
    let mut desk = MemoryDesk::new(rt.alloc());
    desk.add("scene.obj", b"old")?;
    desk.add("scene.obj", b"v 0 0 0\n")?;
    let rows: [(&str, u64, Result<(), ReadStop>, &[u8]); 3] = [
        ("scene.obj", 8, Ok(()), b"v 0 0 0\n"),
        ("scene.obj", 7, Err(ReadStop::Long), b""),
        ("scene.mtl", 8, Err(ReadStop::Absent), b""),
    ];
    let mut bytes = Vec::new(rt.alloc());
    for (name, limit, answer, left) in rows {
        assert_eq!(rt; read(&mut desk, name, limit, &mut bytes), answer);
        assert_eq!(rt; bytes.as_slice(), left);
    }
    Ok(())
}

#[test]
fn writes_to_memory(rt: HostRuntime) {
    let mut desk = MemoryDesk::new(rt.alloc());
    assert_eq!(rt; write_picture(&mut desk, "a.ppm", b"P6 "), Ok(()));
    assert_eq!(rt; report(&mut desk, b"done\n"), Ok(()));
    assert_eq!(rt; desk.told(Slot::Picture), b"P6 ".as_slice());
    assert_eq!(rt; desk.told(Slot::Report), b"done\n".as_slice());
    assert_eq!(rt; begin(&mut desk, Slot::Picture, "b.ppm"), Ok(()));
    assert_eq!(rt; desk.told(Slot::Picture), b"".as_slice());
}

// What Note holds after a read and two puts of a line, with these calls to fail.
fn note_after(alloc: Global, failing: &[(u64, u64)]) -> Result<MemoryDesk, Memory> {
    let mut desk = MemoryDesk::new(alloc);
    for (call, taken) in failing {
        desk.fail(*call, *taken)?;
    }
    let mut bytes = Vec::new(alloc);
    let _ = read(&mut desk, "scene.obj", 8, &mut bytes);
    let _ = note(&mut desk, b"scene.obj");
    let _ = note(&mut desk, b"!");
    Ok(desk)
}

#[test]
fn fails_as_it_was_told(rt: HostRuntime) -> Result<(), Fail> {
    let rows: [(&[(u64, u64)], &[u8]); 6] = [
        (&[], b"scene.obj!"),
        (&[(2, 3)], b"sce!"),
        (&[(2, 3), (2, 5)], b"sce!"),
        (&[(3, 100)], b"scene.obj!"),
        (&[(1, 3), (3, 0)], b"scene.obj"),
        (&[(0, 0), (4, 0)], b"scene.obj!"),
    ];
    for (failing, note) in rows {
        let desk = note_after(rt.alloc(), failing)?;
        assert_eq!(rt; desk.told(Slot::Note), note, "with {failing:?}");
    }
    Ok(())
}

#[test]
fn tells_that_a_call_failed(rt: HostRuntime) -> Result<(), Fail> {
    let mut desk = MemoryDesk::new(rt.alloc());
    for call in 1..4 {
        desk.fail(call, 1)?;
    }
    let mut bytes = Vec::new(rt.alloc());
    let answer = read(&mut desk, "scene.obj", 8, &mut bytes);
    assert_eq!(rt; answer, Err(ReadStop::Failed));
    let begun = begin(&mut desk, Slot::Bounds, "a.txt");
    assert_eq!(rt; begun, Err(PutStop::Failed));
    assert_eq!(rt; report(&mut desk, b"done\n"), Err(PutStop::Failed));
    assert_eq!(rt; desk.told(Slot::Report), b"d".as_slice());
    Ok(())
}

// Reads one file, and looks for what is not to be read.
fn read_files<D: Desk>(rt: &(impl Abort + AllocGlobal), desk: &mut D) {
    let rows: [(&str, u64, Result<(), ReadStop>, &[u8]); 5] = [
        ("desk_scene.obj", 8, Ok(()), b"v 0 0 0\n"),
        ("desk_scene.obj", 7, Err(ReadStop::Long), b""),
        ("desk_absent.obj", 8, Err(ReadStop::Absent), b""),
        ("desk_folder", 8, Err(ReadStop::Failed), b""),
        ("/dev/zero", 100_000, Err(ReadStop::Long), b""),
    ];
    let mut bytes = Vec::new(rt.alloc());
    for (name, limit, answer, left) in rows {
        assert_eq!(rt; read(desk, name, limit, &mut bytes), answer);
        assert_eq!(rt; bytes.as_slice(), left);
    }
}

// Writes a picture over a longer one, and to what takes nothing.
fn write_files<D: Desk>(rt: &impl Abort, desk: &mut D) {
    let name = "desk_picture.ppm";
    assert_eq!(rt; write_picture(desk, name, b"P6 100 100"), Ok(()));
    assert_eq!(rt; write_picture(desk, name, b"P6 "), Ok(()));
    let answers = go_on(desk, [b"1 1", b"\n"], "desk_folder");
    assert_eq!(rt; answers, [Ok(()), Err(PutStop::Failed), Ok(())]);
    let bounds = write_bounds(desk, "/dev/full", b"1 1");
    assert_eq!(rt; bounds, (Err(PutStop::Failed), true));
    let line = b"desk_scene.obj: a test of standard error\n";
    assert_eq!(rt; note(desk, line), Ok(()));
}

#[test]
fn meets_the_system(rt: HostRuntime) -> Result<(), Fail> {
    fs::write(&rt, "desk_scene.obj", b"v 0 0 0\n")?;
    fs::create_dir(&rt, "desk_folder")?;
    let errors = rt.stderr();
    let mut desk = HostDesk::new(&rt, &errors);
    read_files(&rt, &mut desk);
    write_files(&rt, &mut desk);
    let picture = fs::read(&rt, "desk_picture.ppm")?;
    assert_eq!(rt; picture.as_slice(), b"P6 1 1\n".as_slice());
    let tally = &desk.tally;
    let counts = [tally.reads, tally.absents, tally.longs, tally.shorts];
    assert_eq!(rt; counts, [1, 1, 2, 0]);
    let faults = [
        tally.slots.picture.faults,
        tally.slots.bounds.faults,
        tally.slots.report.faults,
        tally.slots.note.faults,
    ];
    assert_eq!(rt; faults, [1, 1, 0, 0]);
    fs::remove_file(&rt, "desk_scene.obj")?;
    fs::remove_file(&rt, "desk_picture.ppm")?;
    fs::remove_dir(&rt, "desk_folder")?;
    Ok(())
}

// A read within so many bytes and a write, of streams of eight bytes, of which each is moved only after a signal.
#[test]
fn goes_on_after_signals(rt: HostRuntime) {
    let tape = Tape::new(rt.alloc());
    let plan = Plan {
        halts: true,
        ..SOUND
    };
    let rows: [(u64, Result<(), ReadStop>); 2] = [(8, Ok(())), (7, Err(ReadStop::Long))];
    for (limit, answer) in rows {
        let mut bytes = Vec::new(rt.alloc());
        let mut from = Stream::new(&tape, plan, b"");
        assert_eq!(rt; read_within(&mut from, limit, &mut bytes), answer);
        if answer.is_ok() {
            assert_eq!(rt; bytes.as_slice(), b"xxxxxxxx".as_slice());
        }
    }
    let rows: [(&[u8], Result<(), PutStop>); 2] = [
        (b"P6 1 1 2", Ok(())),
        (b"P6 1 1 25", Err(PutStop::Failed)),
    ];
    for (piece, answer) in rows {
        let mut to = Stream::new(&tape, plan, b"");
        assert_eq!(rt; write_piece(&mut to, piece), answer);
    }
}
