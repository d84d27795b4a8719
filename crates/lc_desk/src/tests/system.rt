// The desk of the system over a system that answers as a test says.
use super::made_up::{Plan, SOUND, System, Tape};
use super::{begin, note, read, report, write_picture};
use crate::{HostDesk, PutStop, ReadStop, Slot};
use std::alloc::Global;
use std::io::ErrorKind;
use std::rt::Files;
use std::test::Fail;

// What a read of at most eight bytes answers, how many bytes it leaves, and the four counts after it.
type Reading = (Result<(), ReadStop>, usize, [u64; 4]);

fn read_over<R: Files + Print>(alloc: Global, system: &R) -> Reading {
    let mut desk = HostDesk::new(system, system);
    let mut bytes = Vec::new(alloc);
    let answer = read(&mut desk, "scene.obj", 8, &mut bytes);
    let tally = &desk.tally;
    let counts = [tally.reads, tally.absents, tally.longs, tally.shorts];
    (answer, bytes.len(), counts)
}

fn read_under(alloc: Global, plan: Plan) -> Reading {
    let files = Tape::new(alloc);
    let output = Tape::new(alloc);
    read_over(alloc, &System::new(&files, &output, plan))
}

#[test]
fn tells_why_a_file_is_not_read(rt: HostRuntime) {
    let sound = SOUND;
    let kinds = [
        ErrorKind::PermissionDenied,
        ErrorKind::OutOfMemory,
        ErrorKind::InvalidFilename,
    ];
    let failed: Reading = (Err(ReadStop::Failed), 0, [1, 0, 0, 0]);
    for kind in kinds {
        let plans = [
            Plan {
                open: Some(kind),
                ..sound
            },
            Plan {
                look: Some(kind),
                ..sound
            },
            Plan {
                moves: 3,
                end: Some(kind),
                ..sound
            },
        ];
        for plan in plans {
            assert_eq!(rt; read_under(rt.alloc(), plan), failed);
        }
    }
    let missing = Plan {
        open: Some(ErrorKind::NotFound),
        ..sound
    };
    let absent: Reading = (Err(ReadStop::Absent), 0, [0, 1, 0, 0]);
    assert_eq!(rt; read_under(rt.alloc(), missing), absent);
}

#[test]
fn measures_a_file_twice(rt: HostRuntime) {
    let long: Reading = (Err(ReadStop::Long), 0, [0, 0, 1, 0]);
    let whole: Reading = (Ok(()), 8, [0, 0, 0, 0]);
    // The length that the look tells, and the bytes that come.
    let rows = [
        (Some(8), 8, whole),
        (Some(9), 8, long),
        (Some(9), 0, long),
        (Some(0), 8, whole),
        (Some(8), 9, long),
        (None, 8, whole),
        (None, 9, long),
    ];
    for (length, moves, wanted) in rows {
        let plan = Plan {
            length,
            moves,
            ..SOUND
        };
        assert_eq!(rt; read_under(rt.alloc(), plan), wanted);
    }
}

// What a begin and a put of nine bytes answer, and the counts of the picture's faults and of wants of memory.
type Writing = (Result<(), PutStop>, u64, u64);

fn write_over<R: Files + Print>(system: &R) -> Writing {
    let mut desk = HostDesk::new(system, system);
    let answer = write_picture(&mut desk, "a.ppm", b"P6 1 1 25");
    (answer, desk.tally.slots.picture.faults, desk.tally.shorts)
}

fn write_under(files: &Tape, alloc: Global, plan: Plan) -> Writing {
    let output = Tape::new(alloc);
    write_over(&System::new(files, &output, plan))
}

#[test]
fn tells_why_a_file_is_not_written(rt: HostRuntime) {
    let files = Tape::new(rt.alloc());
    let sound = SOUND;
    let rows: [(ErrorKind, Writing); 3] = [
        (ErrorKind::NotFound, (Err(PutStop::Failed), 1, 0)),
        (ErrorKind::StorageFull, (Err(PutStop::Failed), 1, 0)),
        (ErrorKind::OutOfMemory, (Err(PutStop::Memory), 0, 1)),
    ];
    for (kind, wanted) in rows {
        let plans: [(Plan, &[u8]); 3] = [
            (
                Plan {
                    open: Some(kind),
                    ..sound
                },
                b">a.ppm>",
            ),
            (
                Plan {
                    clone: Some(kind),
                    ..sound
                },
                b">a.ppm>",
            ),
            (
                Plan {
                    moves: 3,
                    end: Some(kind),
                    ..sound
                },
                b">a.ppm>P6 ",
            ),
        ];
        for (plan, left) in plans {
            assert_eq!(rt; write_under(&files, rt.alloc(), plan), wanted);
            assert_eq!(rt; files.take(rt.alloc()).as_slice(), left);
        }
    }
}

#[test]
fn writes_a_file_whole_or_fails(rt: HostRuntime) {
    let files = Tape::new(rt.alloc());
    // The bytes that the file takes.
    let rows: [(u64, Writing, &[u8]); 2] = [
        (8, (Err(PutStop::Failed), 1, 0), b">a.ppm>P6 1 1 2"),
        (9, (Ok(()), 0, 0), b">a.ppm>P6 1 1 25"),
    ];
    for (moves, wanted, left) in rows {
        let plan = Plan { moves, ..SOUND };
        assert_eq!(rt; write_under(&files, rt.alloc(), plan), wanted);
        assert_eq!(rt; files.take(rt.alloc()).as_slice(), left);
    }
}

// Names a file to be read and each slot to be begun, up to a refusal.
fn pass_on<R: Files + Print>(
    desk: &mut HostDesk<'_, R, R>,
    name: &str,
    bytes: &mut Vec<u8>,
) -> bool {
    read(desk, name, 8, bytes).is_ok()
        && begin(desk, Slot::Picture, name).is_ok()
        && begin(desk, Slot::Bounds, name).is_ok()
        && begin(desk, Slot::Report, name).is_ok()
        && begin(desk, Slot::Note, name).is_ok()
}

#[test]
fn passes_names_on_whole(rt: HostRuntime) -> Result<(), Fail> {
    let files = Tape::new(rt.alloc());
    let output = Tape::new(rt.alloc());
    let system = System::new(&files, &output, SOUND);
    let mut desk = HostDesk::new(&system, &system);
    let mut bytes = Vec::new(rt.alloc());
    for length in [0, 1, 255, 256, 300, 5000] {
        let mut name = String::new(rt.alloc());
        for _ in 0..length {
            name.push('n')?;
        }
        assert!(rt; pass_on(&mut desk, &name, &mut bytes));
        let wanted = format!(in rt.alloc(); "<{name}>>{name}>>{name}>")?;
        assert_eq!(rt; files.take(rt.alloc()).as_slice(), wanted.as_bytes());
    }
    Ok(())
}

fn report_over<R: Files + Print, E: Print>(
    desk: &mut HostDesk<'_, R, E>,
    piece: &[u8],
) -> Result<(), PutStop> {
    report(desk, piece)
}

fn note_over<R: Files + Print, E: Print>(
    desk: &mut HostDesk<'_, R, E>,
    piece: &[u8],
) -> Result<(), PutStop> {
    note(desk, piece)
}

#[test]
fn prints_each_stream_on_its_own(rt: HostRuntime) {
    let files = Tape::new(rt.alloc());
    let output = Tape::new(rt.alloc());
    let errors = Tape::new(rt.alloc());
    let system = System::new(&files, &output, SOUND);
    let slow = Plan {
        moves: 4,
        end: Some(ErrorKind::BrokenPipe),
        pace: 2,
        ..SOUND
    };
    let slow = System::new(&files, &errors, slow);
    let mut desk = HostDesk::new(&system, &slow);
    assert_eq!(rt; report_over(&mut desk, b"1 1 0\n"), Ok(()));
    assert_eq!(rt; note_over(&mut desk, b"a.txt"), Ok(()));
    assert_eq!(rt; report_over(&mut desk, b"2\n"), Ok(()));
    assert_eq!(rt; note_over(&mut desk, b": absent\n"), Err(PutStop::Failed));
    assert_eq!(rt;
        output.take(rt.alloc()).as_slice(),
        b"1 1 0\n2\n".as_slice()
    );
    assert_eq!(rt; errors.take(rt.alloc()).as_slice(), b"a.txt: ".as_slice());
    assert_eq!(rt; files.take(rt.alloc()).len(), 0);
    assert_eq!(rt;
        (desk.tally.slots.report.faults, desk.tally.slots.note.faults),
        (0, 1)
    );
}

#[test]
fn wants_memory_to_print(rt: HostRuntime) {
    let errors = Tape::new(rt.alloc());
    let full = Plan {
        moves: 1,
        end: Some(ErrorKind::OutOfMemory),
        pace: 2,
        ..SOUND
    };
    let full = System::new(&errors, &errors, full);
    let mut desk = HostDesk::new(&full, &full);
    assert_eq!(rt; note_over(&mut desk, b"a.txt"), Err(PutStop::Memory));
    assert_eq!(rt; errors.take(rt.alloc()).as_slice(), b"a.".as_slice());
    assert_eq!(rt; (desk.tally.shorts, desk.tally.slots.note.faults), (1, 0));
}
