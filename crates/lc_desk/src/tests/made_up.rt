// A system and printers that tests make up. They note what they are asked, move one byte at a call, and fail where
// told.
ghost use Rattle.std.specs.Prelude.{◌≤◌, IfOk};

use std::alloc::{Allocator, Global};
use std::cell::{Cell, RefCell};
use std::fmt::Display;
use std::fs::{Metadata, OpenFile, OpenOptions};
use std::io;
use std::io::{ErrorKind, Read, Seek, SeekFrom, Write};
use std::rt::Files;

// What was asked and written, in order.
#[derive(Drop)]
pub(super) struct Tape {
    bytes: RefCell<Vec<u8>>,
}

impl Tape {
    pub(super) fn new(alloc: Global) -> Self {
        Tape {
            bytes: RefCell::new(Vec::new(alloc)),
        }
    }

    fn add(&self, part: &[u8]) -> io::Result<()> {
        match self.bytes.try_borrow_mut() {
            Ok(mut bytes) => {
                bytes.extend_from_slice(part)?;
                Ok(())
            }
            Err(_) => Err(io::Error::from(ErrorKind::Deadlock)),
        }
    }

    // Takes off what is noted.
    pub(super) fn take(&self, alloc: Global) -> Vec<u8> {
        match self.bytes.try_replace(Vec::new(alloc)) {
            Ok(bytes) => bytes,
            Err(empty) => empty,
        }
    }
}

// How calls answer: the error of each, or none.
#[derive(Clone, Copy)]
pub(super) struct Plan {
    pub(super) open: Option<ErrorKind>,
    pub(super) clone: Option<ErrorKind>,
    pub(super) look: Option<ErrorKind>,
    // The length that a look at the file tells. None: it is no plain file.
    pub(super) length: Option<u64>,
    // How many bytes move, or calls print, before the end, or the error.
    pub(super) moves: u64,
    pub(super) end: Option<ErrorKind>,
    // A signal comes before each byte.
    pub(super) halts: bool,
    // How many bytes are printed at a call.
    pub(super) pace: usize,
}

// A plan of files of eight bytes.
pub(super) const SOUND: Plan = Plan {
    open: None,
    clone: None,
    look: None,
    length: Some(8),
    moves: 8,
    end: None,
    halts: false,
    pace: 64,
};

fn refuse(error: Option<ErrorKind>) -> io::Result<()> {
    match error {
        None => Ok(()),
        Some(kind) => Err(io::Error::from(kind)),
    }
}

// A file or a stream. The tape has its mark before each byte that it takes.
#[derive(Drop)]
pub(super) struct Stream<'a> {
    tape: &'a Tape,
    plan: Plan,
    mark: &'static [u8],
    moved: u64,
    is_halted: bool,
}

impl<'a> Stream<'a> {
    pub(super) fn new(tape: &'a Tape, plan: Plan, mark: &'static [u8]) -> Self {
        Stream {
            tape,
            plan,
            mark,
            moved: 0,
            is_halted: false,
        }
    }

    // Moves one byte, or ends.
    fn step(&mut self) -> io::Result<usize>
        ensures { IfOk result (λ n. n ≤ 1) }
    {
        self.is_halted = self.plan.halts && !self.is_halted;
        if self.is_halted {
            return Err(io::Error::from(ErrorKind::Interrupted));
        }
        if self.moved >= self.plan.moves {
            refuse(self.plan.end)?;
            return Ok(0);
        }
        self.moved += 1;
        Ok(1)
    }
}

impl Read for Stream<'_> {
    fn read(&mut self, buffer: &mut [u8]) -> io::Result<usize> {
        if buffer.is_empty() {
            return Ok(0);
        }
        let count = self.step()?;
        buffer[0] = b'x';
        Ok(count)
    }
}

impl Write for Stream<'_> {
    fn write(&mut self, piece: &[u8]) -> io::Result<usize> {
        if piece.is_empty() {
            return Ok(0);
        }
        let count = self.step()?;
        self.tape.add(self.mark)?;
        self.tape.add(&piece[..count])?;
        Ok(count)
    }

    fn flush(&mut self) -> io::Result<()> {
        Ok(())
    }
}

impl Seek for Stream<'_> {
    fn seek(&mut self, _to: SeekFrom) -> io::Result<u64> {
        Err(io::Error::from(ErrorKind::NotSeekable))
    }
}

impl OpenFile for Stream<'_> {
    fn metadata(&self) -> io::Result<Metadata> {
        refuse(self.plan.look)?;
        Ok(match self.plan.length {
            Some(length) => Metadata::of_file(length),
            None => Metadata::of_dir(),
        })
    }

    fn set_len(&self, _size: u64) -> io::Result<()> {
        Err(io::Error::from(ErrorKind::Unsupported))
    }

    fn sync_all(&self) -> io::Result<()> {
        Err(io::Error::from(ErrorKind::Unsupported))
    }

    fn sync_data(&self) -> io::Result<()> {
        Err(io::Error::from(ErrorKind::Unsupported))
    }

    // The second handle has no mark.
    fn try_clone(&self) -> io::Result<Self> {
        refuse(self.plan.clone)?;
        Ok(Stream::new(self.tape, self.plan, b""))
    }
}

// The system, or a printer alone. The tape of files has `<NAME>` for a file that is opened to be read, and `>NAME>` for
// one that is made anew.
#[derive(Drop)]
pub(super) struct System<'a> {
    files: &'a Tape,
    output: &'a Tape,
    plan: Plan,
    printed: Cell<u64>,
}

impl<'a> System<'a> {
    pub(super) fn new(files: &'a Tape, output: &'a Tape, plan: Plan) -> Self {
        System {
            files,
            output,
            plan,
            printed: Cell::new(0),
        }
    }
}

impl<'a> Files for System<'a> {
    type File = Stream<'a>;

    type Dir = Stream<'a>;

    fn open_file(&self, how: &OpenOptions, path: &str) -> io::Result<Stream<'a>> {
        let reads = how.asks_read() && !how.asks_write() && !how.asks_create();
        let makes = how.asks_write() && how.asks_create() && how.asks_truncate();
        let mark: &[u8] = match (reads, makes) {
            (true, _) => b"<",
            (_, true) => b">",
            _ => b"?",
        };
        self.files.add(mark)?;
        self.files.add(path.as_bytes())?;
        self.files.add(b">")?;
        refuse(self.plan.open)?;
        Ok(Stream::new(self.files, self.plan, b"!"))
    }

    fn open_dir(&self, _path: &str) -> io::Result<Stream<'a>> {
        Err(io::Error::from(ErrorKind::Unsupported))
    }

    fn metadata(&self, _path: &str) -> io::Result<Metadata> {
        Err(io::Error::from(ErrorKind::Unsupported))
    }

    fn symlink_metadata(&self, _path: &str) -> io::Result<Metadata> {
        Err(io::Error::from(ErrorKind::Unsupported))
    }

    fn copy(&self, _from: &str, _to: &str) -> io::Result<u64> {
        Err(io::Error::from(ErrorKind::Unsupported))
    }

    fn rename(&self, _from: &str, _to: &str) -> io::Result<()> {
        Err(io::Error::from(ErrorKind::Unsupported))
    }

    fn remove_file(&self, _path: &str) -> io::Result<()> {
        Err(io::Error::from(ErrorKind::Unsupported))
    }

    fn create_dir(&self, _path: &str) -> io::Result<()> {
        Err(io::Error::from(ErrorKind::Unsupported))
    }

    fn remove_dir(&self, _path: &str) -> io::Result<()> {
        Err(io::Error::from(ErrorKind::Unsupported))
    }

    fn remove_dir_all<B: Allocator>(&self, _alloc: B, _path: &str) -> io::Result<()> {
        Err(io::Error::from(ErrorKind::Unsupported))
    }
}

impl Print for System<'_> {
    fn print<D: Display + Drop>(&self, _value: D) -> io::Result<()> {
        Err(io::Error::from(ErrorKind::Unsupported))
    }

    fn println<D: Display + Drop>(&self, _value: D) -> io::Result<()> {
        Err(io::Error::from(ErrorKind::Unsupported))
    }

    fn write_all(&self, _bytes: &[u8]) -> io::Result<()> {
        Err(io::Error::from(ErrorKind::Unsupported))
    }

    fn write_some(&self, bytes: &[u8]) -> io::Result<usize> {
        let printed = self.printed.get();
        if printed >= self.plan.moves {
            refuse(self.plan.end)?;
            return Ok(0);
        }
        self.printed.set(printed + 1);
        let count = bytes.len().min(self.plan.pace);
        self.output.add(&bytes[..count])?;
        Ok(count)
    }
}
