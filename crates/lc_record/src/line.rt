// The line of a sample, in a fixed room, which takes no memory.
ghost use Rattle.std.specs.Prelude.{◌≡◌, [], ◌++◌, ◌+◌, ◌<◌, ◌≤◌, length, codes};
ghost use Rattle.lc_record.specs.Record.{IsSample, line_bytes};

use arrayvec::ArrayString;
use itoa::{Buffer, Integer};
use lc_rated::Answer;
use std::marker::Model;

/// How many bytes a line has room for.
const ROOM: usize = 256;

/// A line of at most 256 bytes, which lie in the value itself. Contracts see the bytes in use.
#[derive(Debug, Drop)]
pub struct Line {
    held: ArrayString<ROOM>,
}

impl Model for Line {
    ghost use Rattle.std.specs.Prelude.{List, ℕ};

    ghost Value = { List ℕ };

    ghost view = { λ l. l.held.bytes };
}

impl Line {
    /// The line of no bytes.
    pub fn new() -> Line
        ensures { result ≡ [] }
    {
        Line {
            held: ArrayString::new(),
        }
    }

    /// The bytes in use, in order.
    pub fn as_slice(&self) -> &[u8]
        ensures { result.now ≡ self.now }
    {
        self.held.as_str().as_bytes()
    }

    fn clear(&mut self)
        ensures bytes { self.new ≡ [] }
        ensures len { length self.new ≡ 0 }
    {
        self.held.clear();
    }

    /// Appends a piece for which there is room.
    pub(crate) fn push(&mut self, piece: &str)
        requires { length self.old + length piece.now ≤ 256 }
        ensures bytes { self.new ≡ self.old ++ piece.now }
        ensures len { length self.new ≡ length self.old + length piece.now }
    {
        self.held.push_str(piece);
    }

    /// Appends a number for which there is room.
    pub(crate) fn push_number<I: Integer>(&mut self, number: I)
        requires { length self.old + length (I.text number) ≤ 256 }
        ensures bytes { self.new ≡ self.old ++ I.text number }
        ensures len { length self.new ≡ length self.old + length (I.text number) }
    {
        self.push(Buffer::new().format(number));
    }

    /// Appends a number and a blank for which there is room.
    pub(crate) fn push_field<I: Integer>(&mut self, number: I)
        requires { length self.old + length (I.text number) < 256 }
        ensures bytes { self.new ≡ self.old ++ (I.text number ++ codes " ") }
        ensures len { length self.new ≡ length self.old + length (I.text number) + 1 }
    {
        self.push_number(number);
        self.push(" ");
    }
}

/// Makes `into` the line of a sample: size, evaluations, estimate and bound in each channel. The size is at most
/// 65,536, the evaluations are at most 131,072, and the other six numbers below 2^117.
#[tactic(auto, unfolding(crate::specs::Record::line_bytes))]
pub fn line_text(a: &Answer, into: &mut Line)
    requires { IsSample 65_536 a.now }
    ensures line { into.new ≡ line_bytes a.now }
    ensures short { length into.new ≤ 235 }
{
    into.clear();
    into.push_field(a.size);
    into.push_field(a.evals);
    into.push_field(a.est.r);
    into.push_field(a.est.g);
    into.push_field(a.est.b);
    into.push_field(a.bound.r);
    into.push_field(a.bound.g);
    into.push_number(a.bound.b);
    into.push("\n");
}
