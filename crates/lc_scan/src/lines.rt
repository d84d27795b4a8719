// The logical lines of a text, one after the other.
ghost use Rattle.std.specs.Prelude.{◌≡◌, ◌+◌, ◌^◌, ◌<◌, ◌≤◌, [], ◌∷◌, length, MatchOption};
ghost use Rattle.lc_scan.specs.Lines.{line, lines, lines_of, pieces, joins, without_mark};

use bstr::ByteSlice;
use std::marker::Model;

/// The logical lines of a text that are still to come.
///
/// A physical line ends at a line feed or at the end of the text. A `\` directly before a line feed, or before a
/// carriage return and a line feed, joins the next physical line to this one. A byte order mark at the start of the
/// text belongs to no line.
#[derive(Drop)]
pub struct Lines<'a> {
    number: u32,
    rest: &'a [u8],
}

impl<'a> Model for Lines<'a> {
    ghost use Rattle.std.specs.Prelude.{List, ◌+◌, ◌^◌, ◌<◌, length};
    ghost use Rattle.lc_scan.specs.Lines.{Line, lines_of, pieces};

    ghost Value = { List Line };

    ghost view = { λ s. lines_of s.number (pieces s.rest.now) };

    ghost invariant = { λ s. s.number + length s.rest.now < 2 ^ 32 };
}

impl<'a> Lines<'a> {
    /// The lines of a text of at most 512 MiB.
    pub fn new(bytes: &'a [u8]) -> Lines<'a>
        requires { length bytes.now ≤ 536_870_912 }
        ensures { result ≡ lines bytes.now }
    {
        Lines {
            number: 1,
            rest: after_mark(bytes),
        }
    }

    /// The next line: the number of its first physical line, counted from 1, and its bytes. They keep joins and
    /// comment, and leave out the line feed that ends the line.
    pub fn next_line(&mut self) -> Option<(u32, &'a [u8])>
        ensures { MatchOption result
            ((self.old ≡ []) × (self.new ≡ []))
            (λ next. self.old ≡ line next.0 next.1.now ∷ self.new) }
    {
        let text = self.rest;
        if text.is_empty() {
            return None;
        }
        let number = self.number;
        let (bytes, next, rest) = first_line(number, text);
        self.number = next;
        self.rest = rest;
        Some((number, bytes))
    }
}

fn after_mark(bytes: &[u8]) -> &[u8]
    ensures value { result.now ≡ without_mark bytes.now }
    ensures shorter { length result.now ≤ length bytes.now }
{
    if bytes.starts_with(b"\xEF\xBB\xBF") {
        &bytes[3..]
    } else {
        bytes
    }
}

/// Whether a line feed after these bytes joins the next physical line to theirs.
pub fn joins(bytes: &[u8]) -> bool
    ensures { result ≡ joins bytes.now }
{
    bytes.ends_with(b"\\") || bytes.ends_with(b"\\\r")
}

/// The bytes of the first logical line, the number of the physical line after it, and the text after it.
fn first_line(number: u32, text: &[u8]) -> (&[u8], u32, &[u8])
    requires some { 0 < length text.now }
    requires few { number + length text.now < 2 ^ 32 }
    ensures first { lines_of number (pieces text.now)
        ≡ line number result.0.now ∷ lines_of result.1 (pieces result.2.now) }
    ensures few { result.1 + length result.2.now ≤ number + length text.now }
{
    let mut end = 0;
    let mut next = number;
    while let Some(at) = (&text[end..]).find_byte(b'\n') {
        next += 1;
        let feed = end + at;
        if !joins(&text[end..feed]) {
            return (&text[..feed], next, &text[feed + 1..]);
        }
        end = feed + 1;
    }
    (text, next, &text[text.len()..])
}
