// The fields of a logical line, one after the other.
ghost use Rattle.std.specs.Prelude.{◌≡◌, ◌+◌, ◌-◌, ◌<◌, ◌≤◌, [], ◌∷◌, length, drop, take, MatchOption, slice_index, ⊤};
ghost use Rattle.std.specs.List.{prefix_len, position_or_len, suffix_len};
ghost use Rattle.lc_scan.specs.Fields.{is_blank, breaks, spaced, is_comment, fields, fields_in, rest};

use crate::lines::joins;
use std::marker::Model;

/// The fields of a logical line that are still to come: its longest runs of bytes without blanks.
///
/// Blanks are space, tab, carriage return and the joins of physical lines. A field that begins with `#` begins a
/// comment, which is no field and goes to the end of the line.
#[derive(Drop)]
pub struct Fields<'a> {
    line: &'a [u8],
    at: usize,
}

impl<'a> Model for Fields<'a> {
    ghost use Rattle.std.specs.Prelude.{List, ℕ, ◌≤◌, drop, length};
    ghost use Rattle.lc_scan.specs.Fields.{fields_in, spaced};

    ghost Value = { List (List ℕ) };

    ghost view = { λ s. fields_in (drop s.at (spaced s.line.now)) };

    ghost invariant = { λ s. s.at ≤ length s.line.now };
}

impl<'a> Fields<'a> {
    /// The fields of a line.
    pub fn new(line: &'a [u8]) -> Fields<'a>
        ensures value { result ≡ fields line.now }
        ensures few { length result ≤ length line.now }
    {
        Fields { line, at: 0 }
    }

    /// The next field.
    pub fn next_field(&mut self) -> Option<&'a [u8]>
        ensures { MatchOption result
            ((self.old ≡ []) × (self.new ≡ []))
            (λ field. self.old ≡ field.now ∷ self.new) }
    {
        let (field, end) = first_field(self.line, self.at)?;
        self.at = end;
        Some(field)
    }

    /// The next field, where there is one.
    pub fn take_field(&mut self) -> &'a [u8]
        requires { 0 < length self.old }
        ensures { self.old ≡ result.now ∷ self.new }
    {
        match self.next_field() {
            None => unreachable!(),
            Some(field) => field,
        }
    }
}

fn is_blank(b: u8) -> bool
    ensures { result ≡ is_blank b }
{
    b == b' ' || b == b'\t' || b == b'\r'
}

fn is_comment(field: &[u8]) -> bool
    ensures { result ≡ is_comment field.now }
{
    field.starts_with(b"#")
}

fn breaks(bytes: &[u8]) -> bool
    ensures { result ≡ breaks bytes.now }
{
    bytes.starts_with(b"\n") || bytes.starts_with(b"\r\n")
}

/// Whether a blank or a byte of a join stands at a place.
fn is_gap(line: &[u8], at: usize) -> bool
    requires { at < length line.now }
    ensures { result ≡ is_blank (slice_index (spaced line.now) at) }
{
    match line[at] {
        b'\\' => breaks(&line[at + 1..]),
        b'\n' => joins(&line[..at]),
        b => is_blank(b),
    }
}

/// Where the blanks end that stand from a place on.
fn gap_end(line: &[u8], at: usize) -> usize
    requires { at ≤ length line.now }
    ensures end { result ≡ at + prefix_len is_blank (drop at (spaced line.now)) }
    ensures within { result ≤ length line.now }
{
    for end in at..line.len() {
        if !is_gap(line, end) {
            return end;
        }
    }
    line.len()
}

/// Where the first blank stands from a place on, or the line's end.
fn word_end(line: &[u8], at: usize) -> usize
    requires { at ≤ length line.now }
    ensures end { result ≡ at + position_or_len is_blank (drop at (spaced line.now)) }
    ensures within { result ≤ length line.now }
{
    for end in at..line.len() {
        if is_gap(line, end) {
            return end;
        }
    }
    line.len()
}

/// The first field from a place on, and where it ends.
fn first_field(line: &[u8], at: usize) -> Option<(&[u8], usize)>
    requires { at ≤ length line.now }
    ensures first { MatchOption result
        (fields_in (drop at (spaced line.now)) ≡ [])
        (λ x. fields_in (drop at (spaced line.now)) ≡ x.0.now ∷ fields_in (drop x.1 (spaced line.now))) }
    ensures end { MatchOption result
        ⊤
        (λ x. (x.1 ≤ length line.now) × (x.1 ≡ at + prefix_len is_blank (drop at (spaced line.now)) + length x.0.now)) }
{
    let start = gap_end(line, at);
    let end = word_end(line, start);
    let field = &line[start..end];
    if field.is_empty() || is_comment(field) {
        return None;
    }
    Some((field, end))
}

/// How many blanks stand in front.
fn leading_blanks(bytes: &[u8]) -> usize
    ensures value { result ≡ prefix_len is_blank bytes.now }
    ensures within { result ≤ length bytes.now }
{
    for at in 0..bytes.len() {
        if !is_blank(bytes[at]) {
            return at;
        }
    }
    bytes.len()
}

fn without_trailing_blanks(bytes: &[u8]) -> &[u8]
    ensures { result.now ≡ take (length bytes.now - suffix_len is_blank bytes.now) bytes.now }
{
    let mut end = bytes.len();
    while end > 0 && is_blank(bytes[end - 1]) {
        end -= 1;
    }
    &bytes[..end]
}

/// What follows the first field of a line, without the spaces, tabs and carriage returns at its ends. In it `#` and
/// joins are bytes like others. It is empty where the line has no field.
pub fn rest(line: &[u8]) -> &[u8]
    ensures { result.now ≡ rest line.now }
{
    match first_field(line, 0) {
        None => &line[line.len()..],
        Some((_, end)) => {
            let after = &line[end..];
            without_trailing_blanks(&after[leading_blanks(after)..])
        }
    }
}
