// One line of a job file.
ghost use Rattle.std.specs.Prelude.{◌≡◌, ◌<◌, length, Some, None, MatchResult};
ghost use Rattle.lc_scan.specs.Fields.{fields};
ghost use Rattle.lc_scan.specs.LineTests.{first_kind};
ghost use Rattle.lc_job.specs.Drafts.{has};
ghost use Rattle.lc_job.specs.JobLine.{entry_by, entry_of, kind_of, name_tests, tests};
ghost use Rattle.lc_job.specs.Stops.{IsLineStop};

use crate::draft::Draft;
use crate::entry::Entry;
use crate::fault_kind::FaultKind;
use crate::key::Key;
use crate::stop::LineStop;
use crate::values::{amount, rule, size, vector, whole_within};
use lc_num::Name;
use lc_scan::{Fields, name_of, rest};
use std::alloc::Global;

// Ten half widths to the distance, in 1/10000.
const MOST_VIEW: u64 = 100_000;

// The samples on a side of a pixel.
const MOST_GRID: u64 = 16;

const MOST_PERMILLE: u64 = 1_000;

const LEAST_CUT: u64 = 3;

const MOST_CUT: u64 = 65_536;

// 10000, in 1/10000.
const MOST_WHITE: u64 = 100_000_000;

/// The name of a file.
fn name(alloc: Global, bytes: &[u8]) -> Result<Name, LineStop>
    ensures { MatchResult result
        (λ name. (first_kind (name_tests bytes.now) ≡ None) × (bytes.now ≡ name))
        (λ stop. IsLineStop stop (first_kind (name_tests bytes.now))) }
{
    if bytes.is_empty() {
        return Err(LineStop::Fault(FaultKind::Form));
    }
    match name_of(alloc, bytes)? {
        None => Err(LineStop::Fault(FaultKind::Utf8)),
        Some(name) => Ok(name),
    }
}

/// What the rest after a keyword says, which is a name or these values.
fn entry_by(alloc: Global, key: Key, rest: &[u8], values: &mut Fields) -> Result<Entry, LineStop>
    ensures { MatchResult result
        (λ entry. (first_kind (tests key rest.now values.old) ≡ None) × (entry_by key rest.now values.old ≡ entry))
        (λ stop. IsLineStop stop (first_kind (tests key rest.now values.old))) }
{
    Ok(match key {
        Key::Scene => Entry::Scene(name(alloc, rest)?),
        Key::Lights => Entry::Lights(name(alloc, rest)?),
        Key::Picture => Entry::Picture(name(alloc, rest)?),
        Key::Bounds => Entry::Bounds(name(alloc, rest)?),
        Key::Eye => Entry::Eye(vector(values)?),
        Key::At => Entry::At(vector(values)?),
        Key::Size => Entry::Size(size(values)?),
        Key::Up => Entry::Up(vector(values)?),
        Key::View => Entry::View(amount(values, MOST_VIEW)?),
        Key::Grid => Entry::Grid(whole_within(values, 1, MOST_GRID)? as u32),
        Key::Seed => Entry::Seed(whole_within(values, 0, u64::MAX)?),
        Key::Error => Entry::Error(whole_within(values, 0, MOST_PERMILLE)? as u32),
        Key::Cut => Entry::Cut(whole_within(values, LEAST_CUT, MOST_CUT)? as u32),
        Key::White => Entry::White(amount(values, MOST_WHITE)?),
        Key::Rule => Entry::Rule(rule(values)?),
    })
}

/// What a line with fields says, or why it is refused where this stood before.
pub fn entry_in(alloc: Global, line: &[u8], before: &Draft) -> Result<Entry, LineStop>
    requires { 0 < length (fields line.now) }
    ensures { MatchResult result
        (λ entry. (kind_of (λ k. has k before.now) line.now ≡ None) × (entry_of line.now ≡ Some entry))
        (λ stop. IsLineStop stop (kind_of (λ k. has k before.now) line.now)) }
{
    let mut values = Fields::new(line);
    let Some(key) = Key::of(values.take_field()) else {
        return Err(LineStop::Fault(FaultKind::Keyword));
    };
    if before.has(key) {
        return Err(LineStop::Fault(FaultKind::Repeated));
    }
    entry_by(alloc, key, rest(line), &mut values)
}
