// A record read back from its text.
ghost use Rattle.std.specs.Prelude.{◌≡◌, ◌≢◌, ◌+◌, ◌-◌, ◌^◌, ◌<◌, ◌≤◌, ◌++◌, ℕ, List as Items, length, codes, Ok, Err, IfOk, IfErr, IfSome, IfNone};
ghost use Rattle.lc_num.specs.Channels.{IsRgbWithin};
ghost use Rattle.lc_num.specs.Faults.{Fault};
ghost use Rattle.lc_num.specs.Rules.{rule_number};
ghost use Rattle.lc_num.specs.declared.rules.Rule.{Rule as RuleValue};
ghost use Rattle.lc_rated.specs.declared.answer.Answer.{Answer as AnswerValue};
ghost use Rattle.lc_record.specs.declared.head.Header.{Header as HeaderValue};
ghost use Rattle.lc_record.specs.Record.{IsHeader, IsSample, field, record_header, line_bytes};
ghost use Rattle.lc_record.specs.Reading.{Begins, samples, IsTextOf, IsFirstFault, IsLineFault, IsStop, OrMemory, kind_number};
ghost use Rattle.lc_record.specs.Readings.{record_in};
ghost use Rattle.lc_record.specs.Pieces.{colour, AreLinesOf};

use crate::fault_kind::FaultKind;
use crate::head::Header;
use crate::number::number;
use crate::stop::RecordStop;
use lc_num::{List, Rgb, Rule};
use lc_rated::Answer;
use std::alloc::Global;

/// The greatest radiance that a line tells.
const MOST: u128 = (1 << 117) - 1;

/// What a picture was made with, and the answer at each sample of it.
#[derive(Debug, Drop)]
pub struct Record {
    pub header: Header,
    /// The answers in the order of their lines: the rows of pixels from the top, of each its pixels from the left, of
    /// each its samples, again from the top and from the left.
    pub lines: List<Answer>,
}

/// The bytes after the name of the format.
fn after_mark(bytes: &[u8]) -> Option<&[u8]>
    ensures found { IfSome result (λ rest. bytes.now ≡ codes "LCB " ++ rest.now) }
    ensures none { IfNone result ((rest : Items ℕ) → bytes.now ≢ codes "LCB " ++ rest) }
{
    bytes.strip_prefix(b"LCB ".as_slice())
}

/// The rule whose number the bytes begin with, and the bytes after it and a blank.
fn rule_in(bytes: &[u8]) -> Option<(Rule, &[u8])>
    ensures found { IfSome result (λ read. bytes.now ≡ field (rule_number read.0) ++ read.1.now) }
    ensures none { IfNone result ((rule : RuleValue) (rest : Items ℕ) → bytes.now ≢ field (rule_number rule) ++ rest) }
{
    let (version, rest) = number(bytes, 1, 2, b' ')?;
    let Some(rule) = Rule::of(version as u64) else {
        unreachable!();
    };
    Some((rule, rest))
}

/// The header that the bytes begin with, and the bytes after it.
fn header_of(bytes: &[u8]) -> Option<(Header, &[u8])>
    ensures found { IfSome result (λ read. IsHeader read.0 × (bytes.now ≡ record_header read.0 ++ read.1.now)) }
    ensures none { IfNone result (Begins IsHeader record_header bytes.now → ⊥) }
{
    let rest = after_mark(bytes)?;
    let (rule, rest) = rule_in(rest)?;
    let (width, rest) = number(rest, 1, 4096, b' ')?;
    let (height, rest) = number(rest, 1, 4096, b' ')?;
    let (grid, rest) = number(rest, 1, 16, b' ')?;
    let (cut, rest) = number(rest, 3, 65_536, b' ')?;
    let (permille, rest) = number(rest, 0, 1000, b'\n')?;
    let header = Header {
        rule,
        width: width as u32,
        height: height as u32,
        grid: grid as u32,
        cut: cut as u32,
        permille: permille as u32,
    };
    Some((header, rest))
}

/// The three numbers that the bytes begin with, the last with `end` behind it, and the bytes after these.
fn colour_of(bytes: &[u8], end: u8) -> Option<(Rgb, &[u8])>
    requires { end < 48 }
    ensures found { IfSome result (λ read.
        IsRgbWithin (2 ^ 117 - 1) read.0 × (bytes.now ≡ colour end read.0 ++ read.1.now)) }
    ensures none { IfNone result (Begins (IsRgbWithin (2 ^ 117 - 1)) (colour end) bytes.now → ⊥) }
{
    let (r, rest) = number(bytes, 0, MOST, b' ')?;
    let (g, rest) = number(rest, 0, MOST, b' ')?;
    let (b, rest) = number(rest, 0, MOST, end)?;
    Some((Rgb { r, g, b }, rest))
}

/// The answer whose line the bytes begin with, and the bytes after it.
fn answer_of(bytes: &[u8], cut: u32) -> Option<(Answer, &[u8])>
    requires { cut ≤ 65_536 }
    ensures found { IfSome result (λ read. IsSample cut read.0 × (bytes.now ≡ line_bytes read.0 ++ read.1.now)) }
    ensures none { IfNone result (Begins (IsSample cut) line_bytes bytes.now → ⊥) }
{
    let cut = u128::from(cut);
    let (size, rest) = number(bytes, 0, cut, b' ')?;
    let (evals, rest) = number(rest, 0, 2 * cut, b' ')?;
    let (est, rest) = colour_of(rest, b' ')?;
    let (bound, rest) = colour_of(rest, b'\n')?;
    let answer = Answer {
        size: size as u32,
        evals: evals as u32,
        est,
        bound,
    };
    Some((answer, rest))
}

/// How many samples a header announces.
fn samples(header: &Header) -> u64
    requires { IsHeader header.now }
    ensures { result ≡ samples header.now }
{
    let pixels = u64::from(header.width) * u64::from(header.height);
    pixels * (u64::from(header.grid) * u64::from(header.grid))
}

/// A fault after the header and so many lines.
fn fault_after(lines: u64, kind: FaultKind) -> RecordStop
    requires { lines ≤ 536_870_912 }
    ensures { result ≡ RecordStop.Fault (lines + 2) (kind_number kind) }
{
    RecordStop::Fault {
        line: lines as u32 + 2,
        kind: kind.number(),
    }
}

/// The answers of the lines after a header.
fn lines_of(alloc: Global, header: &Header, bytes: &[u8]) -> Result<List<Answer>, RecordStop>
    requires header { IsHeader header.now }
    requires size { length bytes.now ≤ 536_870_912 }
    ensures ok { IfOk result (λ lines. AreLinesOf header.now lines bytes.now) }
    ensures fault { IfErr result (λ stop. IsStop stop (IsLineFault header.now bytes.now)) }
{
    let count = samples(header);
    let mut lines = List::new(alloc);
    let mut rest = bytes;
    for before in 0..count {
        let Some((answer, after)) = answer_of(rest, header.cut) else {
            let kind = if rest.is_empty() {
                FaultKind::Count
            } else {
                FaultKind::Line
            };
            return Err(fault_after(before, kind));
        };
        lines.push(answer)?;
        rest = after;
    }
    if !rest.is_empty() {
        return Err(fault_after(count, FaultKind::Count));
    }
    Ok(lines)
}

/// Reads a header and its lines.
fn read(alloc: Global, bytes: &[u8]) -> Result<Record, RecordStop>
    requires { length bytes.now ≤ 536_870_912 }
    ensures ok { IfOk result (λ read. IsTextOf read.header read.lines bytes.now) }
    ensures fault { IfErr result (λ stop. IsStop stop (IsFirstFault bytes.now)) }
{
    let Some((header, rest)) = header_of(bytes) else {
        return Err(RecordStop::Fault {
            line: 1,
            kind: FaultKind::Header.number(),
        });
    };
    let lines = lines_of(alloc, &header, rest)?;
    Ok(Record { header, lines })
}

/// The record whose text these bytes are, at most 512 MiB of them, or their first fault. No record but what
/// `header_text` and `line_text` write is read.
pub fn read_record(alloc: Global, bytes: &[u8]) -> Result<Record, RecordStop>
    requires { length bytes.now ≤ 536_870_912 }

    // What is read is a record with this text.
    ensures ok { IfOk result (λ read. IsTextOf read.header read.lines bytes.now) }

    // A fault is the first one.
    ensures fault { IfErr result (λ stop. IsStop stop (IsFirstFault bytes.now)) }

    // A record's text is read as that record, unless memory runs out.
    ensures only { (header : HeaderValue) (lines : Items AnswerValue) → IsTextOf header lines bytes.now
        → OrMemory result (Ok (record { header = header; lines = lines })) }

    // The first fault is answered, unless memory runs out.
    ensures exact { (fault : Fault) → IsFirstFault bytes.now fault
        → OrMemory result (Err (RecordStop.Fault fault.line fault.kind)) }

    // It is what the text tells, unless memory runs out.
    ensures value { IfOk result (λ read. record_in bytes.now ≡ Ok read) }
    ensures refused { IfErr result (λ stop. IsStop stop (λ fault. record_in bytes.now ≡ Err fault)) }
{
    read(alloc, bytes)
}
