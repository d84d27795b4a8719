// The header of a record.
ghost use Rattle.std.specs.Prelude.{◌≡◌, ◌++◌, OnOk, OnErr};
ghost use Rattle.lc_record.specs.Record.{record_header};

use crate::line::Line;
use lc_num::{Memory, Rule, Text};

/// What a record was made with.
#[derive(Clone, Copy, Debug, PartialEq, Eq)]
pub struct Header {
    /// The rule by which clusters are bounded.
    pub rule: Rule,
    /// The columns of the picture, 1 to 4096.
    pub width: u32,
    /// The rows of the picture, 1 to 4096.
    pub height: u32,
    /// The samples along each side of a pixel, 1 to 16.
    pub grid: u32,
    /// The greatest size of a cut, 3 to 65,536.
    pub cut: u32,
    /// The thousandths of the estimate that the bound may be, at most 1000.
    pub permille: u32,
}

/// Appends the header. On `Memory` the text stays as it was.
#[tactic(auto, using(crate::proofs::Lengths::count_length), unfolding(crate::specs::Record::record_header))]
pub fn header_text(h: &Header, into: &mut Text) -> Result<(), Memory>
    ensures ok { OnOk result (into.new ≡ into.old ++ record_header h.now) }
    ensures memory { OnErr result (into.new ≡ into.old) }
{
    let mut line = Line::new();
    line.push("LCB ");
    line.push_field(h.rule.number());
    line.push_field(h.width);
    line.push_field(h.height);
    line.push_field(h.grid);
    line.push_field(h.cut);
    line.push_number(h.permille);
    line.push("\n");
    into.append(line.as_slice())
}
