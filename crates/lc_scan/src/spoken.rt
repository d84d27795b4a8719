// Lines with fields, and how many they have.
ghost use Rattle.std.specs.Prelude.{◌≡◌, ◌↔◌, ◌<◌, [], ◌∷◌, length, IsTrue, MatchOption, ⊤};
ghost use Rattle.lc_scan.specs.Lines.{line};
ghost use Rattle.lc_scan.specs.Fields.{fields};
ghost use Rattle.lc_scan.specs.Spoken.{spoken_in};

use crate::fields::Fields;
use crate::lines::Lines;

/// Whether a line has a field.
pub fn has_fields(line: &[u8]) -> bool
    ensures { IsTrue result ↔ (0 < length (fields line.now)) }
{
    Fields::new(line).next_field().is_some()
}

/// How many fields a line has.
pub fn count(line: &[u8]) -> usize
    ensures { result ≡ length (fields line.now) }
{
    let mut fields = Fields::new(line);
    let mut n = 0;
    while fields.next_field().is_some() {
        n += 1;
    }
    n
}

/// The next line that has a field, and its number. The lines before it that have none are passed over.
pub fn next_spoken<'a>(lines: &mut Lines<'a>) -> Option<(u32, &'a [u8])>
    ensures next { MatchOption result
        (spoken_in lines.old ≡ [])
        (λ next. spoken_in lines.old ≡ line next.0 next.1.now ∷ spoken_in lines.new) }
    ensures end { MatchOption result (lines.new ≡ []) (λ _. length lines.new < length lines.old) }
    ensures some { MatchOption result ⊤ (λ next. 0 < length (fields next.1.now)) }
{
    while let Some((number, bytes)) = lines.next_line() {
        if has_fields(bytes) {
            return Some((number, bytes));
        }
    }
    None
}
