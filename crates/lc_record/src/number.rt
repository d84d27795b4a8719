// Numbers at the front of a text.
ghost use Rattle.std.specs.Prelude.{◌≡◌, ◌+◌, ◌^◌, ◌<◌, ◌≤◌, ◌++◌, IfSome, IfNone, MatchOption};
ghost use Rattle.lc_record.specs.Reading.{Begins};
ghost use Rattle.lc_record.specs.Pieces.{IsWithin, ended};

/// The value of a digit.
fn digit(byte: u8) -> Option<u128>
    ensures { MatchOption result ((48 ≤ byte) × (byte < 58) → ⊥) (λ value. (value < 10) × (byte ≡ 48 + value)) }
{
    match byte {
        b'0'..=b'9' => Some(u128::from(byte - b'0')),
        _ => None,
    }
}

/// The number from `least` to `most` that the bytes begin with, with `end` behind it, and the bytes after these. It is
/// written without leading zeros.
pub(crate) fn number(bytes: &[u8], least: u128, most: u128, end: u8) -> Option<(u128, &[u8])>
    requires most { most < 2 ^ 120 }
    requires end { end < 48 }
    ensures found { IfSome result (λ read. IsWithin least most read.0 × (bytes.now ≡ ended end read.0 ++ read.1.now)) }
    ensures none { IfNone result (Begins (IsWithin least most) (ended end) bytes.now → ⊥) }
{
    let (first, mut rest) = bytes.split_first()?;
    let mut value = digit(*first)?;
    while let Some((next, after)) = rest.split_first() {
        if *next == end {
            let within = least <= value && value <= most;
            return within.then_some((value, after));
        }
        let longer = value * 10 + digit(*next)?;
        let leading_zero = value == 0;
        if leading_zero || longer > most {
            return None;
        }
        value = longer;
        rest = after;
    }
    None
}
