// Whole numbers.
ghost use Rattle.std.specs.Prelude.{◌≡◌, ◌↔◌, IsErrOf};
ghost use Rattle.std.specs.Str.Parse.{IsNumeral};
ghost use Rattle.lc_scan.specs.Whole.{counted, whole_of};

use crate::digits::{are_digits, digits_value_after};
use crate::fault::NumFault;

fn number_of(field: &[u8]) -> Result<u64, NumFault>
    ensures { result ≡ whole_of field.now }
{
    if !are_digits(field) {
        return Err(NumFault::Form);
    }
    if field.len() > 30 {
        return Err(NumFault::TooLong);
    }
    let number = digits_value_after(0, 0, field);
    u64::try_from(number).map_err(|_| NumFault::Range)
}

/// The whole number that a field spells by one or more digits. It is `TooLong` with more than 30 digits, and out of
/// `Range` above 18,446,744,073,709,551,615.
pub fn whole(field: &[u8]) -> Result<u64, NumFault>
    ensures value { result ≡ whole_of field.now }

    // A numeral has its number, or what is wrong with it.
    ensures numeral { IsNumeral 10 field.now → result ≡ counted field.now }

    // `Form` comes exactly where the field is no numeral.
    ensures form { IsErrOf result NumFault.Form ↔ (IsNumeral 10 field.now → ⊥) }
{
    number_of(field)
}
