// The numbers of a line.
ghost use Rattle.std.specs.Prelude.{◌<◌, ◌^◌, IfOk};
ghost use Rattle.lc_mtl.specs.MtlLine.{number_test, units, share, exponent_of};
ghost use Rattle.lc_scan.specs.LineTests.{IsAnswer};

use crate::fault_kind::FaultKind;
use lc_scan::decimal;

// A share of all light.
const WHOLE_SHARE: u64 = 10_000;

const MOST_EXPONENT: u64 = 1_000;

/// The units of a number that is not below 0.
fn units(field: &[u8]) -> Result<u64, FaultKind>
    ensures value { IsAnswer (number_test field.now) (units field.now) result }
    ensures range { IfOk result (λ n. n < 2 ^ 63) }
{
    match decimal(field) {
        Err(_) => Err(FaultKind::Number),
        Ok(z) => {
            if z < 0 {
                Err(FaultKind::Negative)
            } else {
                Ok(z as u64)
            }
        }
    }
}

/// A share of light, which is at most the whole.
#[tactic(auto, unfolding(crate::specs::MtlLine::share))]
pub fn share(field: &[u8]) -> Result<u32, FaultKind>
    ensures { IsAnswer (number_test field.now) (share field.now) result }
{
    let units = units(field)?;
    Ok(units.min(WHOLE_SHARE) as u32)
}

/// An exponent: the nearest whole number to a number of units, halves up, and at most 1000.
#[tactic(auto, unfolding(crate::specs::MtlLine::exponent_of))]
pub fn nearest_exponent(field: &[u8]) -> Result<u32, FaultKind>
    ensures { IsAnswer (number_test field.now) (exponent_of field.now) result }
{
    let units = units(field)?;
    let nearest = (units + 5_000) / 10_000;
    Ok(nearest.min(MOST_EXPONENT) as u32)
}
