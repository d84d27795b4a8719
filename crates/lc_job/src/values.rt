// The values of a line: its fields after the keyword.
ghost use Rattle.std.specs.Prelude.{◌≡◌, ◌≢◌, ◌≤◌, ◌<◌, ◌^◌, ◌&&◌, [], ◌∷◌, length, Ok, false, is_ok, IfOk, MatchOption, MatchResult, unsigned_abs};
ghost use Rattle.lc_num.specs.Vectors.{Within};
ghost use Rattle.lc_scan.specs.Decimal.{decimal_of};
ghost use Rattle.lc_scan.specs.LineTests.{first_kind, IsAnswer};
ghost use Rattle.lc_scan.specs.Whole.{whole_of};
ghost use Rattle.lc_job.specs.JobLine.{amount, amount_tests, is_between, rule, size, size_tests, vector, vector_tests, whole_at, whole_number_tests};

use crate::entry::Size;
use crate::fault_kind::FaultKind;
use lc_num::{Rule, Vec3};
use lc_scan::{Fields, decimal, is_place, whole};

const MOST_SIDE: u64 = 4_096;

/// The value of a line that has just one.
fn one<'a>(values: &mut Fields<'a>) -> Option<&'a [u8]>
    ensures { MatchOption result
        (length values.old ≢ 1)
        (λ x. values.old ≡ x.now ∷ []) }
{
    let x = values.next_field()?;
    if values.next_field().is_some() {
        return None;
    }
    Some(x)
}

/// The values of a line that has just two.
fn two<'a>(values: &mut Fields<'a>) -> Option<(&'a [u8], &'a [u8])>
    ensures { MatchOption result
        (length values.old ≢ 2)
        (λ v. values.old ≡ v.0.now ∷ v.1.now ∷ []) }
{
    let x = values.next_field()?;
    let y = one(values)?;
    Some((x, y))
}

/// The values of a line that has just three.
fn three<'a>(values: &mut Fields<'a>) -> Option<(&'a [u8], &'a [u8], &'a [u8])>
    ensures { MatchOption result
        (length values.old ≢ 3)
        (λ v. values.old ≡ v.0.now ∷ v.1.now ∷ v.2.now ∷ []) }
{
    let x = values.next_field()?;
    let (y, z) = two(values)?;
    Some((x, y, z))
}

fn decimal_in(value: &[u8]) -> Result<i64, FaultKind>
    ensures value { MatchResult result
        (λ z. decimal_of value.now ≡ Ok z)
        (λ kind. (is_ok (decimal_of value.now) ≡ false) × (kind ≡ FaultKind.Form)) }
    ensures range { IfOk result (λ z. unsigned_abs z ≤ 10 ^ 14) }
{
    decimal(value).map_err(|_| FaultKind::Form)
}

fn whole_in(value: &[u8]) -> Result<u64, FaultKind>
    ensures { MatchResult result
        (λ n. whole_of value.now ≡ Ok n)
        (λ kind. (is_ok (whole_of value.now) ≡ false) × (kind ≡ FaultKind.Form)) }
{
    whole(value).map_err(|_| FaultKind::Form)
}

fn is_side(n: u64) -> bool
    ensures { result ≡ is_between 1 4096 n }
{
    1 <= n && n <= MOST_SIDE
}

/// A place or a direction.
pub fn vector(values: &mut Fields) -> Result<Vec3, FaultKind>
    ensures { IsAnswer (first_kind (vector_tests values.old)) (vector values.old) result }
{
    let Some((x, y, z)) = three(values) else {
        return Err(FaultKind::Form);
    };
    let x = decimal_in(x)?;
    let y = decimal_in(y)?;
    let z = decimal_in(z)?;
    let v = Vec3 { x, y, z };
    if !is_place(v) {
        return Err(FaultKind::Range);
    }
    Ok(v)
}

/// The width and the height of a picture.
pub fn size(values: &mut Fields) -> Result<Size, FaultKind>
    ensures { IsAnswer (first_kind (size_tests values.old)) (size values.old) result }
{
    let Some((width, height)) = two(values) else {
        return Err(FaultKind::Form);
    };
    let width = whole_in(width)?;
    let height = whole_in(height)?;
    if !is_side(width) || !is_side(height) {
        return Err(FaultKind::Range);
    }
    Ok(Size {
        width: width as u32,
        height: height as u32,
    })
}

/// A decimal from one unit to so many.
pub fn amount(values: &mut Fields, most: u64) -> Result<u64, FaultKind>
    ensures { IsAnswer (first_kind (amount_tests most values.old)) (amount values.old) result }
{
    let Some(value) = one(values) else {
        return Err(FaultKind::Form);
    };
    let units = decimal_in(value)?;
    if units < 1 || units as u64 > most {
        return Err(FaultKind::Range);
    }
    Ok(units as u64)
}

/// A whole number from the least to the most.
pub fn whole_within(values: &mut Fields, least: u64, most: u64) -> Result<u64, FaultKind>
    ensures value { IsAnswer (first_kind (whole_number_tests least most values.old)) (whole_at 0 values.old) result }
    ensures range { IfOk result (λ n. n ≤ most) }
{
    let Some(value) = one(values) else {
        return Err(FaultKind::Form);
    };
    let n = whole_in(value)?;
    if n < least || most < n {
        return Err(FaultKind::Range);
    }
    Ok(n)
}

/// The rule of a number, 1 or 2.
pub fn rule(values: &mut Fields) -> Result<Rule, FaultKind>
    ensures { IsAnswer (first_kind (whole_number_tests 1 2 values.old)) (rule values.old) result }
{
    let Some(value) = one(values) else {
        return Err(FaultKind::Form);
    };
    let number = whole_in(value)?;
    Rule::of(number).ok_or(FaultKind::Range)
}
