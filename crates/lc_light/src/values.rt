// The values of a line, one after the other.
ghost use Rattle.std.specs.Prelude.{◌≡◌, ◌<◌, ◌≤◌, ◌^◌, length, drop, Some, IfOk, OnOk, unsigned_abs};
ghost use Rattle.lc_num.specs.Vectors.{Within};
ghost use Rattle.lc_scan.specs.Decimal.{units};
ghost use Rattle.lc_scan.specs.Whole.{value};
ghost use Rattle.lc_scan.specs.LineTests.{first_kind, IsAnswer};
ghost use Rattle.lc_light.specs.LightLine.{number, whole_number, vector_at, power_at, number_test, coordinate_test, intensity_test, samples_test, side_tests, vector_tests, power_tests};

use crate::fault_kind::FaultKind;
use lc_num::{Power, Vec3};
use lc_scan::{Fields, decimal, is_coordinate, whole};

// 10000, in units of 1/10000.
const MOST_INTENSITY: i64 = 100_000_000;

const MOST_SAMPLES: u64 = 4096;

/// The next value as a component of a side.
fn number(values: &mut Fields) -> Result<i64, FaultKind>
    requires { 0 < length values.old }
    ensures rest { values.new ≡ drop 1 values.old }
    ensures value { IsAnswer (number_test (number 0 values.old)) (units (number 0 values.old)) result }
    ensures range { IfOk result (λ z. unsigned_abs z ≤ 10 ^ 14) }
{
    match decimal(values.take_field()) {
        Err(_) => Err(FaultKind::Number),
        Ok(z) => Ok(z),
    }
}

/// The next value as a coordinate.
fn coordinate(values: &mut Fields) -> Result<i64, FaultKind>
    requires { 0 < length values.old }
    ensures rest { values.new ≡ drop 1 values.old }
    ensures value { IsAnswer (coordinate_test (number 0 values.old)) (units (number 0 values.old)) result }
    ensures range { IfOk result (λ z. unsigned_abs z ≤ 50_000_000) }
{
    match decimal(values.take_field()) {
        Err(_) => Err(FaultKind::Number),
        Ok(z) => {
            if is_coordinate(z) {
                Ok(z)
            } else {
                Err(FaultKind::Range)
            }
        }
    }
}

/// The next value as an intensity.
fn intensity(values: &mut Fields) -> Result<u64, FaultKind>
    requires { 0 < length values.old }
    ensures rest { values.new ≡ drop 1 values.old }
    ensures value { IsAnswer (intensity_test (number 0 values.old))
        (unsigned_abs (units (number 0 values.old))) result }
{
    match decimal(values.take_field()) {
        Err(_) => Err(FaultKind::Number),
        Ok(z) => {
            if z < 0 {
                Err(FaultKind::Negative)
            } else if z > MOST_INTENSITY {
                Err(FaultKind::Range)
            } else {
                Ok(z as u64)
            }
        }
    }
}

/// The next value as the number of samples of an area light.
pub fn samples(values: &mut Fields) -> Result<u32, FaultKind>
    requires { 0 < length values.old }
    ensures value { IsAnswer (samples_test (whole_number 0 values.old)) (value (whole_number 0 values.old)) result }
{
    match whole(values.take_field()) {
        Err(_) => Err(FaultKind::Number),
        Ok(n) => {
            if n == 0 || n > MOST_SAMPLES {
                Err(FaultKind::SampleCount)
            } else {
                Ok(n as u32)
            }
        }
    }
}

/// The next three values as a side.
pub fn side(values: &mut Fields) -> Result<Vec3, FaultKind>
    requires { 3 ≤ length values.old }
    ensures rest { OnOk result (values.new ≡ drop 3 values.old) }
    ensures value { IsAnswer (first_kind (side_tests 0 values.old)) (vector_at 0 values.old) result }
    ensures range { IfOk result (Within (10 ^ 14)) }
{
    let x = number(values)?;
    let y = number(values)?;
    let z = number(values)?;
    Ok(Vec3 { x, y, z })
}

/// The next three values as a place or a direction.
pub fn vector(values: &mut Fields) -> Result<Vec3, FaultKind>
    requires { 3 ≤ length values.old }
    ensures rest { OnOk result (values.new ≡ drop 3 values.old) }
    ensures value { IsAnswer (first_kind (vector_tests 0 values.old)) (vector_at 0 values.old) result }
    ensures range { IfOk result (Within 50_000_000) }
{
    let x = coordinate(values)?;
    let y = coordinate(values)?;
    let z = coordinate(values)?;
    Ok(Vec3 { x, y, z })
}

/// The next three values as intensities.
pub fn power(values: &mut Fields) -> Result<Power, FaultKind>
    requires { 3 ≤ length values.old }
    ensures rest { OnOk result (values.new ≡ drop 3 values.old) }
    ensures value { IsAnswer (first_kind (power_tests 0 values.old)) (power_at 0 values.old) result }
{
    let r = intensity(values)?;
    let g = intensity(values)?;
    let b = intensity(values)?;
    Ok(Power { r, g, b })
}
