// The numbers of a line, one after the other.
ghost use Rattle.std.specs.Prelude.{◌≡◌, ◌<◌, ◌≤◌, length, drop, IfOk, unsigned_abs};
ghost use Rattle.lc_num.specs.Vectors.{Within};
ghost use Rattle.lc_scan.specs.Fields.{field_at};
ghost use Rattle.lc_scan.specs.LineTests.{first_kind, IsAnswer};
ghost use Rattle.lc_obj.specs.ObjLine.{coordinate_test, coordinate_tests, number, number_or_0, number_test, number_tests, optional_number_test, uv, uv_tests, vector, vector_tests};

use crate::fault_kind::FaultKind;
use crate::mesh::Uv;
use lc_num::Vec3;
use lc_scan::{Fields, decimal, is_coordinate};

/// The most places, texture places or normals of a file.
const MOST_ITEMS: usize = 1_000_000;

fn coordinate(values: &mut Fields) -> Result<i64, FaultKind>
    requires { 0 < length values.old }
    ensures rest { values.new ≡ drop 1 values.old }
    ensures value { IsAnswer (coordinate_test (field_at 0 values.old)) (number 0 values.old) result }
    ensures range { IfOk result (λ z. unsigned_abs z ≤ 50_000_000) }
{
    match decimal(values.take_field()) {
        Err(_) => Err(FaultKind::Number),
        Ok(z) => {
            if is_coordinate(z) {
                Ok(z)
            } else {
                Err(FaultKind::Number)
            }
        }
    }
}

fn number(values: &mut Fields) -> Result<i64, FaultKind>
    requires { 0 < length values.old }
    ensures rest { values.new ≡ drop 1 values.old }
    ensures value { IsAnswer (number_test (field_at 0 values.old)) (number 0 values.old) result }
{
    match decimal(values.take_field()) {
        Err(_) => Err(FaultKind::Number),
        Ok(z) => Ok(z),
    }
}

/// The next value as a number, or 0 where there is none.
fn number_or_0(values: &mut Fields) -> Result<i64, FaultKind>
    ensures { IsAnswer (optional_number_test values.old) (number_or_0 values.old) result }
{
    let Some(value) = values.next_field() else {
        return Ok(0);
    };
    match decimal(value) {
        Err(_) => Err(FaultKind::Number),
        Ok(z) => Ok(z),
    }
}

#[tactic(auto, unfolding(crate::specs::ObjLine::vector))]
fn vector(values: &mut Fields) -> Result<Vec3, FaultKind>
    requires { 3 ≤ length values.old }
    ensures value { IsAnswer (first_kind (coordinate_tests values.old)) (vector values.old) result }
    ensures range { IfOk result (Within 50_000_000) }
{
    let x = coordinate(values)?;
    let y = coordinate(values)?;
    let z = coordinate(values)?;
    Ok(Vec3 { x, y, z })
}

#[tactic(auto, unfolding(crate::specs::ObjLine::uv))]
fn uv(values: &mut Fields) -> Result<Uv, FaultKind>
    requires { 1 ≤ length values.old }
    ensures { IsAnswer (first_kind (number_tests values.old)) (uv values.old) result }
{
    let u = number(values)?;
    let v = number_or_0(values)?;
    Ok(Uv { u, v })
}

/// The place or direction of so many values, after so many of its kind.
#[tactic(auto, unfolding(crate::specs::ObjLine::vector_tests))]
pub fn vector_after(
    so_far: usize,
    values: &mut Fields,
    value_count: usize,
) -> Result<Vec3, FaultKind>
    requires count { value_count ≡ length values.old }
    requires few { so_far ≤ 1_000_000 }
    ensures value { IsAnswer (first_kind (vector_tests so_far values.old)) (vector values.old) result }
    ensures range { IfOk result (Within 50_000_000) }
    ensures room { IfOk result (λ _. so_far < 1_000_000) }
{
    if value_count < 3 {
        return Err(FaultKind::Words);
    }
    let v = vector(values)?;
    if so_far == MOST_ITEMS {
        return Err(FaultKind::Vertices);
    }
    Ok(v)
}

/// The texture place of so many values, after so many.
#[tactic(auto, unfolding(crate::specs::ObjLine::uv_tests))]
pub fn uv_after(so_far: usize, values: &mut Fields, value_count: usize) -> Result<Uv, FaultKind>
    requires count { value_count ≡ length values.old }
    requires few { so_far ≤ 1_000_000 }
    ensures value { IsAnswer (first_kind (uv_tests so_far values.old)) (uv values.old) result }
    ensures room { IfOk result (λ _. so_far < 1_000_000) }
{
    if value_count == 0 {
        return Err(FaultKind::Words);
    }
    let place = uv(values)?;
    if so_far == MOST_ITEMS {
        return Err(FaultKind::Vertices);
    }
    Ok(place)
}
