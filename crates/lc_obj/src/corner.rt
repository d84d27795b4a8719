// The corners of a face.
ghost use Rattle.std.specs.Prelude.{◌≡◌, length, Some, None, MatchResult, option_map, slice_index_or};
ghost use Rattle.lc_num.specs.Vectors.{zero_vector};
ghost use Rattle.lc_obj.specs.Corners.{corner_of, corner_tests, index_test, no_uv, optional_test, place_of};
ghost use Rattle.lc_scan.specs.LineTests.{first_kind, IsAnswer};

use crate::fault_kind::FaultKind;
use crate::index::{Index, Indices};
use crate::mesh::Uv;
use crate::tables::Tables;
use lc_num::Vec3;

/// What a corner names: its place, and its texture place and its normal where it names them.
#[derive(Clone, Copy)]
pub struct Corner {
    pub place: Vec3,
    pub uv: Option<Uv>,
    pub normal: Option<Vec3>,
}

fn vector_at(index: Index, given: &[Vec3]) -> Result<Vec3, FaultKind>
    ensures { IsAnswer (index_test (length given.now) index)
        (slice_index_or given.now (place_of (length given.now) index) zero_vector) result }
{
    let at = index.among(given.len())?;
    Ok(given[at])
}

fn uv_at(index: Option<Index>, given: &[Uv]) -> Result<Option<Uv>, FaultKind>
    ensures { MatchResult result
        (λ place. (optional_test (length given.now) index ≡ None)
        × (option_map (λ i. slice_index_or given.now (place_of (length given.now) i) no_uv) index ≡ place))
        (λ kind. optional_test (length given.now) index ≡ Some kind) }
{
    let Some(index) = index else {
        return Ok(None);
    };
    let at = index.among(given.len())?;
    Ok(Some(given[at]))
}

fn normal_at(index: Option<Index>, given: &[Vec3]) -> Result<Option<Vec3>, FaultKind>
    ensures { MatchResult result
        (λ normal. (optional_test (length given.now) index ≡ None)
        × (option_map (λ i. slice_index_or given.now (place_of (length given.now) i) zero_vector) index ≡ normal))
        (λ kind. optional_test (length given.now) index ≡ Some kind) }
{
    let Some(index) = index else {
        return Ok(None);
    };
    let normal = vector_at(index, given)?;
    Ok(Some(normal))
}

/// What a field of a face names.
#[tactic(auto, unfolding(crate::specs::Corners::corner_tests, crate::specs::Corners::corner_of))]
pub fn corner_in(field: &[u8], given: &Tables) -> Result<Corner, FaultKind>
    ensures { IsAnswer (first_kind (corner_tests given.now field.now)) (corner_of given.now field.now) result }
{
    let Some(indices) = Indices::of(field) else {
        return Err(FaultKind::Number);
    };
    let place = vector_at(indices.place, given.places.as_slice())?;
    let uv = uv_at(indices.uv, given.uvs.as_slice())?;
    let normal = normal_at(indices.normal, given.normals.as_slice())?;
    Ok(Corner { place, uv, normal })
}
