// The faces of a line: a fan of triangles.
ghost use Rattle.std.specs.Prelude.{◌≡◌, ◌-◌, ◌+◌, ◌<◌, ◌≤◌, [], ◌∷◌, ◌++◌, length, drop, filter, None, IfErr, IfOk, OnOk};
ghost use Rattle.lc_geom.specs.Triangles.{IsTri};
ghost use Rattle.lc_obj.specs.Corners.{AreTables, corner_of, corner_tests};
ghost use Rattle.lc_scan.specs.Fields.{field_at};
ghost use Rattle.lc_scan.specs.LineTests.{first_kind, IsAnswer, IsTested};
ghost use Rattle.lc_obj.specs.ObjLine.{corners_tests, face, face_tests, faces_in, is_kept, three_normals, three_uvs};
ghost use Rattle.lc_obj.specs.Readings.{IsLineStop};

use crate::corner::{Corner, corner_in};
use crate::fault_kind::FaultKind;
use crate::mesh::{Face, Triple, Uv, UvTriple};
use crate::stop::LineStop;
use crate::tables::Tables;
use lc_geom::{Tri, is_flat};
use lc_num::{List, Memory, Vec3};
use lc_scan::Fields;

/// The most triangles of a file.
const MOST_TRIANGLES: usize = 1_000_000;

fn three_normals(a: Option<Vec3>, b: Option<Vec3>, c: Option<Vec3>) -> Option<Triple>
    ensures { result ≡ three_normals a b c }
{
    Some(Triple {
        a: a?,
        b: b?,
        c: c?,
    })
}

fn three_uvs(a: Option<Uv>, b: Option<Uv>, c: Option<Uv>) -> Option<UvTriple>
    ensures { result ≡ three_uvs a b c }
{
    Some(UvTriple {
        a: a?,
        b: b?,
        c: c?,
    })
}

fn face(name: u32, a: &Corner, b: &Corner, c: &Corner) -> Face
    ensures { result ≡ face name a.now (b.now, c.now) }
{
    Face {
        tri: Tri {
            a: a.place,
            b: b.place,
            c: c.place,
        },
        normals: three_normals(a.normal, b.normal, c.normal),
        uvs: three_uvs(a.uv, b.uv, c.uv),
        name,
    }
}

/// Adds a face, unless it is flat.
fn add(faces: &mut List<Face>, face: Face) -> Result<(), Memory>
    requires { IsTri face.tri }
    ensures { OnOk result (faces.new ≡ faces.old ++ filter is_kept (face ∷ [])) }
{
    if !is_flat(&face.tri) {
        faces.push(face)?;
    }
    Ok(())
}

/// The next corner.
fn corner(values: &mut Fields, given: &Tables) -> Result<Corner, FaultKind>
    requires { 0 < length values.old }
    ensures rest { values.new ≡ drop 1 values.old }
    ensures value { IsAnswer (first_kind (corner_tests given.now (field_at 0 values.old)))
        (corner_of given.now (field_at 0 values.old)) result }
{
    corner_in(values.take_field(), given)
}

fn test_corners(values: &mut Fields, given: &Tables) -> Result<(), FaultKind>
    ensures { IsTested (first_kind (corners_tests given.now values.old)) result }
{
    while let Some(value) = values.next_field() {
        corner_in(value, given)?;
    }
    Ok(())
}

/// Adds the fan of triangles around the first corner, flat ones left out.
fn add_fan(
    values: &mut Fields,
    given: &Tables,
    name: u32,
    faces: &mut List<Face>,
) -> Result<(), LineStop>
    requires corners { 3 ≤ length values.old }
    requires given { AreTables given.now }
    ensures ok { OnOk result ((first_kind (corners_tests given.now values.old) ≡ None)
        × (faces.new ≡ faces.old ++ faces_in given.now name values.old)) }
    ensures fault { IfErr result (λ stop. IsLineStop stop (first_kind (corners_tests given.now values.old))) }
{
    let first = corner(values, given)?;
    let mut previous = corner(values, given)?;
    while let Some(value) = values.next_field() {
        let next = corner_in(value, given)?;
        add(faces, face(name, &first, &previous, &next))?;
        previous = next;
    }
    Ok(())
}

/// Adds the triangles of a face of so many corners after so many triangles, and gives their number, flat ones counted.
pub fn add_face(
    values: &mut Fields,
    value_count: usize,
    given: &Tables,
    name: u32,
    so_far: usize,
    faces: &mut List<Face>,
) -> Result<usize, LineStop>
    requires count { value_count ≡ length values.old }
    requires given { AreTables given.now }
    requires few { so_far ≤ 1_000_000 }
    ensures ok { OnOk result ((first_kind (face_tests given.now so_far values.old) ≡ None)
        × (faces.new ≡ faces.old ++ faces_in given.now name values.old)) }
    ensures count { IfOk result (λ triangles. (triangles ≡ length values.old - 2) × (so_far + triangles ≤ 1_000_000)) }
    ensures fault { IfErr result (λ stop. IsLineStop stop (first_kind (face_tests given.now so_far values.old))) }
{
    if value_count < 3 {
        return Err(LineStop::Fault(FaultKind::Face));
    }
    let triangles = value_count - 2;
    if triangles > MOST_TRIANGLES - so_far {
        test_corners(values, given)?;
        return Err(LineStop::Fault(FaultKind::Triangles));
    }
    add_fan(values, given, name, faces)?;
    Ok(triangles)
}
