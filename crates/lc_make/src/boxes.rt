// The mesh of a made scene: its floor and its boxes.
ghost use Rattle.std.specs.Prelude.{◌≡◌, ◌<◌, ◌≤ℤ◌, pos, ◌++◌, OnOk, IfOk};
ghost use Rattle.lc_make.specs.Made.{box_bytes, box_x, box_z, corner_bytes, obj_bytes, square_bytes};

use crate::pieces::{Place, push_place};
use lc_num::{Memory, Text};
use std::alloc::Global;

/// Appends the line of a corner.
#[tactic(auto, unfolding(crate::specs::Made::corner_bytes))]
fn push_corner(into: &mut Text, place: Place) -> Result<(), Memory>
    ensures ok { OnOk result (into.new ≡ into.old ++ corner_bytes place.x place.y place.z) }
{
    into.append(b"v ")?;
    push_place(into, place)?;
    into.append(b"\n")
}

/// Appends the corners of the square of side 1 that begins at a place.
#[tactic(auto, unfolding(crate::specs::Made::square_bytes))]
fn push_square(into: &mut Text, place: Place) -> Result<(), Memory>
    requires x { place.x ≤ℤ pos 9 }
    requires z { place.z ≤ℤ pos 11 }
    ensures ok { OnOk result (into.new ≡ into.old ++ square_bytes place.x place.y place.z) }
{
    let Place { x, y, z } = place;
    push_corner(into, place)?;
    push_corner(into, Place { x: x + 1, y, z })?;
    push_corner(
        into,
        Place {
            x: x + 1,
            y,
            z: z + 1,
        },
    )?;
    push_corner(into, Place { x, y, z: z + 1 })
}

/// Where a box stands.
fn box_place(k: u32) -> Place
    requires { k < 40 }
    ensures x { result.x ≡ box_x k }
    ensures y { result.y ≡ pos 0 }
    ensures z { result.z ≡ box_z k }
{
    Place {
        x: (7 * k % 19) as i32 - 9,
        y: 0,
        z: (11 * k % 23) as i32 - 11,
    }
}

/// Appends a box.
#[tactic(auto, unfolding(crate::specs::Made::box_bytes))]
fn push_box(into: &mut Text, k: u32) -> Result<(), Memory>
    requires { k < 40 }
    ensures ok { OnOk result (into.new ≡ into.old ++ box_bytes k) }
{
    let bottom = box_place(k);
    let top = Place {
        y: (1 + k % 3) as i32,
        ..bottom
    };
    push_square(into, bottom)?;
    push_square(into, top)?;
    into.append(
        b"f -8 -7 -6 -5\nf -4 -3 -2 -1\nf -8 -7 -3 -4\nf -7 -6 -2 -3\nf -6 -5 -1 -2\nf -5 -8 -4 -1\n",
    )
}

/// The floor, and the boxes on it.
#[tactic(auto, using(crate::proofs::LoopLemmas::pieces_more), unfolding(crate::specs::Made::obj_bytes))]
pub(crate) fn obj_text(alloc: Global, n: u32) -> Result<Text, Memory>
    ensures value { IfOk result (λ obj. obj ≡ obj_bytes n) }
{
    let mut obj = Text::new(alloc);
    obj.append(
        b"mtllib made.mtl\nusemtl floor\nv -40 0 -40\nv 40 0 -40\nv 40 0 40\nv -40 0 40\nf 1 2 3 4\nusemtl box\n",
    )?;
    for k in 0..1 + n % 40 {
        push_box(&mut obj, k)?;
    }
    Ok(obj)
}
