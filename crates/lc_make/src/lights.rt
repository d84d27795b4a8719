// The lights of a made scene.
ghost use Rattle.std.specs.Prelude.{◌≡◌, ◌<◌, ◌++◌, OnOk, IfOk};
ghost use Rattle.lc_make.specs.Made.{light_bytes, light_x, light_y, light_z, lights_bytes};

use crate::pieces::{Place, push_place};
use lc_num::{Memory, Text};
use std::alloc::Global;

/// Where a point light is.
fn light_place(i: u32) -> Place
    requires { i < 5000 }
    ensures x { result.x ≡ light_x i }
    ensures y { result.y ≡ light_y i }
    ensures z { result.z ≡ light_z i }
{
    Place {
        x: (37 * i % 41) as i32 - 20,
        y: (5 + i % 7) as i32,
        z: (29 * i % 43) as i32 - 21,
    }
}

/// Appends the line of a point light.
#[tactic(auto, unfolding(crate::specs::Made::light_bytes))]
fn push_light(into: &mut Text, i: u32) -> Result<(), Memory>
    requires { i < 5000 }
    ensures ok { OnOk result (into.new ≡ into.old ++ light_bytes i) }
{
    into.append(b"point ")?;
    push_place(into, light_place(i))?;
    into.append(b" 0.1 0.1 0.1\n")
}

/// The point lights, and then a panel and a sun.
#[tactic(auto, using(crate::proofs::LoopLemmas::pieces_more), unfolding(crate::specs::Made::lights_bytes))]
pub(crate) fn lights_text(alloc: Global, n: u32) -> Result<Text, Memory>
    ensures value { IfOk result (λ lights. lights ≡ lights_bytes n) }
{
    let mut lights = Text::new(alloc);
    for i in 0..1000 + n % 4000 {
        push_light(&mut lights, i)?;
    }
    lights.append(b"area -2 15 -2 4 0 0 0 0 4 20 20 20 512\n")?;
    lights.append(b"sun 1 2 1 0.2 0.2 0.2\n")?;
    Ok(lights)
}
