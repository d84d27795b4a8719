// Made scenes.
ghost use Rattle.std.specs.Prelude.{◌≡◌, ◌≤◌, IfOk};
ghost use Rattle.lc_make.specs.Made.{AreShort, job_bytes, made_of, mtl_bytes};

use crate::boxes::obj_text;
use crate::lights::lights_text;
use crate::pieces::push_number;
use lc_num::{Memory, Text};
use std::alloc::Global;

/// The texts of a made scene, whose names are `made.obj`, `made.mtl` and `made.lights` in one another.
#[derive(Debug, Drop)]
pub struct Made {
    /// The job, which asks for `made.ppm` and `made.lcb`.
    pub job: Text,
    /// The mesh.
    pub obj: Text,
    /// The library of the mesh's materials.
    pub mtl: Text,
    /// The lights.
    pub lights: Text,
}

#[tactic(auto, unfolding(crate::specs::Made::job_bytes))]
fn job_text(alloc: Global, n: u32) -> Result<Text, Memory>
    ensures value { IfOk result (λ job. job ≡ job_bytes n) }
{
    let mut job = Text::new(alloc);
    job.append(b"scene made.obj\nlights made.lights\npicture made.ppm\nbounds made.lcb\n")?;
    job.append(b"eye 0 12 30\nat 0 0 0\nsize 32 24\ncut 100\n")?;
    job.append(b"seed ")?;
    push_number(&mut job, n)?;
    job.append(b"\n")?;
    Ok(job)
}

fn mtl_text(alloc: Global) -> Result<Text, Memory>
    ensures value { IfOk result (λ mtl. mtl ≡ mtl_bytes) }
{
    let mut mtl = Text::new(alloc);
    mtl.append(
        b"newmtl floor\nKd 0.7 0.7 0.7\nnewmtl box\nKd 0.5 0.3 0.2\nKs 0.2 0.2 0.2\nNs 20\n",
    )?;
    Ok(mtl)
}

/// The texts of the scene of a number, enough to render it: a floor with 1 to 40 boxes, 1000 to 4999 point lights, a
/// panel and a sun. The same number makes the same texts.
#[tactic(auto, unfolding(crate::specs::Made::made_of))]
pub fn make(alloc: Global, n: u32) -> Result<Made, Memory>
    requires { n ≤ 9999 }
    ensures value { IfOk result (λ made. made ≡ made_of n) }

    // None of the texts has more than 256 KiB.
    ensures short { IfOk result AreShort }
{
    Ok(Made {
        job: job_text(alloc, n)?,
        obj: obj_text(alloc, n)?,
        mtl: mtl_text(alloc)?,
        lights: lights_text(alloc, n)?,
    })
}
