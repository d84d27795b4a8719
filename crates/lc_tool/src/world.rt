// The world of a job: what is seen and what lights it.
ghost use Rattle.std.specs.Prelude.{◌≡◌, IfOk, Ok, Some};
ghost use Rattle.lc_light.specs.Lights.{AreLights};
ghost use Rattle.lc_mtl.specs.Materials.{AreMaterials};
ghost use Rattle.lc_obj.specs.Meshes.{IsMesh};
ghost use Rattle.lc_job.specs.Jobs.{IsJob};
ghost use Rattle.lc_tool.specs.Course.{at_once, told};
ghost use Rattle.lc_tool.specs.Outcome.{built, furnished, lit, world_by, world_of};
ghost use Rattle.lc_tool.specs.Stopped.{GoesAs, ReadsAs, StopsAs, StopsReading};

use crate::note::note_memory;
use crate::read::{read_job_file, read_libraries, read_light_file, read_scene_file};
use crate::status::Stop;
use lc_desk::Desk;
use lc_job::Job;
use lc_light::Lights;
use lc_mtl::Materials;
use lc_obj::Mesh;
use lc_sample::Scene;
use std::alloc::Global;

/// A job, and the scene that it names.
#[derive(Drop)]
pub struct World {
    pub job: Job,
    pub scene: Scene,
}

/// The world of a job, of a mesh, of materials and of lights. Want of memory is told on Note.
pub fn join_world<D: Desk>(
    alloc: Global,
    job: Job,
    mesh: Mesh,
    materials: &Materials,
    lights: Lights,
    desk: &mut D,
) -> Result<World, Stop>
    requires mesh { IsMesh mesh }
    requires materials { AreMaterials materials.now.items }
    requires lights { AreLights lights }
    ensures went { GoesAs result (Some (at_once (Ok (world_by job mesh materials.now.items lights))))
        (D.state desk.old) (D.state desk.new) }
    ensures same { IfOk result (λ world. world.job ≡ job) }
    ensures stopped { StopsAs result (Some (at_once (Ok (world_by job mesh materials.now.items lights))))
        (D.state desk.old) (D.state desk.new) }
{
    match Scene::join(alloc, mesh, materials, lights, job.seed) {
        Ok(scene) => Ok(World { job, scene }),
        Err(_) => {
            note_memory(desk);
            Err(Stop::Memory)
        }
    }
}

/// The world of a mesh and of materials, with the lights of the job. A refusal is told on Note.
fn light_scene<D: Desk>(
    alloc: Global,
    job: Job,
    mesh: Mesh,
    materials: &Materials,
    desk: &mut D,
) -> Result<World, Stop>
    requires mesh { IsMesh mesh }
    requires materials { AreMaterials materials.now.items }
    ensures went { ReadsAs result (lit job mesh materials.now.items) (D.state desk.old) (D.state desk.new) }
    ensures same { IfOk result (λ world. world.job ≡ job) }
    ensures stopped { StopsReading result (lit job mesh materials.now.items) (D.state desk.old) (D.state desk.new) }
{
    let lights = read_light_file(alloc, job.lights.as_str(), job.seed, desk)?;
    join_world(alloc, job, mesh, materials, lights, desk)
}

/// The world of a mesh, with the libraries that it names. A refusal is told on Note.
fn furnish_scene<D: Desk>(alloc: Global, job: Job, mesh: Mesh, desk: &mut D) -> Result<World, Stop>
    requires { IsMesh mesh }
    ensures went { ReadsAs result (furnished job mesh) (D.state desk.old) (D.state desk.new) }
    ensures same { IfOk result (λ world. world.job ≡ job) }
    ensures stopped { StopsReading result (furnished job mesh) (D.state desk.old) (D.state desk.new) }
{
    let materials = read_libraries(alloc, job.scene.as_str(), mesh.libs.as_slice(), desk)?;
    light_scene(alloc, job, mesh, &materials, desk)
}

/// The world of a job. A refusal is told on Note.
fn build_scene<D: Desk>(alloc: Global, job: Job, desk: &mut D) -> Result<World, Stop>
    ensures went { ReadsAs result (built job) (D.state desk.old) (D.state desk.new) }
    ensures same { IfOk result (λ world. world.job ≡ job) }
    ensures stopped { StopsReading result (built job) (D.state desk.old) (D.state desk.new) }
{
    let mesh = read_scene_file(alloc, job.scene.as_str(), desk)?;
    furnish_scene(alloc, job, mesh, desk)
}

/// Reads the world of a job's file. A refusal is told on Note.
pub fn read_world<D: Desk>(alloc: Global, name: &str, desk: &mut D) -> Result<World, Stop>
    ensures went { ReadsAs result (world_of name.now) (D.state desk.old) (D.state desk.new) }
    ensures valid { IfOk result (λ world. IsJob world.job) }
    ensures stopped { StopsReading result (world_of name.now) (D.state desk.old) (D.state desk.new) }
{
    let job = read_job_file(alloc, name, desk)?;
    build_scene(alloc, job, desk)
}
