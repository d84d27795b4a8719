// Reads of files, and the lines on Note where one is refused.
ghost use Rattle.std.specs.Prelude.{◌≤◌, [], length, map, IfOk, OnOk};
ghost use Rattle.lc_light.specs.Lights.{AreLights};
ghost use Rattle.lc_mtl.specs.Materials.{AreMaterials};
ghost use Rattle.lc_obj.specs.Meshes.{IsMesh};
ghost use Rattle.lc_job.specs.Jobs.{IsJob};
ghost use Rattle.lc_tool.specs.Audited.{IsRecord};
ghost use Rattle.lc_tool.specs.Course.{told};
ghost use Rattle.lc_tool.specs.Outcome.{beside as beside_name, job_of, kept_of, libraries_of, library_of, lights_of};
ghost use Rattle.lc_tool.specs.Outcome.{mesh_of, text_of};
ghost use Rattle.lc_tool.specs.Stopped.{ReadsAs, StopsReading, Went};

use crate::names::beside;
use crate::note::{note_absent, note_long, note_memory, note_read_fault};
use crate::parse::{parse_job, parse_library, parse_lights, parse_record, parse_scene};
use crate::status::Stop;
use lc_desk::{Desk, ReadStop};
use lc_job::Job;
use lc_light::Lights;
use lc_mtl::Materials;
use lc_num::Name;
use lc_obj::Mesh;
use lc_record::Record;
use std::alloc::Global;

/// The most bytes of a file that is read, but of a record: 128 MiB.
const FILE_LIMIT: u64 = 134_217_728;

/// The most bytes of a record that is read: 512 MiB.
const RECORD_LIMIT: u64 = 536_870_912;

/// Reads a file of at most so many bytes. A refusal is told on Note.
pub fn read_text<D: Desk>(
    alloc: Global,
    name: &str,
    limit: u64,
    desk: &mut D,
) -> Result<Vec<u8>, Stop>
    ensures went { IfOk result (λ text. Went (told (text_of limit name.now) (D.state desk.old).held) text.items
        (D.state desk.old) (D.state desk.new)) }
    ensures short { IfOk result (λ text. length text.items ≤ limit) }
    ensures stopped { StopsReading result (text_of limit name.now) (D.state desk.old) (D.state desk.new) }
{
    let mut text = Vec::new(alloc);
    match desk.read(name, limit, &mut text) {
        Ok(()) => Ok(text),
        Err(ReadStop::Absent) => {
            note_absent(desk, name);
            Err(Stop::Absent)
        }
        Err(ReadStop::Long) => {
            note_long(desk, name, limit);
            Err(Stop::Long)
        }
        Err(ReadStop::Failed) => {
            note_read_fault(desk, name);
            Err(Stop::ReadFault)
        }
        Err(ReadStop::Memory) => {
            note_memory(desk);
            Err(Stop::Memory)
        }
    }
}

/// Reads the job of a file. A refusal is told on Note.
pub fn read_job_file<D: Desk>(alloc: Global, name: &str, desk: &mut D) -> Result<Job, Stop>
    ensures went { ReadsAs result (job_of name.now) (D.state desk.old) (D.state desk.new) }
    ensures valid { IfOk result IsJob }
    ensures stopped { StopsReading result (job_of name.now) (D.state desk.old) (D.state desk.new) }
{
    let text = read_text(alloc, name, FILE_LIMIT, desk)?;
    parse_job(alloc, name, &text, desk)
}

/// Reads the mesh of a file. A refusal is told on Note.
pub fn read_scene_file<D: Desk>(alloc: Global, name: &str, desk: &mut D) -> Result<Mesh, Stop>
    ensures went { ReadsAs result (mesh_of name.now) (D.state desk.old) (D.state desk.new) }
    ensures valid { IfOk result IsMesh }
    ensures stopped { StopsReading result (mesh_of name.now) (D.state desk.old) (D.state desk.new) }
{
    let text = read_text(alloc, name, FILE_LIMIT, desk)?;
    parse_scene(alloc, name, &text, desk)
}

/// Reads the materials of a library after those before. A refusal is told on Note.
fn read_library<D: Desk>(
    alloc: Global,
    name: &str,
    materials: &mut Materials,
    desk: &mut D,
) -> Result<(), Stop>
    requires { AreMaterials materials.old.items }
    ensures went { OnOk result (Went
        (told (library_of materials.old.items name.now) (D.state desk.old).held) materials.new.items
        (D.state desk.old) (D.state desk.new)) }
    ensures valid { AreMaterials materials.new.items }
    ensures stopped { StopsReading result (library_of materials.old.items name.now)
        (D.state desk.old) (D.state desk.new) }
{
    let text = read_text(alloc, name, FILE_LIMIT, desk)?;
    parse_library(alloc, name, &text, materials, desk)
}

/// Reads a library that a scene names. A refusal is told on Note.
fn read_library_beside<D: Desk>(
    alloc: Global,
    scene: &str,
    library: &str,
    materials: &mut Materials,
    desk: &mut D,
) -> Result<(), Stop>
    requires { AreMaterials materials.old.items }
    ensures went { OnOk result (Went
        (told (library_of materials.old.items (beside_name scene.now library.now)) (D.state desk.old).held) materials.new.items
        (D.state desk.old) (D.state desk.new)) }
    ensures valid { AreMaterials materials.new.items }
    ensures stopped { StopsReading result (library_of materials.old.items (beside_name scene.now library.now))
        (D.state desk.old) (D.state desk.new) }
{
    match beside(alloc, scene, library) {
        Ok(name) => read_library(alloc, name.as_str(), materials, desk),
        Err(_) => {
            note_memory(desk);
            Err(Stop::Memory)
        }
    }
}

/// Reads the libraries that a scene names, one after another. A refusal is told on Note.
pub fn read_libraries<D: Desk>(
    alloc: Global,
    scene: &str,
    libraries: &[Name],
    desk: &mut D,
) -> Result<Materials, Stop>
    ensures went { IfOk result (λ materials. Went
        (told (libraries_of (map (beside_name scene.now) libraries.now) []) (D.state desk.old).held) materials.items
        (D.state desk.old) (D.state desk.new)) }
    ensures valid { IfOk result (λ materials. AreMaterials materials.items) }
    ensures stopped { StopsReading result (libraries_of (map (beside_name scene.now) libraries.now) [])
        (D.state desk.old) (D.state desk.new) }
{
    let mut materials = Materials::new(alloc);
    for library in libraries {
        read_library_beside(alloc, scene, library.as_str(), &mut materials, desk)?;
    }
    Ok(materials)
}

/// Reads the lights of a file. A refusal is told on Note.
pub fn read_light_file<D: Desk>(
    alloc: Global,
    name: &str,
    seed: u64,
    desk: &mut D,
) -> Result<Lights, Stop>
    ensures went { ReadsAs result (lights_of name.now seed) (D.state desk.old) (D.state desk.new) }
    ensures valid { IfOk result AreLights }
    ensures stopped { StopsReading result (lights_of name.now seed) (D.state desk.old) (D.state desk.new) }
{
    let text = read_text(alloc, name, FILE_LIMIT, desk)?;
    parse_lights(alloc, name, seed, &text, desk)
}

/// Reads the record of a file. A refusal is told on Note.
pub fn read_record_file<D: Desk>(alloc: Global, name: &str, desk: &mut D) -> Result<Record, Stop>
    ensures went { ReadsAs result (kept_of name.now) (D.state desk.old) (D.state desk.new) }
    ensures valid { IfOk result IsRecord }
    ensures stopped { StopsReading result (kept_of name.now) (D.state desk.old) (D.state desk.new) }
{
    let text = read_text(alloc, name, RECORD_LIMIT, desk)?;
    parse_record(alloc, name, &text, desk)
}
