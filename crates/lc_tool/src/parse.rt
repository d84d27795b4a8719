// Texts under the names by which they were asked for, and the lines on Note where one is refused.
ghost use Rattle.std.specs.Prelude.{◌≤◌, Some, length, IfOk, OnOk};
ghost use Rattle.lc_light.specs.Lights.{AreLights};
ghost use Rattle.lc_mtl.specs.Materials.{AreMaterials};
ghost use Rattle.lc_obj.specs.Meshes.{IsMesh};
ghost use Rattle.lc_job.specs.Jobs.{IsJob};
ghost use Rattle.lc_tool.specs.Audited.{IsRecord};
ghost use Rattle.lc_tool.specs.Lines.{file_limit, record_limit};
ghost use Rattle.lc_tool.specs.Outcome.{job_text, kept_text, library_text, lights_text, mesh_text};
ghost use Rattle.lc_tool.specs.Stopped.{GoesAs, StopsAs, Went};

use crate::note::{note_fault, note_memory, note_missing};
use crate::status::{Source, Stop};
use lc_desk::Desk;
use lc_job::{Job, JobStop, read_job};
use lc_light::{LightStop, Lights, read_lights};
use lc_mtl::{Materials, MtlStop, read_mtl};
use lc_obj::{Mesh, ObjStop, read_obj};
use lc_record::{Record, RecordStop, read_record};
use std::alloc::Global;

/// The job of a text. A refusal is told on Note.
pub fn parse_job<D: Desk>(alloc: Global, name: &str, text: &[u8], desk: &mut D) -> Result<Job, Stop>
    requires { length text.now ≤ file_limit }
    ensures went { GoesAs result (Some (job_text name.now text.now)) (D.state desk.old) (D.state desk.new) }
    ensures valid { IfOk result IsJob }
    ensures stopped { StopsAs result (Some (job_text name.now text.now)) (D.state desk.old) (D.state desk.new) }
{
    match read_job(alloc, text) {
        Ok(job) => Ok(job),
        Err(JobStop::Memory) => {
            note_memory(desk);
            Err(Stop::Memory)
        }
        Err(JobStop::Fault { line, kind }) => {
            note_fault(desk, name, line, kind);
            Err(Stop::Faulty(Source::Job))
        }
        Err(JobStop::Missing { key }) => {
            note_missing(desk, name, key);
            Err(Stop::Faulty(Source::Job))
        }
    }
}

/// The mesh of a text. A refusal is told on Note.
pub fn parse_scene<D: Desk>(
    alloc: Global,
    name: &str,
    text: &[u8],
    desk: &mut D,
) -> Result<Mesh, Stop>
    requires { length text.now ≤ file_limit }
    ensures went { GoesAs result (Some (mesh_text name.now text.now)) (D.state desk.old) (D.state desk.new) }
    ensures valid { IfOk result IsMesh }
    ensures stopped { StopsAs result (Some (mesh_text name.now text.now)) (D.state desk.old) (D.state desk.new) }
{
    match read_obj(alloc, text) {
        Ok(mesh) => Ok(mesh),
        Err(ObjStop::Memory) => {
            note_memory(desk);
            Err(Stop::Memory)
        }
        Err(ObjStop::Fault { line, kind }) => {
            note_fault(desk, name, line, kind);
            Err(Stop::Faulty(Source::Scene))
        }
    }
}

/// The materials of a library's text, after those before. A refusal is told on Note.
pub fn parse_library<D: Desk>(
    alloc: Global,
    name: &str,
    text: &[u8],
    materials: &mut Materials,
    desk: &mut D,
) -> Result<(), Stop>
    requires short { length text.now ≤ file_limit }
    requires materials { AreMaterials materials.old.items }
    ensures went { OnOk result (Went (Some (library_text materials.old.items name.now text.now)) materials.new.items
        (D.state desk.old) (D.state desk.new)) }
    ensures valid { AreMaterials materials.new.items }
    ensures stopped { StopsAs result (Some (library_text materials.old.items name.now text.now))
        (D.state desk.old) (D.state desk.new) }
{
    match read_mtl(alloc, text, materials) {
        Ok(()) => Ok(()),
        Err(MtlStop::Memory) => {
            note_memory(desk);
            Err(Stop::Memory)
        }
        Err(MtlStop::Fault { line, kind }) => {
            note_fault(desk, name, line, kind);
            Err(Stop::Faulty(Source::Library))
        }
    }
}

/// The lights of a text. A refusal is told on Note.
pub fn parse_lights<D: Desk>(
    alloc: Global,
    name: &str,
    seed: u64,
    text: &[u8],
    desk: &mut D,
) -> Result<Lights, Stop>
    requires { length text.now ≤ file_limit }
    ensures went { GoesAs result (Some (lights_text name.now seed text.now)) (D.state desk.old) (D.state desk.new) }
    ensures valid { IfOk result AreLights }
    ensures stopped { StopsAs result (Some (lights_text name.now seed text.now)) (D.state desk.old) (D.state desk.new) }
{
    match read_lights(alloc, text, seed) {
        Ok(lights) => Ok(lights),
        Err(LightStop::Memory) => {
            note_memory(desk);
            Err(Stop::Memory)
        }
        Err(LightStop::Fault { line, kind }) => {
            note_fault(desk, name, line, kind);
            Err(Stop::Faulty(Source::Lights))
        }
    }
}

/// The record of a text. A refusal is told on Note.
pub fn parse_record<D: Desk>(
    alloc: Global,
    name: &str,
    text: &[u8],
    desk: &mut D,
) -> Result<Record, Stop>
    requires { length text.now ≤ record_limit }
    ensures went { GoesAs result (Some (kept_text name.now text.now)) (D.state desk.old) (D.state desk.new) }
    ensures valid { IfOk result IsRecord }
    ensures stopped { StopsAs result (Some (kept_text name.now text.now)) (D.state desk.old) (D.state desk.new) }
{
    match read_record(alloc, text) {
        Ok(kept) => Ok(kept),
        Err(RecordStop::Memory) => {
            note_memory(desk);
            Err(Stop::Memory)
        }
        Err(RecordStop::Fault { line, kind }) => {
            note_fault(desk, name, line, kind);
            Err(Stop::Faulty(Source::Record))
        }
    }
}
