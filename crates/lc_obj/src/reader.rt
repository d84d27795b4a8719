// An OBJ file read line by line.
ghost use Rattle.std.specs.Prelude.{◌≡◌, ◌≤◌, length, None, IfOk, IfErr};
ghost use Rattle.lc_obj.specs.Meshes.{IsMesh};
ghost use Rattle.lc_obj.specs.ObjFile.{fault_in, mesh, IsStop};

use crate::mesh::Mesh;
use crate::reading::Reading;
use crate::stop::{LineStop, ObjStop};
use lc_scan::{Lines, next_spoken};
use std::alloc::Global;

/// The mesh of an OBJ file of at most 512 MiB, or its first fault.
pub fn read_obj(alloc: Global, bytes: &[u8]) -> Result<Mesh, ObjStop>
    requires { length bytes.now ≤ 536_870_912 }

    // A mesh comes only where no line is faulty, and then it is the text's.
    ensures ok { IfOk result (λ read. (fault_in bytes.now ≡ None) × (read ≡ mesh bytes.now)) }

    // A fault is the first one.
    ensures fault { IfErr result (λ stop. IsStop stop (fault_in bytes.now)) }

    // The mesh is in its ranges.
    ensures valid { IfOk result IsMesh }
{
    let mut reading = Reading::new(alloc);
    let mut lines = Lines::new(bytes);
    while let Some((number, line)) = next_spoken(&mut lines) {
        match reading.take(alloc, line) {
            Ok(()) => {}
            Err(LineStop::Memory) => return Err(ObjStop::Memory),
            Err(LineStop::Fault(kind)) => {
                return Err(ObjStop::Fault {
                    line: number,
                    kind: kind.number(),
                });
            }
        }
    }
    Ok(reading.mesh)
}
