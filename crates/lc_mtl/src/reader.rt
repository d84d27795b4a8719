// A material library read line by line.
ghost use Rattle.std.specs.Prelude.{◌≡◌, ◌≤◌, length, None, OnErr, OnOk, IfOk, IfErr};
ghost use Rattle.lc_scan.specs.Spoken.{spoken};
ghost use Rattle.lc_mtl.specs.Materials.{AreMaterials};
ghost use Rattle.lc_mtl.specs.MtlFile.{fault_in, materials, materials_in, IsStop};

use crate::drafts::Drafts;
use crate::line::entry_in;
use crate::material::{Material, Materials};
use crate::stop::MtlStop;
use lc_num::List;
use lc_scan::{Lines, next_spoken, rest};
use std::alloc::Global;

/// The materials of a text, where `held` stood before it.
fn read_materials(alloc: Global, bytes: &[u8], held: usize) -> Result<List<Material>, MtlStop>
    requires size { length bytes.now ≤ 536_870_912 }
    requires few { held ≤ 4096 }
    ensures ok { IfOk result (λ read. (fault_in held bytes.now ≡ None) × (read ≡ materials_in (spoken bytes.now))) }
    ensures fault { IfErr result (λ stop. IsStop stop (fault_in held bytes.now)) }
{
    let mut drafts = Drafts::new(alloc);
    let mut lines = Lines::new(bytes);
    while let Some((number, line)) = next_spoken(&mut lines) {
        match entry_in(line, held, drafts.len()) {
            Ok(entry) => drafts.take(alloc, entry, rest(line))?,
            Err(kind) => {
                return Err(MtlStop::Fault {
                    line: number,
                    kind: kind.number(),
                });
            }
        }
    }
    let read = drafts.finish()?;
    Ok(read)
}

/// Adds the materials of a library of at most 512 MiB to those of the libraries before it, or answers its first fault.
///
/// `newmtl` begins a material with a name, `Kd 0.8`, `Ks 0` and `Ns 0`. `Kd` and `Ks` give it a colour, by one number
/// for all channels or by three, and `Ns` an exponent. Of each the last one holds. A colour above 1 becomes 1, and an
/// exponent becomes the nearest whole number up to 1000. Lines of other keywords are passed over.
#[tactic(auto, using(crate::proofs::ValidMaterials::materials_valid), unfolding(crate::specs::MtlFile::materials))]
pub fn read_mtl(alloc: Global, bytes: &[u8], into: &mut Materials) -> Result<(), MtlStop>
    requires size { length bytes.now ≤ 536_870_912 }
    requires held { AreMaterials into.old.items }

    // Materials are added only where no line is faulty, and then they are the text's.
    ensures ok { OnOk result ((fault_in (length into.old.items) bytes.now ≡ None)
        × (into.new.items ≡ materials into.old.items bytes.now)) }

    // A fault is the first one.
    ensures fault { IfErr result (λ stop. IsStop stop (fault_in (length into.old.items) bytes.now)) }

    // A refused text adds nothing.
    ensures unchanged { OnErr result (into.new ≡ into.old) }

    // The materials are in their ranges.
    ensures valid { AreMaterials into.new.items }
{
    let read = read_materials(alloc, bytes, into.items.len())?;
    into.items.append(read)?;
    Ok(())
}
