// Names of files.
ghost use Rattle.std.specs.Prelude.{◌≡◌, IfOk};
ghost use Rattle.std.specs.String.{string_bytes};
ghost use Rattle.lc_tool.specs.Outcome.{beside, folder_of};

use lc_num::Memory;
use std::alloc::Global;

/// The name up to and including its last `/`.
fn folder_of(name: &str) -> &str
    ensures { result.now ≡ folder_of name.now }
{
    match name.rfind('/') {
        None => "",
        Some(at) => &name[..at + 1],
    }
}

/// The file name of a library that a scene names: it is looked for beside the scene, but one that begins with `/`
/// stands alone.
#[tactic(auto, unfolding(crate::specs::Outcome::beside))]
pub fn beside(alloc: Global, scene: &str, library: &str) -> Result<String, Memory>
    ensures { IfOk result (λ name. string_bytes name ≡ beside scene.now library.now) }
{
    let mut name = String::new(alloc);
    if !library.starts_with('/') {
        name.push_str(folder_of(scene))?;
    }
    name.push_str(library)?;
    Ok(name)
}
