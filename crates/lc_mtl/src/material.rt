// Materials, and where a name stands among them.
ghost use Rattle.std.specs.Prelude.{◌≡◌, ◌≤◌, [], length, IfOk};
ghost use Rattle.lc_mtl.specs.Materials.{AreMaterials, find};
ghost use Rattle.lc_mtl.specs.Settings.{grey, material};
ghost use Rattle.lc_mtl.specs.Drafts.{set};

use crate::entry::Setting;
use lc_num::{Colour, List, Memory, Text};
use std::alloc::Global;

/// How a surface sends light back.
#[derive(Debug, Drop)]
pub struct Material {
    pub name: Text,
    /// The diffuse share, at most 10000 in each channel.
    pub kd: Colour,
    /// The specular share, at most 10000 in each channel.
    pub ks: Colour,
    /// The exponent of the highlight, at most 1000.
    pub ns: u32,
}

/// The same share in each channel.
pub fn grey(share: u32) -> Colour
    ensures { result ≡ grey share }
{
    Colour {
        r: share,
        g: share,
        b: share,
    }
}

impl Material {
    /// The material of a name before anything is said of it.
    pub(crate) fn named(alloc: Global, name: &[u8]) -> Result<Material, Memory>
        ensures { IfOk result (λ made. made ≡ material name.now []) }
    {
        let mut text = Text::new(alloc);
        text.append(name)?;
        Ok(Material {
            name: text,
            kd: grey(8_000),
            ks: grey(0),
            ns: 0,
        })
    }

    /// Takes what a line says in place of what was said before.
    pub(crate) fn set(&mut self, setting: Setting)
        ensures { self.new ≡ set setting self.old }
    {
        match setting {
            Setting::Diffuse(kd) => self.kd = kd,
            Setting::Specular(ks) => self.ks = ks,
            Setting::Exponent(ns) => self.ns = ns,
        }
    }
}

/// The materials of a scene, at most 4,096, in the order in which its libraries name them.
#[derive(Debug, Drop)]
pub struct Materials {
    pub items: List<Material>,
}

impl Materials {
    /// No materials.
    pub fn new(alloc: Global) -> Materials
        ensures none { result.items ≡ [] }
        ensures valid { AreMaterials result.items }
    {
        Materials {
            items: List::new(alloc),
        }
    }

    /// The place of the first material of a name, and `None` exactly where no material has it.
    #[tactic(auto, using(crate::proofs::FindLemmas::found, crate::proofs::FindLemmas::not_found))]
    pub fn find(&self, name: &[u8]) -> Option<u32>
        requires { length self.now.items ≤ 4096 }
        ensures { result ≡ find name.now self.now.items }
    {
        let items = self.items.as_slice();
        for at in 0..items.len() {
            if items[at].name.as_slice() == name {
                return Some(at as u32);
            }
        }
        None
    }
}
