// Materials that are being read.
ghost use Rattle.std.specs.Prelude.{◌≡◌, ◌≤◌, [], ◌∷◌, ◌++◌, length, IfOk, OnOk};
ghost use Rattle.lc_mtl.specs.Drafts.{on_last, set, taken};

use crate::entry::{Entry, Setting};
use crate::material::Material;
use lc_num::{List, Memory};
use std::alloc::Global;
use std::marker::Model;

/// Materials of which the last one is still open to what lines say of it.
#[derive(Drop)]
pub struct Drafts {
    done: List<Material>,
    last: Option<Material>,
}

impl Model for Drafts {
    ghost use Rattle.std.specs.Prelude.{◌≡◌, ◌++◌, List as Items, [], None};
    ghost use Rattle.std.specs.List.{cons_option};
    ghost use Rattle.lc_mtl.specs.declared.material.Material.{Material};

    ghost Value = { Items Material };

    ghost view = { λ d. d.done ++ cons_option d.last [] };

    ghost invariant = { λ d. d.last ≡ None → d.done ≡ [] };
}

impl Drafts {
    pub fn new(alloc: Global) -> Drafts
        ensures { result ≡ [] }
    {
        Drafts {
            done: List::new(alloc),
            last: None,
        }
    }

    pub fn len(&self) -> usize
        requires { length self.now ≤ 4096 }
        ensures { result ≡ length self.now }
    {
        match self.last {
            None => 0,
            Some(_) => self.done.len() + 1,
        }
    }

    /// Puts a material at the end.
    fn begin(&mut self, material: Material) -> Result<(), Memory>
        ensures { OnOk result (self.new ≡ self.old ++ material ∷ []) }
    {
        if let Some(done) = self.last.replace(material) {
            self.done.push(done)?;
        }
        Ok(())
    }

    fn set(&mut self, setting: Setting)
        ensures { self.new ≡ on_last (set setting) self.old }
    {
        if let Some(material) = &mut self.last {
            material.set(setting);
        }
    }

    /// Takes what a line of this rest says.
    pub fn take(&mut self, alloc: Global, entry: Option<Entry>, name: &[u8]) -> Result<(), Memory>
        ensures { OnOk result (self.new ≡ taken entry name.now self.old) }
    {
        match entry {
            None => Ok(()),
            Some(Entry::Begin) => self.begin(Material::named(alloc, name)?),
            Some(Entry::Set(setting)) => {
                self.set(setting);
                Ok(())
            }
        }
    }

    /// The materials, in order.
    pub fn finish(self) -> Result<List<Material>, Memory>
        ensures { IfOk result (λ items. items ≡ self) }
    {
        let Drafts { mut done, last } = self;
        if let Some(material) = last {
            done.push(material)?;
        }
        Ok(done)
    }
}
