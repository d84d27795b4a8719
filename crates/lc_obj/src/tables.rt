// The items that the lines of a file have given.
ghost use Rattle.std.specs.Prelude.{◌≡◌, [], ◌∷◌, ◌++◌, length, None, IfErr, OnOk};
ghost use Rattle.lc_num.specs.Cosines.{scaled};
ghost use Rattle.lc_obj.specs.Corners.{AreTables};
ghost use Rattle.lc_scan.specs.LineTests.{first_kind};
ghost use Rattle.lc_obj.specs.ObjLine.{uv, uv_tests, vector, vector_tests};
ghost use Rattle.lc_obj.specs.Readings.{IsLineStop};

use crate::mesh::Uv;
use crate::stop::LineStop;
use crate::values::{uv_after, vector_after};
use lc_num::{List, Vec3, scaled};
use lc_scan::Fields;
use std::alloc::Global;

/// The places, texture places and normals given so far, at most 1,000,000 of each.
#[derive(Drop)]
pub struct Tables {
    pub places: List<Vec3>,
    pub uvs: List<Uv>,
    pub normals: List<Vec3>,
}

impl Tables {
    pub fn new(alloc: Global) -> Tables
        ensures { result ≡ record { places = []; uvs = []; normals = [] } }
    {
        Tables {
            places: List::new(alloc),
            uvs: List::new(alloc),
            normals: List::new(alloc),
        }
    }

    pub fn add_place(&mut self, values: &mut Fields, value_count: usize) -> Result<(), LineStop>
        requires count { value_count ≡ length values.old }
        requires tables { AreTables self.old }
        ensures ok { OnOk result ((first_kind (vector_tests (length self.old.places) values.old) ≡ None)
            × (self.new ≡ record self.old { places = self.old.places ++ vector values.old ∷ [] })) }
        ensures valid { OnOk result (AreTables self.new) }
        ensures fault { IfErr result (λ stop.
            IsLineStop stop (first_kind (vector_tests (length self.old.places) values.old))) }
    {
        let place = vector_after(self.places.len(), values, value_count)?;
        self.places.push(place)?;
        Ok(())
    }

    pub fn add_uv(&mut self, values: &mut Fields, value_count: usize) -> Result<(), LineStop>
        requires count { value_count ≡ length values.old }
        requires tables { AreTables self.old }
        ensures ok { OnOk result ((first_kind (uv_tests (length self.old.uvs) values.old) ≡ None)
            × (self.new ≡ record self.old { uvs = self.old.uvs ++ uv values.old ∷ [] })) }
        ensures valid { OnOk result (AreTables self.new) }
        ensures fault { IfErr result (λ stop.
            IsLineStop stop (first_kind (uv_tests (length self.old.uvs) values.old))) }
    {
        let place = uv_after(self.uvs.len(), values, value_count)?;
        self.uvs.push(place)?;
        Ok(())
    }

    pub fn add_normal(&mut self, values: &mut Fields, value_count: usize) -> Result<(), LineStop>
        requires count { value_count ≡ length values.old }
        requires tables { AreTables self.old }
        ensures ok { OnOk result ((first_kind (vector_tests (length self.old.normals) values.old) ≡ None)
            × (self.new ≡ record self.old { normals = self.old.normals ++ scaled (vector values.old) 16384 ∷ [] })) }
        ensures valid { OnOk result (AreTables self.new) }
        ensures fault { IfErr result (λ stop.
            IsLineStop stop (first_kind (vector_tests (length self.old.normals) values.old))) }
    {
        let direction = vector_after(self.normals.len(), values, value_count)?;
        self.normals.push(scaled(direction, 16_384))?;
        Ok(())
    }
}
