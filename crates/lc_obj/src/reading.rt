// What is held of the lines of a file that have been read.
ghost use Rattle.std.specs.Prelude.{◌≡◌, ◌+◌, ◌<◌, ◌^◌, [], ◌∷◌, ◌++◌, length, map, Some, None, IfErr, OnOk, if◌then◌else◌};
ghost use Rattle.std.specs.Str.{bytes_eq};
ghost use Rattle.indexmap.specs.IndexSet.{insert_all, insert_key};
ghost use Rattle.lc_scan.specs.Fields.{fields, values_in};
ghost use Rattle.lc_scan.specs.LineTests.{first_kind};
ghost use Rattle.lc_obj.specs.ObjLine.{key, kind_of, library_tests, name_test, use_tests};
ghost use Rattle.lc_obj.specs.Readings.{Adds, IsLineStop, IsReading, kind_by};
ghost use Rattle.lc_obj.specs.declared.keyword.Keyword.TheVariants.{Library, Use};

use crate::faces::add_face;
use crate::fault_kind::FaultKind;
use crate::keyword::Keyword;
use crate::mesh::Mesh;
use crate::stop::LineStop;
use crate::tables::Tables;
use crate::uses::Uses;
use lc_num::{List, Memory, Name, Text};
use lc_scan::{Fields, count, name_of, rest};
use std::alloc::Global;

/// The mesh of the lines that have been read, and what later lines may name: the items given so far, how many triangles
/// there are with those that were dropped, the number of the material in force, and the names of materials and of
/// libraries.
#[derive(Drop)]
pub struct Reading<'a> {
    pub tables: Tables,
    pub triangles: usize,
    pub mesh: Mesh,
    pub used: Uses<'a>,
    pub name: u32,
    pub named: Uses<'a>,
}

fn add_name(alloc: Global, names: &mut List<Text>, name: &[u8], is_new: bool) -> Result<(), Memory>
    ensures { OnOk result (names.new ≡ (if is_new then names.old ++ name.now ∷ [] else names.old)) }
{
    if is_new {
        let mut text = Text::new(alloc);
        text.append(name)?;
        names.push(text)?;
    }
    Ok(())
}

fn add_library<'a>(
    alloc: Global,
    name: &'a [u8],
    named: &mut Uses<'a>,
    libs: &mut List<Name>,
) -> Result<(), LineStop>
    requires { libs.old ≡ named.old }
    ensures ok { OnOk result ((name_test name.now ≡ None)
        × (named.new ≡ insert_key bytes_eq named.old name.now)
        × (libs.new ≡ named.new)) }
    ensures fault { IfErr result (λ stop. IsLineStop stop (name_test name.now)) }
{
    let Some(held) = name_of(alloc, name)? else {
        return Err(LineStop::Fault(FaultKind::Utf8));
    };
    let (_, is_new) = named.insert(name)?;
    if is_new {
        libs.push(held)?;
    }
    Ok(())
}

fn add_libraries<'a>(
    alloc: Global,
    values: &mut Fields<'a>,
    named: &mut Uses<'a>,
    libs: &mut List<Name>,
) -> Result<(), LineStop>
    requires { libs.old ≡ named.old }
    ensures ok { OnOk result ((first_kind (map name_test values.old) ≡ None)
        × (named.new ≡ insert_all bytes_eq named.old values.old)
        × (libs.new ≡ named.new)) }
    ensures fault { IfErr result (λ stop. IsLineStop stop (first_kind (map name_test values.old))) }
{
    while let Some(name) = values.next_field() {
        add_library(alloc, name, named, libs)?;
    }
    Ok(())
}

impl<'a> Reading<'a> {
    pub fn new(alloc: Global) -> Reading<'a>
        ensures { result ≡ record {
          tables = record { places = []; uvs = []; normals = [] };
          triangles = 0;
          mesh = record { faces = []; names = []; libs = [] };
          used = [];
          name = 0;
          named = [];
        } }
    {
        Reading {
            tables: Tables::new(alloc),
            triangles: 0,
            mesh: Mesh {
                faces: List::new(alloc),
                names: List::new(alloc),
                libs: List::new(alloc),
            },
            used: Uses::new(alloc),
            name: 0,
            named: Uses::new(alloc),
        }
    }

    fn use_material(&mut self, alloc: Global, line: &'a [u8]) -> Result<(), LineStop>
        requires reading { IsReading self.old }
        requires few { length self.old.used < 2 ^ 30 }
        ensures ok { OnOk result ((first_kind (use_tests line.now) ≡ None) × Adds Use line.now [] self.old self.new) }
        ensures valid { OnOk result (IsReading self.new) }
        ensures fault { IfErr result (λ stop. IsLineStop stop (first_kind (use_tests line.now))) }
    {
        let name = rest(line);
        if name.is_empty() {
            return Err(LineStop::Fault(FaultKind::Words));
        }
        let (place, is_new) = self.used.insert(name)?;
        add_name(alloc, &mut self.mesh.names, name, is_new)?;
        self.name = place as u32 + 1;
        Ok(())
    }

    fn name_libraries(
        &mut self,
        alloc: Global,
        values: &mut Fields<'a>,
        value_count: usize,
    ) -> Result<(), LineStop>
        requires reading { IsReading self.old }
        requires count { value_count ≡ length values.old }
        ensures ok { OnOk result ((first_kind (library_tests values.old) ≡ None)
            × Adds Library [] values.old self.old self.new) }
        ensures valid { OnOk result (IsReading self.new) }
        ensures fault { IfErr result (λ stop. IsLineStop stop (first_kind (library_tests values.old))) }
    {
        if value_count == 0 {
            return Err(LineStop::Fault(FaultKind::Words));
        }
        add_libraries(alloc, values, &mut self.named, &mut self.mesh.libs)
    }

    fn add_face(&mut self, values: &mut Fields, value_count: usize) -> Result<(), LineStop>
        requires reading { IsReading self.old }
        requires count { value_count ≡ length values.old }
        ensures ok { OnOk result ((kind_by Keyword.Face [] values.old self.old ≡ None)
            × Adds Keyword.Face [] values.old self.old self.new) }
        ensures valid { OnOk result (IsReading self.new) }
        ensures fault { IfErr result (λ stop. IsLineStop stop (kind_by Keyword.Face [] values.old self.old)) }
    {
        let triangles = add_face(
            values,
            value_count,
            &self.tables,
            self.name,
            self.triangles,
            &mut self.mesh.faces,
        )?;
        self.triangles += triangles;
        Ok(())
    }

    /// Takes up a line with this keyword and the values after it.
    fn take_values(
        &mut self,
        alloc: Global,
        key: Keyword,
        line: &'a [u8],
        values: &mut Fields<'a>,
        value_count: usize,
    ) -> Result<(), LineStop>
        requires reading { IsReading self.old }
        requires few { length self.old.used < 2 ^ 30 }
        requires count { value_count ≡ length values.old }
        ensures ok { OnOk result ((kind_by key line.now values.old self.old ≡ None)
            × Adds key line.now values.old self.old self.new) }
        ensures valid { OnOk result (IsReading self.new) }
        ensures fault { IfErr result (λ stop. IsLineStop stop (kind_by key line.now values.old self.old)) }
    {
        match key {
            Keyword::Place => self.tables.add_place(values, value_count),
            Keyword::Uv => self.tables.add_uv(values, value_count),
            Keyword::Normal => self.tables.add_normal(values, value_count),
            Keyword::Face => self.add_face(values, value_count),
            Keyword::Use => self.use_material(alloc, line),
            Keyword::Library => self.name_libraries(alloc, values, value_count),
            Keyword::FreeForm => Err(LineStop::Fault(FaultKind::FreeForm)),
            Keyword::Other => Ok(()),
        }
    }

    /// Takes up a line that has a field, or stops at the first test that it fails.
    pub fn take(&mut self, alloc: Global, line: &'a [u8]) -> Result<(), LineStop>
        requires reading { IsReading self.old }
        requires few { length self.old.used < 2 ^ 30 }
        requires some { 0 < length (fields line.now) }
        ensures ok { OnOk result ((kind_of self.old.tables self.old.triangles line.now ≡ None)
            × Adds (key line.now) line.now (values_in line.now) self.old self.new) }
        ensures valid { OnOk result (IsReading self.new) }
        ensures fault { IfErr result (λ stop. IsLineStop stop (kind_of self.old.tables self.old.triangles line.now)) }
    {
        let mut values = Fields::new(line);
        let key = Keyword::of(values.take_field());
        self.take_values(alloc, key, line, &mut values, count(line) - 1)
    }
}
