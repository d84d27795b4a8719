// Scenes.
ghost use Rattle.std.specs.Prelude.{◌≡◌, ◌<◌, Some, length, map, IfOk, slice_get};
ghost use Rattle.lc_light.specs.Lights.{AreLights};
ghost use Rattle.lc_mtl.specs.Materials.{AreMaterials};
ghost use Rattle.lc_obj.specs.Meshes.{IsMesh};
ghost use Rattle.lc_sample.specs.Surfaces.{IsSurface, look_at, look_of, surface_by};
ghost use Rattle.lc_sample.specs.Scenes.{IsScene, scene_of};

use crate::surface::{Reflectance, Surface};
use lc_cut::Forest;
use lc_hier::Hier;
use lc_light::Lights;
use lc_mtl::{Material, Materials};
use lc_num::{Colour, List, Memory, Text};
use lc_obj::{Face, Mesh};
use std::alloc::Global;
use std::marker::Model;

/// What is lit and what lights it: surfaces, with their triangles in a hierarchy of boxes, and the trees of the lights.
/// Contracts see it as its surfaces by their numbers, from 0, and its trees.
#[derive(Drop)]
pub struct Scene {
    pub(crate) surfaces: List<Surface>,
    pub(crate) triangles: Hier,
    pub(crate) forest: Forest,
}

impl Model for Scene {
    ghost use Rattle.std.specs.Prelude.{◌≡◌, map};
    ghost use Rattle.lc_sample.specs.Scenes.{SceneParts, coded_parts, IsScene};

    ghost Value = { SceneParts };

    ghost coded = { coded_parts };

    ghost view = { λ s. record { surfaces = s.surfaces; forest = s.forest } };

    ghost invariant = { λ s. (s.triangles ≡ map (λ x. x.tri) s.surfaces)
        × IsScene (record { surfaces = s.surfaces; forest = s.forest }) };
}

/// How a surface sends light back where no library says it: 0.8 of the light, and no highlight.
const UNSAID: Reflectance = Reflectance {
    kd: Colour {
        r: 8_000,
        g: 8_000,
        b: 8_000,
    },
    ks: Colour { r: 0, g: 0, b: 0 },
    ns: 0,
};

/// How the surfaces of a material's name send light back.
fn reflectance_of(materials: &Materials, name: &[u8]) -> Reflectance
    requires { AreMaterials materials.now.items }
    ensures { result ≡ look_of materials.now.items name.now }
{
    match materials.find(name) {
        None => UNSAID,
        Some(place) => match materials.items.as_slice().get(place as usize) {
            None => UNSAID,
            Some(material) => Reflectance {
                kd: material.kd,
                ks: material.ks,
                ns: material.ns,
            },
        },
    }
}

/// How the surfaces of each name send light back, by the names' places.
fn looks_of(
    alloc: Global,
    names: &[Text],
    materials: &Materials,
) -> Result<Vec<Reflectance>, Memory>
    requires { AreMaterials materials.now.items }
    ensures { IfOk result (λ looks. looks.items ≡ map (look_of materials.now.items) names.now) }
{
    let mut looks = Vec::new(alloc);
    for name in names {
        looks.push(reflectance_of(materials, name.as_slice()))?;
    }
    Ok(looks)
}

/// How the surfaces of the name of this number send light back; the number 0 stands for no name.
fn look_of(looks: &[Reflectance], number: u32) -> Reflectance
    ensures { result ≡ look_at looks.now number }
{
    if number == 0 {
        return UNSAID;
    }
    match looks.get(number as usize - 1) {
        None => UNSAID,
        Some(look) => *look,
    }
}

fn surface_of(looks: &[Reflectance], face: &Face) -> Surface
    ensures { result ≡ surface_by looks.now face.now }
{
    Surface {
        tri: face.tri,
        normals: face.normals,
        reflectance: look_of(looks, face.name),
    }
}

impl Scene {
    /// The scene of a mesh, with the materials of its libraries, and of lights, whose trees take the words of the
    /// streams 0, 1 and 2 of a seed. A face that names no material, or one that is in no library, has the diffuse
    /// colour 0.8 and no highlight. On `Memory` the mesh and the lights are given up.
    pub fn join(
        alloc: Global,
        mesh: Mesh,
        materials: &Materials,
        lights: Lights,
        seed: u64,
    ) -> Result<Scene, Memory>
        requires mesh { IsMesh mesh }
        requires materials { AreMaterials materials.now.items }
        requires lights { AreLights lights }
        ensures value { IfOk result (λ scene. scene ≡ scene_of mesh materials.now.items lights seed) }
        ensures valid { IfOk result IsScene }
    {
        let looks = looks_of(alloc, mesh.names.as_slice(), materials)?;
        let mut surfaces = List::new(alloc);
        let mut triangles = List::new(alloc);
        for face in mesh.faces.as_slice() {
            surfaces.push(surface_of(&looks, face))?;
            triangles.push(face.tri)?;
        }
        let forest = Forest::build(alloc, &lights, seed)?;
        let hierarchy = Hier::build(alloc, triangles.as_slice())?;
        Ok(Scene {
            surfaces,
            triangles: hierarchy,
            forest,
        })
    }

    /// The surface of a number.
    pub(crate) fn surface(&self, number: u32) -> Surface
        requires { number < length self.now.surfaces }
        ensures value { slice_get self.now.surfaces number ≡ Some result }
        ensures valid { IsSurface result }
    {
        self.surfaces.as_slice()[number as usize]
    }
}
