// Meshes of triangles.
use lc_geom::Tri;
use lc_num::{List, Name, Text, Vec3};

/// Three vectors, one for each corner of a triangle.
#[derive(Clone, Copy, Debug, PartialEq, Eq)]
pub struct Triple {
    pub a: Vec3,
    pub b: Vec3,
    pub c: Vec3,
}

/// A texture place, in units of 1/10000 of the texture's width and height.
#[derive(Clone, Copy, Debug, PartialEq, Eq)]
pub struct Uv {
    pub u: i64,
    pub v: i64,
}

/// Three texture places, one for each corner of a triangle.
#[derive(Clone, Copy, Debug, PartialEq, Eq)]
pub struct UvTriple {
    pub a: Uv,
    pub b: Uv,
    pub c: Uv,
}

/// A triangle of a mesh, with the normals of its corners where each has one, at most 16384 long, and their texture
/// places where each has one. Its name is that of its material, by its place in the mesh's names counted from 1, and 0
/// where it has none.
#[derive(Clone, Copy, Debug, PartialEq, Eq)]
pub struct Face {
    pub tri: Tri,
    pub normals: Option<Triple>,
    pub uvs: Option<UvTriple>,
    pub name: u32,
}

/// The triangles of a file, at most 1,000,000, of which none is flat. Its names are those of materials, and its libs
/// the file names of the libraries in which they are; each stands once, in the order of first use.
#[derive(Drop)]
pub struct Mesh {
    pub faces: List<Face>,
    pub names: List<Text>,
    pub libs: List<Name>,
}
