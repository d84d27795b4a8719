// A room of 10 m with 16 pieces of furniture, each face of which is a grid of cells of two triangles.
ghost use Rattle.std.specs.Prelude.{◌<◌, ◌≤◌, All, IfOk, length, unsigned_abs};
ghost use Rattle.lc_num.specs.Vectors.{Within};
ghost use Rattle.lc_geom.specs.Triangles.{IsTri};

use crate::random::Random;
use lc_geom::Tri;
use lc_num::{List, Memory, Vec3};
use std::alloc::Global;

/// How many pieces of furniture the room has.
const PIECES: u32 = 16;

/// The room has no finer grid.
const FINEST: u32 = 64;

/// The lengths of a side on the axes, in 1/10000 m.
#[derive(Clone, Copy)]
struct Side {
    x: u32,
    y: u32,
    z: u32,
    ghost x_short: { x ≤ 100_000 },
    ghost y_short: { y ≤ 100_000 },
    ghost z_short: { z ≤ 100_000 },
}

/// A rectangle from one of its corners. From where one sees it the turn from the first side to the second is against
/// the clock.
#[derive(Clone, Copy)]
struct Face {
    corner: Vec3,
    first: Side,
    second: Side,
    ghost near: { Within 200_000 corner },
}

/// A box from its low corner, in a room or around it.
#[derive(Clone, Copy)]
struct Block {
    low: Vec3,
    wide: u32,
    high: u32,
    deep: u32,
    ghost near: { Within 100_000 low },
    ghost x_short: { wide ≤ 100_000 },
    ghost y_short: { high ≤ 100_000 },
    ghost z_short: { deep ≤ 100_000 },
}

/// The whole over so many parts.
fn part(whole: u32, parts: u32) -> u32
    requires { 0 < parts }
    ensures { result ≤ whole }
{
    whole / parts
}

/// One coordinate of a place on a face of so many cells along each side.
fn along(corner: i64, first: u32, second: u32, grid: u32, cell: (u32, u32)) -> i64
    requires corner { unsigned_abs corner ≤ 200_000 }
    requires first { first ≤ 100_000 }
    requires second { second ≤ 100_000 }
    requires grid { 0 < grid }
    requires across { cell.0 ≤ 64 }
    requires up { cell.1 ≤ 64 }
    ensures { unsigned_abs result ≤ 50_000_000 }
{
    corner + part(first * cell.0 + second * cell.1, grid) as i64
}

impl Face {
    /// The place where a cell begins.
    fn place(&self, grid: u32, cell: (u32, u32)) -> Vec3
        requires grid { 0 < grid }
        requires across { cell.0 ≤ 64 }
        requires up { cell.1 ≤ 64 }
        ensures { Within 50_000_000 result }
    {
        let Face {
            corner,
            first,
            second,
        } = *self;
        Vec3 {
            x: along(corner.x, first.x, second.x, grid, cell),
            y: along(corner.y, first.y, second.y, grid, cell),
            z: along(corner.z, first.z, second.z, grid, cell),
        }
    }

    /// The two triangles of a cell.
    fn halves(&self, grid: u32, cell: (u32, u32)) -> (Tri, Tri)
        requires grid { 0 < grid }
        requires across { cell.0 < 64 }
        requires up { cell.1 < 64 }
        ensures first { IsTri result.0 }
        ensures second { IsTri result.1 }
    {
        let (i, j) = cell;
        let a = self.place(grid, (i, j));
        let b = self.place(grid, (i + 1, j));
        let c = self.place(grid, (i + 1, j + 1));
        let d = self.place(grid, (i, j + 1));
        (Tri { a, b, c }, Tri { a, b: c, c: d })
    }

    /// The same face, seen from its other side.
    fn turned(self) -> Face {
        Face {
            corner: self.corner,
            first: self.second,
            second: self.first,
        }
    }
}

impl Block {
    /// Its faces, seen from outside.
    fn faces(&self) -> [Face; 6] {
        let Block {
            low,
            wide,
            high,
            deep,
        } = *self;
        let x = Side {
            x: wide,
            y: 0,
            z: 0,
        };
        let y = Side {
            x: 0,
            y: high,
            z: 0,
        };
        let z = Side {
            x: 0,
            y: 0,
            z: deep,
        };
        let right = Vec3 {
            x: low.x + wide as i64,
            ..low
        };
        let top = Vec3 {
            y: low.y + high as i64,
            ..low
        };
        let back = Vec3 {
            z: low.z + deep as i64,
            ..low
        };
        [
            face_at(low, z, y),
            face_at(right, y, z),
            face_at(low, x, z),
            face_at(top, z, x),
            face_at(low, y, x),
            face_at(back, x, y),
        ]
    }
}

fn face_at(corner: Vec3, first: Side, second: Side) -> Face
    requires { Within 200_000 corner }
{
    Face {
        corner,
        first,
        second,
    }
}

/// The room's walls, floor and ceiling are the faces of this.
const WALLS: Block = Block {
    low: Vec3 {
        x: -50_000,
        y: -50_000,
        z: -50_000,
    },
    wide: 100_000,
    high: 100_000,
    deep: 100_000,
};

/// A piece of furniture, on feet of 10 cm.
fn piece(random: &mut Random) -> Block {
    let wide = 3_000 + random.number(17_000);
    let high = 4_000 + random.number(20_000);
    let deep = 3_000 + random.number(17_000);
    Block {
        low: Vec3 {
            x: random.number(80_000) as i64 - 50_000,
            y: -49_000,
            z: random.number(80_000) as i64 - 50_000,
        },
        wide,
        high,
        deep,
    }
}

fn push_triangle(list: &mut List<Tri>, triangle: Tri) -> Result<(), Memory>
    requires triangle { IsTri triangle }
    requires valid { All IsTri list.old }
    ensures { IfOk result (λ _. All IsTri list.new) }
{
    list.push(triangle)
}

/// Adds the triangles of a cell of a face.
fn push_cell(list: &mut List<Tri>, face: &Face, grid: u32, cell: (u32, u32)) -> Result<(), Memory>
    requires grid { 0 < grid }
    requires across { cell.0 < 64 }
    requires up { cell.1 < 64 }
    requires valid { All IsTri list.old }
    ensures { IfOk result (λ _. All IsTri list.new) }
{
    let (first, second) = face.halves(grid, cell);
    push_triangle(list, first)?;
    push_triangle(list, second)
}

/// Adds the triangles of a face.
fn push_face(list: &mut List<Tri>, face: Face, grid: u32) -> Result<(), Memory>
    requires grid { grid ≤ 64 }
    requires valid { All IsTri list.old }
    ensures { IfOk result (λ _. All IsTri list.new) }
{
    for number in 0..grid * grid {
        push_cell(list, &face, grid, (number % grid, number / grid))?;
    }
    Ok(())
}

/// Adds the triangles of faces that are seen from outside, or of a room, from inside.
fn push_faces(list: &mut List<Tri>, faces: [Face; 6], inside: bool, grid: u32) -> Result<(), Memory>
    requires grid { grid ≤ 64 }
    requires valid { All IsTri list.old }
    ensures { IfOk result (λ _. All IsTri list.new) }
{
    for face in faces {
        push_face(list, if inside { face.turned() } else { face }, grid)?;
    }
    Ok(())
}

/// The triangles of the room, whose faces have so many cells along each side.
fn triangles(alloc: Global, random: &mut Random, grid: u32) -> Result<List<Tri>, Memory>
    requires { grid ≤ 64 }
    ensures { IfOk result (λ list. All IsTri list) }
{
    let mut list = List::new(alloc);
    push_faces(&mut list, WALLS.faces(), true, grid)?;
    for _ in 0..PIECES {
        push_faces(&mut list, piece(random).faces(), false, grid)?;
    }
    Ok(list)
}

/// The triangles of a room, of which there are some, and at most 1,000,000.
#[derive(Drop)]
pub struct Room {
    pub triangles: List<Tri>,
    ghost valid: { All IsTri triangles },
    ghost some: { 0 < length triangles },
    ghost few: { length triangles ≤ 1_000_000 },
}

impl Room {
    /// The room whose faces have so many cells along each side; none where these are too many, or none.
    pub fn new(alloc: Global, random: &mut Random, grid: u32) -> Result<Option<Room>, Memory> {
        if grid > FINEST {
            return Ok(None);
        }
        let triangles = triangles(alloc, random, grid)?;
        let count = triangles.len();
        if count == 0 || count > 1_000_000 {
            return Ok(None);
        }
        Ok(Some(Room { triangles }))
    }
}
