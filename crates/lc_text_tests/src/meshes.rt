// Worked examples of meshes, and of texts that are refused.
use lc_geom::Tri;
use lc_num::{Memory, Text, Vec3};
use lc_obj::{Face, ObjStop, Triple, Uv, UvTriple, read_obj};
use std::alloc::Global;
use std::test::*;

fn vector(x: i64, y: i64, z: i64) -> Vec3 {
    Vec3 { x, y, z }
}

const CUBE: &[u8] = b"# a cube
mtllib cube.mtl
o Cube
v 1.000000 1.000000 -1.000000
v 1.000000 -1.000000 -1.000000
v 1.000000 1.000000 1.000000
v 1.000000 -1.000000 1.000000
v -1.000000 1.000000 -1.000000
v -1.000000 -1.000000 -1.000000
v -1.000000 1.000000 1.000000
v -1.000000 -1.000000 1.000000
vn 0.0000 1.0000 0.0000
vn 0.0000 0.0000 1.0000
vn -1.0000 0.0000 0.0000
vn 0.0000 -1.0000 0.0000
vn 1.0000 0.0000 0.0000
vn 0.0000 0.0000 -1.0000
usemtl Material
s 0
f 1//1 5//1 7//1 3//1
f 4//2 3//2 7//2 8//2
f 8//3 7//3 5//3 6//3
f 6//4 2//4 4//4 8//4
f 2//5 1//5 3//5 4//5
f 6//6 5//6 1//6 2//6
";

#[test]
fn a_cube(rt: HostRuntime) {
    let mesh = read_obj(rt.alloc(), CUBE).expect(&rt, "a cube");
    let faces = mesh.faces.as_slice();
    assert_eq!(rt;
        (faces.len(), mesh.names.len(), mesh.libs.len()),
        (12, 1, 1)
    );
    assert_eq!(rt; mesh.names.as_slice()[0].as_slice(), b"Material".as_slice());
    assert_eq!(rt; mesh.libs.as_slice()[0].as_str(), "cube.mtl");
    let up = vector(0, 16_384, 0);
    let second = Face {
        tri: Tri {
            a: vector(10_000, 10_000, -10_000),
            b: vector(-10_000, 10_000, 10_000),
            c: vector(10_000, 10_000, 10_000),
        },
        normals: Some(Triple {
            a: up,
            b: up,
            c: up,
        }),
        uvs: None,
        name: 1,
    };
    assert_eq!(rt; faces.get(1).copied(), Some(second));
}

#[test]
fn a_fourth_line(rt: HostRuntime) {
    for (text, kind) in [
        (b"v 0 0 0\nv 1 0 0\nv 0 1 0\nf 0 1 2".as_slice(), 3),
        (b"v 0 0 0\nv 1 0 0\nv 0 1 0\nf 1 2 4", 4),
        (b"v 0 0 0\nv 1 0 0\nv 0 1 0\nf 1 2 x", 1),
        (b"v 0 0 0\nv 1 0 0\nv 0 1 0\nf 1 2", 5),
        (b"v 0 0 0\nv 1 0 0\nv 0 1 0\ncurv 0 1 1 2", 6),
        (b"v 0 0 0\nv 1 0 0\nv 0 1 0\nv 0 0", 2),
    ] {
        assert!(rt; text.len() < 100);
        let stop = read_obj(rt.alloc(), text).err();
        assert_eq!(rt; stop, Some(ObjStop::Fault { line: 4, kind }), "at {text:?}");
    }
    let text = b"v 0 0 0\nv 1 0 0\nv 0 1 0\nf 1 1 2".as_slice();
    let mesh = read_obj(rt.alloc(), text).expect(&rt, "a flat face");
    assert_eq!(rt; mesh.faces.len(), 0);
    let text = b"v 0 0 0\nv 1 0 0\nv 0 1 0\nf -3 -2 -1".as_slice();
    let mesh = read_obj(rt.alloc(), text).expect(&rt, "a face");
    let face = Face {
        tri: Tri {
            a: vector(0, 0, 0),
            b: vector(10_000, 0, 0),
            c: vector(0, 10_000, 0),
        },
        normals: None,
        uvs: None,
        name: 0,
    };
    assert_eq!(rt; mesh.faces.as_slice(), [face].as_slice());
}

#[test]
fn odd_but_right(rt: HostRuntime) {
    let text = b"\xEF\xBB\xBFmtllib a.mtl b.mtl \\\r\n a.mtl # c.mtl\r
\tv 0 0\\
0\r
v\t1. .5 +1e2 1 0.5 0.25\r
v 0 1e0 -0 1\r
vt .5
vt 1 2 3
vt 0 -1e9
vn 0 0 -2 9
usemtl red # a\\
b \t\r
g x
o y
s off
l 1 2
p 1
V 0
connect
unknown \\
 f 1 1 1
f 1/1/1 2/2/-1\\
 3/-1/1 # d
usemtl blue
  usemtl\tred # a\\
b
f 1/1 2/2/1 3/3
"
        .as_slice();
    let mesh = read_obj(rt.alloc(), text).expect(&rt, "a mesh");
    assert_eq!(rt;
        (mesh.faces.len(), mesh.names.len(), mesh.libs.len()),
        (2, 2, 2)
    );
    assert_eq!(rt;
        mesh.names.as_slice()[0].as_slice(),
        b"red # a\\\nb".as_slice()
    );
    assert_eq!(rt; mesh.names.as_slice()[1].as_slice(), b"blue".as_slice());
    assert_eq!(rt; mesh.libs.as_slice()[0].as_str(), "a.mtl");
    assert_eq!(rt; mesh.libs.as_slice()[1].as_str(), "b.mtl");
    let normal = vector(0, 0, -16_384);
    let face = Face {
        tri: Tri {
            a: vector(0, 0, 0),
            b: vector(10_000, 5_000, 1_000_000),
            c: vector(0, 10_000, 0),
        },
        normals: Some(Triple {
            a: normal,
            b: normal,
            c: normal,
        }),
        uvs: Some(UvTriple {
            a: Uv { u: 5_000, v: 0 },
            b: Uv {
                u: 10_000,
                v: 20_000,
            },
            c: Uv {
                u: 0,
                v: -10_000_000_000_000,
            },
        }),
        name: 1,
    };
    let faces = [
        face,
        Face {
            normals: None,
            ..face
        },
    ];
    assert_eq!(rt; mesh.faces.as_slice(), faces.as_slice());
}

#[test]
fn faces_are_fans(rt: HostRuntime) {
    let text = b"v 0 0 0\nv 1 0 0\nv 2 0 0\nv 2 1 0\nv 1 2 0\nf 1 2 3 4 5\n".as_slice();
    let mesh = read_obj(rt.alloc(), text).expect(&rt, "a mesh");
    let places = [(0, 0), (20_000, 0), (20_000, 10_000), (10_000, 20_000)];
    let [a, b, c, d] = places.map(|(x, y)| vector(x, y, 0));
    let faces = [Tri { a, b, c }, Tri { a, b: c, c: d }].map(|tri| Face {
        tri,
        normals: None,
        uvs: None,
        name: 0,
    });
    assert_eq!(rt; mesh.faces.as_slice(), faces.as_slice());
}

#[test]
fn lines_are_refused(rt: HostRuntime) {
    for (text, kind) in [
        (b"v 1 2".as_slice(), 2),
        (b"v a b # 1", 2),
        (b"v 1 2 x", 1),
        (b"v x 2 1e99", 1),
        (b"v 0 5000.00005 0", 1),
        (b"v 0 0 -5001", 1),
        (b"vt", 2),
        (b"vt x", 1),
        (b"vt 1 x", 1),
        (b"vt 1e11", 1),
        (b"vn 0 0", 2),
        (b"vn 0 0 nan", 1),
        (b"vn 5000.0001 0 0", 1),
        (b"usemtl", 2),
        (b"usemtl \t\r", 2),
        (b"mtllib", 2),
        (b"mtllib # a", 2),
        (b"mtllib a \xFF", 9),
        (b"f", 5),
        (b"f x 0", 5),
        (b"f 1 1 # 1", 5),
        (b"vp 0", 6),
        (b"cstype", 6),
        (b"deg 1", 6),
        (b"bmat", 6),
        (b"step", 6),
        (b"curv", 6),
        (b"curv2", 6),
        (b"surf", 6),
        (b"parm", 6),
        (b"trim", 6),
        (b"hole", 6),
        (b"scrv", 6),
        (b"sp", 6),
        (b"end", 6),
        (b"con", 6),
    ] {
        assert!(rt; text.len() < 100);
        let stop = read_obj(rt.alloc(), text).err();
        assert_eq!(rt; stop, Some(ObjStop::Fault { line: 1, kind }), "at {text:?}");
    }
}

#[test]
fn corners_are_refused(rt: HostRuntime) {
    for (text, kind) in [
        (b"v 0 0 0\nf 1 1 x\nf".as_slice(), 1),
        (b"v 0 0 0\nf 0 x 1", 3),
        (b"v 0 0 0\nf 1 2 0", 4),
        (b"v 0 0 0\nf 1 1 1 -2", 4),
        (b"v 0 0 0\nf 1 -0 1", 3),
        (b"v 0 0 0\nf +1 1 1", 1),
        (b"v 0 0 0\nf 1. 1 1", 1),
        (b"v 0 0 0\nf 1/ 1 1", 1),
        (b"v 0 0 0\nf 1// 1 1", 1),
        (b"v 0 0 0\nf /1 1 1", 1),
        (b"v 0 0 0\nf 1/1/ 1 1", 1),
        (b"v 0 0 0\nf 1/1/1/1 1 1", 1),
        (b"v 0 0 0\nf 0/x 1 1", 1),
        (b"v 0 0 0\nf 0/0/x 1 1", 1),
        (b"v 0 0 0\nf 2/0 1 1", 4),
        (b"v 0 0 0\nf 1/0/1 1 1", 3),
        (b"v 0 0 0\nf 1/1/0 1 1", 4),
        (b"v 0 0 0\nf 1//0 1 1", 3),
        (b"v 0 0 0\nf 1//-1 1 1", 4),
        (b"v 0 0 0\nf 18446744073709551615 1 1", 4),
        (b"v 0 0 0\nf 18446744073709551616 1 1", 1),
        (b"v 0 0 0\nf 0000000000000000000000000000001 1 1", 1),
    ] {
        assert!(rt; text.len() < 100);
        let stop = read_obj(rt.alloc(), text).err();
        assert_eq!(rt; stop, Some(ObjStop::Fault { line: 2, kind }), "at {text:?}");
    }
}

// The piece stands a million times.
fn repeated(alloc: Global, start: &[u8], piece: &[u8], end: &[u8]) -> Result<Text, Memory> {
    let mut text = Text::new(alloc);
    text.append(start)?;
    for _ in 0..1_000_000 {
        text.append(piece)?;
    }
    text.append(end)?;
    Ok(text)
}

#[test]
fn limits(rt: HostRuntime) {
    for (start, piece, end, stop) in [
        (
            b"".as_slice(),
            b"v 0 0 0\n".as_slice(),
            b"v 0 0 0".as_slice(),
            Some((1_000_001, 7)),
        ),
        (b"v 0 0 0\nf 1 1", b" 1", b"", None),
        (b"v 0 0 0\nf 1 1", b" 1", b"\nf 1 1 1", Some((3, 8))),
        (b"v 0 0 0\nf 1 1", b" 1", b" 0", Some((2, 3))),
    ] {
        let text = repeated(rt.alloc(), start, piece, end).expect(&rt, "memory");
        assert!(rt; text.len() <= 10_000_000);
        let found = read_obj(rt.alloc(), text.as_slice()).err();
        let wanted = stop.map(|(line, kind)| ObjStop::Fault { line, kind });
        assert_eq!(rt; found, wanted, "at {start:?} {end:?}");
    }
}
