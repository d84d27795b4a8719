// Normals, blocked segments and hits worked out by hand.
use lc_geom::{Tri, Weights, blocks, depth, is_flat, normal_of, weights_of};
use lc_num::Vec3;
use std::test::*;

#[test]
fn normals(rt: HostRuntime) {
    let a = Vec3 { x: 0, y: 0, z: 0 };
    let b = Vec3 {
        x: 10_000,
        y: 0,
        z: 0,
    };
    let c = Vec3 {
        x: 0,
        y: 10_000,
        z: 0,
    };
    // Against the clock as seen from above the normal points up, with the clock down.
    let up = Vec3 {
        x: 0,
        y: 0,
        z: 16_384,
    };
    let down = Vec3 {
        x: 0,
        y: 0,
        z: -16_384,
    };
    assert_eq!(rt; normal_of(&Tri { a, b, c }), up);
    assert_eq!(rt; normal_of(&Tri { a, b: c, c: b }), down);
    assert!(rt; !is_flat(&Tri { a, b, c }));
    // Corners on one line, or at one place.
    let far = Vec3 {
        x: 30_000,
        y: 0,
        z: 0,
    };
    assert!(rt; is_flat(&Tri { a, b, c: far }));
    assert!(rt; is_flat(&Tri { a: b, b, c }));
    assert_eq!(rt; normal_of(&Tri { a, b, c: far }), Vec3 { x: 0, y: 0, z: 0 });
    // The least triangle that is not flat.
    let near = Vec3 { x: 1, y: 0, z: 0 };
    assert!(rt;
        !is_flat(&Tri {
            a,
            b: near,
            c: Vec3 { x: 0, y: 0, z: 1 }
        })
    );
}

#[test]
fn blocked_segments(rt: HostRuntime) {
    let a = Vec3 { x: 0, y: 0, z: 0 };
    let b = Vec3 {
        x: 10_000,
        y: 0,
        z: 0,
    };
    let c = Vec3 {
        x: 0,
        y: 10_000,
        z: 0,
    };
    let below = Vec3 {
        x: 0,
        y: -10_000,
        z: 0,
    };
    let t = Tri { a, b, c };
    let rows = [
        // Through the middle, from either side.
        ((1_000, 1_000, 10_000), (1_000, 1_000, -1), true),
        ((1_000, 1_000, -10_000), (1_000, 1_000, 1), true),
        // An end in the plane is not blocked, nor is a segment in the plane.
        ((1_000, 1_000, 10_000), (1_000, 1_000, 0), false),
        ((-1_000, 1_000, 0), (20_000, 1_000, 0), false),
        // Through a side and through a corner.
        ((5_000, 0, 10_000), (5_000, 0, -10_000), true),
        ((0, 0, 10_000), (0, 0, -10_000), true),
        // Beside the triangle, and short of it.
        ((5_001, 5_000, 10_000), (5_001, 5_000, -10_000), false),
        ((-1, 1_000, 10_000), (-1, 1_000, -10_000), false),
        ((1_000, 1_000, 10_000), (1_000, 1_000, 1), false),
        // As far as segments reach.
        ((0, 0, -50_100_000), (0, 0, 320_000_000), true),
        ((50_100_000, 1, 1), (-320_000_000, 1, -1), false),
    ];
    for ((px, py, pz), (qx, qy, qz), wanted) in rows {
        let p = Vec3 {
            x: px,
            y: py,
            z: pz,
        };
        let q = Vec3 {
            x: qx,
            y: qy,
            z: qz,
        };
        assert!(rt;
            px.unsigned_abs() <= 50_100_000
                && py.unsigned_abs() <= 50_100_000
                && pz.unsigned_abs() <= 50_100_000
        );
        assert!(rt;
            qx.unsigned_abs() <= 320_000_000
                && qy.unsigned_abs() <= 320_000_000
                && qz.unsigned_abs() <= 320_000_000
        );
        assert_eq!(rt; blocks(p, q, &t), wanted, "from {p:?} to {q:?}");
    }
    // The side is shared: the triangle on its other side blocks there too.
    let p = Vec3 {
        x: 5_000,
        y: 0,
        z: 10_000,
    };
    let q = Vec3 {
        x: 5_000,
        y: 0,
        z: -10_000,
    };
    assert!(rt; blocks(p, q, &Tri { a, b, c: below }));
}

#[test]
fn depths(rt: HostRuntime) {
    let t = Tri {
        a: Vec3 {
            x: -10_000,
            y: -10_000,
            z: 0,
        },
        b: Vec3 {
            x: 10_000,
            y: -10_000,
            z: 0,
        },
        c: Vec3 {
            x: 0,
            y: 10_000,
            z: 0,
        },
    };
    let eye = Vec3 {
        x: 0,
        y: 0,
        z: 50_000,
    };
    // 2^30 * 50000 / 2^28
    let down = Vec3 {
        x: 0,
        y: 0,
        z: -268_435_456,
    };
    let up = Vec3 {
        x: 0,
        y: 0,
        z: 268_435_456,
    };
    assert_eq!(rt; depth(eye, down, &t), Some(200_000));
    assert_eq!(rt; depth(eye, up, &t), None);
    // A third of the way, rounded down.
    let third = Vec3 {
        x: 0,
        y: 0,
        z: -150_000,
    };
    assert_eq!(rt; depth(eye, third, &t), Some(357_913_941));
}

#[test]
fn weights_of_corners(rt: HostRuntime) {
    let t = Tri {
        a: Vec3 { x: 0, y: 0, z: 0 },
        b: Vec3 {
            x: 10_000,
            y: 0,
            z: 0,
        },
        c: Vec3 {
            x: 0,
            y: 10_000,
            z: 0,
        },
    };
    // Straight down at 1000 along the one side and 2000 along the other: 7, 1 and 2 parts of 10.
    let p = Vec3 {
        x: 1_000,
        y: 2_000,
        z: 10_000,
    };
    let q = Vec3 {
        x: 1_000,
        y: 2_000,
        z: -10_000,
    };
    assert!(rt; blocks(p, q, &t));
    assert_eq!(rt;
        weights_of(p, q, &t),
        Weights {
            a: 1_400_000_000_000,
            b: 200_000_000_000,
            c: 400_000_000_000
        }
    );
}
