// Light that a triangle blocks, worked out by hand: here trees, triangles and cuts meet.
use crate::cases::{Case, expect};
use crate::renders::{NAMES, REFUSED, SCENE, WHITE};
use std::test::Fail;

/// A white triangle at the origin, seen from between it and a second one, which stands 1 above the place at which light is
/// reckoned. That place is 0.0016 above the first triangle.
const BETWEEN: Case = Case {
    job: &[NAMES, "eye 0 0 0.5\nat 0 0 0\nsize 1 1\ncut 4\n"],
    scene: &[
        "mtllib x.mtl\nusemtl a\n",
        SCENE,
        "v -1 -1 1.0016\nv 1 -1 1.0016\nv 0 1 1.0016\nf 4 5 6\n",
    ],
    others: &[("x.mtl", &["newmtl a\nKd 1\n"])],
    ..REFUSED
};

const DARK: &[u8] = b"P6\n1 1\n255\n\0\0\0";

const NO_LIGHT: &str = "LCB 1 1 1 1 4 20\n1 1 0 0 0 0 0 0\n";

/// Lights with the picture and the record.
const SHADES: &[(&str, &[u8], &str)] = &[
    // Behind the second triangle, in its plane and before it.
    ("point 0 0 2.0016 1 1 1", DARK, NO_LIGHT),
    (
        "point 0 0 1.0016 1 1 1",
        WHITE,
        "LCB 1 1 1 1 4 20\n1 1 6553600000000000000000 6553600000000000000000 6553600000000000000000 0 0 0\n",
    ),
    (
        "point 0 0 0.5016 1 1 1",
        WHITE,
        "LCB 1 1 1 1 4 20\n1 1 26214400000000000000000 26214400000000000000000 26214400000000000000000 0 0 0\n",
    ),
    // Seen through its side and past it.
    ("point 1 0 2.0016 1 1 1", DARK, NO_LIGHT),
    (
        "point 1.0002 0 2.0016 1 1 1",
        b"P6\n1 1\n255\n\x6B\x6B\x6B",
        "LCB 1 1 1 1 4 20\n1 1 1172186211738600000000 1172186211738600000000 1172186211738600000000 0 0 0\n",
    ),
    // Suns, as far away as their targets lie.
    ("sun 0 0 1 1 1 1", DARK, NO_LIGHT),
    (
        "sun 1 0 1 1 1 1",
        b"P6\n1 1\n255\n\xD6\xD6\xD6",
        "LCB 1 1 1 1 4 20\n1 1 4634000000000000000000 4634000000000000000000 4634000000000000000000 0 0 0\n",
    ),
    // The sample of an area light that faces down.
    (
        "area 0 0 2.0016 0 0.0001 0 0.0001 0 0 1 1 1 1",
        DARK,
        NO_LIGHT,
    ),
    // A point that is seen and one that is not, and a sun of each sort: of the four leaves two give light.
    (
        "point 0 0 2.0016 1 1 1\npoint 0 0 0.5016 1 1 1\nsun 0 0 1 1 1 1\nsun 1 0 1 1 1 1\n",
        WHITE,
        "LCB 1 1 1 1 4 20\n4 4 30848400000000000000000 30848400000000000000000 30848400000000000000000 0 0 0\n",
    ),
];

#[test]
fn counts_only_lights_that_are_seen(rt: HostRuntime) -> Result<(), Fail> {
    for (lights, picture, bounds) in SHADES {
        let case = Case {
            shows: lights,
            lights: &[*lights],
            picture,
            bounds,
            ..BETWEEN
        };
        expect(&rt, &case)?;
    }
    Ok(())
}
