// Worked examples of light files.
use lc_light::{
    LightStop, Omni, Sun, area_powers_add_up, oriented_powers_are_those_of_areas, read_lights,
};
use lc_num::{Power, Vec3};
use std::test::*;

#[test]
fn lights(rt: HostRuntime) {
    let text =
        b"# lights\n\npoint 1 -2.5 +3.0001 0 0.5 10000\r\n\tpoint\t-0 5000 -5000 -0 +1 000001.2 # \xFF\n \t\r\nsun 1 -2.5 +3.0001 0 0 10000\nsun 0 0 -5000 1 1 1\npoint 0 0 0 0 0 0".as_slice();
    let lights = read_lights(rt.alloc(), text, 7).expect(&rt, "a good text");
    let points = [
        ((10_000, -25_000, 30_001), (0, 5_000, 100_000_000)),
        ((0, 50_000_000, -50_000_000), (0, 10_000, 12_000)),
        ((0, 0, 0), (0, 0, 0)),
    ]
    .map(|((x, y, z), (r, g, b))| Omni {
        place: Vec3 { x, y, z },
        power: Power { r, g, b },
    });
    let suns = [
        ((4_064, -10_160, 12_193), (0, 0, 100_000_000)),
        ((0, 0, -16_384), (10_000, 10_000, 10_000)),
    ]
    .map(|((x, y, z), (r, g, b))| Sun {
        toward: Vec3 { x, y, z },
        power: Power { r, g, b },
    });
    assert_eq!(rt; lights.omni.as_slice(), points.as_slice());
    assert_eq!(rt; lights.sun.as_slice(), suns.as_slice());
    assert_eq!(rt; lights.oriented.len(), 0);
    for text in [b"".as_slice(), b"\n\n", b"# point", b" \t\r\n#"] {
        assert!(rt; text.len() <= 1_000);
        let lights = read_lights(rt.alloc(), text, 7).expect(&rt, "no line");
        assert_eq!(rt;
            (lights.omni.len(), lights.oriented.len(), lights.sun.len()),
            (0, 0, 0),
            "at {text:?}"
        );
    }
}

// The words of seed 7, and the places that they pick, are those of another program for the same generator.
#[test]
fn samples(rt: HostRuntime) {
    area_powers_add_up();
    oriented_powers_are_those_of_areas();
    for (text, wanted) in [
        (
            b"area 0 0 1 0 0.0001 0 0.0001 0 0 1 1 1 3".as_slice(),
            [
                ((0, 0, 10_000), (0, 0, -16_384), (3_334, 3_334, 3_334)),
                ((0, 0, 10_000), (0, 0, -16_384), (3_333, 3_333, 3_333)),
                ((0, 0, 10_000), (0, 0, -16_384), (3_333, 3_333, 3_333)),
            ]
            .as_slice(),
        ),
        (
            b"area 1 2 3 4 0 0 0 -5 0 0.0001 0.0005 0.001 2\nsun 1 0 0 1 1 1\narea -1 0 2.5 0 -3 4 -7.0001 0 0.0003 1 2 2.9999 3",
            [
                ((16_115, -22_868, 30_000), (0, 0, -16_384), (1, 3, 5)),
                ((11_110, -17_085, 30_000), (0, 0, -16_384), (0, 2, 5)),
                (
                    (-36_976, -19_818, 51_424),
                    (0, -13_107, -9_830),
                    (3_334, 6_667, 10_000),
                ),
                (
                    (-48_215, -17_697, 48_595),
                    (0, -13_107, -9_830),
                    (3_333, 6_667, 10_000),
                ),
                (
                    (-39_129, -10_274, 38_699),
                    (0, -13_107, -9_830),
                    (3_333, 6_666, 9_999),
                ),
            ]
            .as_slice(),
        ),
    ] {
        assert!(rt; text.len() <= 1_000);
        let lights = read_lights(rt.alloc(), text, 7).expect(&rt, "a good text");
        assert_eq!(rt; lights.oriented.len(), wanted.len());
        for (light, (place, normal, power)) in lights.oriented.as_slice().iter().zip(wanted) {
            assert_eq!(rt;
                (light.place.x, light.place.y, light.place.z),
                *place,
                "at {text:?}"
            );
            assert_eq!(rt;
                (light.normal.x, light.normal.y, light.normal.z),
                *normal,
                "at {text:?}"
            );
            assert_eq!(rt;
                (light.power.r, light.power.g, light.power.b),
                *power,
                "at {text:?}"
            );
        }
    }
}

#[test]
fn faults(rt: HostRuntime) {
    for (text, line, kind) in [
        (b"spot 0 0 1 1 1 1".as_slice(), 1, 1),
        (b"Point 0 0 0 1 1 1\n", 1, 1),
        (b"points 0 0\n", 1, 1),
        (b"\n\xEF\xBB\xBFpoint 0 0 0 1 1 1\n", 2, 1),
        (b"point\x0B0 0 0 1 1 1\n", 1, 1),
        (b"point", 1, 3),
        (b"point 0 0 0 1 1\n", 1, 3),
        (b"point 0 0 0 1 1 #1\n", 1, 3),
        (b"point 0 0 0 1 1 1 1\n", 1, 3),
        (b"point 0 0 0 1 1 1 \\ \n", 1, 3),
        (b"point 0 0 0 1 1 1 \\\n1\n", 1, 3),
        (b"point 0 0 0 1 1\x001\n", 1, 3),
        (b"point x 0 0 1 1\n", 1, 3),
        (b"point x 0 0 1 1 1\n", 1, 2),
        (b"point 0 1234567 0 1 1 1\n", 1, 4),
        (b"point 0 1e11 0 1 1 1\n", 1, 2),
        (b"point 0 0 0 1e41 1 1\n", 1, 2),
        (b"point 0 0 0 0.0000000000000000000000000000001 1 1\n", 1, 2),
        (b"point 0 0 0 nan 1 1\n", 1, 2),
        (b"point 0 0 0 1 1 -0.00005\n", 1, 5),
        (b"point 5000.00005 0 0 1 1 1\n", 1, 4),
        (b"point 0 0 0 1 1 1#\n", 1, 2),
        (b"point 0 0 x -1 1 1\n", 1, 2),
        (b"point 0 0 0 -0.0001 1 1\n", 1, 5),
        (b"point 0 0 0 1 1 -999999\n", 1, 5),
        (b"point 0 0 0 1 -1 20000\n", 1, 5),
        (b"point 0 0 0 1 1 10000.0001\n", 1, 4),
        (b"point 0 0 0 20000 -1 1\n", 1, 4),
        (b"point 5000.0001 x 0 -1 1 1\n", 1, 4),
        (b"point 0 -5000.0001 0 1 1 1\n", 1, 4),
        (b"suns 0 0 1 1 1 1", 1, 1),
        (b"area 0 0 0 1 1 1", 1, 3),
        (b"sun 0 0 0 1 1", 1, 3),
        (b"sun 0 0 x 1 1 1", 1, 2),
        (b"sun 0 0 -5001 1 1 1", 1, 4),
        (b"sun 0 0 0 1 1 -1", 1, 5),
        (b"sun 0 0 0 1 1 1", 1, 6),
        (b"sun 0 -0.0 +0 0 0 0", 1, 6),
        (b"area 0 0 0 1 0 0 0 1 0 1 1 1 x", 1, 2),
        (b"area 0 0 0 1 0 0 0 1 0 1 1 1 1.0", 1, 2),
        (b"area 0 0 0 1 0 0 0 1 0 1 1 1 +1", 1, 2),
        (b"area 0 0 0 1 0 0 0 1 0 1 1 1 1e0", 1, 2),
        (b"area 0 0 0 1 0 0 0 1 0 1 1 1 18446744073709551616", 1, 2),
        (b"area 0 0 0 1 0 0 0 1 0 1 1 1 18446744073709551615", 1, 8),
        (b"area 0 0 0 1e11 0 0 0 1 0 1 1 1 1", 1, 2),
        (b"area 0 0 0 1e10 0 0 -1e10 1 0 1 1 1 1", 1, 4),
        (b"area 0 0 0 0.00004 0 0 0 1 0 1 1 1 1", 1, 7),
        (b"point 0 0 0 \\\n 1 1 1\\\r\n\n\\\nbad", 4, 1),
        (b"area 0 0 0 1 0 0 0 1 0 1 1 1 0", 1, 8),
        (b"area 0 0 0 1 0 0 0 1 0 1 1 1 4097", 1, 8),
        (b"area 0 0 0 9000 0 0 0 x 0 1 1 1 0", 1, 2),
        (b"area 0 0 0 9000 0 0 0 1 0 1 1 1 0", 1, 8),
        (b"area 0 0 0 9000 0 0 0 1 0 -1 1 1 x", 1, 5),
        (b"area 0 0 0 9000 0 0 0 1 0 1 1 10001 x", 1, 4),
        (b"area 0 5001 0 9000 0 0 x 1 0 -1 1 1 x", 1, 4),
        (b"area 1 0 0 5000 0 0 0 1 0 1 1 1 1", 1, 4),
        (b"area 0 -1 0 1 0 0 0 -4999.0001 0 1 1 1 1", 1, 4),
        (b"area 0 0 0 3000 0 0 2000.0001 1 0 1 1 1 1", 1, 4),
        (b"area 0 0 0 6000 0 0 6000 0 0 1 1 1 1", 1, 4),
        (b"area 0 0 0 1 0 0 2 0 0 1 1 1 4", 1, 7),
        (b"area 0 0 0 0 0 0 1 0 0 1 1 1 4", 1, 7),
        (b"area 0 0 0 1 2 3 -2 -4 -6 1 1 1 4", 1, 7),
        (b"point 0 0 0 1 1 1\n\n# c\nbad", 4, 1),
        (b"sun 1 0 0 1 1 1\narea 0 0 0 1 0 0 0 1 0 1 1 1 0", 2, 8),
        (b"\npoint 0 0 0 1 1 -1\nbad\n", 2, 5),
    ] {
        assert!(rt; text.len() <= 1_000);
        let stop = read_lights(rt.alloc(), text, 7).err();
        assert_eq!(rt; stop, Some(LightStop::Fault { line, kind }), "at {text:?}");
    }
}

#[test]
fn limits(rt: HostRuntime) {
    for text in [
        b"area 0 0 0 1 0 0 0 1 0 1 1 1 1".as_slice(),
        b"area 0 0 0 1 0 0 0 1 0 1 1 1 000000000000000000000000004096",
        b"\xEF\xBB\xBFpoint 0 0 \\\n1 1 1 1\n",
        b"point 0 0 0 1 1 1 \\\n",
        b"point 5000.00004 -5000.00004 1e-40 -0.00004 1e4 +.5e+3",
        b"area 5000 -5000 5000 -10000 0 0 0 10000 0 1 1 1 1",
        b"area 0 -1 0 5000 0 -0.0001 0 -4999 0 10000 0 0 1",
    ] {
        assert!(rt; text.len() <= 1_000);
        assert!(rt; read_lights(rt.alloc(), text, 0).is_ok(), "at {text:?}");
    }
    let mut text = Vec::new(rt.alloc());
    for _ in 0..1_001 {
        text.extend_from_slice(b"point 0 0 0 1 1 1\n")
            .expect(&rt, "memory");
    }
    assert!(rt; text.len() <= 100_000);
    let lights = read_lights(rt.alloc(), &text, 7).expect(&rt, "a thousand lights and one");
    assert_eq!(rt; lights.omni.len(), 1_001);
}

#[test]
fn many(rt: HostRuntime) {
    let mut text = Vec::new(rt.alloc());
    for _ in 0..16 {
        text.extend_from_slice(b"area 0 0 0 1 0 0 0 1 0 1 1 1 4096\n")
            .expect(&rt, "memory");
    }
    assert!(rt; text.len() <= 100_000);
    let lights = read_lights(rt.alloc(), &text, 7).expect(&rt, "as many lights as may be");
    assert_eq!(rt; lights.oriented.len(), 65_536);
    for (more, kind) in [
        (b"area 0 0 0 1 0 0 0 1 0 1 1 1 4096".as_slice(), 9),
        (b"area 0 0 0 1 0 0 0 1 0 1 1 1 1", 9),
        (b"area 0 0 0 1 0 0 2 0 0 1 1 1 1", 7),
        (b"point 0 0 0 1 1 1", 9),
        (b"sun 0 0 1 1 1 1", 9),
        (b"sun 0 0 0 1 1 1", 6),
        (b"point 0 0 0 1 1 x", 2),
        (b"area", 3),
    ] {
        let mut longer = text.clone().expect(&rt, "memory");
        longer.extend_from_slice(more).expect(&rt, "memory");
        assert!(rt; longer.len() <= 200_000);
        let stop = read_lights(rt.alloc(), &longer, 7).err();
        assert_eq!(rt; stop, Some(LightStop::Fault { line: 17, kind }));
    }
}
