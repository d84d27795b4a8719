// Rays worked out by hand.
use lc_num::Vec3;
use lc_view::{Camera, Ray, ray_of, ray_of_sample};
use std::test::*;

const MIDDLE: Vec3 = Vec3 { x: 0, y: 0, z: 0 };

const ABOVE: Vec3 = Vec3 {
    x: 0,
    y: 0,
    z: 50_000,
};

const NORTH: Vec3 = Vec3 {
    x: 0,
    y: 10_000,
    z: 0,
};

const DOWN: Vec3 = Vec3 {
    x: 0,
    y: 0,
    z: -268_435_456,
};

#[test]
fn one_sample_is_straight_ahead(rt: HostRuntime) {
    let camera = Camera {
        eye: ABOVE,
        at: MIDDLE,
        up: NORTH,
        view: 5_000,
        width: 1,
        height: 1,
        grid: 1,
    };
    assert_eq!(rt; ray_of(&camera, 0, 0, 0, 0), Ray { e: ABOVE, d: DOWN });
}

#[test]
fn four_pixels(rt: HostRuntime) {
    let camera = Camera {
        eye: ABOVE,
        at: MIDDLE,
        up: NORTH,
        view: 5_000,
        width: 2,
        height: 2,
        grid: 1,
    };
    // 5000 to a side and 5000 up or down at 20000 ahead: 2^28 times the root of 1/18, and of 16/18.
    for (col, row, x, y) in [
        (0, 0, -63_270_843, 63_270_843),
        (1, 0, 63_270_843, 63_270_843),
        (0, 1, -63_270_843, -63_270_843),
        (1, 1, 63_270_843, -63_270_843),
    ] {
        assert!(rt; col < 2 && row < 2);
        let d = Vec3 {
            x,
            y,
            z: -253_083_375,
        };
        assert_eq!(rt;
            ray_of(&camera, col, row, 0, 0).d,
            d,
            "column {col}, row {row}"
        );
    }
}

#[test]
fn four_samples_lie_as_four_pixels(rt: HostRuntime) {
    let camera = Camera {
        eye: ABOVE,
        at: MIDDLE,
        up: NORTH,
        view: 5_000,
        width: 1,
        height: 1,
        grid: 2,
    };
    for (a, b, x, y) in [
        (0, 0, -63_270_843, 63_270_843),
        (1, 0, 63_270_843, 63_270_843),
        (0, 1, -63_270_843, -63_270_843),
        (1, 1, 63_270_843, -63_270_843),
    ] {
        assert!(rt; a < 2 && b < 2);
        let d = Vec3 {
            x,
            y,
            z: -253_083_375,
        };
        assert_eq!(rt; ray_of(&camera, 0, 0, a, b).d, d, "sample {a}, {b}");
    }
}

#[test]
fn cameras_without_a_direction(rt: HostRuntime) {
    let inside = Camera {
        eye: ABOVE,
        at: ABOVE,
        up: NORTH,
        view: 5_000,
        width: 2,
        height: 2,
        grid: 1,
    };
    assert_eq!(rt;
        ray_of(&inside, 0, 0, 0, 0),
        Ray {
            e: ABOVE,
            d: MIDDLE
        }
    );
    // Where `up` points along the way, nothing is to the right or above.
    let upright = Camera {
        eye: ABOVE,
        at: MIDDLE,
        up: ABOVE,
        view: 5_000,
        width: 2,
        height: 2,
        grid: 1,
    };
    assert_eq!(rt; ray_of(&upright, 0, 0, 0, 0), Ray { e: ABOVE, d: DOWN });
}

#[test]
fn a_camera_askew(rt: HostRuntime) {
    let camera = Camera {
        eye: Vec3 {
            x: 10_000,
            y: 20_000,
            z: 30_000,
        },
        at: Vec3 {
            x: -5_000,
            y: 7_000,
            z: 1_000,
        },
        up: Vec3 {
            x: 1_000,
            y: 9_000,
            z: 2_000,
        },
        view: 7_002,
        width: 640,
        height: 480,
        grid: 3,
    };
    let d = Vec3 {
        x: -204_547_511,
        y: -150_487_187,
        z: -87_014_457,
    };
    assert_eq!(rt; ray_of(&camera, 17, 401, 2, 1).d, d);
}

#[test]
fn the_widest_camera(rt: HostRuntime) {
    let camera = Camera {
        eye: Vec3 {
            x: 50_000_000,
            y: 50_000_000,
            z: 50_000_000,
        },
        at: Vec3 {
            x: -50_000_000,
            y: -50_000_000,
            z: -50_000_000,
        },
        up: Vec3 {
            x: 50_000_000,
            y: -50_000_000,
            z: 50_000_000,
        },
        view: 100_000,
        width: 4_096,
        height: 4_096,
        grid: 16,
    };
    let d = Vec3 {
        x: -67_525_573,
        y: -165_527_497,
        z: 200_246_194,
    };
    assert_eq!(rt; ray_of(&camera, 4_095, 0, 15, 0).d, d);
}

#[test]
fn samples_by_their_numbers(rt: HostRuntime) {
    let camera = Camera {
        eye: ABOVE,
        at: MIDDLE,
        up: NORTH,
        view: 5_000,
        width: 3,
        height: 2,
        grid: 2,
    };
    // A pixel has 4 samples and a row 12.
    for (sample, col, row, a, b) in [
        (0, 0, 0, 0, 0),
        (1, 0, 0, 1, 0),
        (2, 0, 0, 0, 1),
        (4, 1, 0, 0, 0),
        (12, 0, 1, 0, 0),
        (23, 2, 1, 1, 1),
    ] {
        assert!(rt; sample < 24 && col < 3 && row < 2 && a < 2 && b < 2);
        assert_eq!(rt;
            ray_of_sample(&camera, sample),
            ray_of(&camera, col, row, a, b),
            "sample {sample}"
        );
    }
}
