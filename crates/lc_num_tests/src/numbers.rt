// Values worked out by hand, and each call that asks for memory on its happy path.
ghost use Rattle.std.specs.Prelude.{◌≡◌, ◌<◌};

use lc_num::{
    List, Memory, Name, Span3, Steps, Text, Vec3, cos_top, cos_top2, cos16, cross, dot, emit_top,
    emit_top2, greater, isqrt, lesser, near2, pow16, scaled, square,
};
use std::marker::Brand;
use std::sync::ledger::{Blank, Ledger};
use std::test::*;

#[test]
fn roots(rt: HostRuntime) {
    assert_eq!(rt; isqrt(0), 0);
    assert_eq!(rt; isqrt(1), 1);
    assert_eq!(rt; isqrt(3), 1);
    assert_eq!(rt; isqrt(4), 2);
    assert_eq!(rt; isqrt(8_589_934_591), 92681);
    assert_eq!(rt; isqrt(18_446_744_073_709_551_615), 4_294_967_295);
    assert_eq!(rt; isqrt(18_446_744_073_709_551_616), 4_294_967_296);
    assert_eq!(rt;
        isqrt(1_000_000_000_000_000_000_000_000_000_000),
        1_000_000_000_000_000
    );
    assert_eq!(rt;
        isqrt(340_282_366_920_938_463_463_374_607_431_768_211_455),
        18_446_744_073_709_551_615
    );
}

#[test]
fn products(rt: HostRuntime) {
    let a = Vec3 { x: 1, y: -2, z: 3 };
    let b = Vec3 { x: 4, y: 5, z: -6 };
    assert_eq!(rt; dot(a, b), -24);
    assert_eq!(rt; square(b), 77);
    let at_right_angles = Vec3 {
        x: -3,
        y: 18,
        z: 13,
    };
    assert_eq!(rt; cross(a, b), at_right_angles);
    let other_way = Vec3 {
        x: 3,
        y: -18,
        z: -13,
    };
    assert_eq!(rt; cross(b, a), other_way);
    // Two vectors of one direction.
    let twice = Vec3 { x: -2, y: 4, z: -6 };
    assert_eq!(rt; cross(a, twice), Vec3 { x: 0, y: 0, z: 0 });
    // At the limits: 2 * 2^60.
    let far = 1_073_741_824;
    let down = Vec3 {
        x: 0,
        y: far,
        z: -far,
    };
    let up = Vec3 {
        x: 0,
        y: far,
        z: far,
    };
    assert_eq!(rt;
        cross(down, up),
        Vec3 {
            x: 2_305_843_009_213_693_952,
            y: 0,
            z: 0
        }
    );
}

#[test]
fn lengths(rt: HostRuntime) {
    // The root of 3 is 1 as a whole number, so each component is 16384 / 1.
    let diagonal = Vec3 { x: 1, y: 1, z: 1 };
    assert_eq!(rt;
        scaled(diagonal, 16384),
        Vec3 {
            x: 16384,
            y: 16384,
            z: 16384
        }
    );
    // -10 / 3 and 20 / 3.
    let short = Vec3 { x: -1, y: 2, z: 2 };
    assert_eq!(rt; scaled(short, 10), Vec3 { x: -3, y: 6, z: 6 });
    let none = Vec3 { x: 0, y: 0, z: 0 };
    assert_eq!(rt; scaled(none, 16384), none);
    // Just beyond 64 bits, and at the limits.
    let long = Vec3 {
        x: 1_073_741_825,
        y: -1,
        z: 0,
    };
    assert_eq!(rt;
        scaled(long, 268_435_456),
        Vec3 {
            x: 268_435_456,
            y: 0,
            z: 0
        }
    );
    let far = 1_152_921_504_606_846_976;
    let longest = Vec3 {
        x: far,
        y: far,
        z: -far,
    };
    assert_eq!(rt;
        scaled(longest, 268_435_456),
        Vec3 {
            x: 154_981_282,
            y: 154_981_282,
            z: -154_981_282
        }
    );
}

#[test]
fn cosines(rt: HostRuntime) {
    let up = Vec3 {
        x: 0,
        y: 0,
        z: 16384,
    };
    let half_right = Vec3 {
        x: 10000,
        y: 0,
        z: 10000,
    };
    let across = Vec3 {
        x: 100_100_000,
        y: 0,
        z: 0,
    };
    let down = Vec3 { x: 1, y: 0, z: -1 };
    let far = Vec3 {
        x: 100_100_000,
        y: 100_100_000,
        z: 100_100_000,
    };
    let near = Vec3 {
        x: 16384,
        y: 16384,
        z: 16384,
    };
    let steep = Vec3 {
        x: 5,
        y: 16384,
        z: 0,
    };
    assert_eq!(rt; cos16(up, half_right), 46340);
    assert_eq!(rt; cos16(up, up), 65536);
    assert_eq!(rt; cos16(up, across), 0);
    assert_eq!(rt; cos16(up, down), 0);
    assert_eq!(rt; cos16(far, near), 65536);
    assert_eq!(rt; cos16(across, steep), 19);
}

#[test]
fn lists(rt: HostRuntime) {
    let mut list = List::new(rt.alloc());
    assert!(rt; list.is_empty());
    assert_eq!(rt; list.push(7), Ok(()));
    assert_eq!(rt; list.push(8), Ok(()));
    assert!(rt; !list.is_empty());
    assert_eq!(rt; list.len(), 2);
    assert_eq!(rt; list.as_slice(), [7, 8].as_slice());
    let mut other = List::new(rt.alloc());
    assert_eq!(rt; other.push(9), Ok(()));
    assert_eq!(rt; list.append(other), Ok(()));
    assert_eq!(rt; list.append(List::new(rt.alloc())), Ok(()));
    assert_eq!(rt; list.as_slice(), [7, 8, 9].as_slice());
}

#[test]
fn texts(rt: HostRuntime) {
    let mut text = Text::new(rt.alloc());
    assert_eq!(rt; text.append(b"light"), Ok(()));
    assert_eq!(rt; text.append(b"cuts"), Ok(()));
    assert_eq!(rt; text.len(), 9);
    assert_eq!(rt; text.as_slice(), b"lightcuts".as_slice());
}

#[test]
fn names(rt: HostRuntime) {
    match Name::from_text(rt.alloc(), "room.obj") {
        Ok(name) => {
            assert_eq!(rt; name.as_str(), "room.obj");
            match name.to_string(rt.alloc()) {
                Ok(text) => assert_eq!(rt; text.as_str(), "room.obj"),
                Err(error) => assert_eq!(rt; Err(Memory::from(error)), Ok(())),
            }
        }
        Err(error) => assert_eq!(rt; Err(error), Ok(())),
    }
}

#[test]
fn memory(rt: HostRuntime) {
    match Memory.to_string(rt.alloc()) {
        Ok(text) => assert_eq!(rt; text.as_str(), "out of memory"),
        Err(error) => assert_eq!(rt; Err(Memory::from(error)), Ok(())),
    }
}

fn two_steps<L: Ledger>(blank: Blank)
    requires name { blank.name ≡ L.name }
    requires parts { blank.parts ≡ L.parts }
    requires some { 0 < L.parts }
{
    let mut steps = Steps::<L>::start(blank);
    steps.tick();
    steps.tick();
}

#[test]
fn steps() {
    two_steps::<Brand>(Blank::new(1));
}

#[test]
fn boxes(rt: HostRuntime) {
    let span = Span3 {
        lo: Vec3 {
            x: -1,
            y: -1,
            z: 10,
        },
        hi: Vec3 { x: 1, y: 1, z: 20 },
    };
    let middle = Vec3 { x: 0, y: 1, z: 15 };
    let corner = Vec3 { x: 4, y: 3, z: 30 };
    assert_eq!(rt; near2(middle, span), 0);
    assert_eq!(rt; near2(corner, span), 9 + 4 + 100);
    let far = 50_100_000;
    let one_end = Vec3 {
        x: far,
        y: far,
        z: far,
    };
    let other_end = Vec3 {
        x: -far,
        y: -far,
        z: -far,
    };
    let farthest = Span3 {
        lo: other_end,
        hi: other_end,
    };
    assert_eq!(rt; near2(one_end, farthest), 3 * 100_200_000 * 100_200_000);
}

#[test]
fn cosine_bounds(rt: HostRuntime) {
    let span = Span3 {
        lo: Vec3 {
            x: -1,
            y: -1,
            z: 10,
        },
        hi: Vec3 { x: 1, y: 1, z: 20 },
    };
    let up = Vec3 {
        x: 0,
        y: 0,
        z: 16384,
    };
    let down = Vec3 { x: 0, y: 0, z: -1 };
    let aside = Vec3 { x: 1, y: 0, z: 0 };
    // 1 / sqrt(100), and 1 / sqrt(102) in 1/65536.
    assert_eq!(rt; cos_top(aside, span, 100), 6553);
    assert_eq!(rt; cos_top(aside, span, 102), 6489);
    assert_eq!(rt; cos_top(up, span, 100), 65536);
    assert_eq!(rt; cos_top(up, span, 0), 65536);
    assert_eq!(rt; cos_top(down, span, 0), 0);
    // A long normal, where the products pass 128 bits: 3 / sqrt(9 * 10^16).
    let long = Vec3 {
        x: 100_000_000,
        y: 0,
        z: 0,
    };
    let short = Span3 {
        lo: Vec3 { x: 1, y: 0, z: 0 },
        hi: Vec3 { x: 3, y: 0, z: 0 },
    };
    assert_eq!(rt; cos_top(long, short, 9), 65536);
    assert_eq!(rt; cos_top(long, short, 36), 32768);
    assert_eq!(rt; cos_top(long, short, 30_000_000_000_000_000), 0);
    let wide = Span3 {
        lo: Vec3 {
            x: 16384,
            y: 0,
            z: 0,
        },
        hi: Vec3 {
            x: 16384,
            y: 0,
            z: 0,
        },
    };
    // 2^32 * 2^28 / 10^16 is 115 and a part.
    assert_eq!(rt; cos_top(long, wide, 10_000_000_000_000_000), 10);
}

#[test]
fn emission_bounds(rt: HostRuntime) {
    let normals = Span3 {
        lo: Vec3 { x: -3, y: -1, z: 4 },
        hi: Vec3 { x: 2, y: 1, z: 4 },
    };
    let offsets = Span3 {
        lo: Vec3 { x: -2, y: 5, z: -1 },
        hi: Vec3 { x: -1, y: 6, z: 3 },
    };
    // The greatest products are 6, 6 and 12: 24 / sqrt(25 * 36), 24 / sqrt(577), and 24 / sqrt(576) or more.
    assert_eq!(rt; emit_top(normals, 25, offsets, 36), 52428);
    assert_eq!(rt; emit_top(normals, 1, offsets, 577), 65479);
    assert_eq!(rt; emit_top(normals, 24, offsets, 24), 65536);
    assert_eq!(rt; emit_top(normals, 1, offsets, 575), 65536);
    assert_eq!(rt; emit_top(normals, 0, offsets, 36), 65536);
    assert_eq!(rt; emit_top(normals, 25, offsets, 0), 65536);
    // Offsets behind the normals, and at right angles to them.
    let up = Span3 {
        lo: Vec3 { x: 0, y: 0, z: 3 },
        hi: Vec3 { x: 0, y: 0, z: 4 },
    };
    let behind = Span3 {
        lo: Vec3 {
            x: -9,
            y: -9,
            z: -2,
        },
        hi: Vec3 { x: 9, y: 9, z: -1 },
    };
    let aside = Span3 {
        lo: Vec3 {
            x: -9,
            y: -9,
            z: -2,
        },
        hi: Vec3 { x: 9, y: 9, z: 0 },
    };
    assert_eq!(rt; emit_top(up, 9, behind, 1), 0);
    assert_eq!(rt; emit_top(up, 0, behind, 0), 0);
    assert_eq!(rt; emit_top(up, 9, aside, 0), 0);
}

#[test]
fn emission_bounds_at_the_limits(rt: HostRuntime) {
    let normals = Span3 {
        lo: Vec3 {
            x: -16384,
            y: -16384,
            z: -16384,
        },
        hi: Vec3 {
            x: 16384,
            y: 16384,
            z: 16384,
        },
    };
    let far = 100_100_000;
    let everywhere = Span3 {
        lo: Vec3 {
            x: -far,
            y: -far,
            z: -far,
        },
        hi: Vec3 {
            x: far,
            y: far,
            z: far,
        },
    };
    let along = Span3 {
        lo: Vec3 {
            x: -far,
            y: 0,
            z: 0,
        },
        hi: Vec3 { x: far, y: 0, z: 0 },
    };
    // The least squared length is that of the longest offset: the cosine is 1, and 1 / 3 along one axis.
    let longest = 30_060_030_000_000_000;
    assert_eq!(rt; emit_top(normals, 805_306_368, everywhere, longest), 65536);
    assert_eq!(rt; emit_top(normals, 805_306_368, along, longest), 21845);
}

#[test]
fn sharper_cosine_bounds(rt: HostRuntime) {
    let up = Vec3 {
        x: 0,
        y: 0,
        z: 16384,
    };
    let down = Vec3 {
        x: 0,
        y: 0,
        z: -16384,
    };
    let aside = Span3 {
        lo: Vec3 {
            x: 10000,
            y: 0,
            z: 0,
        },
        hi: Vec3 {
            x: 10000,
            y: 0,
            z: 10000,
        },
    };
    // The box is at least as far aside as it is high: 1 / sqrt(2).
    assert_eq!(rt; cos_top(up, aside, 100_000_000), 65536);
    assert_eq!(rt; cos_top2(up, aside, 100_000_000), 46340);
    assert_eq!(rt; cos_top2(up, aside, 0), 46340);
    assert_eq!(rt; cos_top2(down, aside, 0), 0);
    // The products add up to 82, and the components of the cross product are from -76 to -36, -9 to 15 and 10 to 20:
    // 82 / sqrt(82^2 + 36^2 + 10^2), and 82 / sqrt(169 * 60).
    let slant = Vec3 { x: 3, y: -4, z: 12 };
    let over = Span3 {
        lo: Vec3 { x: 1, y: 2, z: 3 },
        hi: Vec3 { x: 2, y: 4, z: 7 },
    };
    assert_eq!(rt; cos_top2(slant, over, 14), 59636);
    assert_eq!(rt; cos_top2(slant, over, 60), 53367);
    // A long normal and components from -5 to -2 and from -3 to -2: 3 / sqrt(9 + 4 + 4).
    let long = Vec3 {
        x: 100_000_000,
        y: 0,
        z: 0,
    };
    let short = Span3 {
        lo: Vec3 { x: 1, y: -3, z: 2 },
        hi: Vec3 { x: 3, y: -2, z: 5 },
    };
    assert_eq!(rt; cos_top2(long, short, 9), 47684);
}

#[test]
fn sharper_emission_bounds(rt: HostRuntime) {
    let up = Vec3 {
        x: 0,
        y: 0,
        z: 16384,
    };
    let one = Span3 { lo: up, hi: up };
    let aside = Span3 {
        lo: Vec3 {
            x: 10000,
            y: 0,
            z: 0,
        },
        hi: Vec3 {
            x: 10000,
            y: 0,
            z: 10000,
        },
    };
    let below = Span3 {
        lo: Vec3 {
            x: 10000,
            y: 0,
            z: -1,
        },
        hi: Vec3 {
            x: 10000,
            y: 0,
            z: 0,
        },
    };
    assert_eq!(rt; emit_top2(one, 268_435_456, aside, 100_000_000), 46340);
    assert_eq!(rt; emit_top2(one, 268_435_456, below, 0), 0);
    // The products add up to 15, and the components of the cross product are from -27 to -17, -23 to 1 and 13 to 32:
    // 15 / sqrt(15^2 + 17^2 + 13^2), and 15 / sqrt(26 * 30).
    let normals = Span3 {
        lo: Vec3 { x: 3, y: -1, z: 4 },
        hi: Vec3 { x: 5, y: 1, z: 4 },
    };
    let offsets = Span3 {
        lo: Vec3 { x: -2, y: 5, z: -1 },
        hi: Vec3 { x: -1, y: 6, z: 3 },
    };
    assert_eq!(rt; emit_top2(normals, 26, offsets, 26), 37614);
    assert_eq!(rt; emit_top2(normals, 26, offsets, 30), 35198);
}

#[test]
fn extremes(rt: HostRuntime) {
    let a = Vec3 { x: 1, y: -2, z: 3 };
    let b = Vec3 { x: -4, y: 5, z: 3 };
    assert_eq!(rt; lesser(a, b), Vec3 { x: -4, y: -2, z: 3 });
    assert_eq!(rt; greater(a, b), Vec3 { x: 1, y: 5, z: 3 });
}

#[test]
fn powers(rt: HostRuntime) {
    // A half to the 16th is 1/65536; to the 17th it is rounded away.
    assert_eq!(rt; pow16(32768, 16), 1);
    assert_eq!(rt; pow16(32768, 17), 0);
    assert_eq!(rt; pow16(32768, 1000), 0);
    assert_eq!(rt; pow16(65536, 1000), 65536);
    assert_eq!(rt; pow16(0, 0), 65536);
    assert_eq!(rt; pow16(46340, 1), 46340);
    // 65000^2/65536 is 64468.4 and 65000*64468/65536 is 63940.7.
    assert_eq!(rt; pow16(65000, 2), 64468);
    assert_eq!(rt; pow16(65000, 3), 63940);
}
