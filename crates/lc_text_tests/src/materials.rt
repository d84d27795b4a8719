// Worked examples of material libraries.
use lc_mtl::{Material, Materials, MtlStop, read_mtl};
use lc_num::Colour;
use std::test::*;

const CUBE: &[u8] =
    b"newmtl Material\nNs 225.000000\nKa 1.000000 1.000000 1.000000\nKd 0.800000 0.800000 0.800000\nKs 0.500000 0.500000 0.500000\nKe 0.000000 0.000000 0.000000\nNi 1.450000\nd 1.000000\nillum 2\n";

fn colour(r: u32, g: u32, b: u32) -> Colour {
    Colour { r, g, b }
}

#[test]
fn materials(rt: HostRuntime) {
    for (text, name, kd, ks, ns) in [
        (
            b"newmtl a\nKd 2 0.5 0\nNs 20.5\n".as_slice(),
            b"a".as_slice(),
            (10_000, 5_000, 0),
            (0, 0, 0),
            21,
        ),
        (
            CUBE,
            b"Material",
            (8_000, 8_000, 8_000),
            (5_000, 5_000, 5_000),
            225,
        ),
        (b"newmtl a", b"a", (8_000, 8_000, 8_000), (0, 0, 0), 0),
        (
            b"\xEF\xBB\xBF\tnewmtl \t red # \\\n x\t\r\n# c\r\n\r\n \tKd\t.5\r\nKs 1e-1 +1. \\\r\n1e0 # c\r\n",
            b"red # \\\n x",
            (5_000, 5_000, 5_000),
            (1_000, 10_000, 10_000),
            0,
        ),
        (
            b"Ka 1\nbad\nnewmtl # a\nKd 0 0 1 x -1\nNs 1.49994 x\nkd x\nKs .00005\nmap_Kd -s 1 1 1 f.ppm\n",
            b"# a",
            (0, 0, 10_000),
            (1, 1, 1),
            1,
        ),
        (
            b"newmtl \xFF\0\nKd 1\nKs 1 0 0\nNs 7\nKd 0.00004 1.00005 +1e10\nNs 1001\nKs 0 # 1 1\nKd 0.25\nNs 1.49995",
            b"\xFF\0",
            (2_500, 2_500, 2_500),
            (0, 0, 0),
            2,
        ),
        (
            b"newmtl a\nNs 1e9\nKd -0 -0.00001 0",
            b"a",
            (0, 0, 0),
            (0, 0, 0),
            1_000,
        ),
        (
            b"newmtl a\nNs .49995\nNs 999.49994",
            b"a",
            (8_000, 8_000, 8_000),
            (0, 0, 0),
            999,
        ),
    ] {
        assert!(rt; text.len() <= 1_000);
        let mut materials = Materials::new(rt.alloc());
        read_mtl(rt.alloc(), text, &mut materials).expect(&rt, "a good text");
        assert_eq!(rt; materials.items.len(), 1, "at {text:?}");
        for material in materials.items.as_slice() {
            assert_eq!(rt; material.name.as_slice(), name);
            assert_eq!(rt; material.kd, colour(kd.0, kd.1, kd.2), "at {text:?}");
            assert_eq!(rt; material.ks, colour(ks.0, ks.1, ks.2), "at {text:?}");
            assert_eq!(rt; material.ns, ns, "at {text:?}");
        }
        assert_eq!(rt; materials.find(name), Some(0));
        assert_eq!(rt; materials.find(b"b"), None);
    }
}

#[test]
fn libraries_follow_each_other(rt: HostRuntime) {
    let mut materials = Materials::new(rt.alloc());
    assert_eq!(rt; materials.find(b""), None);
    for text in [
        b"".as_slice(),
        b"newmtl b\nKd 1\nnewmtl a b\nNs 2\nnewmtl b\nKd 0\n",
        b"\n#\n",
        b"newmtl c\nNs 1\nnewmtl a b\n",
    ] {
        assert!(rt; text.len() <= 1_000);
        read_mtl(rt.alloc(), text, &mut materials).expect(&rt, "a good text");
    }
    for (name, place) in [
        (b"b".as_slice(), Some(0)),
        (b"a b", Some(1)),
        (b"c", Some(3)),
        (b"a", None),
        (b"", None),
    ] {
        assert_eq!(rt; materials.find(name), place);
    }
    let text = b"newmtl d\nnewmtl b\nKd 1 1\n".as_slice();
    let stop = read_mtl(rt.alloc(), text, &mut materials).err();
    assert_eq!(rt; stop, Some(MtlStop::Fault { line: 3, kind: 4 }));
    assert_eq!(rt; materials.items.len(), 5);
    for (material, ns) in materials.items.as_slice().iter().zip([0, 2, 0, 1, 0]) {
        assert_eq!(rt; material.ns, ns);
    }
}

#[test]
fn faults(rt: HostRuntime) {
    for (text, line, kind) in [
        (b"newmtl".as_slice(), 1, 6),
        (b"newmtl \t\r\nKd", 1, 6),
        (b"Kd 1", 1, 3),
        (b"# c\n\nKs", 3, 3),
        (b"Ns x\nnewmtl a", 1, 3),
        (b"Kd spectral\nnewmtl a", 1, 3),
        (b"newmtl a\nKd spectral f.rfl", 2, 4),
        (b"newmtl a\nKd spectral", 2, 4),
        (b"newmtl a\nKs xyz 1 1 1", 2, 4),
        (b"newmtl a\nKs xyz 1", 2, 4),
        (b"newmtl a\nKd", 2, 4),
        (b"newmtl a\nKd # 1", 2, 4),
        (b"newmtl a\nKd x -1", 2, 4),
        (b"newmtl a\nKd 1 1 # 1", 2, 4),
        (b"newmtl a\nKd XYZ", 2, 1),
        (b"newmtl a\nKd 1 spectral 1", 2, 1),
        (b"newmtl a\nKd 0,5", 2, 1),
        (b"newmtl a\nKd 1 x -1", 2, 1),
        (b"newmtl a\nKs 1 -1 x", 2, 2),
        (b"newmtl a\nKs 1 1 -0.0001", 2, 2),
        (b"newmtl a\nKd -2", 2, 2),
        (b"newmtl a\nKd 1e41", 2, 1),
        (b"newmtl a\nNs", 2, 1),
        (b"newmtl a\nNs # 1", 2, 1),
        (b"newmtl a\nNs 1e11", 2, 1),
        (b"newmtl a\nNs -0.00005", 2, 2),
        (b"newmtl a\nNs spectral", 2, 1),
        (b"newmtl a\nKd \\\n1 \\\n\nillum\nKs 1 \\\r\n1", 6, 4),
        (b"newmtl a\nNs -1\nKd", 2, 2),
        (
            b"newmtl Material\nNs 225.000000\nKa 1.000000 1.000000 1.000000\nKd 0.800000 0.800000",
            4,
            4,
        ),
    ] {
        assert!(rt; text.len() <= 1_000);
        let mut materials = Materials::new(rt.alloc());
        let stop = read_mtl(rt.alloc(), text, &mut materials).err();
        assert_eq!(rt; stop, Some(MtlStop::Fault { line, kind }), "at {text:?}");
        assert_eq!(rt; materials.items.len(), 0);
    }
}

#[test]
fn many(rt: HostRuntime) {
    let mut text = Vec::new(rt.alloc());
    for _ in 0..4_096 {
        text.extend_from_slice(b"newmtl m\n").expect(&rt, "memory");
    }
    assert!(rt; text.len() <= 100_000);
    let mut materials = Materials::new(rt.alloc());
    read_mtl(rt.alloc(), &text, &mut materials).expect(&rt, "as many materials as may be");
    assert_eq!(rt; materials.items.len(), 4_096);
    for (more, line, kind) in [
        (b"newmtl m".as_slice(), 1, 5),
        (b"newmtl", 1, 6),
        (b"Kd 1", 1, 3),
        (b"\nnewmtl m\nKd", 2, 5),
    ] {
        assert!(rt; more.len() <= 1_000);
        let stop = read_mtl(rt.alloc(), more, &mut materials).err();
        assert_eq!(rt; stop, Some(MtlStop::Fault { line, kind }));
    }
    assert_eq!(rt; materials.items.len(), 4_096);
    text.extend_from_slice(b"newmtl m\n").expect(&rt, "memory");
    assert!(rt; text.len() <= 100_000);
    let mut materials = Materials::new(rt.alloc());
    let stop = read_mtl(rt.alloc(), &text, &mut materials).err();
    assert_eq!(rt;
        stop,
        Some(MtlStop::Fault {
            line: 4_097,
            kind: 5
        })
    );
}
