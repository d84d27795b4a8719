// Worked examples of job files.
use lc_job::{JobStop, Key, read_job};
use lc_num::{Rule, Vec3};
use lc_view::Camera;
use std::alloc::Global;
use std::process::Abort;
use std::test::*;

const JOB: &[u8] =
    b"scene s.obj\nlights l.txt\npicture p.ppm\nbounds b.lcb\neye 0 0 5\nat 0 0 0\nsize 1 1\n";

/// The text of the worked job with more after it.
fn with(rt: &impl Abort, alloc: Global, more: &[u8]) -> Vec<u8> {
    let mut text = Vec::new(alloc);
    text.extend_from_slice(JOB).expect(rt, "memory");
    text.extend_from_slice(more).expect(rt, "memory");
    text
}

/// The text of the worked job with its line of this number, counted from 1, replaced.
fn replaced(rt: &impl Abort, alloc: Global, line: usize, by: &[u8]) -> Vec<u8> {
    let mut text = Vec::new(alloc);
    let mut number = 1;
    for piece in JOB.split(|b| *b == b'\n') {
        let piece = if number == line { by } else { piece };
        text.extend_from_slice(piece).expect(rt, "memory");
        text.extend_from_slice(b"\n").expect(rt, "memory");
        number = if number < 100 { number + 1 } else { 100 };
    }
    text
}

fn refused(rt: &impl Abort, alloc: Global, text: &[u8]) -> Option<JobStop> {
    assert!(rt; text.len() <= 1_000);
    read_job(alloc, text).err()
}

fn fault(line: u32, kind: u8) -> Option<JobStop> {
    Some(JobStop::Fault { line, kind })
}

fn vec3(x: i64, y: i64, z: i64) -> Vec3 {
    Vec3 { x, y, z }
}

#[test]
fn defaults(rt: HostRuntime) {
    let job = read_job(rt.alloc(), JOB).expect(&rt, "a job");
    assert_eq!(rt; job.scene.as_str(), "s.obj");
    assert_eq!(rt; job.lights.as_str(), "l.txt");
    assert_eq!(rt; job.picture.as_str(), "p.ppm");
    assert_eq!(rt; job.bounds.as_str(), "b.lcb");
    assert_eq!(rt;
        job.camera,
        Camera {
            eye: vec3(0, 0, 50_000),
            at: vec3(0, 0, 0),
            up: vec3(0, 10_000, 0),
            view: 5_000,
            width: 1,
            height: 1,
            grid: 1,
        }
    );
    assert_eq!(rt;
        (job.seed, job.permille, job.cut, job.white, job.rule),
        (0, 20, 1_000, 10_000, Rule::One)
    );
}

#[test]
fn every_line(rt: HostRuntime) {
    let text =
        b"\xEF\xBB\xBFwhite 2.5\ncut 3 # small\nrule 2\n\nerror 0\r\nseed 7\ngrid \\\n 1\nview 1e-4\nup 1 0 -5000\n\tsize 4096 0002\nat .1 -1. +5000\neye 1 2 3\nbounds \xC3\xBC # b\npicture  a b \nlights l\\\nm\nscene # s\n".as_slice();
    assert!(rt; text.len() <= 1_000);
    let job = read_job(rt.alloc(), text).expect(&rt, "a job");
    assert_eq!(rt; job.scene.as_str(), "# s");
    assert_eq!(rt; job.lights.as_str(), "l\\\nm");
    assert_eq!(rt; job.picture.as_str(), "a b");
    assert_eq!(rt; job.bounds.as_str(), "ü # b");
    assert_eq!(rt;
        job.camera,
        Camera {
            eye: vec3(10_000, 20_000, 30_000),
            at: vec3(1_000, -10_000, 50_000_000),
            up: vec3(10_000, 0, -50_000_000),
            view: 1,
            width: 4_096,
            height: 2,
            grid: 1,
        }
    );
    assert_eq!(rt;
        (job.seed, job.permille, job.cut, job.white, job.rule),
        (7, 0, 3, 25_000, Rule::Two)
    );
}

#[test]
fn one_line_more(rt: HostRuntime) {
    for (line, kind) in [
        (b"eye 0 0 5".as_slice(), 2),
        (b"cut 2", 4),
        (b"cut x", 3),
        (b"zoom 3", 1),
        (b"Cut 3", 1),
        (b"seed 18446744073709551616", 3),
        (b"cut 65537", 4),
        (b"grid 17", 4),
        (b"grid 0", 4),
        (b"error 1001", 4),
        (b"view 0", 4),
        (b"view 10.0001", 4),
        (b"view -1", 4),
        (b"white 0.00004", 4),
        (b"white 10000.0001", 4),
        (b"cut", 3),
        (b"cut 3 3", 3),
        (b"cut -1", 3),
        (b"cut 3.0", 3),
        (b"rule 0", 4),
        (b"rule 3", 4),
        (b"rule x", 3),
        (b"rule 1 1", 3),
        (b"rule", 3),
        (b"up 1 0", 3),
        (b"up 1 0 0 0", 3),
        (b"up 6000 0 x", 3),
        (b"up 6000 0 0", 4),
        (b"up 0 0 -5000.0001", 4),
        (b"size 0", 2),
        (b"scene", 2),
    ] {
        assert_eq!(rt;
            refused(&rt, rt.alloc(), &with(&rt, rt.alloc(), line)),
            fault(8, kind),
            "at {line:?}"
        );
    }
    for line in [
        b"seed 18446744073709551615".as_slice(),
        b"cut 65536",
        b"cut 3",
        b"error 1000",
        b"white 0.00005",
        b"white 10000",
        b"view 10",
        b"view 0.0001",
        b"grid 16",
        b"rule 1",
        b"# zoom 3",
    ] {
        assert_eq!(rt;
            refused(&rt, rt.alloc(), &with(&rt, rt.alloc(), line)),
            None,
            "at {line:?}"
        );
    }
    assert_eq!(rt;
        refused(&rt, rt.alloc(), &with(&rt, rt.alloc(), b"up 0 0 1")),
        fault(0, 6)
    );
    assert_eq!(rt;
        refused(&rt, rt.alloc(), &with(&rt, rt.alloc(), b"rule 1\nrule 1")),
        fault(9, 2)
    );
}

#[test]
fn one_line_replaced(rt: HostRuntime) {
    for (line, by, stop) in [
        (4, b"bounds p.ppm".as_slice(), fault(0, 7)),
        (2, b"lights s.obj", fault(0, 7)),
        (6, b"at 0 0 5", fault(0, 6)),
        (4, b"bounds \xFF", fault(4, 8)),
        (4, b"bounds", fault(4, 3)),
        (7, b"size 1", fault(7, 3)),
        (7, b"size 0 1", fault(7, 4)),
        (7, b"size 1 4097", fault(7, 4)),
        (7, b"size 4097 x", fault(7, 3)),
        (7, b"", Some(JobStop::Missing { key: Key::Size })),
        (1, b"", Some(JobStop::Missing { key: Key::Scene })),
        (5, b"#eye 0 0 5", Some(JobStop::Missing { key: Key::Eye })),
    ] {
        assert_eq!(rt;
            refused(&rt, rt.alloc(), &replaced(&rt, rt.alloc(), line, by)),
            stop,
            "at {by:?}"
        );
    }
    assert_eq!(rt;
        refused(&rt, rt.alloc(), b""),
        Some(JobStop::Missing { key: Key::Scene })
    );
    assert_eq!(rt;
        refused(&rt, rt.alloc(), b"eye 0 0 0\nscene a\nbounds a\n"),
        Some(JobStop::Missing { key: Key::Lights })
    );
}

#[test]
fn words(rt: HostRuntime) {
    assert_eq!(rt; Key::Size.word(), "size");
    assert_eq!(rt; Key::White.word(), "white");
    assert_eq!(rt; Key::Rule.word(), "rule");
}
