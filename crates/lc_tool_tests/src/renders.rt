// Renders over a desk in memory, and pictures of the sum over all lights.
use crate::cases::{Case, NOTHING, USAGE, desk_of, expect_all, serve};
use lc_desk::{MemoryDesk, Slot};
use std::process::Abort;
use std::test::Fail;

pub(crate) const SCENE: &str = "v -1 -1 0\nv 1 -1 0\nv 0 1 0\nf 1 2 3\n";

pub(crate) const NAMES: &str = "scene s.obj\nlights l.txt\npicture p.ppm\nbounds b.lcb\n";

pub(crate) const VIEW: &str = "eye 0 0 5\nat 0 0 0\nsize 1 1\n";

pub(crate) const LIGHT: &str = "point 0 0 1.0016 1 1 1\n";

const PICTURE: &[u8] = b"P6\n1 1\n255\n\xE4\xE4\xE4";

pub(crate) const WHITE: &[u8] = b"P6\n1 1\n255\n\xFF\xFF\xFF";

const RECORD: &str =
    "LCB 1 1 1 1 1000 20\n1 1 5242880000000000000000 5242880000000000000000 5242880000000000000000 0 0 0\n";

/// A job of one pixel, with a scene and lights, whose render is refused.
pub(crate) const REFUSED: Case = Case {
    words: &["render", "j.txt"],
    job: &[NAMES, VIEW],
    scene: &[SCENE],
    lights: &[LIGHT],
    ..NOTHING
};

/// The same, whose render is done.
const DONE: Case = Case {
    picture: PICTURE,
    bounds: RECORD,
    ..REFUSED
};

const DONE_CASES: &[Case] = &[
    Case {
        shows: "a triangle",
        ..DONE
    },
    Case {
        shows: "two lights at one place, with a bound as great as the estimate",
        job: &[NAMES, VIEW, "error 1000\n"],
        lights: &[LIGHT, LIGHT],
        picture: WHITE,
        bounds: "LCB 1 1 1 1 1000 1000\n1 1 10485760000000000000000 10485760000000000000000 10485760000000000000000 10485760000000000000000 10485760000000000000000 10485760000000000000000\n",
        ..DONE
    },
    Case {
        shows: "four rays that pass 1.25 to the side of the middle, and miss the triangle",
        job: &[NAMES, VIEW, "grid 2\n"],
        picture: b"P6\n1 1\n255\n\0\0\0",
        bounds: "LCB 1 1 1 2 1000 20\n0 0 0 0 0 0 0 0\n0 0 0 0 0 0 0 0\n0 0 0 0 0 0 0 0\n0 0 0 0 0 0 0 0\n",
        ..DONE
    },
    Case {
        shows: "normals of the corners that all point up",
        scene: &["v -1 -1 0\nv 1 -1 0\nv 0 1 0\nvn 0 0 1\nf 1//1 2//1 3//1\n"],
        ..DONE
    },
    Case {
        shows: "normals of the corners that all point down, and are turned",
        scene: &["v -1 -1 0\nv 1 -1 0\nv 0 1 0\nvn 0 0 -2\nf 1//1 2//1 3//1\n"],
        ..DONE
    },
];

#[test]
fn renders_triangles(rt: HostRuntime) -> Result<(), Fail> {
    expect_all(&rt, DONE_CASES)
}

const FIRST_RULE: &str =
    "LCB 1 1 1 1 1000 1000\n2 2 3355443200000000000000 3355443200000000000000 3355443200000000000000 0 0 0\n";

pub(crate) const SECOND_RULE: &str =
    "LCB 2 1 1 1 1000 1000\n1 1 3355443200000000000000 3355443200000000000000 3355443200000000000000 3355443200000000000000 3355443200000000000000 3355443200000000000000\n";

pub(crate) const DARK_AND_BRIGHT: &str = "point 0 0 1.0016 0 0 0\npoint 0 0 1.2516 1 1 1\n";

/// A light that gives nothing stands before one that gives all: what both can give is more than the estimate of the root, but
/// the estimate is more than what it leaves of that, so the second rule takes the root as it is.
const RULES: Case = Case {
    lights: &[DARK_AND_BRIGHT],
    picture: b"P6\n1 1\n255\n\xB6\xB6\xB6",
    bounds: FIRST_RULE,
    ..DONE
};

const RULE_CASES: &[Case] = &[
    Case {
        shows: "no rule",
        job: &[NAMES, VIEW, "error 1000\n"],
        ..RULES
    },
    Case {
        shows: "the first rule",
        job: &[NAMES, VIEW, "error 1000\nrule 1\n"],
        ..RULES
    },
    Case {
        shows: "the second rule",
        job: &[NAMES, VIEW, "error 1000\nrule 2\n"],
        bounds: SECOND_RULE,
        ..RULES
    },
];

#[test]
fn bounds_by_the_rule_of_the_job(rt: HostRuntime) -> Result<(), Fail> {
    expect_all(&rt, RULE_CASES)
}

/// A triangle before all of a light that shines down leaves an estimate of zero, and a bound above it at the greatest cut.
const DARK: Case = Case {
    job: &[NAMES, "eye 0 0 1\nat 0 0 0\nsize 1 1\ncut 3\n"],
    scene: &[SCENE, "v -10 -10 2\nv 10 -10 2\nv 0 10 2\nf 4 5 6\n"],
    lights: &["area -1 -1 3 0 2 0 2 0 0 1 1 1 4096\n"],
    ..REFUSED
};

/// A record with an estimate of 0 and three bounds above it.
fn is_dark(record: &[u8]) -> bool {
    record.starts_with(b"LCB 1 1 1 1 3 20\n3 3 0 0 0 ")
        && record
            .split(|byte| *byte == b' ')
            .skip(11)
            .all(|bound| !bound.starts_with(b"0"))
}

#[test]
fn renders_a_dark_scene(rt: HostRuntime) -> Result<(), Fail> {
    let mut desk = desk_of(rt.alloc(), &DARK)?;
    assert_eq!(rt; serve(rt.alloc(), DARK.words, &mut desk), 0);
    assert!(rt; desk.told(Slot::Picture) == b"P6\n1 1\n255\n\0\0\0".as_slice());
    assert!(rt; is_dark(desk.told(Slot::Bounds)));
    Ok(())
}

const STOPPED: &[Case] = &[Case {
    shows: "a refused row of pixels, which leaves the first bytes that were taken and a record of all lines before it",
    job: &[NAMES, "eye 0 0 5\nat 0 0 0\nsize 1 3\n"],
    failing: &[(13, 2)],
    status: 9,
    picture: b"P6\n1 3\n255\n\0\0\0\xE4\xE4\xE4\0\0",
    bounds: "LCB 1 1 3 1 1000 20\n0 0 0 0 0 0 0 0\n1 1 5242880000000000000000 5242880000000000000000 5242880000000000000000 0 0 0\n0 0 0 0 0 0 0 0\n",
    note: "picture: write fault\n",
    ..REFUSED
}];

#[test]
fn stops_in_a_row_of_pixels(rt: HostRuntime) -> Result<(), Fail> {
    expect_all(&rt, STOPPED)
}

const REFUSED_JOB: Case = Case {
    status: 3,
    ..REFUSED
};

const REFUSED_JOBS: &[Case] = &[
    Case {
        shows: "two names that are one",
        job: &[
            "scene s.obj\nlights l.txt\npicture p.ppm\nbounds p.ppm\n",
            VIEW,
        ],
        note: "j.txt: line 0: kind 7\n",
        ..REFUSED_JOB
    },
    Case {
        shows: "an eye at the place that it looks at",
        job: &[NAMES, "eye 0 0 5\nat 0 0 5\nsize 1 1\n"],
        note: "j.txt: line 0: kind 6\n",
        ..REFUSED_JOB
    },
    Case {
        shows: "a size that lacks",
        job: &[NAMES, "eye 0 0 5\nat 0 0 0\n"],
        note: "j.txt: line 0: kind 5: size\n",
        ..REFUSED_JOB
    },
    Case {
        shows: "an unknown keyword",
        job: &[NAMES, VIEW, "zoom 3\n"],
        note: "j.txt: line 8: kind 1\n",
        ..REFUSED_JOB
    },
    Case {
        shows: "a second eye",
        job: &[NAMES, VIEW, "eye 0 0 5\n"],
        note: "j.txt: line 8: kind 2\n",
        ..REFUSED_JOB
    },
    Case {
        shows: "a cut that is no number",
        job: &[NAMES, VIEW, "cut x\n"],
        note: "j.txt: line 8: kind 3\n",
        ..REFUSED_JOB
    },
    Case {
        shows: "a cut that is too small",
        job: &[NAMES, VIEW, "cut 2\n"],
        note: "j.txt: line 8: kind 4\n",
        ..REFUSED_JOB
    },
    Case {
        shows: "a rule that is not there",
        job: &[NAMES, VIEW, "rule 3\n"],
        note: "j.txt: line 8: kind 4\n",
        ..REFUSED_JOB
    },
    Case {
        shows: "a view along the upward direction",
        job: &[NAMES, VIEW, "up 0 0 1\n"],
        note: "j.txt: line 0: kind 6\n",
        ..REFUSED_JOB
    },
];

#[test]
fn refuses_jobs(rt: HostRuntime) -> Result<(), Fail> {
    expect_all(&rt, REFUSED_JOBS)
}

const REFUSED_RUNS: &[Case] = &[
    Case {
        shows: "a faulty scene",
        scene: &["v 0 0\n"],
        status: 4,
        note: "s.obj: line 1: kind 2\n",
        ..REFUSED
    },
    Case {
        shows: "faulty lights",
        lights: &["point 0 0 1 1 1\n"],
        status: 6,
        note: "l.txt: line 1: kind 3\n",
        ..REFUSED
    },
    Case {
        shows: "a job that is absent",
        words: &["render", "j.txt"],
        status: 7,
        note: "j.txt: absent\n",
        ..NOTHING
    },
    Case {
        shows: "a job whose read fails",
        failing: &[(1, 0)],
        status: 8,
        note: "j.txt: read fault\n",
        ..REFUSED
    },
    Case {
        shows: "no job",
        words: &["render"],
        status: 2,
        note: USAGE,
        ..REFUSED
    },
];

#[test]
fn refuses_what_it_cannot_read(rt: HostRuntime) -> Result<(), Fail> {
    expect_all(&rt, REFUSED_RUNS)
}

const LIBRARY_CASES: &[Case] = &[
    Case {
        shows: "a library that is absent",
        scene: &["mtllib x.mtl\n", SCENE],
        status: 7,
        note: "x.mtl: absent\n",
        ..REFUSED
    },
    Case {
        shows: "a faulty library",
        scene: &["mtllib x.mtl\n", SCENE],
        others: &[("x.mtl", &["newmtl a\nKd spectral f.rfl\n"])],
        status: 5,
        note: "x.mtl: line 2: kind 4\n",
        ..REFUSED
    },
    Case {
        shows: "a library",
        scene: &["mtllib x.mtl\n", SCENE],
        others: &[("x.mtl", &["newmtl a\n"])],
        ..DONE
    },
];

#[test]
fn reads_libraries(rt: HostRuntime) -> Result<(), Fail> {
    expect_all(&rt, LIBRARY_CASES)
}

/// The names of a job whose scene stands in a folder.
const IN_FOLDER: &str = "scene d/s.obj\nlights l.txt\npicture p.ppm\nbounds b.lcb\n";

const FOLDER_CASES: &[Case] = &[
    Case {
        shows: "a library that is absent beside its scene",
        job: &[IN_FOLDER, VIEW],
        others: &[("d/s.obj", &["mtllib x.mtl\n", SCENE])],
        status: 7,
        note: "d/x.mtl: absent\n",
        ..REFUSED
    },
    Case {
        shows: "a library beside its scene",
        job: &[IN_FOLDER, VIEW],
        others: &[
            ("d/s.obj", &["mtllib x.mtl\n", SCENE]),
            ("d/x.mtl", &["newmtl a\n"]),
        ],
        ..DONE
    },
    Case {
        shows: "a library that begins with `/`, and is absent",
        job: &[IN_FOLDER, VIEW],
        others: &[("d/s.obj", &["mtllib /x.mtl\n", SCENE])],
        status: 7,
        note: "/x.mtl: absent\n",
        ..REFUSED
    },
    Case {
        shows: "a library that begins with `/`, and stands alone",
        job: &[IN_FOLDER, VIEW],
        others: &[
            ("d/s.obj", &["mtllib /x.mtl\n", SCENE]),
            ("/x.mtl", &["newmtl a\n"]),
        ],
        ..DONE
    },
];

#[test]
fn reads_libraries_of_folders(rt: HostRuntime) -> Result<(), Fail> {
    expect_all(&rt, FOLDER_CASES)
}

/// A black surface whose specular colour is white: the light stands where the view is mirrored, so no exponent weakens it.
const HIGHLIGHT: Case = Case {
    scene: &["mtllib x.mtl\nusemtl a\n", SCENE],
    picture: WHITE,
    bounds: "LCB 1 1 1 1 1000 20\n1 1 6553600000000000000000 6553600000000000000000 6553600000000000000000 0 0 0\n",
    ..REFUSED
};

const HIGHLIGHTS: &[Case] = &[
    Case {
        shows: "the exponent 0",
        others: &[("x.mtl", &["newmtl a\nKd 0\nKs 1\nNs 0\n"])],
        ..HIGHLIGHT
    },
    Case {
        shows: "the exponent 1",
        others: &[("x.mtl", &["newmtl a\nKd 0\nKs 1\nNs 1\n"])],
        ..HIGHLIGHT
    },
    Case {
        shows: "the exponent 1000",
        others: &[("x.mtl", &["newmtl a\nKd 0\nKs 1\nNs 1000\n"])],
        ..HIGHLIGHT
    },
];

#[test]
fn renders_highlights(rt: HostRuntime) -> Result<(), Fail> {
    expect_all(&rt, HIGHLIGHTS)
}

pub(crate) const CUBE: &str =
    "# a cube\nmtllib cube.mtl\no Cube\nv 1.000000 1.000000 -1.000000\nv 1.000000 -1.000000 -1.000000\nv 1.000000 1.000000 1.000000\nv 1.000000 -1.000000 1.000000\nv -1.000000 1.000000 -1.000000\nv -1.000000 -1.000000 -1.000000\nv -1.000000 1.000000 1.000000\nv -1.000000 -1.000000 1.000000\nvn 0.0000 1.0000 0.0000\nvn 0.0000 0.0000 1.0000\nvn -1.0000 0.0000 0.0000\nvn 0.0000 -1.0000 0.0000\nvn 1.0000 0.0000 0.0000\nvn 0.0000 0.0000 -1.0000\nusemtl Material\ns 0\nf 1//1 5//1 7//1 3//1\nf 4//2 3//2 7//2 8//2\nf 8//3 7//3 5//3 6//3\nf 6//4 2//4 4//4 8//4\nf 2//5 1//5 3//5 4//5\nf 6//6 5//6 1//6 2//6\n";

pub(crate) const CUBE_MATERIAL: &str =
    "newmtl Material\nNs 225.000000\nKa 1.000000 1.000000 1.000000\nKd 0.800000 0.800000 0.800000\nKs 0.500000 0.500000 0.500000\nKe 0.000000 0.000000 0.000000\nNi 1.450000\nd 1.000000\nillum 2\n";

/// A cube as Blender writes it, with normals and a highlight, under 300 samples of an area light.
const RENDERED_CUBE: Case = Case {
    job: &[NAMES, "eye 0 0 6\nat 0 0 0\nsize 64 48\n"],
    scene: &[CUBE],
    lights: &["area -2 4 4 4 0 0 0 0 4 20 20 20 300\n"],
    others: &[("cube.mtl", &[CUBE_MATERIAL])],
    ..REFUSED
};

/// Picture and Bounds hold so many bytes and so many lines, and begin so.
pub(crate) fn expect_size(
    rt: &impl Abort,
    desk: &MemoryDesk,
    picture: (&[u8], usize),
    bounds: (&[u8], usize),
) {
    assert!(rt; desk.told(Slot::Picture).starts_with(picture.0));
    assert_eq!(rt; desk.told(Slot::Picture).len(), picture.1);
    assert!(rt; desk.told(Slot::Bounds).starts_with(bounds.0));
    assert_eq!(rt; lines(desk.told(Slot::Bounds)), bounds.1);
}

fn lines(text: &[u8]) -> usize {
    text.iter().filter(|byte| **byte == b'\n').count()
}

#[test]
fn renders_a_cube(rt: HostRuntime) -> Result<(), Fail> {
    let mut desk = desk_of(rt.alloc(), &RENDERED_CUBE)?;
    assert_eq!(rt; serve(rt.alloc(), RENDERED_CUBE.words, &mut desk), 0);
    let record = b"LCB 1 64 48 1 1000 20\n0 0 0 0 0 0 0 0\n";
    expect_size(&rt, &desk, (b"P6\n64 48\n255\n", 9229), (record, 3073));
    Ok(())
}

const PLAIN: Case = Case {
    words: &["plain", "j.txt"],
    ..REFUSED
};

const PLAIN_CASES: &[Case] = &[
    Case {
        shows: "the picture of the render, since one light is its own cut, and no record",
        picture: PICTURE,
        ..PLAIN
    },
    Case {
        shows: "a refused row, which leaves the first bytes that were taken",
        failing: &[(6, 2)],
        status: 9,
        picture: b"P6\n1 1\n255\n\xE4\xE4",
        note: "picture: write fault\n",
        ..PLAIN
    },
    Case {
        shows: "a job that is absent",
        words: &["plain", "j.txt"],
        status: 7,
        note: "j.txt: absent\n",
        ..NOTHING
    },
    Case {
        shows: "a faulty scene",
        scene: &["v 0 0\n"],
        status: 4,
        note: "s.obj: line 1: kind 2\n",
        ..PLAIN
    },
];

#[test]
fn makes_plain_pictures(rt: HostRuntime) -> Result<(), Fail> {
    expect_all(&rt, PLAIN_CASES)
}
