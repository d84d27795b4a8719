// The limits of the readers, each on both sides.
use crate::renders::{CUBE, CUBE_MATERIAL};
use lc_job::{JobStop, read_job};
use lc_light::{LightStop, read_lights};
use lc_mtl::{Materials, MtlStop, read_mtl};
use lc_obj::{ObjStop, read_obj};
use std::alloc::{AllocGlobal, Global};
use std::process::Abort;
use std::test::Fail;

/// Which reader reads a text.
#[derive(Clone, Copy)]
enum Reader {
    Mesh,
    Library,
    Lights,
    Job,
}

/// Where a text is refused, by its line and the kind of its fault; none where it is accepted. A keyword that lacks counts as
/// kind 5 of line 0.
type Refusal = Option<(u32, u8)>;

fn refusal(alloc: Global, reader: Reader, text: &[u8]) -> Result<Refusal, Fail> {
    if text.len() > 10_000_000 {
        return Err(Fail::from("a long text"));
    }
    match reader {
        Reader::Mesh => match read_obj(alloc, text) {
            Ok(_) => Ok(None),
            Err(ObjStop::Fault { line, kind }) => Ok(Some((line, kind))),
            Err(ObjStop::Memory) => Err(Fail::from("no memory")),
        },
        Reader::Library => match read_mtl(alloc, text, &mut Materials::new(alloc)) {
            Ok(()) => Ok(None),
            Err(MtlStop::Fault { line, kind }) => Ok(Some((line, kind))),
            Err(MtlStop::Memory) => Err(Fail::from("no memory")),
        },
        Reader::Lights => match read_lights(alloc, text, 0) {
            Ok(_) => Ok(None),
            Err(LightStop::Fault { line, kind }) => Ok(Some((line, kind))),
            Err(LightStop::Memory) => Err(Fail::from("no memory")),
        },
        Reader::Job => match read_job(alloc, text) {
            Ok(_) => Ok(None),
            Err(JobStop::Fault { line, kind }) => Ok(Some((line, kind))),
            Err(JobStop::Missing { .. }) => Ok(Some((0, 5))),
            Err(JobStop::Memory) => Err(Fail::from("no memory")),
        },
    }
}

/// A text, a piece so many times and a last text, and where they are refused together.
#[derive(Clone, Copy)]
struct Limit {
    reader: Reader,
    first: &'static str,
    piece: &'static str,
    count: u32,
    last: &'static str,
    refusal: Refusal,
}

fn expect_limit(rt: &(impl Abort + AllocGlobal), limit: &Limit) -> Result<(), Fail> {
    let mut text = Vec::new(rt.alloc());
    text.extend_from_slice(limit.first.as_bytes())?;
    for _ in 0..limit.count {
        text.extend_from_slice(limit.piece.as_bytes())?;
    }
    text.extend_from_slice(limit.last.as_bytes())?;
    let (piece, count, last) = (limit.piece, limit.count, limit.last);
    let found = refusal(rt.alloc(), limit.reader, &text)?;
    assert!(rt;
        found == limit.refusal,
        "{count} times {piece:?}, {last:?}: {found:?}"
    );
    Ok(())
}

fn expect_limits(rt: &(impl Abort + AllocGlobal), limits: &[Limit]) -> Result<(), Fail> {
    for limit in limits {
        expect_limit(rt, limit)?;
    }
    Ok(())
}

/// A whole text, which is accepted.
const MESH: Limit = Limit {
    reader: Reader::Mesh,
    first: "",
    piece: "",
    count: 0,
    last: "",
    refusal: None,
};

const TRIANGLE: Limit = Limit {
    first: "v 0 0 0\nv 1 0 0\nv 0 1 0\nf 1 2 ",
    refusal: Some((4, 4)),
    ..MESH
};

const COORDINATES_AND_INDICES: &[Limit] = &[
    Limit {
        last: "v 5000 -5000 5000.00004",
        ..MESH
    },
    Limit {
        last: "v 5000 -5000 5000.00005",
        refusal: Some((1, 1)),
        ..MESH
    },
    Limit {
        last: "18446744073709551616",
        refusal: Some((4, 1)),
        ..TRIANGLE
    },
    Limit {
        last: "18446744073709551615",
        ..TRIANGLE
    },
    Limit {
        last: "-4",
        ..TRIANGLE
    },
    Limit {
        last: "-0",
        refusal: Some((4, 3)),
        ..TRIANGLE
    },
];

#[test]
fn limits_of_coordinates_and_indices(rt: HostRuntime) -> Result<(), Fail> {
    expect_limits(&rt, COORDINATES_AND_INDICES)
}

const LISTS: &[Limit] = &[
    Limit {
        piece: "v 0 0 0\n",
        count: 1_000_000,
        ..MESH
    },
    Limit {
        first: "v 0 0 0\nf",
        piece: " 1",
        count: 1_000_003,
        last: "\n",
        refusal: Some((2, 8)),
        ..MESH
    },
    Limit {
        piece: "\\\n",
        count: 1_000_000,
        last: "v",
        refusal: Some((1, 2)),
        ..MESH
    },
];

/// Where the lists are one longer, or full by triangles, is tried by the reader of meshes.
#[test]
fn limits_of_lists_in_meshes(rt: HostRuntime) -> Result<(), Fail> {
    expect_limits(&rt, LISTS)
}

/// Texts that end within a line, at the end of this part of it.
const CUTS: &[(Reader, &str, &str, Refusal)] = &[
    (Reader::Mesh, CUBE, "f 1//1 5//1 7//", Some((20, 1))),
    (Reader::Mesh, CUBE, "f 1//1 5//1", Some((20, 5))),
    (Reader::Mesh, CUBE, "vn 0.0000 1.0000", Some((12, 2))),
    (Reader::Mesh, CUBE, "mtllib", Some((2, 2))),
    (
        Reader::Library,
        CUBE_MATERIAL,
        "Kd 0.800000 0.800000",
        Some((4, 4)),
    ),
];

#[test]
fn limits_of_cut_texts(rt: HostRuntime) -> Result<(), Fail> {
    for (reader, whole, end, wanted) in CUTS {
        let (before, _) = whole.split_once(*end).ok_or("a text that lacks the part")?;
        let text = whole
            .as_bytes()
            .get(..before.len().saturating_add(end.len()))
            .unwrap_or(b"");
        assert!(rt; refusal(rt.alloc(), *reader, text)? == *wanted, "{end}");
    }
    Ok(())
}

const LIBRARY: Limit = Limit {
    reader: Reader::Library,
    piece: "newmtl m\n",
    ..MESH
};

const LIBRARIES: &[Limit] = &[
    Limit {
        count: 4_096,
        ..LIBRARY
    },
    Limit {
        count: 4_097,
        refusal: Some((4_097, 5)),
        ..LIBRARY
    },
];

#[test]
fn limits_of_libraries(rt: HostRuntime) -> Result<(), Fail> {
    expect_limits(&rt, LIBRARIES)
}

const LIGHTS: &[Limit] = &[
    Limit {
        reader: Reader::Lights,
        last: "point 0 0 1 10000 0 0",
        ..MESH
    },
    Limit {
        reader: Reader::Lights,
        last: "point 0 0 1 10000.0001 0 0",
        refusal: Some((1, 4)),
        ..MESH
    },
    Limit {
        reader: Reader::Lights,
        last: "area 5000 0 0 0.0001 0 0 0 1 0 1 1 1 4",
        refusal: Some((1, 4)),
        ..MESH
    },
];

#[test]
fn limits_of_lights(rt: HostRuntime) -> Result<(), Fail> {
    expect_limits(&rt, LIGHTS)
}

const JOB: &str =
    "scene s.obj\nlights l.txt\npicture p.ppm\nbounds b.lcb\neye 0 0 5\nat 0 0 0\nsize 1 1\n";

/// Eighth lines of a job, each with where it is refused.
const JOB_LINES: &[(&str, Refusal)] = &[
    ("seed 18446744073709551615", None),
    ("seed 18446744073709551616", Some((8, 3))),
    ("cut 65536", None),
    ("cut 65537", Some((8, 4))),
    ("grid 17", Some((8, 4))),
    ("error 1001", Some((8, 4))),
    ("view 0", Some((8, 4))),
    ("white 0.00005", None),
    ("white 0.00004", Some((8, 4))),
];

#[test]
fn limits_of_jobs(rt: HostRuntime) -> Result<(), Fail> {
    for (last, refusal) in JOB_LINES {
        let limit = Limit {
            reader: Reader::Job,
            first: JOB,
            last,
            refusal: *refusal,
            ..MESH
        };
        expect_limit(&rt, &limit)?;
    }
    Ok(())
}

const NAME_OF_OTHER_BYTES: &[u8] =
    b"scene s.obj\nlights l.txt\npicture p.ppm\nbounds b\xFF.lcb\neye 0 0 5\nat 0 0 0\nsize 1 1\n";

#[test]
fn refuses_names_that_are_not_utf_8(rt: HostRuntime) -> Result<(), Fail> {
    assert!(rt; refusal(rt.alloc(), Reader::Job, NAME_OF_OTHER_BYTES)? == Some((4, 8)));
    Ok(())
}
