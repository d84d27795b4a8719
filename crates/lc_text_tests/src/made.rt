// Made scenes, worked out by hand.
use lc_make::{Made, make};
use std::test::*;

fn lines(text: &[u8]) -> usize {
    text.iter().filter(|byte| **byte == b'\n').count()
}

/// The texts of the least number of boxes and lights.
#[test]
fn of_none(rt: HostRuntime) -> Result<(), Fail> {
    let made = make(rt.alloc(), 0)?;
    assert_eq!(rt;
        made.job.as_slice(),
        b"scene made.obj\nlights made.lights\npicture made.ppm\nbounds made.lcb\neye 0 12 30\nat 0 0 0\nsize 32 24\ncut 100\nseed 0\n".as_slice()
    );
    assert_eq!(rt;
        made.obj.as_slice(),
        b"mtllib made.mtl\nusemtl floor\nv -40 0 -40\nv 40 0 -40\nv 40 0 40\nv -40 0 40\nf 1 2 3 4\nusemtl box\nv -9 0 -11\nv -8 0 -11\nv -8 0 -10\nv -9 0 -10\nv -9 1 -11\nv -8 1 -11\nv -8 1 -10\nv -9 1 -10\nf -8 -7 -6 -5\nf -4 -3 -2 -1\nf -8 -7 -3 -4\nf -7 -6 -2 -3\nf -6 -5 -1 -2\nf -5 -8 -4 -1\n".as_slice()
    );
    assert_eq!(rt; lines(made.obj.as_slice()), 22);
    assert_eq!(rt;
        made.mtl.as_slice(),
        b"newmtl floor\nKd 0.7 0.7 0.7\nnewmtl box\nKd 0.5 0.3 0.2\nKs 0.2 0.2 0.2\nNs 20\n".as_slice()
    );
    assert!(rt;
        made.lights
            .as_slice()
            .starts_with(b"point -20 5 -21 0.1 0.1 0.1\npoint 17 6 8 0.1 0.1 0.1\n")
    );
    assert!(rt;
        made.lights.as_slice().ends_with(
            b"\narea -2 15 -2 4 0 0 0 0 4 20 20 20 512\nsun 1 2 1 0.2 0.2 0.2\n"
        )
    );
    assert_eq!(rt; lines(made.lights.as_slice()), 1002);
    Ok(())
}

/// The texts of the greatest number of boxes.
#[test]
fn of_39(rt: HostRuntime) -> Result<(), Fail> {
    let made = make(rt.alloc(), 39)?;
    assert_eq!(rt;
        made.job.as_slice(),
        b"scene made.obj\nlights made.lights\npicture made.ppm\nbounds made.lcb\neye 0 12 30\nat 0 0 0\nsize 32 24\ncut 100\nseed 39\n".as_slice()
    );
    assert!(rt;
        made.obj
            .as_slice()
            .starts_with(b"mtllib made.mtl\nusemtl floor\nv -40 0 -40\n")
    );
    assert!(rt;
        made.obj.as_slice().ends_with(
            b"\nv -2 0 4\nv -1 0 4\nv -1 0 5\nv -2 0 5\nv -2 1 4\nv -1 1 4\nv -1 1 5\nv -2 1 5\nf -8 -7 -6 -5\nf -4 -3 -2 -1\nf -8 -7 -3 -4\nf -7 -6 -2 -3\nf -6 -5 -1 -2\nf -5 -8 -4 -1\n"
        )
    );
    assert_eq!(rt; lines(made.obj.as_slice()), 568);
    assert!(rt;
        made.lights.as_slice().ends_with(
            b"\npoint 10 7 -19 0.1 0.1 0.1\narea -2 15 -2 4 0 0 0 0 4 20 20 20 512\nsun 1 2 1 0.2 0.2 0.2\n"
        )
    );
    assert_eq!(rt; lines(made.lights.as_slice()), 1041);
    Ok(())
}

/// The seed is the number itself, also past the counts' moduli.
#[test]
fn of_9999(rt: HostRuntime) -> Result<(), Fail> {
    let made = make(rt.alloc(), 9999)?;
    assert!(rt; made.job.as_slice().ends_with(b"\ncut 100\nseed 9999\n"));
    assert_eq!(rt; lines(made.obj.as_slice()), 568);
    assert_eq!(rt; lines(made.lights.as_slice()), 3001);
    Ok(())
}
