// Records that hold, and records that do not.
ghost use Rattle.std.specs.Prelude.{◌≤◌, length};

use lc_audit::{Channel, Miss, Verdict, audit};
use lc_job::{Job, read_job};
use lc_light::read_lights;
use lc_mtl::Materials;
use lc_obj::read_obj;
use lc_record::read_record;
use lc_sample::Scene;
use std::alloc::Global;
use std::process::Abort;
use std::test::*;

/// What the sample of `ONE` has in each channel under `LIGHT`.
const PLAIN: u128 = 5_242_880_000_000_000_000_000;

const TRIANGLE: &[u8] = b"v -1 -1 0\nv 1 -1 0\nv 0 1 0\nf 1 2 3\n";

/// A light 1 above the place where the sample of `ONE` is lit.
const LIGHT: &[u8] = b"point 0 0 1.0016 1 1 1\n";

const ONE: &[u8] =
    b"scene s.obj\nlights l.txt\npicture p.ppm\nbounds b.lcb\neye 0 0 5\nat 0 0 0\nsize 1 1\n";

const THREE: &[u8] =
    b"scene s.obj\nlights l.txt\npicture p.ppm\nbounds b.lcb\neye 0 0 5\nat 0 0 0\nsize 3 1\n";

/// The scene of the triangle and these lights.
fn scene(alloc: Global, lights: &[u8]) -> Result<Scene, Fail>
    requires { length lights.now ≤ 536_870_912 }
{
    let mesh = read_obj(alloc, TRIANGLE)?;
    let lights = read_lights(alloc, lights, 0)?;
    let scene = Scene::join(alloc, mesh, &Materials::new(alloc), lights, 0)?;
    Ok(scene)
}

/// The verdict on the record of a text.
fn verdict(
    rt: &impl Abort,
    alloc: Global,
    lights: &[u8],
    job: &[u8],
    text: &[u8],
    step: u64,
) -> Result<Verdict, Fail>
    requires lights { length lights.now ≤ 536_870_912 }
    requires job { length job.now ≤ 536_870_912 }
    requires text { length text.now ≤ 536_870_912 }
    requires step { 1 ≤ step }
{
    let scene = scene(alloc, lights)?;
    let job = read_job(alloc, job)?;
    let kept = read_record(alloc, text)?;
    let header = kept.header;
    assert!(rt; header.width == job.camera.width && header.height == job.camera.height);
    assert!(rt; header.grid == job.camera.grid && header.cut == job.cut);
    Ok(audit(&scene, &job, &kept, step))
}

fn miss(sample: u64, channel: Channel, plain: u128, est: u128, bound: u128) -> Verdict {
    Verdict::No(Miss {
        sample,
        channel,
        plain,
        est,
        bound,
    })
}

#[test]
fn one_unit_off(rt: HostRuntime) -> Result<(), Fail> {
    // The estimate is one unit above the sum in red, or one below it in blue.
    for (record, wanted) in [
        (
            b"LCB 1 1 1 1 1000 20\n\
              1 1 5242880000000000000001 5242880000000000000000 5242880000000000000000 \
              0 0 0\n"
                .as_slice(),
            miss(0, Channel::Red, PLAIN, PLAIN + 1, 0),
        ),
        (
            b"LCB 1 1 1 1 1000 20\n\
              1 1 5242880000000000000001 5242880000000000000000 5242880000000000000000 \
              1 0 0\n",
            Verdict::Yes { checked: 1 },
        ),
        (
            b"LCB 1 1 1 1 1000 20\n\
              1 1 5242880000000000000000 5242880000000000000000 5242879999999999999999 \
              0 0 0\n",
            miss(0, Channel::Blue, PLAIN, PLAIN - 1, 0),
        ),
        (
            b"LCB 1 1 1 1 1000 20\n\
              1 1 5242880000000000000000 5242880000000000000000 5242879999999999999999 \
              0 0 1\n",
            Verdict::Yes { checked: 1 },
        ),
    ] {
        assert!(rt; record.len() <= 1_000);
        let told = verdict(&rt, rt.alloc(), LIGHT, ONE, record, 1)?;
        assert_eq!(rt; told, wanted);
    }
    Ok(())
}

#[test]
fn fractions(rt: HostRuntime) -> Result<(), Fail> {
    // The bounds are 20 thousandths of the estimates, then one unit more in green, then so in a cut of the greatest size.
    for (record, wanted) in [
        (
            b"LCB 1 1 1 1 1000 20\n\
              1 1 5242880000000000000000 5242880000000000000000 5242880000000000000000 \
              104857600000000000000 104857600000000000000 104857600000000000000\n"
                .as_slice(),
            Verdict::Yes { checked: 1 },
        ),
        (
            b"LCB 1 1 1 1 1000 20\n\
              1 1 5242880000000000000000 5242880000000000000000 5242880000000000000000 \
              104857600000000000000 104857600000000000001 104857600000000000000\n",
            miss(0, Channel::Green, PLAIN, PLAIN, 104_857_600_000_000_000_001),
        ),
        (
            b"LCB 1 1 1 1 1000 20\n\
              1000 1000 5242880000000000000000 5242880000000000000000 5242880000000000000000 \
              104857600000000000000 104857600000000000001 104857600000000000000\n",
            Verdict::Yes { checked: 1 },
        ),
    ] {
        assert!(rt; record.len() <= 1_000);
        let told = verdict(&rt, rt.alloc(), LIGHT, ONE, record, 1)?;
        assert_eq!(rt; told, wanted);
    }
    Ok(())
}

#[test]
fn steps(rt: HostRuntime) -> Result<(), Fail> {
    // There is no light. The second sample is off in green and blue, the third in red.
    let record =
        b"LCB 1 3 1 1 1000 20\n0 0 0 0 0 0 0 0\n0 0 0 1 2 0 0 0\n0 0 3 0 0 2 0 0\n".as_slice();
    assert!(rt; record.len() <= 1_000);
    for (step, wanted) in [
        (1, miss(1, Channel::Green, 0, 1, 0)),
        (2, miss(2, Channel::Red, 0, 3, 2)),
        (3, Verdict::Yes { checked: 1 }),
        (u64::MAX, Verdict::Yes { checked: 1 }),
    ] {
        assert!(rt; 1 <= step);
        let told = verdict(&rt, rt.alloc(), b"", THREE, record, step)?;
        assert_eq!(rt; told, wanted, "step {step}");
    }
    let zeros =
        b"LCB 1 3 1 1 1000 20\n0 0 0 0 0 0 0 0\n0 0 0 0 0 0 0 0\n0 0 0 0 0 0 0 0\n".as_slice();
    assert!(rt; zeros.len() <= 1_000);
    for (step, checked) in [(1, 3), (2, 2), (3, 1)] {
        assert!(rt; 1 <= step);
        let told = verdict(&rt, rt.alloc(), b"", THREE, zeros, step)?;
        assert_eq!(rt; told, Verdict::Yes { checked });
    }
    Ok(())
}

#[test]
fn numbers_of_channels(rt: HostRuntime) {
    let numbers = [Channel::Red, Channel::Green, Channel::Blue].map(Channel::number);
    assert_eq!(rt; numbers, [0, 1, 2]);
}
