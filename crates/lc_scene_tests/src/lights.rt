// Cuts worked out by hand, at a white spot at the origin that faces up.
ghost use Rattle.std.specs.Prelude.{◌≡◌, ◌<◌, ◌≤◌, length};

use lc_cut::{Answer, Ask, Bench, Forest, cut};
use lc_geom::{Hit, Triangles};
use lc_light::read_lights;
use lc_num::{Colour, Rgb, Rule, Steps, Vec3};
use lc_terms::Spot;
use std::alloc::Global;
use std::cell::Cell;
use std::marker::Brand;
use std::sync::ledger::{Blank, Ledger};
use std::test::Fail;

const WHITE: Colour = Colour {
    r: 10_000,
    g: 10_000,
    b: 10_000,
};

const ORIGIN: Vec3 = Vec3 { x: 0, y: 0, z: 0 };

fn gray(n: u128) -> Rgb {
    Rgb { r: n, g: n, b: n }
}

/// A list of no triangles that counts how often it is asked whether a segment is blocked.
#[derive(Drop)]
struct Counting {
    asked: Cell<u32>,
}

impl Triangles for Counting {
    ghost use Rattle.std.specs.Prelude.{[]};

    ghost list = { λ s. [] };

    fn blocked(&self, _p: Vec3, _q: Vec3) -> bool {
        self.asked.set(self.asked.get().saturating_add(1));
        false
    }

    fn nearest(&self, _e: Vec3, _d: Vec3) -> Option<Hit> {
        None
    }
}

fn count<L: Ledger>(
    bench: &mut Bench,
    forest: &Forest,
    scene: &Counting,
    ask: Ask,
    blank: Blank,
) -> Answer
    requires bench { bench.old ≡ ask.size }
    requires permille { ask.permille ≤ 1000 }
    requires least { 3 ≤ ask.size }
    requires name { blank.name ≡ L.name }
    requires parts { blank.parts ≡ L.parts }
    requires some { 0 < blank.parts }
    ensures { bench.new ≡ bench.old }
{
    let spot = Spot {
        x: ORIGIN,
        n: Vec3 {
            x: 0,
            y: 0,
            z: 16_384,
        },
        r: ORIGIN,
        kd: WHITE,
        ks: Colour::BLACK,
        ns: 0,
    };
    let mut steps = Steps::<L>::start(blank);
    cut(bench, forest, &spot, scene, ask, &mut steps)
}

fn look(bench: &mut Bench, forest: &Forest, scene: &Counting, ask: Ask) -> Answer
    requires bench { bench.old ≡ ask.size }
    requires permille { ask.permille ≤ 1000 }
    requires least { 3 ≤ ask.size }
    ensures { bench.new ≡ bench.old }
{
    count::<Brand>(bench, forest, scene, ask, Blank::new(1))
}

/// The answer for a text of lights with no triangles, by cuts of at most five nodes.
fn answer_by(alloc: Global, text: &[u8], permille: u32, rule: Rule) -> Result<Answer, Fail>
    requires permille { permille ≤ 1000 }
    requires size { length text.now ≤ 536_870_912 }
{
    let lights = read_lights(alloc, text, 0)?;
    let forest = Forest::build(alloc, &lights, 0)?;
    let mut bench = Bench::new(alloc, 5)?;
    let scene = Counting {
        asked: Cell::new(0),
    };
    let ask = Ask {
        permille,
        size: 5,
        rule,
    };
    Ok(look(&mut bench, &forest, &scene, ask))
}

fn answer(alloc: Global, text: &[u8], permille: u32) -> Result<Answer, Fail>
    requires permille { permille ≤ 1000 }
    requires size { length text.now ≤ 536_870_912 }
{
    answer_by(alloc, text, permille, Rule::One)
}

#[test]
fn asks_once_where_the_root_is_enough(rt: HostRuntime) -> Result<(), Fail> {
    // A thousand lights at one place: the bound of the root is its estimate, so that the first cut stops.
    let text = b"point 0 0 1 1 1 1\n".as_slice().repeat(rt.alloc(), 1000)?;
    let lights = read_lights(rt.alloc(), &text, 0)?;
    let forest = Forest::build(rt.alloc(), &lights, 0)?;
    let mut bench = Bench::new(rt.alloc(), 3)?;
    let scene = Counting {
        asked: Cell::new(0),
    };
    let ask = Ask {
        permille: 1000,
        size: 3,
        rule: Rule::One,
    };
    let answer = look(&mut bench, &forest, &scene, ask);
    assert_eq!(rt; (answer.size, answer.evals), (1, 1));
    assert_eq!(rt; answer.est, gray(6_553_600_000_000_000_000_000_000));
    assert_eq!(rt; answer.bound, gray(6_553_600_000_000_000_000_000_000));
    assert!(rt; scene.asked.get() <= 1);
    Ok(())
}

#[test]
fn asks_once_for_each_cluster(rt: HostRuntime) -> Result<(), Fail> {
    // The same lights, where only a bound of nothing is enough: each refinement evaluates one light.
    let text = b"point 0 0 1 1 1 1\n".as_slice().repeat(rt.alloc(), 1000)?;
    let lights = read_lights(rt.alloc(), &text, 0)?;
    let forest = Forest::build(rt.alloc(), &lights, 0)?;
    let mut bench = Bench::new(rt.alloc(), 100)?;
    let scene = Counting {
        asked: Cell::new(0),
    };
    let ask = Ask {
        permille: 0,
        size: 100,
        rule: Rule::One,
    };
    let answer = look(&mut bench, &forest, &scene, ask);
    assert_eq!(rt; (answer.size, answer.evals), (100, 100));
    assert_eq!(rt; answer.est, gray(6_553_600_000_000_000_000_000_000));
    assert!(rt; scene.asked.get() <= 100);
    Ok(())
}

#[test]
fn asks_nothing_of_lights_that_give_nothing(rt: HostRuntime) -> Result<(), Fail> {
    // Behind the surface, in its plane, and turned away from it: no segment has to be tested.
    let text = b"point 0 0 -1 1 1 1\npoint 1 0 0 1 1 1\narea 0 0 1 0.0001 0 0 0 0.0001 0 1 1 1 1\n";
    let lights = read_lights(rt.alloc(), text, 0)?;
    let forest = Forest::build(rt.alloc(), &lights, 0)?;
    let mut bench = Bench::new(rt.alloc(), 5)?;
    let scene = Counting {
        asked: Cell::new(0),
    };
    let ask = Ask {
        permille: 0,
        size: 5,
        rule: Rule::One,
    };
    let answer = look(&mut bench, &forest, &scene, ask);
    assert_eq!(rt; answer.est, gray(0));
    assert_eq!(rt; scene.asked.get(), 0);
    Ok(())
}

#[test]
fn takes_two_lights_alone_or_together(rt: HostRuntime) -> Result<(), Fail> {
    let text = b"point 0 0 2 1 2 3\npoint 0 0 2 1 2 3\n";
    let est = Rgb {
        r: 3_276_800_000_000_000_000_000,
        g: 6_553_600_000_000_000_000_000,
        b: 9_830_400_000_000_000_000_000,
    };
    let fine = answer(rt.alloc(), text, 20)?;
    assert_eq!(rt; (fine.size, fine.evals), (2, 2));
    assert_eq!(rt; fine.est, est);
    assert_eq!(rt; fine.bound, gray(0));
    let coarse = answer(rt.alloc(), text, 1000)?;
    assert_eq!(rt; (coarse.size, coarse.evals), (1, 1));
    assert_eq!(rt; coarse.est, est);
    assert_eq!(rt; coarse.bound, est);
    Ok(())
}

#[test]
fn bounds_by_two_rules(rt: HostRuntime) -> Result<(), Fail> {
    // The first light gives nothing, so the second stands for both. What both can give is more than it gives, but less than
    // twice as much.
    let text = b"point 0 0 1 0 0 0\npoint 0 0 1.25 1 1 1\n";
    let est = gray(4_194_304_000_000_000_000_000);
    let first = answer_by(rt.alloc(), text, 1000, Rule::One)?;
    assert_eq!(rt; (first.size, first.est, first.bound), (2, est, gray(0)));
    let second = answer_by(rt.alloc(), text, 1000, Rule::Two)?;
    assert_eq!(rt; (second.size, second.est, second.bound), (1, est, est));
    // Farther away it gives less than it leaves.
    let text = b"point 0 0 1 0 0 0\npoint 0 0 2 1 1 1\n";
    let rest = answer_by(rt.alloc(), text, 1000, Rule::Two)?;
    assert_eq!(rt; (rest.size, rest.bound), (2, gray(0)));
    Ok(())
}

#[test]
fn adds_a_light_and_a_sun(rt: HostRuntime) -> Result<(), Fail> {
    let text = b"point 0 0 1 1 1 1\nsun 0 0 5 1 1 1\n";
    let both = answer(rt.alloc(), text, 20)?;
    assert_eq!(rt; (both.size, both.evals), (2, 2));
    assert_eq!(rt; both.est, gray(13_107_200_000_000_000_000_000));
    assert_eq!(rt; both.bound, gray(0));
    Ok(())
}

#[test]
fn cuts_three_trees_at_once(rt: HostRuntime) -> Result<(), Fail> {
    // The three samples of the area light are at one place, and face the spot as the point does.
    let text = b"sun 0 0 5 1 1 1\narea 0 0 1 0 0.0001 0 0.0001 0 0 1 1 1 3\npoint 0 0 1 1 1 1\n";
    let est = gray(19_660_800_000_000_000_000_000);
    let fine = answer(rt.alloc(), text, 20)?;
    assert_eq!(rt; (fine.size, fine.evals), (5, 5));
    assert_eq!(rt; fine.est, est);
    assert_eq!(rt; fine.bound, gray(0));
    // The bound of the samples is a third of the light of all.
    let coarse = answer(rt.alloc(), text, 334)?;
    assert_eq!(rt; (coarse.size, coarse.evals), (3, 3));
    assert_eq!(rt; coarse.est, est);
    assert_eq!(rt; coarse.bound, gray(6_553_600_000_000_000_000_000));
    Ok(())
}
