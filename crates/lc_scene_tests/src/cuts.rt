// Cuts worked out by hand, over small trees with one number in all channels.
ghost use Rattle.std.specs.Prelude.{◌≡◌, ◌<◌, ◌≤◌};
ghost use Rattle.lc_rated.specs.Tables.{gray, gray_light};

use lc_num::{Memory, Rgb, Steps};
use lc_rated::{Answer, Bench, Found, LightKind, Lighting, NodeLight, Split, best_cut};
use std::alloc::Global;
use std::marker::Brand;
use std::sync::ledger::{Blank, Ledger};
use std::test::{Fail, *};

fn gray(n: u16) -> Rgb
    ensures { result ≡ gray n }
{
    let n = n as u128;
    Rgb { r: n, g: n, b: n }
}

/// A node with an estimate and a bound.
#[derive(Clone, Copy)]
struct Node {
    est: u16,
    bound: u16,
}

fn light_of(node: Node) -> NodeLight
    ensures { result ≡ gray_light node.est node.bound }
{
    NodeLight {
        est: gray(node.est),
        bound: gray(node.bound),
    }
}

/// What is found of an inner node, of which the estimate is kept.
fn inner(number: u32, node: Node) -> Found<u16>
    ensures { result ≡ record { node = number; light = gray_light node.est node.bound; kept = node.est } }
{
    Found {
        node: number,
        light: light_of(node),
        kept: node.est,
    }
}

/// What is found of a leaf.
fn leaf(number: u32, est: u16) -> Found<u16>
    ensures { result ≡ record { node = number; light = gray_light est 0; kept = est } }
{
    inner(number, Node { est, bound: 0 })
}

fn split(kept: u16, left: Found<u16>, right: Found<u16>) -> Split<u16>
    ensures { result ≡ record { est = gray kept; left = left; right = right } }
{
    Split {
        est: gray(kept),
        left,
        right,
    }
}

/// A tree of two omni lights.
#[derive(Drop)]
struct Pair {
    root: Node,
    left: u16,
    right: u16,
}

impl Lighting for Pair {
    ghost use Rattle.std.specs.Prelude.{None, Some};
    ghost use Rattle.lc_rated.specs.Tables.{IsEst, two};

    type Kept = u16;

    ghost trees = { λ p. record { omni = Some (two p.root.est p.root.bound p.left p.right); oriented = None; sun = None } };

    ghost keeps = { λ p. IsEst (record { omni = Some (two p.root.est p.root.bound p.left p.right); oriented = None; sun = None }) };

    fn root<L: Ledger>(&self, kind: LightKind, steps: &mut Steps<L>) -> Option<Found<u16>> {
        match kind {
            LightKind::Omni => {
                steps.tick();
                Some(inner(0, self.root))
            }
            LightKind::Oriented => None,
            LightKind::Sun => None,
        }
    }

    fn split<L: Ledger>(
        &self,
        _kind: LightKind,
        node: u32,
        kept: u16,
        steps: &mut Steps<L>,
    ) -> Option<Split<u16>> {
        match node {
            0 => {
                steps.tick();
                Some(split(kept, leaf(1, self.left), leaf(2, self.right)))
            }
            _ => None,
        }
    }
}

/// A tree of four omni lights and a tree of two oriented ones.
#[derive(Drop)]
struct Lamps {
    top: Node,
    west: Node,
    east: Node,
    leaves: [u16; 4],
    sign: Node,
    left: u16,
    right: u16,
}

impl Lighting for Lamps {
    ghost use Rattle.std.specs.Prelude.{None, Some, slice_index};
    ghost use Rattle.lc_rated.specs.LitTrees.{lit_fork};
    ghost use Rattle.lc_rated.specs.Tables.{gray_light, IsEst, two};

    type Kept = u16;

    ghost trees = { λ t. record {
      omni = Some (lit_fork (gray_light t.top.est t.top.bound) (two t.west.est t.west.bound (slice_index t.leaves 0) (slice_index t.leaves 1)) (two t.east.est t.east.bound (slice_index t.leaves 2) (slice_index t.leaves 3)));
      oriented = Some (two t.sign.est t.sign.bound t.left t.right);
      sun = None;
    } };

    ghost keeps = { λ t. IsEst (record {
      omni = Some (lit_fork (gray_light t.top.est t.top.bound) (two t.west.est t.west.bound (slice_index t.leaves 0) (slice_index t.leaves 1)) (two t.east.est t.east.bound (slice_index t.leaves 2) (slice_index t.leaves 3)));
      oriented = Some (two t.sign.est t.sign.bound t.left t.right);
      sun = None;
    }) };

    fn root<L: Ledger>(&self, kind: LightKind, steps: &mut Steps<L>) -> Option<Found<u16>> {
        match kind {
            LightKind::Omni => {
                steps.tick();
                Some(inner(0, self.top))
            }
            LightKind::Oriented => {
                steps.tick();
                Some(inner(0, self.sign))
            }
            LightKind::Sun => None,
        }
    }

    fn split<L: Ledger>(
        &self,
        kind: LightKind,
        node: u32,
        kept: u16,
        steps: &mut Steps<L>,
    ) -> Option<Split<u16>> {
        match kind {
            LightKind::Omni => match node {
                0 => {
                    steps.tick();
                    Some(split(kept, inner(1, self.west), inner(4, self.east)))
                }
                1 => {
                    steps.tick();
                    Some(split(kept, leaf(2, self.leaves[0]), leaf(3, self.leaves[1])))
                }
                4 => {
                    steps.tick();
                    Some(split(kept, leaf(5, self.leaves[2]), leaf(6, self.leaves[3])))
                }
                _ => None,
            },
            LightKind::Oriented => match node {
                0 => {
                    steps.tick();
                    Some(split(kept, leaf(1, self.left), leaf(2, self.right)))
                }
                _ => None,
            },
            LightKind::Sun => None,
        }
    }
}

/// The cuts of two equal lights whose root's bound is its estimate, at 20 and at 1000 thousandths.
fn best_of_pair<L: Ledger>(alloc: Global, blank: Blank) -> Result<(Answer, Answer), Memory>
    requires name { blank.name ≡ L.name }
    requires parts { blank.parts ≡ L.parts }
    requires some { 0 < L.parts }
{
    let mut steps = Steps::<L>::start(blank);
    let mut bench = Bench::new(alloc, 4)?;
    let root = Node {
        est: 200,
        bound: 200,
    };
    let pair = Pair {
        root,
        left: 100,
        right: 100,
    };
    let low = best_cut(&mut bench, &pair, 4, 20, &mut steps);
    let high = best_cut(&mut bench, &pair, 4, 1000, &mut steps);
    Ok((low, high))
}

#[test]
fn two_equal_lights(rt: HostRuntime) -> Result<(), Fail> {
    let (low, high) = best_of_pair::<Brand>(rt.alloc(), Blank::new(1))?;
    // 1000 * 200 is above 20 * 200, so the root is refined.
    assert_eq!(rt;
        low,
        Answer {
            size: 2,
            evals: 2,
            est: gray(200),
            bound: gray(0)
        }
    );
    // 1000 * 200 is 1000 * 200, so the root is enough.
    assert_eq!(rt;
        high,
        Answer {
            size: 1,
            evals: 1,
            est: gray(200),
            bound: gray(200)
        }
    );
    Ok(())
}

/// The cut of at most so many nodes where the omni root has the greatest key and the nodes of the second greatest
/// are three: the omni root's children and the oriented root.
fn best_of_lamps<L: Ledger>(alloc: Global, blank: Blank, size: u32) -> Result<Answer, Memory>
    requires name { blank.name ≡ L.name }
    requires parts { blank.parts ≡ L.parts }
    requires some { 0 < L.parts }
    requires least { 3 ≤ size }
{
    let mut steps = Steps::<L>::start(blank);
    let mut bench = Bench::new(alloc, size)?;
    let lamps = Lamps {
        top: Node { est: 43, bound: 40 },
        west: Node { est: 21, bound: 20 },
        east: Node { est: 22, bound: 20 },
        leaves: [9, 11, 8, 12],
        sign: Node { est: 24, bound: 20 },
        left: 7,
        right: 13,
    };
    Ok(best_cut(&mut bench, &lamps, size, 0, &mut steps))
}

#[test]
fn ties(rt: HostRuntime) -> Result<(), Fail> {
    // The omni root alone is refined: 21 + 22 + 24.
    let three = best_of_lamps::<Brand>(rt.alloc(), Blank::new(1), 3)?;
    assert_eq!(rt;
        three,
        Answer {
            size: 3,
            evals: 3,
            est: gray(67),
            bound: gray(60)
        }
    );
    // Of the three nodes of key 60 the omni node of lower number is next: 9 + 11 + 22 + 24.
    let four = best_of_lamps::<Brand>(rt.alloc(), Blank::new(1), 4)?;
    assert_eq!(rt;
        four,
        Answer {
            size: 4,
            evals: 4,
            est: gray(66),
            bound: gray(40)
        }
    );
    // Then the other omni node: 9 + 11 + 8 + 12 + 24.
    let five = best_of_lamps::<Brand>(rt.alloc(), Blank::new(1), 5)?;
    assert_eq!(rt;
        five,
        Answer {
            size: 5,
            evals: 5,
            est: gray(64),
            bound: gray(20)
        }
    );
    // All leaves: 9 + 11 + 8 + 12 + 7 + 13.
    let most = best_of_lamps::<Brand>(rt.alloc(), Blank::new(1), 65536)?;
    assert_eq!(rt;
        most,
        Answer {
            size: 6,
            evals: 6,
            est: gray(60),
            bound: gray(0)
        }
    );
    Ok(())
}
