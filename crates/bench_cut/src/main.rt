//! Cuts through the trees of seeded lights of three kinds at seeded spots, with no triangle between them, and prints
//! how many lights were evaluated and a checksum.
//!
//! The arguments are the number of lights, the number of spots and, for the nanoseconds, the word `time`.
#![tactic(auto)]

mod cuts;
mod inputs;

use crate::inputs::Random;
use anyhow::Result;
use lc_cut::{Bench, Forest};
use lc_hier::Plain;
use lc_num::List;
use std::env;
use std::time::Instant;

/// What the arguments ask for.
#[derive(Clone, Copy)]
struct Order {
    lights: u32,
    spots: u32,
    timed: bool,
}

fn read_order(rt: &HostRuntime) -> Result<Order> {
    let mut order = Order {
        lights: 0,
        spots: 0,
        timed: false,
    };
    for word in env::args(rt)?.skip(1) {
        if word.as_str() == "time" {
            order.timed = true;
        } else if let Ok(number) = word.as_str().parse::<u32>() {
            if order.lights == 0 {
                order.lights = number;
            } else {
                order.spots = number;
            }
        }
    }
    Ok(order)
}

fn main(rt: HostRuntime) -> Result<()> {
    let order = read_order(&rt)?;
    let mut random = Random::new();
    let lights = inputs::lights(rt.alloc(), &mut random, order.lights.clamp(1, 65_536))?;

    let start = Instant::now(&rt)?;
    let forest = Forest::build(rt.alloc(), &lights, 0)?;
    let built = start.elapsed(&rt)?.as_nanos();
    let mut bench = Bench::new(rt.alloc(), 1000)?;
    let scene = Plain::new(List::new(rt.alloc()));

    let start = Instant::now(&rt)?;
    let sums = cuts::add_cuts(&mut bench, &forest, &scene, &mut random, order.spots);
    let cut = start.elapsed(&rt)?.as_nanos();
    println!(rt; "evaluations {} checksum {}", sums.evals, sums.light)?;
    if order.timed {
        println!(rt; "tree {built} cuts {cut}")?;
    }
    Ok(())
}
