//! Tests seeded segments and rays against seeded triangles of a room, and prints a checksum of each kind of test.
//!
//! The arguments are the number of rounds over the inputs and, for the nanoseconds that each kind took, the word
//! `time`.
#![tactic(auto)]

mod inputs;
mod rounds;

use crate::inputs::Random;
use anyhow::Result;
use std::env;
use std::time::Instant;

/// What the arguments ask for.
#[derive(Clone, Copy)]
struct Order {
    rounds: u32,
    timed: bool,
}

fn read_order(rt: &HostRuntime) -> Result<Order> {
    let mut order = Order {
        rounds: 2,
        timed: false,
    };
    for word in env::args(rt)?.skip(1) {
        if word.as_str() == "time" {
            order.timed = true;
        } else if let Ok(rounds) = word.as_str().parse::<u32>() {
            order.rounds = rounds;
        }
    }
    Ok(order)
}

fn report(rt: &HostRuntime, order: &Order, test: &str, sum: u64, start: Instant) -> Result<()> {
    if order.timed {
        let nanoseconds = start.elapsed(rt)?.as_nanos();
        println!(rt; "{test} {sum} {nanoseconds}")?;
    } else {
        println!(rt; "{test} {sum}")?;
    }
    Ok(())
}

fn main(rt: HostRuntime) -> Result<()> {
    let order = read_order(&rt)?;
    let alloc = rt.alloc();
    let mut random = Random::new();
    let to_lamps = inputs::to_lamps(alloc, &mut random)?;
    let to_suns = inputs::to_suns(alloc, &mut random)?;
    let rays = inputs::rays(alloc, &mut random)?;
    let room = inputs::room(alloc, &mut random)?;

    let start = Instant::now(&rt)?;
    let sum = rounds::blocked(order.rounds, to_lamps.as_slice());
    report(&rt, &order, "lamps", sum, start)?;

    let start = Instant::now(&rt)?;
    let sum = rounds::blocked(order.rounds, to_suns.as_slice());
    report(&rt, &order, "suns", sum, start)?;

    let start = Instant::now(&rt)?;
    let sum = rounds::depths(order.rounds, rays.as_slice());
    report(&rt, &order, "depth", sum, start)?;

    let start = Instant::now(&rt)?;
    let sum = rounds::covered(order.rounds, &room, to_lamps.as_slice());
    report(&rt, &order, "list", sum, start)?;
    Ok(())
}
