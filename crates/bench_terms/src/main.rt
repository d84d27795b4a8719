//! Runs the terms of the renderer over seeded inputs, and prints a checksum of each term's answers.
//!
//! The arguments are the number of rounds over the inputs and, for the nanoseconds that a term took, the word `time`.
#![tactic(auto)]

mod inputs;
mod rounds;

use crate::inputs::Random;
use anyhow::Result;
use std::env;
use std::time::Instant;

/// What the arguments ask for.
#[derive(Clone, Copy)]
struct Order {
    rounds: u32,
    timed: bool,
}

fn read_order(rt: &HostRuntime) -> Result<Order> {
    let mut order = Order {
        rounds: 2,
        timed: false,
    };
    for word in env::args(rt)?.skip(1) {
        if word.as_str() == "time" {
            order.timed = true;
        } else if let Ok(rounds) = word.as_str().parse::<u32>() {
            order.rounds = rounds;
        }
    }
    Ok(order)
}

fn report(rt: &HostRuntime, order: &Order, term: &str, sum: u64, start: Instant) -> Result<()> {
    if order.timed {
        let nanoseconds = start.elapsed(rt)?.as_nanos();
        println!(rt; "{term} {sum} {nanoseconds}")?;
    } else {
        println!(rt; "{term} {sum}")?;
    }
    Ok(())
}

fn main(rt: HostRuntime) -> Result<()> {
    let order = read_order(&rt)?;
    let alloc = rt.alloc();
    let mut random = Random::new();
    let words = inputs::words(alloc, &mut random)?;
    let vectors = inputs::vectors(alloc, &mut random)?;
    let pairs = inputs::pairs(alloc, &mut random)?;

    let start = Instant::now(&rt)?;
    let sum = rounds::roots(order.rounds, words.as_slice());
    report(&rt, &order, "isqrt", sum, start)?;

    let start = Instant::now(&rt)?;
    let sum = rounds::lengths(order.rounds, vectors.as_slice());
    report(&rt, &order, "scaled", sum, start)?;

    let start = Instant::now(&rt)?;
    let sum = rounds::cosines(order.rounds, pairs.as_slice());
    report(&rt, &order, "cos16", sum, start)?;
    Ok(())
}
