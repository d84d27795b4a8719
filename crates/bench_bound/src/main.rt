//! Bounds what seeded clumps of lights give to seeded spots, and prints a checksum of each kind of bound.
//!
//! The arguments are the number of rounds over the inputs and, for the nanoseconds that each kind took, the word
//! `time`.
#![tactic(auto)]

mod inputs;
mod rounds;

use crate::inputs::Random;
use anyhow::Result;
use lc_num::Rule;
use std::env;
use std::time::Instant;

/// What the arguments ask for.
#[derive(Clone, Copy)]
struct Order {
    rounds: u32,
    timed: bool,
}

fn read_order(rt: &HostRuntime) -> Result<Order> {
    let mut order = Order {
        rounds: 2,
        timed: false,
    };
    for word in env::args(rt)?.skip(1) {
        if word.as_str() == "time" {
            order.timed = true;
        } else if let Ok(rounds) = word.as_str().parse::<u32>() {
            order.rounds = rounds;
        }
    }
    Ok(order)
}

fn report(rt: &HostRuntime, order: &Order, bound: &str, sum: u128, start: Instant) -> Result<()> {
    if order.timed {
        let nanoseconds = start.elapsed(rt)?.as_nanos();
        println!(rt; "{bound} {sum} {nanoseconds}")?;
    } else {
        println!(rt; "{bound} {sum}")?;
    }
    Ok(())
}

fn main(rt: HostRuntime) -> Result<()> {
    let order = read_order(&rt)?;
    let alloc = rt.alloc();
    let mut random = Random::new();
    let cases = inputs::cases(alloc, &mut random)?;
    let oriented_cases = inputs::oriented_cases(alloc, &mut random)?;
    let emissions = inputs::emissions(alloc, &mut random)?;
    let shiny_cases = inputs::shiny_cases(alloc, &mut random)?;
    let reflections = inputs::reflections(alloc, &mut random)?;

    for (rule, bound) in [(Rule::One, "top"), (Rule::Two, "top_2")] {
        let start = Instant::now(&rt)?;
        let sum = rounds::tops(order.rounds, cases.as_slice(), rule);
        report(&rt, &order, bound, sum, start)?;
    }

    for (rule, bound) in [(Rule::One, "oriented"), (Rule::Two, "oriented_2")] {
        let start = Instant::now(&rt)?;
        let sum = rounds::oriented_tops(order.rounds, oriented_cases.as_slice(), rule);
        report(&rt, &order, bound, sum, start)?;
    }

    let start = Instant::now(&rt)?;
    let sum = rounds::emissions(order.rounds, emissions.as_slice());
    report(&rt, &order, "emit_top", sum, start)?;

    for (rule, bound) in [(Rule::One, "shiny"), (Rule::Two, "shiny_2")] {
        let start = Instant::now(&rt)?;
        let sum = rounds::tops(order.rounds, shiny_cases.as_slice(), rule);
        report(&rt, &order, bound, sum, start)?;
    }

    let start = Instant::now(&rt)?;
    let sum = rounds::materials(order.rounds, reflections.as_slice());
    report(&rt, &order, "material", sum, start)?;
    Ok(())
}
