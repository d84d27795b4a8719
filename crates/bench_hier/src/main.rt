//! Builds the hierarchy of boxes of a seeded room, asks it whether seeded segments are blocked and what seeded rays hit
//! first, and prints a checksum of each kind of query and how many triangles were tested for each kind of segment.
//!
//! The arguments are the number of cells along each side of the room's faces, the number of rounds over the queries
//! and, for the nanoseconds that each kind and the building took, the word `time`.
#![tactic(auto)]

mod inputs;
mod random;
mod room;
mod rounds;

use crate::inputs::Segment;
use crate::random::Random;
use crate::room::Room;
use anyhow::Result;
use lc_hier::Hier;
use std::env;
use std::time::Instant;

/// What the arguments ask for.
#[derive(Clone, Copy)]
struct Order {
    grid: u32,
    rounds: u32,
    timed: bool,
}

fn read_order(rt: &HostRuntime) -> Result<Order> {
    let mut order = Order {
        grid: 0,
        rounds: 0,
        timed: false,
    };
    for word in env::args(rt)?.skip(1) {
        if word.as_str() == "time" {
            order.timed = true;
        } else if let Ok(number) = word.as_str().parse::<u32>() {
            if order.grid == 0 {
                order.grid = number;
            } else {
                order.rounds = number;
            }
        }
    }
    Ok(order)
}

fn report(rt: &HostRuntime, order: &Order, kind: &str, sum: u64, start: Instant) -> Result<()> {
    let nanoseconds = start.elapsed(rt)?.as_nanos();
    if order.timed {
        println!(rt; "{kind} {sum} {nanoseconds}")?;
    } else {
        println!(rt; "{kind} {sum}")?;
    }
    Ok(())
}

/// Reports how many of the segments are blocked, and how many triangles that took.
fn ask(rt: &HostRuntime, order: &Order, kind: &str, room: &Hier, list: &[Segment]) -> Result<()> {
    println!(rt; "{kind}-tests {}", rounds::tests(room, list))?;
    let start = Instant::now(rt)?;
    let sum = rounds::blocked(order.rounds, room, list);
    report(rt, order, kind, sum, start)
}

fn main(rt: HostRuntime) -> Result<()> {
    let order = read_order(&rt)?;
    let alloc = rt.alloc();
    let mut random = Random::new();
    let Some(room) = Room::new(alloc, &mut random, order.grid)? else {
        println!(rt; "no room has such a grid")?;
        return Ok(());
    };
    let to_lamps = inputs::to_lamps(alloc, &mut random, &room)?;
    let to_suns = inputs::to_suns(alloc, &mut random, &room)?;
    let rays = inputs::rays(alloc, &mut random)?;

    let start = Instant::now(&rt)?;
    let boxes = Hier::build(alloc, room.triangles.as_slice())?;
    report(&rt, &order, "triangles", room.triangles.len() as u64, start)?;

    ask(&rt, &order, "lamps", &boxes, to_lamps.as_slice())?;
    ask(&rt, &order, "suns", &boxes, to_suns.as_slice())?;

    let start = Instant::now(&rt)?;
    let sum = rounds::hits(order.rounds, &boxes, rays.as_slice());
    report(&rt, &order, "rays", sum, start)?;
    Ok(())
}
