//! Reads a record, and prints the rule of its bounds, how many samples it has, and how many clusters of lights their
//! cuts have together, or its first fault.
//!
//! The arguments are the name of the file and, for the nanoseconds, the word `time`.
#![tactic(auto)]

use anyhow::Result;
use lc_desk::{Desk, HostDesk};
use lc_record::{Record, RecordStop, read_record};
use std::env;
use std::time::Instant;

/// The most bytes of a record.
const LIMIT: u64 = 536_870_912;

/// What the arguments ask for.
#[derive(Drop)]
struct Order {
    file: String,
    timed: bool,
}

fn read_order(rt: &HostRuntime) -> Result<Order> {
    let mut order = Order {
        file: String::new(rt.alloc()),
        timed: false,
    };
    for word in env::args(rt)?.skip(1) {
        if word.as_str() == "time" {
            order.timed = true;
        } else {
            order.file = word;
        }
    }
    Ok(order)
}

/// How many clusters the cuts of all samples have.
fn clusters(record: &Record) -> u64 {
    let mut sum: u64 = 0;
    for line in record.lines.as_slice() {
        sum = sum.saturating_add(u64::from(line.size));
    }
    sum
}

fn main(rt: HostRuntime) -> Result<()> {
    let order = read_order(&rt)?;
    let errors = rt.stderr();
    let mut desk = HostDesk::new(&rt, &errors);
    let mut bytes = Vec::new(rt.alloc());
    if desk.read(order.file.as_str(), LIMIT, &mut bytes).is_err() {
        println!(rt; "{}: not read", order.file)?;
        return Ok(());
    }
    let start = Instant::now(&rt)?;
    let read = read_record(rt.alloc(), &bytes);
    let nanoseconds = start.elapsed(&rt)?.as_nanos();
    match read {
        Ok(record) => println!(rt;
            "rule {} samples {} clusters {}",
            record.header.rule.number(),
            record.lines.len(),
            clusters(&record)
        )?,
        Err(RecordStop::Fault { line, kind }) => println!(rt; "line {line}: kind {kind}")?,
        Err(RecordStop::Memory) => println!(rt; "out of memory")?,
    }
    if order.timed {
        println!(rt; "nanoseconds {nanoseconds}")?;
    }
    Ok(())
}
