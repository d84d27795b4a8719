//! Reads an OBJ file, and prints how many triangles, names of materials and libraries it has, or its first fault.
//!
//! The arguments are the name of the file and, for the nanoseconds, the word `time`.
#![tactic(auto)]

use anyhow::Result;
use lc_desk::{Desk, HostDesk};
use lc_obj::{ObjStop, read_obj};
use std::env;
use std::time::Instant;

/// The most bytes of a scene's file.
const LIMIT: u64 = 134_217_728;

/// What the arguments ask for.
#[derive(Drop)]
struct Order {
    file: String,
    timed: bool,
}

fn read_order(rt: &HostRuntime) -> Result<Order> {
    let mut order = Order {
        file: String::new(rt.alloc()),
        timed: false,
    };
    for word in env::args(rt)?.skip(1) {
        if word.as_str() == "time" {
            order.timed = true;
        } else {
            order.file = word;
        }
    }
    Ok(order)
}

fn main(rt: HostRuntime) -> Result<()> {
    let order = read_order(&rt)?;
    let errors = rt.stderr();
    let mut desk = HostDesk::new(&rt, &errors);
    let mut bytes = Vec::new(rt.alloc());
    if desk.read(order.file.as_str(), LIMIT, &mut bytes).is_err() {
        println!(rt; "{}: not read", order.file)?;
        return Ok(());
    }
    let start = Instant::now(&rt)?;
    let read = read_obj(rt.alloc(), &bytes);
    let nanoseconds = start.elapsed(&rt)?.as_nanos();
    match read {
        Ok(mesh) => println!(rt;
            "triangles {} names {} libraries {}",
            mesh.faces.len(),
            mesh.names.len(),
            mesh.libs.len()
        )?,
        Err(ObjStop::Fault { line, kind }) => println!(rt; "line {line}: kind {kind}")?,
        Err(ObjStop::Memory) => println!(rt; "out of memory")?,
    }
    if order.timed {
        println!(rt; "nanoseconds {nanoseconds}")?;
    }
    Ok(())
}
