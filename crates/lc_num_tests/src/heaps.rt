// Entries in the order in which they come out.
ghost use Rattle.std.specs.Prelude.{◌≡◌, ◌<◌};

use lc_heap::{Entry, Heap};
use lc_num::Steps;
use std::alloc::Global;
use std::marker::Brand;
use std::process::Abort;
use std::sync::ledger::{Blank, Ledger};
use std::test::{Fail, *};

fn entry(key: u128, kind: u8, node: u32) -> Entry {
    Entry { key, kind, node }
}

fn three<L: Ledger>(rt: &impl Abort, alloc: Global, blank: Blank) -> Result<(), Fail>
    requires name { blank.name ≡ L.name }
    requires parts { blank.parts ≡ L.parts }
    requires some { 0 < L.parts }
{
    let mut steps = Steps::<L>::start(blank);
    let mut heap = Heap::with_room(alloc, 3)?;
    assert!(rt; heap.is_empty());
    assert_eq!(rt; heap.first(), None);
    for e in [entry(5, 0, 9), entry(7, 1, 2), entry(7, 0, 4)] {
        assert!(rt; heap.len() < 3);
        heap.put(e, &mut steps);
    }
    assert_eq!(rt; heap.first(), Some(entry(7, 0, 4)));
    assert_eq!(rt; heap.take(&mut steps), Some(entry(7, 0, 4)));
    assert_eq!(rt; heap.take(&mut steps), Some(entry(7, 1, 2)));
    assert_eq!(rt; heap.take(&mut steps), Some(entry(5, 0, 9)));
    assert_eq!(rt; heap.take(&mut steps), None);
    assert!(rt; heap.len() < 3);
    heap.put(entry(1, 0, 1), &mut steps);
    heap.clear();
    assert!(rt; heap.is_empty());
    Ok(())
}

#[test]
fn three_entries(rt: HostRuntime) -> Result<(), Fail> {
    three::<Brand>(&rt, rt.alloc(), Blank::new(1))
}

/// The next word of a sequence that looks random.
fn next(word: u64) -> u64 {
    word.wrapping_mul(6_364_136_223_846_793_005)
        .wrapping_add(1_442_695_040_888_963_407)
}

/// An entry of one of few keys, some of which differ only in their upper halves.
fn entry_of(word: u64) -> Entry {
    let key = (word >> 60) as u128;
    let half = (word >> 59) % 2;
    Entry {
        key: if half == 0 { key } else { key << 64 },
        kind: ((word >> 40) % 3) as u8,
        node: (word >> 33) as u32 % 50,
    }
}

/// Whether an entry may come out before another.
fn is_in_order(a: Entry, b: Entry) -> bool {
    let (first, then) = (u128::MAX - a.key, u128::MAX - b.key);
    (first, a.kind, a.node) <= (then, b.kind, b.node)
}

fn many<L: Ledger>(rt: &impl Abort, alloc: Global, blank: Blank) -> Result<(), Fail>
    requires name { blank.name ≡ L.name }
    requires parts { blank.parts ≡ L.parts }
    requires some { 0 < L.parts }
{
    let mut steps = Steps::<L>::start(blank);
    let mut heap = Heap::with_room(alloc, 500)?;
    let mut word = 12;
    'put: for _ in 0..500 {
        assert!(rt; heap.len() < 500);
        word = next(word);
        heap.put(entry_of(word), &mut steps);
    }
    for _ in 0..300 {
        word = next(word);
        assert!(rt; !heap.is_empty());
        let greatest = heap.exchange(entry_of(word), &mut steps);
        assert!(rt;
            heap.first().is_some_and(|next| is_in_order(greatest, next) || next == entry_of(word))
        );
    }
    let mut last = entry(u128::MAX, 0, 0);
    for _ in 0..500 {
        let next = heap.take(&mut steps).ok_or("an entry is lost")?;
        assert!(rt; is_in_order(last, next), "{last:?} {next:?}");
        last = next;
    }
    assert_eq!(rt; heap.take(&mut steps), None);
    Ok(())
}

#[test]
fn many_entries(rt: HostRuntime) -> Result<(), Fail> {
    many::<Brand>(&rt, rt.alloc(), Blank::new(1))
}
