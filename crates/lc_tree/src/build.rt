// Building the rows of a tree.
ghost use Rattle.std.specs.Prelude.{◌≡◌, ◌+◌, ◌*◌, ◌-◌, ◌^◌, ◌<◌, ◌≤◌, List, All, length, IfOk, vec_len, if◌then◌else◌};
ghost use Rattle.lc_words.specs.Lcg.{Lcg};
ghost use Rattle.lc_tree.specs.Build.{numbered, power_weight, takes_left, tree_of};
ghost use Rattle.lc_tree.specs.Grown.{Grown, IsValid, StandsIn};
ghost use Rattle.lc_tree.specs.Rows.{IsLaidIf, read_rows};
ghost use Rattle.lc_words.specs.Words.{after, stream_word, word_of};

use crate::numbered::{Numbered, longest_axis, sort_along};
use crate::row::Row;
use lc_num::Memory;
use lc_terms::Kind;
use lc_words::Stream;
use std::alloc::Global;

/// The lights with their numbers and places.
fn numbered<K: Kind>(alloc: Global, lights: &[K::Light]) -> Result<Vec<Numbered<K::Light>>, Memory>
    requires few { length lights.now ≤ 65536 }
    requires valid { All K.meaning.valid_light lights.now }
    ensures { IfOk result (λ order. order.items ≡ numbered K.meaning lights.now) }
{
    let mut order = Vec::new(alloc);
    for (number, light) in lights.iter().enumerate() {
        order.push(Numbered {
            number: number as u32,
            place: K::place(light),
            light: *light,
        })?;
    }
    Ok(order)
}

/// The sum of the three channels of a clump's summed intensity.
pub(crate) fn clump_weight<K: Kind>(clump: &K::Clump) -> u64
    requires { K.meaning.valid_clump clump.now }
    ensures value { result ≡ power_weight (K.meaning.total clump.now) }
    ensures small { result < 2 ^ 63 }
{
    let total = K::total(clump);
    total.r + total.g + total.b
}

/// Whether the left of two children leads, by a word and their weights.
fn takes_left(word: u32, left: u64, right: u64) -> bool
    requires left { left < 2 ^ 63 }
    requires right { right < 2 ^ 63 }
    ensures { result ≡ takes_left word left right }
{
    let weight = left + right;
    weight == 0 || word as u128 * weight as u128 / 4_294_967_296 < left as u128
}

/// The representative of a node with these children.
fn leading<K: Kind>(word: u32, left: &Row<K::Clump>, right: &Row<K::Clump>) -> u32
    requires left { K.meaning.valid_clump left.now.clump }
    requires right { K.meaning.valid_clump right.now.clump }
    ensures { result ≡ (if takes_left word (power_weight (K.meaning.total left.now.clump))
        (power_weight (K.meaning.total right.now.clump)) then left.now.leader else right.now.leader) }
{
    if takes_left(
        word,
        clump_weight::<K>(&left.clump),
        clump_weight::<K>(&right.clump),
    ) {
        left.leader
    } else {
        right.leader
    }
}

/// Adds the rows of the tree over some lights, and gives its root's row. It takes a word for each node.
fn grow<K: Kind>(
    lights: &mut [Numbered<K::Light>],
    words: &mut Stream,
    rows: &mut Vec<Row<K::Clump>>,
) -> Result<Row<K::Clump>, Memory>
    requires some { 0 < length lights.old }
    requires few { length lights.old ≤ 65536 }
    requires room { vec_len rows.old + 2 * length lights.old ≤ 131072 }
    requires valid { All (IsValid K.meaning) lights.old }
    ensures more { IfOk result (λ _. vec_len rows.new + 1 ≡ vec_len rows.old + 2 * length lights.old) }
    ensures words { IfOk result (λ _. words.new ≡ after words.old (2 * length lights.old - 1)) }
    ensures clump { IfOk result (λ row. K.meaning.valid_clump row.clump) }
    ensures count { IfOk result (λ row. K.meaning.count row.clump ≡ length lights.old) }
    ensures grown { IfOk result (λ row. (all : List K.Light) (g : Lcg) → All (StandsIn all) lights.old
        → words.old ≡ after g (vec_len rows.old)
        → Grown K.meaning (word_of g) all lights.old rows.old.items rows.new.items row) }
{
    let at = rows.len();
    let word = words.next_word();
    let first = lights[0];
    let leaf = Row {
        clump: K::one(&first.light),
        leader: first.number,
        left: 0,
        count: 1,
    };
    rows.push(leaf)?;
    let count = lights.len();
    let half = count / 2;
    if half == 0 {
        return Ok(leaf);
    }
    let axis = longest_axis(lights);
    sort_along(lights, axis);
    let (left, right) = lights.split_at_mut(half);
    let a = grow::<K>(left, words, rows)?;
    let b = grow::<K>(right, words, rows)?;
    let row = Row {
        clump: K::join(&a.clump, &b.clump),
        leader: leading::<K>(word, &a, &b),
        left: half as u32,
        count: count as u32,
    };
    rows[at] = row;
    Ok(row)
}

/// The rows of the tree over all lights.
pub(crate) fn rows_of_tree<K: Kind>(
    alloc: Global,
    lights: &[K::Light],
    seed: u64,
    stream: u64,
) -> Result<Vec<Row<K::Clump>>, Memory>
    requires few { length lights.now ≤ 65536 }
    requires valid { All K.meaning.valid_light lights.now }
    ensures laid { IfOk result (λ rows. IsLaidIf K.meaning.valid_light K.meaning.one K.meaning.join lights.now rows.items) }
    ensures tree { IfOk result (λ rows. read_rows lights.now rows.items
        ≡ tree_of K.meaning (stream_word seed stream) lights.now) }
{
    let mut rows = Vec::new(alloc);
    if lights.is_empty() {
        return Ok(rows);
    }
    let mut order = numbered::<K>(alloc, lights)?;
    let mut words = Stream::new(seed, stream);
    grow::<K>(&mut order, &mut words, &mut rows)?;
    Ok(rows)
}
