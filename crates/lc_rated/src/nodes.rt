// The nodes of a cut, with running sums.
ghost use Rattle.std.specs.Prelude.{◌≡◌, ◌+◌, ◌*◌, ◌<◌, ◌≤◌, ◌^◌, [], ◌∷◌, ◌++◌, length, vec_len, vec_capacity, slice_get, option_copied, Contains, IfOk, MatchOption};
ghost use Rattle.lc_num.specs.Channels.{plus};
ghost use Rattle.lc_heap.specs.Order.{IsFirstOf};
ghost use Rattle.lc_rated.specs.Cuts.{is_stop, light_key};
ghost use Rattle.lc_rated.specs.Nodes.{CanMove, IsAdded, IsMoved, IsReplaced, IsSmall, dark, lights_plus, made_entry, made_slot, place_of, slot_of};

use crate::kind::{LightKind, number_of};
use crate::light::NodeLight;
use crate::lighting::Found;
use crate::slot::Slot;
use lc_heap::{Entry, Heap};
use lc_num::{Memory, Rgb, Steps};
use std::alloc::Global;
use std::marker::Model;
use std::sync::ledger::Ledger;

/// The numbers of all nodes of a tree of 65,536 leaves are below this.
const NODES: usize = 131_072;

const DARK: NodeLight = NodeLight {
    est: Rgb::BLACK,
    bound: Rgb::BLACK,
};

/// The nodes of a cut, of which the one of greatest key comes first, in memory that is taken beforehand.
#[derive(Drop)]
pub struct Nodes<K: Copy> {
    heap: Heap,
    /// For each number of a node and each kind the number of the node's slot.
    places: Vec<u32>,
    /// A slot for each node of the cut.
    slots: Vec<Slot<K>>,
    sums: NodeLight,
    room: u32,
}

impl<K: Copy> Model for Nodes<K> {
    ghost use Rattle.std.specs.Prelude.{◌≡◌, ◌≤◌, length, vec_capacity};
    ghost use Rattle.lc_rated.specs.Nodes.{NodesParts, coded_parts};

    ghost Value = { NodesParts K };

    ghost coded = { coded_parts K.code };

    ghost view = { λ n. record { entries = n.heap.entries; places = n.places.items; slots = n.slots.items; sums = n.sums; room = n.room } };

    ghost invariant = { λ n. (length n.places.items ≡ 393216) × (length n.slots.items ≡ length n.heap.entries)
        × (n.heap.room ≡ n.room) × (n.room ≤ vec_capacity n.slots) };
}

fn plus(a: Rgb, b: Rgb) -> Rgb
    requires r { a.r + b.r < 2 ^ 128 }
    requires g { a.g + b.g < 2 ^ 128 }
    requires b { a.b + b.b < 2 ^ 128 }
    ensures { result ≡ plus a b }
{
    Rgb {
        r: a.r + b.r,
        g: a.g + b.g,
        b: a.b + b.b,
    }
}

/// The sum where one part gives way to two. The part goes first, so that no number is above the sums of a cut.
fn moved(sum: Rgb, old: Rgb, left: Rgb, right: Rgb) -> Rgb
    requires { CanMove sum old left right }
    ensures { IsMoved sum old left right result }
{
    Rgb {
        r: sum.r - old.r + left.r + right.r,
        g: sum.g - old.g + left.g + right.g,
        b: sum.b - old.b + left.b + right.b,
    }
}

/// The entry of a node that was found. Its key is the sum of the channels of its bound.
fn entry<K: Copy>(kind: LightKind, found: Found<K>) -> Entry
    requires { light_key found.light < 2 ^ 128 }
    ensures { result ≡ made_entry kind found.node found.light }
{
    let bound = found.light.bound;
    Entry {
        key: bound.r + bound.g + bound.b,
        kind: number_of(kind),
        node: found.node,
    }
}

fn slot_for<K: Copy>(found: Found<K>) -> Slot<K>
    ensures { result ≡ made_slot found }
{
    Slot {
        kept: found.kept,
        bound: found.light.bound,
    }
}

/// Where the number of the slot of a node stands.
fn place(kind: LightKind, node: u32) -> usize
    ensures { result ≡ place_of kind node }
{
    3 * node as usize + number_of(kind) as usize
}

/// Puts an item at the end, where there is room for it.
fn push<T: Copy>(items: &mut Vec<T>, item: T)
    requires { vec_len items.old < vec_capacity items.old }
    ensures items { items.new.items ≡ items.old.items ++ item ∷ [] }
    ensures room { vec_capacity items.old ≤ vec_capacity items.new }
{
    let _ = items.push(item);
}

impl<K: Copy> Nodes<K> {
    /// Room for so many nodes.
    pub fn with_room(alloc: Global, room: u32) -> Result<Nodes<K>, Memory>
        ensures { IfOk result (λ nodes. nodes.room ≡ room) }
    {
        let heap = Heap::with_room(alloc, room)?;
        let places = vec![in alloc; 0; 3 * NODES]?;
        let slots = Vec::with_capacity(alloc, room as usize)?;
        Ok(Nodes {
            heap,
            places,
            slots,
            sums: DARK,
            room,
        })
    }

    /// How many nodes there are.
    pub fn len(&self) -> u32
        ensures count { result ≡ length self.now.entries }
        ensures within { result ≤ self.now.room }
    {
        let _room = self.room;
        self.heap.len() as u32
    }

    /// The sums over the nodes.
    pub fn sums(&self) -> NodeLight
        ensures { result ≡ self.now.sums }
    {
        self.sums
    }

    /// The node that comes before all others.
    pub fn first(&self) -> Option<Entry>
        ensures { MatchOption result (self.now.entries ≡ []) (λ e. Contains self.now.entries e
            × IsFirstOf self.now.entries e) }
    {
        self.heap.first()
    }

    /// The number of the slot of a node.
    pub fn slot(&self, kind: LightKind, node: u32) -> Option<u32>
        ensures { result ≡ slot_of self.now kind node }
    {
        self.places.get(place(kind, node)).copied()
    }

    /// What a slot keeps.
    pub fn kept(&self, slot: u32) -> Option<Slot<K>>
        ensures { result ≡ slice_get self.now.slots slot }
    {
        self.slots.get(slot as usize).copied()
    }

    /// Lets all nodes go.
    pub fn clear(&mut self)
        ensures { self.new ≡ record { entries = []; places = self.old.places; slots = []; sums = dark; room = self.old.room } }
    {
        self.heap.clear();
        self.slots.clear();
        self.sums = DARK;
    }

    /// Adds a node.
    pub fn add<M: Ledger>(&mut self, kind: LightKind, found: Found<K>, comparisons: &mut Steps<M>)
        requires room { length self.old.entries < self.old.room }
        requires node { found.node < 131072 }
        requires key { light_key found.light < 2 ^ 128 }
        requires small { IsSmall (lights_plus self.old.sums found.light) }
        ensures { IsAdded kind found self.old self.new }
    {
        self.sums = NodeLight {
            est: plus(self.sums.est, found.light.est),
            bound: plus(self.sums.bound, found.light.bound),
        };
        self.places[place(kind, found.node)] = self.heap.len() as u32;
        push(&mut self.slots, slot_for(found));
        self.heap.put(entry(kind, found), comparisons);
    }

    /// Puts two nodes in the place of the first, which has this slot and this light.
    pub fn replace<M: Ledger>(
        &mut self,
        kind: LightKind,
        slot: u32,
        light: NodeLight,
        left: Found<K>,
        right: Found<K>,
        comparisons: &mut Steps<M>,
    )
        requires some { 0 < length self.old.entries }
        requires room { length self.old.entries < self.old.room }
        requires slot { slot < length self.old.slots }
        requires left { left.node < 131072 }
        requires right { right.node < 131072 }
        requires left_key { light_key left.light < 2 ^ 128 }
        requires right_key { light_key right.light < 2 ^ 128 }
        requires est { CanMove self.old.sums.est light.est left.light.est right.light.est }
        requires bound { CanMove self.old.sums.bound light.bound left.light.bound right.light.bound }
        ensures { IsReplaced kind slot light left right self.old self.new }
    {
        self.sums = NodeLight {
            est: moved(self.sums.est, light.est, left.light.est, right.light.est),
            bound: moved(
                self.sums.bound,
                light.bound,
                left.light.bound,
                right.light.bound,
            ),
        };
        self.places[place(kind, left.node)] = slot;
        self.places[place(kind, right.node)] = self.heap.len() as u32;
        self.slots[slot as usize] = slot_for(left);
        push(&mut self.slots, slot_for(right));
        self.heap.exchange(entry(kind, left), comparisons);
        self.heap.put(entry(kind, right), comparisons);
    }

    /// Whether a cut of these nodes stops.
    pub fn is_done(&self, size: u32, permille: u32) -> bool
        requires small { IsSmall self.now.sums }
        requires permille { permille ≤ 1000 }
        ensures { result ≡ is_stop size permille (length self.now.entries) self.now.sums }
    {
        let NodeLight { est, bound } = self.sums;
        let permille = permille as u128;
        self.heap.len() == size as usize
            || (1000 * bound.r <= permille * est.r
                && 1000 * bound.g <= permille * est.g
                && 1000 * bound.b <= permille * est.b)
    }
}
