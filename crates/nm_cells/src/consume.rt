//! The calls of a consumer, each one step on its own receive queue or its own free queue.
//!
//! Each is written once over `B`, which is `true` for the receive queue, and called by the queue's
//! name.

ghost use Rattle.std.specs.Prelude.{true, false, ◌≡◌, ◌≢◌, ℕ, suc, ◌+◌, ◌-◌, ◌*◌, ◌/◌, ◌<◌, ◌≤◌};
ghost use Rattle.std.specs.Prelude.{◌^◌, ◌∷◌};
ghost use Rattle.std.specs.Prelude.{◌↔◌, IsTrue, IfSome, IfNone, length, vec_len, vec_capacity};
ghost use Rattle.nm_chain.specs.Plays.{queue, heads_of, with_heads, heads_at, with_missed};
ghost use Rattle.nm_chain.specs.Plays.{with_look, with_link_empty};
ghost use Rattle.nm_chain.specs.Looks.{IsLinkEmpty};
ghost use Rattle.nm_chain.specs.OwnQueues.{own};
ghost use Rattle.nm_cells.specs.Counted.{peer_in, counted_after};
ghost use Rattle.nm_chain.specs.Plays.{head_miss, link_miss};
ghost use Rattle.nm_cells.specs.Ports.{Owns, Stays, knows, holding, Takes, Leaves, look_of};
ghost use Rattle.nm_cells.specs.Ports.{IsOwn, own_of};
ghost use Rattle.nm_chain.specs.declared.table.table.Look.TheVariants.{LinkEmpty, TailElsewhere};

use crate::cell::{Cell, Queue};
use crate::port::{Fabric, Port};
use crate::slots::carry;
use crate::tallies::{Tally, count_arrived};
use nm_chain::seats::Steps;
use nm_chain::table::{
    ClearsHead, Drains, Heads, Item, LoadsHead, Passes, Reloads, head_word, link_word, tail_word,
};
use std::sync::ledger::Ledger;

fn own_queue<I: Item, const B: bool>(f: &Fabric<I>, port: &Port<I>) -> u64
    requires { port.now.rank < f.now.ranks }
    ensures own { result ≡ queue f.now.ranks port.now.rank (own B) }
    ensures fits { result < 2 * f.now.ranks }
{
    let rank = u64::from(port.rank);
    if B { rank } else { f.ranks + rank }
}

impl<I: Item> Port<I> {
    fn heads<const B: bool>(&self) -> Heads
        ensures { result ≡ heads_of (own B) (knows self.now) }
    {
        if B { self.receive } else { self.free }
    }
}

fn load_head_of<L: Ledger, I: Item, const B: bool>(
    f: &Fabric<I>,
    port: &mut Port<I>,
    steps: &mut Steps<L>,
) -> bool
    requires owns { Owns f.now port.old }
    requires no_shadow { (heads_of (own B) (knows port.old)).shadow ≡ 0 }
    ensures stays { Stays f.now port.old port.new }
    ensures told { IsTrue result ↔ (0 < (heads_of (own B) (knows port.new)).seen) }
    ensures found { result ≡ true → knows port.new ≡ with_heads (own B)
        (heads_at 0 (heads_of (own B) (knows port.new)).seen)
        (knows port.old) }
    ensures empty { result ≡ false → knows port.new ≡ with_missed (own B) head_miss
        (with_heads (own B) (heads_at 0 0) (knows port.old)) }
    ensures hands { (port.new.hands ≡ port.old.hands) × (holding port.new ≡ holding port.old) }
    ensures cost { steps.new ≡ steps.old + 1 }
{
    steps.tick();
    let word = head_word(own_queue::<I, B>(f, port));
    let found = f
        .board
        .shared
        .load::<LoadsHead<B>>(&mut port.seat, word as usize);
    if B {
        port.receive.seen = found;
        if found == 0 {
            port.receive_missed = port.receive_missed.after_head();
        }
    } else {
        port.free.seen = found;
        if found == 0 {
            port.free_missed = port.free_missed.after_head();
        }
    }
    found != 0
}

fn clear_head_of<L: Ledger, I: Item, const B: bool>(
    f: &Fabric<I>,
    port: &mut Port<I>,
    steps: &mut Steps<L>,
)
    requires owns { Owns f.now port.old }
    requires loaded { 0 < (heads_of (own B) (knows port.old)).seen }
    ensures stays { Stays f.now port.old port.new }
    ensures hidden { knows port.new
        ≡ with_heads (own B) (heads_at (heads_of (own B) (knows port.old)).seen 0) (knows port.old) }
    ensures hands { (port.new.hands ≡ port.old.hands) × (holding port.new ≡ holding port.old) }
    ensures cost { steps.new ≡ steps.old + 1 }
{
    steps.tick();
    let word = head_word(own_queue::<I, B>(f, port));
    let shadow = port.heads::<B>().seen;
    f.board
        .shared
        .store::<ClearsHead<B>>(&mut port.seat, word as usize, 0);
    if B {
        port.receive = Heads { shadow, seen: 0 };
    } else {
        port.free = Heads { shadow, seen: 0 };
    }
}

// A parcel came where the cell is of the receive queue.
fn count_taken<const B: bool>(peers: &mut Vec<Tally>, owner: usize)
    requires { B ≡ true → (owner < length peers.old.items)
        × ((peer_in peers.old.items owner).unpassed < 2 ^ 61) }
    ensures { peers.new.items ≡ counted_after (own B) owner peers.old.items }
{
    if B {
        count_arrived(peers, owner);
    }
}

// The first cell of a queue is in hand, and a parcel came where that is the receive queue. The
// cells of the free queue are the port's own.
#[inline(always)]
fn first_taken<const B: bool>(
    peers: &mut Vec<Tally>,
    carried: &mut Vec<u64>,
    hands: &mut u32,
    number: u64,
    each: u64,
    rank: u8,
) -> Cell
    requires count { B ≡ true → (number / each < length peers.old.items)
        × ((peer_in peers.old.items (number / each)).unpassed < 2 ^ 61) }
    requires room { vec_len carried.old < vec_capacity carried.old }
    requires few { hands.old + 1 ≤ 4294967295 }
    requires own { B ≡ false → number / each ≡ rank }
    requires low { (0 < each) × (number / each < 256) }
    ensures peers { peers.new.items ≡ counted_after (own B) (number / each) peers.old.items }
    ensures items { carried.new.items ≡ number ∷ carried.old.items }
    ensures capacity { vec_capacity carried.old ≤ vec_capacity carried.new }
    ensures hands { hands.new ≡ hands.old + 1 }
    ensures cell { (result.number ≡ number) × (result.owner ≡ number / each) }
{
    let owner = if B { number / each } else { u64::from(rank) };
    count_taken::<B>(peers, owner as usize);
    carry(carried, number);
    *hands += 1;
    Cell { number, owner }
}

fn load_link_of<L: Ledger, I: Item, const B: bool>(
    f: &Fabric<I>,
    port: &mut Port<I>,
    steps: &mut Steps<L>,
) -> Option<Cell>
    requires owns { Owns f.now port.old }
    requires first { 0 < (heads_of (own B) (knows port.old)).shadow }
    ensures owns { Owns f.now port.new × (port.new.rank ≡ port.old.rank) }
    ensures none { IfNone result ((knows port.new ≡ with_link_empty (own B) (knows port.old))
        × Leaves port.old port.new) }
    ensures some { IfSome result (Takes (own B) f.now port.old port.new) }
    ensures next { IfSome result (λ _. 0 < (heads_of (own B) (knows port.new)).shadow) }
    ensures cost { steps.new ≡ steps.old + 1 }
{
    steps.tick();
    let number = port.heads::<B>().shadow - 1;
    let word = link_word(f.ranks, number);
    let found = f
        .board
        .shared
        .load::<Passes<B>>(&mut port.seat, word as usize);
    if found == 0 {
        return None;
    }
    let heads = Heads {
        shadow: found,
        seen: 0,
    };
    if B {
        port.receive = heads;
    } else {
        port.free = heads;
    }
    Some(first_taken::<B>(
        &mut port.peers,
        &mut port.carried,
        &mut port.hands,
        number,
        f.each,
        port.rank,
    ))
}

fn reload_link_of<L: Ledger, I: Item, const B: bool>(
    f: &Fabric<I>,
    port: &mut Port<I>,
    steps: &mut Steps<L>,
) -> Option<Cell>
    requires owns { Owns f.now port.old }
    requires first { 0 < (heads_of (own B) (knows port.old)).shadow }
    requires look { look_of (own B) port.old ≡ TailElsewhere }
    ensures owns { Owns f.now port.new × (port.new.rank ≡ port.old.rank) }
    ensures none { IfNone result ((knows port.new
        ≡ with_look (own B) (LinkEmpty 0) (with_missed (own B) link_miss (knows port.old)))
        × Leaves port.old port.new) }
    ensures some { IfSome result (Takes (own B) f.now port.old port.new) }
    ensures next { IfSome result (λ _. 0 < (heads_of (own B) (knows port.new)).shadow) }
    ensures cost { steps.new ≡ steps.old + 1 }
{
    steps.tick();
    let number = port.heads::<B>().shadow - 1;
    let word = link_word(f.ranks, number);
    let found = f
        .board
        .shared
        .load::<Reloads<B>>(&mut port.seat, word as usize);
    if found == 0 {
        if B {
            port.receive_missed = port.receive_missed.after_link();
        } else {
            port.free_missed = port.free_missed.after_link();
        }
        return None;
    }
    let heads = Heads {
        shadow: found,
        seen: 0,
    };
    if B {
        port.receive = heads;
    } else {
        port.free = heads;
    }
    Some(first_taken::<B>(
        &mut port.peers,
        &mut port.carried,
        &mut port.hands,
        number,
        f.each,
        port.rank,
    ))
}

fn drop_tail_of<L: Ledger, I: Item, const B: bool>(
    f: &Fabric<I>,
    port: &mut Port<I>,
    steps: &mut Steps<L>,
) -> Option<Cell>
    requires owns { Owns f.now port.old }
    requires first { 0 < (heads_of (own B) (knows port.old)).shadow }
    requires look { IsLinkEmpty (look_of (own B) port.old) }
    ensures owns { Owns f.now port.new × (port.new.rank ≡ port.old.rank) }
    ensures none { IfNone result ((knows port.new ≡ with_look (own B) TailElsewhere (knows port.old))
        × Leaves port.old port.new) }
    ensures some { IfSome result (Takes (own B) f.now port.old port.new) }
    ensures next { IfSome result (λ _. (heads_of (own B) (knows port.new)).shadow ≡ 0) }
    ensures cost { steps.new ≡ steps.old + 1 }
{
    steps.tick();
    let shadow = port.heads::<B>().shadow;
    let number = shadow - 1;
    let word = tail_word(f.ranks, own_queue::<I, B>(f, port));
    let found = f
        .board
        .shared
        .compare_exchange::<Drains<B>>(&mut port.seat, word as usize, shadow, 0);
    if found != shadow {
        return None;
    }
    let heads = Heads { shadow: 0, seen: 0 };
    if B {
        port.receive = heads;
    } else {
        port.free = heads;
    }
    Some(first_taken::<B>(
        &mut port.peers,
        &mut port.carried,
        &mut port.hands,
        number,
        f.each,
        port.rank,
    ))
}

/// Loads the head of an own queue, and answers whether it was a cell.
///
/// Zero is a miss, which `head_empty` counts. A queue whose head is 0 may still have a cell, whose
/// enqueue is pending.
pub fn load_head<L: Ledger, I: Item>(
    f: &Fabric<I>,
    port: &mut Port<I>,
    q: Queue,
    steps: &mut Steps<L>,
) -> bool
    requires owns { Owns f.now port.old }
    requires own { IsOwn port.old q }
    requires no_shadow { (heads_of (own_of q) (knows port.old)).shadow ≡ 0 }
    ensures stays { Stays f.now port.old port.new }
    ensures found { result ≡ true → knows port.new ≡ with_heads (own_of q)
        (heads_at 0 (heads_of (own_of q) (knows port.new)).seen) (knows port.old)
        × (0 < (heads_of (own_of q) (knows port.new)).seen) }
    ensures empty { result ≡ false → knows port.new ≡ with_missed (own_of q) head_miss
        (with_heads (own_of q) (heads_at 0 0) (knows port.old)) }
    ensures hands { (port.new.hands ≡ port.old.hands) × (holding port.new ≡ holding port.old) }
    ensures cost { steps.new ≡ steps.old + 1 }
{
    match q {
        Queue::Receive(_) => load_head_of::<L, I, true>(f, port, steps),
        Queue::Free(_) => load_head_of::<L, I, false>(f, port, steps),
    }
}

/// Clears the head that was loaded. Its cell is the shadow head from then on.
pub fn clear_head<L: Ledger, I: Item>(
    f: &Fabric<I>,
    port: &mut Port<I>,
    q: Queue,
    steps: &mut Steps<L>,
)
    requires owns { Owns f.now port.old }
    requires own { IsOwn port.old q }
    requires loaded { 0 < (heads_of (own_of q) (knows port.old)).seen }
    ensures stays { Stays f.now port.old port.new }
    ensures hidden { knows port.new ≡ with_heads (own_of q)
        (heads_at (heads_of (own_of q) (knows port.old)).seen 0) (knows port.old) }
    ensures hands { (port.new.hands ≡ port.old.hands) × (holding port.new ≡ holding port.old) }
    ensures cost { steps.new ≡ steps.old + 1 }
{
    match q {
        Queue::Receive(_) => clear_head_of::<L, I, true>(f, port, steps),
        Queue::Free(_) => clear_head_of::<L, I, false>(f, port, steps),
    }
}

/// Loads the link of the shadow head. Where it has a cell, that one is the next shadow head, and
/// the first cell is taken.
#[inline(always)]
pub fn load_link<L: Ledger, I: Item>(
    f: &Fabric<I>,
    port: &mut Port<I>,
    q: Queue,
    steps: &mut Steps<L>,
) -> Option<Cell>
    requires owns { Owns f.now port.old }
    requires own { IsOwn port.old q }
    requires first { 0 < (heads_of (own_of q) (knows port.old)).shadow }
    ensures owns { Owns f.now port.new × (port.new.rank ≡ port.old.rank) }
    ensures none { IfNone result ((knows port.new
        ≡ with_link_empty (own_of q) (knows port.old))
        × Leaves port.old port.new) }
    ensures some { IfSome result (Takes (own_of q) f.now port.old port.new) }
    ensures next { IfSome result (λ _. 0 < (heads_of (own_of q) (knows port.new)).shadow) }
    ensures cost { steps.new ≡ steps.old + 1 }
{
    match q {
        Queue::Receive(_) => load_link_of::<L, I, true>(f, port, steps),
        Queue::Free(_) => load_link_of::<L, I, false>(f, port, steps),
    }
}

/// Exchanges the tail for 0 where it is the shadow head, which is then taken and was the last cell.
///
/// Else another enqueue has exchanged the tail.
pub fn drop_tail<L: Ledger, I: Item>(
    f: &Fabric<I>,
    port: &mut Port<I>,
    q: Queue,
    steps: &mut Steps<L>,
) -> Option<Cell>
    requires owns { Owns f.now port.old }
    requires own { IsOwn port.old q }
    requires first { 0 < (heads_of (own_of q) (knows port.old)).shadow }
    requires look { IsLinkEmpty (look_of (own_of q) port.old) }
    ensures owns { Owns f.now port.new × (port.new.rank ≡ port.old.rank) }
    ensures none { IfNone result ((knows port.new
        ≡ with_look (own_of q) TailElsewhere (knows port.old))
        × Leaves port.old port.new) }
    ensures some { IfSome result (Takes (own_of q) f.now port.old port.new) }
    ensures next { IfSome result (λ _. (heads_of (own_of q) (knows port.new)).shadow ≡ 0) }
    ensures cost { steps.new ≡ steps.old + 1 }
{
    match q {
        Queue::Receive(_) => drop_tail_of::<L, I, true>(f, port, steps),
        Queue::Free(_) => drop_tail_of::<L, I, false>(f, port, steps),
    }
}

/// Loads the link of the shadow head once more, after the tail was found to be another cell.
///
/// Zero is a miss, which `link_missing` counts: that enqueue has still to store the link.
#[inline(always)]
pub fn reload_link<L: Ledger, I: Item>(
    f: &Fabric<I>,
    port: &mut Port<I>,
    q: Queue,
    steps: &mut Steps<L>,
) -> Option<Cell>
    requires owns { Owns f.now port.old }
    requires own { IsOwn port.old q }
    requires first { 0 < (heads_of (own_of q) (knows port.old)).shadow }
    requires look { look_of (own_of q) port.old ≡ TailElsewhere }
    ensures owns { Owns f.now port.new × (port.new.rank ≡ port.old.rank) }
    ensures none { IfNone result ((knows port.new
        ≡ with_look (own_of q) (LinkEmpty 0) (with_missed (own_of q) link_miss
        (knows port.old)))
        × Leaves port.old port.new) }
    ensures some { IfSome result (Takes (own_of q) f.now port.old port.new) }
    ensures next { IfSome result (λ _. 0 < (heads_of (own_of q) (knows port.new)).shadow) }
    ensures cost { steps.new ≡ steps.old + 1 }
{
    match q {
        Queue::Receive(_) => reload_link_of::<L, I, true>(f, port, steps),
        Queue::Free(_) => reload_link_of::<L, I, false>(f, port, steps),
    }
}
