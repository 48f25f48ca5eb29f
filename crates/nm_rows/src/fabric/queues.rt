//! Worked calls on a queue.

ghost use Rattle.std.specs.Prelude.{◌≡◌, ◌+◌, ◌<◌, ◌^◌, IfSome, IfNone, None};
ghost use Rattle.nm_cells.specs.declared.cell.Queue.TheVariants.{Receive};
ghost use Rattle.nm_cells.specs.Ports.{Owns, Stays, HasCell, Awaits, IsUnpassed, MayJoin};
ghost use Rattle.nm_cells.specs.Ports.{holding, sent_by};

use crate::fabric::ends::{both, closed, parcel};
use nm_cells::{
    Cell, Fabric, Pending, Port, Queue, clear_link, put_in, store_head, store_link, swap_tail,
    take_out,
};
use nm_chain::seats::Steps;
use nm_chain::table::Parcel;
use nm_queue::{Miss, dequeue, enqueue};
use nm_types::{Memory, Packet, Shape};
use std::alloc::Global;
use std::marker::Brand;
use std::sync::ledger::{Blank, Ledger};
use std::test::Fail;

// A cell of the port's own with its next packet for a rank.
fn filled<L: Ledger>(
    f: &Fabric<Packet>,
    port: &mut Port<Packet>,
    to: u8,
    alloc: Global,
    steps: &mut Steps<L>,
) -> Option<Cell>
    requires owns { Owns f.now port.old × (to < f.now.ranks) }
    requires room { sent_by port.old to < 2 ^ 60 }
    ensures owns { Owns f.now port.new × (port.new.rank ≡ port.old.rank) }
    ensures held { port.new.held ≡ port.old.held }
    ensures some { IfSome result (λ c. HasCell f.now port.new c
        × MayJoin f.now port.new (Receive to) c.number (holding port.new c.number)
        × (port.new.hands ≡ port.old.hands + 1)) }
    ensures none { IfNone result (port.new.hands ≡ port.old.hands) }
{
    let own = port.rank();
    let next = parcel(alloc, own, port.sent(to))?;
    let cell = dequeue(f, port, Queue::Free(own), steps).ok()?;
    put_in(f, port, &cell, next);
    Some(cell)
}

// The first two steps of an enqueue.
fn half<L: Ledger>(
    f: &Fabric<Packet>,
    port: &mut Port<Packet>,
    q: Queue,
    cell: Cell,
    steps: &mut Steps<L>,
) -> Pending
    requires owns { Owns f.now port.old }
    requires in_hand { HasCell f.now port.old cell }
    requires may { MayJoin f.now port.old q cell.number (holding port.old cell.number) }
    ensures stays { Stays f.now port.old port.new }
    ensures pending { Awaits f.now port.new result }
    ensures hands { port.new.hands ≡ port.old.hands }
    ensures cost { steps.new ≡ steps.old + 2 }
{
    clear_link(f, port, &cell, steps);
    swap_tail(f, port, q, cell, steps)
}

// The last step, and whether it stored the head.
fn rest<L: Ledger>(
    f: &Fabric<Packet>,
    port: &mut Port<Packet>,
    pending: Pending,
    steps: &mut Steps<L>,
) -> bool
    requires owns { Owns f.now port.old }
    requires awaits { Awaits f.now port.old pending }
    ensures stays { Stays f.now port.old port.new }
    ensures hands { port.new.hands + 1 ≡ port.old.hands }
    ensures cost { steps.new ≡ steps.old + 1 }
{
    let first = pending.is_first();
    if first {
        store_head(f, port, pending, steps);
    } else {
        store_link(f, port, pending, steps);
    }
    first
}

// Passes a packet on where it is the next one of its sender.
fn pass_next(port: &mut Port<Packet>, parcel: &Parcel<Packet>) -> bool
    requires { IsUnpassed port.old parcel.now × (port.old.held ≡ None) }
    ensures { (port.new.seat ≡ port.old.seat) × (port.new.rank ≡ port.old.rank)
        × (port.new.hands ≡ port.old.hands) × (port.new.held ≡ None)
        × (port.new.loose ≡ port.old.loose) }
{
    if parcel.seq != port.taken(parcel.from) {
        return false;
    }
    port.pass(parcel);
    true
}

// Takes the next packet of the receive queue and sends its cell home. The answer is whether it came
// in order.
fn take_one<L: Ledger>(
    f: &Fabric<Packet>,
    port: &mut Port<Packet>,
    steps: &mut Steps<L>,
) -> Result<bool, Miss>
    requires owns { Owns f.now port.old × (port.old.held ≡ None) }
    ensures owns { Owns f.now port.new × (port.new.rank ≡ port.old.rank) × (port.new.held ≡ None) }
    ensures hands { port.new.hands ≡ port.old.hands }
{
    let own = port.rank();
    let cell = dequeue(f, port, Queue::Receive(own), steps)?;
    let parcel = take_out(f, port, &cell, None);
    let in_order = pass_next(port, &parcel);
    let owner = cell.owner();
    enqueue(f, port, Queue::Free(owner), cell, steps);
    Ok(in_order)
}

// Rank 0 sends a packet, between whose steps rank 1 tries to take one.
fn slow_send<L: Ledger>(
    f: &Fabric<Packet>,
    a: &mut Port<Packet>,
    b: &mut Port<Packet>,
    alloc: Global,
    steps: &mut Steps<L>,
) -> Option<(Result<bool, Miss>, bool)>
    requires first { Owns f.now a.old × (a.old.rank ≡ 0) × (a.old.hands ≡ 0) × (1 < f.now.ranks) }
    requires second { Owns f.now b.old × (b.old.rank ≡ 1) × (b.old.hands ≡ 0)
        × (b.old.held ≡ None) }
    ensures first { Owns f.now a.new × (a.new.rank ≡ 0) × (a.new.hands ≡ 0) }
    ensures second { Owns f.now b.new × (b.new.rank ≡ 1) × (b.new.hands ≡ 0) × (b.new.held ≡ None) }
{
    if !a.has_room(1) {
        return None;
    }
    let cell = filled(f, a, 1, alloc, steps)?;
    let pending = half(f, a, Queue::Receive(1), cell, steps);
    let tried = take_one(f, b, steps);
    let first = rest(f, a, pending, steps);
    Some((tried, first))
}

// What rank 1 finds before and while rank 0 sends two packets, and after it, and what it counts of
// it.
fn calls<L: Ledger>(
    f: &Fabric<Packet>,
    a: &mut Port<Packet>,
    b: &mut Port<Packet>,
    alloc: Global,
    blank: Blank,
) -> Option<([Result<bool, Miss>; 5], [bool; 2], [u64; 3])>
    requires blank { (blank.name ≡ L.name) × (blank.parts ≡ L.parts) × (0 < L.parts) }
    requires first { Owns f.now a.old × (a.old.rank ≡ 0) × (a.old.hands ≡ 0) × (1 < f.now.ranks) }
    requires second { Owns f.now b.old × (b.old.rank ≡ 1) × (b.old.hands ≡ 0)
        × (b.old.held ≡ None) }
    ensures first { Owns f.now a.new × (a.new.rank ≡ 0) × (a.new.hands ≡ 0) }
    ensures second { Owns f.now b.new × (b.new.rank ≡ 1) × (b.new.hands ≡ 0) × (b.new.held ≡ None) }
{
    let mut steps = Steps::<L>::new(blank);
    let before = take_one(f, b, &mut steps);
    let once = b.head_empty(Queue::Receive(1));
    let (during, head) = slow_send(f, a, b, alloc, &mut steps)?;
    let twice = b.head_empty(Queue::Receive(1));
    let (between, link) = slow_send(f, a, b, alloc, &mut steps)?;
    let missing = b.link_missing(Queue::Receive(1));
    let one = take_one(f, b, &mut steps);
    let two = take_one(f, b, &mut steps);
    let tries = [before, during, between, one, two];
    Some((tries, [head, !link], [once, twice, missing]))
}

// A loose cell of the port's with its next packet for a rank.
fn filled_loose(f: &Fabric<Packet>, port: &mut Port<Packet>, to: u8, alloc: Global) -> Option<Cell>
    requires owns { Owns f.now port.old × (to < f.now.ranks) }
    requires room { sent_by port.old to < 2 ^ 60 }
    ensures owns { Owns f.now port.new × (port.new.rank ≡ port.old.rank) }
    ensures hands { port.new.hands ≡ port.old.hands }
    ensures some { IfSome result (λ c. HasCell f.now port.new c
        × MayJoin f.now port.new (Receive to) c.number (holding port.new c.number)) }
{
    let own = port.rank();
    let next = parcel(alloc, own, port.sent(to))?;
    let cell = port.loose()?;
    put_in(f, port, &cell, next);
    Some(cell)
}

// Sends a packet in a loose cell, but for the last step.
fn half_loose<L: Ledger>(
    f: &Fabric<Packet>,
    port: &mut Port<Packet>,
    to: u8,
    alloc: Global,
    steps: &mut Steps<L>,
) -> Option<Pending>
    requires owns { Owns f.now port.old × (to < f.now.ranks) }
    requires room { sent_by port.old to < 2 ^ 60 }
    ensures owns { Owns f.now port.new × (port.new.rank ≡ port.old.rank) }
    ensures hands { port.new.hands ≡ port.old.hands }
    ensures some { IfSome result (λ e. Awaits f.now port.new e × (steps.new ≡ steps.old + 2)) }
{
    let cell = filled_loose(f, port, to, alloc)?;
    Some(half(f, port, Queue::Receive(to), cell, steps))
}

// Sends a packet in a loose cell, and answers whether the queue was empty.
fn send_loose<L: Ledger>(
    f: &Fabric<Packet>,
    port: &mut Port<Packet>,
    to: u8,
    alloc: Global,
    steps: &mut Steps<L>,
) -> Option<bool>
    requires owns { Owns f.now port.old × (to < f.now.ranks) }
    requires room { sent_by port.old to < 2 ^ 60 }
    ensures owns { Owns f.now port.new }
    ensures some { IfSome result (λ _. steps.new ≡ steps.old + 3) }
{
    let pending = half_loose(f, port, to, alloc, steps)?;
    Some(rest(f, port, pending, steps))
}

// What was seen of two packets to one queue.
#[derive(Clone, Copy)]
struct Seen {
    // Whether the queue was empty, for each of the two.
    firsts: [bool; 2],
    // What rank 0 had in hand, and had sent to rank 1, before its last step, and what it had after
    // it.
    hands: u32,
    sent: u64,
    hands_after: u32,
}

// Rank 0 sends a loose cell to rank 1, which sends one to itself before the last step.
fn race<L: Ledger, M: Ledger>(
    f: &Fabric<Packet>,
    a: &mut Port<Packet>,
    b: &mut Port<Packet>,
    alloc: Global,
    a_steps: &mut Steps<L>,
    b_steps: &mut Steps<M>,
) -> Option<Seen>
    requires first { Owns f.now a.old × (1 < f.now.ranks) }
    requires second { Owns f.now b.old }
    ensures steps { IfSome result (λ _. (a_steps.new ≡ a_steps.old + 3)
        × (b_steps.new ≡ b_steps.old + 3)) }
{
    if !a.has_room(1) || !b.has_room(1) {
        return None;
    }
    let pending = half_loose(f, a, 1, alloc, a_steps)?;
    let hands = a.hands();
    let sent = a.sent(1);
    let second = send_loose(f, b, 1, alloc, b_steps);
    let first = rest(f, a, pending, a_steps);
    Some(Seen {
        firsts: [first, second?],
        hands,
        sent,
        hands_after: a.hands(),
    })
}

// The same with counters of its own.
fn counted_race<L: Ledger, M: Ledger>(
    f: &Fabric<Packet>,
    a: &mut Port<Packet>,
    b: &mut Port<Packet>,
    alloc: Global,
    a_blank: Blank,
    b_blank: Blank,
) -> Option<Seen>
    requires blank { (a_blank.name ≡ L.name) × (a_blank.parts ≡ L.parts) × (0 < L.parts) }
    requires other { (b_blank.name ≡ M.name) × (b_blank.parts ≡ M.parts) × (0 < M.parts) }
    requires first { Owns f.now a.old × (1 < f.now.ranks) }
    requires second { Owns f.now b.old }
{
    let mut a_steps = Steps::<L>::new(a_blank);
    let mut b_steps = Steps::<M>::new(b_blank);
    race(f, a, b, alloc, &mut a_steps, &mut b_steps)
}

// What rank 0 of two new ranks had in hand before the race, and what was seen of it.
fn race_anew(alloc: Global) -> Result<(u32, Option<Seen>), Memory> {
    let shape = Shape::new(2, 2, 0).unwrap();
    let (fabric, ports) = Fabric::<Packet>::build_loose(alloc, shape)?;
    let (mut a, mut b) = both(&fabric, ports, true);
    let hands = a.hands();
    let seen = counted_race::<Brand, Brand>(
        &fabric,
        &mut a,
        &mut b,
        alloc,
        Blank::new(1),
        Blank::new(1),
    );
    Ok((hands, seen))
}

#[test]
fn loose_cells_are_sent(rt: HostRuntime) -> Result<(), Fail> {
    let (hands, race) = race_anew(rt.alloc())?;
    let Some(seen) = race else {
        return Err(Fail::new("no cell"));
    };
    assert_eq!(rt; seen.firsts, [true, false]);
    assert_eq!(rt; [hands, seen.hands, seen.hands_after], [2, 2, 1]);
    assert_eq!(rt; seen.sent, 1);
    Ok(())
}

#[test]
fn misses_have_their_causes(rt: HostRuntime) -> Result<(), Fail> {
    let shape = Shape::new(2, 8, 0).unwrap();
    let (fabric, ports) = Fabric::<Packet>::build(rt.alloc(), shape)?;
    let (mut a, mut b) = both(&fabric, ports, false);
    let seen = calls::<Brand>(&fabric, &mut a, &mut b, rt.alloc(), Blank::new(1));
    let empty = b.head_empty(Queue::Receive(1));
    let missing = b.link_missing(Queue::Receive(1));
    let account = closed(rt.alloc(), fabric, a, b)?.account();
    let (tries, firsts, counts) = seen.unwrap_or(([Ok(false); 5], [false; 2], [0; 3]));
    assert!(rt;
        matches!(
            tries,
            [
                Err(Miss::HeadEmpty),
                Err(Miss::HeadEmpty),
                Err(Miss::LinkMissing),
                Ok(true),
                Ok(true),
            ]
        )
    );
    assert_eq!(rt;
        (firsts, counts, [empty, missing]),
        ([true, true], [1, 2, 1], [2, 1])
    );
    assert_eq!(rt; (account.total, account.home), (16, 16));
    Ok(())
}
