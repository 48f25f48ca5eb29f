//! Worked calls on two ports whose packets race by box and by cell.

ghost use Rattle.std.specs.Prelude.{◌≡◌, ◌+◌, ◌<◌, ◌≤◌, None};
ghost use Rattle.nm_cells.specs.Ports.{Owns, unpassed_by};
ghost use Rattle.nm_port.specs.Polls.{HoldsTheRest};

use crate::fabric::ends::{both, bytes_of, closed, parcel};
use nm_cells::{Fabric, Port, Queue, take_out};
use nm_chain::seats::Steps;
use nm_port::{poll, send};
use nm_queue::{dequeue, enqueue};
use nm_types::{Account, Memory, Packet, Path, Shape};
use std::alloc::Global;
use std::marker::Brand;
use std::sync::ledger::{Blank, Ledger};
use std::test::Fail;

// The way of rank 0's next packet for rank 1, or `None` where it was not sent.
fn send_next<L: Ledger>(
    f: &Fabric<Packet>,
    port: &mut Port<Packet>,
    alloc: Global,
    steps: &mut Steps<L>,
) -> Option<Path>
    requires { Owns f.now port.old × (port.old.rank ≡ 0) × (port.old.hands ≡ 0)
        × (1 < f.now.ranks) }
    ensures port { Owns f.now port.new × (port.new.rank ≡ 0) × (port.new.hands ≡ 0) }
    ensures bound { steps.new ≤ steps.old + 9 }
{
    if !port.has_room(1) {
        return None;
    }
    let next = parcel(alloc, 0, port.sent(1))?;
    match send(f, port, 1, next, steps) {
        Ok(sent) => Some(sent.path),
        Err(_) => None,
    }
}

// The number of the packet that rank 1 polls, where it has its bytes.
fn poll_next<L: Ledger>(
    f: &Fabric<Packet>,
    port: &mut Port<Packet>,
    steps: &mut Steps<L>,
) -> Option<u64>
    requires two { f.now.ranks ≡ 2 }
    requires first { Owns f.now port.old × (port.old.rank ≡ 1) × (port.old.hands ≡ 0) }
    requires rest { HoldsTheRest port.old }
    ensures first { Owns f.now port.new × (port.new.rank ≡ 1) × (port.new.hands ≡ 0) }
    ensures rest { HoldsTheRest port.new }
    ensures bound { steps.new ≤ steps.old + 12 }
{
    let Ok(parcel) = poll(f, port, None, steps) else {
        return None;
    };
    if parcel.item.payload.as_slice() == bytes_of(parcel.seq).as_slice() {
        Some(parcel.seq)
    } else {
        Some(u64::MAX)
    }
}

// Rank 1 takes the first packet out of its receive queue and holds it. Its cell is sent home.
fn hold_first<L: Ledger>(
    f: &Fabric<Packet>,
    port: &mut Port<Packet>,
    steps: &mut Steps<L>,
) -> Option<u64>
    requires first { Owns f.now port.old × (port.old.rank ≡ 1) × (port.old.hands ≡ 0) }
    requires nothing { (unpassed_by port.old ≡ 0) × (port.old.held ≡ None) }
    ensures first { Owns f.now port.new × (port.new.rank ≡ 1) × (port.new.hands ≡ 0) }
    ensures rest { HoldsTheRest port.new }
{
    let cell = dequeue(f, port, Queue::Receive(1), steps).ok()?;
    let parcel = take_out(f, port, &cell, None);
    let owner = cell.owner();
    enqueue(f, port, Queue::Free(owner), cell, steps);
    let number = parcel.seq;
    port.hold(parcel);
    Some(number)
}

// The same where the rank is to hold one.
fn hold_where<L: Ledger>(
    f: &Fabric<Packet>,
    port: &mut Port<Packet>,
    holds: bool,
    steps: &mut Steps<L>,
) -> Option<u64>
    requires first { Owns f.now port.old × (port.old.rank ≡ 1) × (port.old.hands ≡ 0) }
    requires nothing { (unpassed_by port.old ≡ 0) × (port.old.held ≡ None) }
    ensures first { Owns f.now port.new × (port.new.rank ≡ 1) × (port.new.hands ≡ 0) }
    ensures rest { HoldsTheRest port.new }
{
    if !holds {
        return None;
    }
    hold_first(f, port, steps)
}

// The ways of so many packets of rank 0.
fn ways<L: Ledger>(
    f: &Fabric<Packet>,
    port: &mut Port<Packet>,
    alloc: Global,
    count: usize,
    blank: Blank,
) -> [Option<Path>; 6]
    requires blank { (blank.name ≡ L.name) × (blank.parts ≡ L.parts) × (0 < L.parts) }
    requires port { Owns f.now port.old × (port.old.rank ≡ 0) × (port.old.hands ≡ 0)
        × (1 < f.now.ranks) }
    requires count { count ≤ 6 }
    ensures { Owns f.now port.new × (port.new.rank ≡ 0) × (port.new.hands ≡ 0) }
{
    let mut steps = Steps::<L>::new(blank);
    let mut ways = [None; 6];
    for k in 0..count {
        ways[k] = send_next(f, port, alloc, &mut steps);
    }
    ways
}

// What rank 1 took.
#[derive(Clone, Copy)]
struct Taken {
    // The number of the packet that it holds first, where it does.
    held: Option<u64>,
    // The numbers that seven polls give.
    polled: [Option<u64>; 7],
}

// What rank 1 takes, where it holds the first packet of its queue, or none.
fn take_all<L: Ledger>(
    f: &Fabric<Packet>,
    port: &mut Port<Packet>,
    holds: bool,
    blank: Blank,
) -> Taken
    requires blank { (blank.name ≡ L.name) × (blank.parts ≡ L.parts) × (0 < L.parts) }
    requires two { f.now.ranks ≡ 2 }
    requires first { Owns f.now port.old × (port.old.rank ≡ 1) × (port.old.hands ≡ 0) }
    requires nothing { (unpassed_by port.old ≡ 0) × (port.old.held ≡ None) }
    ensures { Owns f.now port.new × (port.new.rank ≡ 1) × (port.new.hands ≡ 0) }
{
    let mut steps = Steps::<L>::new(blank);
    let held = hold_where(f, port, holds, &mut steps);
    let mut polled = [None; 7];
    for k in 0..7 {
        polled[k] = poll_next(f, port, &mut steps);
    }
    Taken { held, polled }
}

// What is seen of a row of calls, and where the cells are at its end.
#[derive(Clone, Copy)]
struct Seen {
    sent: [Option<Path>; 6],
    taken: Taken,
    again: Option<Path>,
    // How often a box was full, and the free queue empty, for what rank 0 sent first, and how many
    // packets it had sent then.
    counts: [u64; 3],
    // How often the boxes of the two ranks missed, and the receive queue was empty, for rank 1.
    misses: [u64; 3],
    cells: Account,
}

// Rank 0 of two sends so many packets, rank 1 takes them, and rank 0 sends so many more.
fn row(alloc: Global, cells: u8, count: usize, holds: bool, more: usize) -> Result<Seen, Memory>
    requires { (1 ≤ cells) × (cells ≤ 64) × (count ≤ 6) × (more ≤ 6) }
{
    let shape = Shape::new(2, cells, 0).unwrap();
    let (fabric, ports) = Fabric::<Packet>::build(alloc, shape)?;
    let (mut a, mut b) = both(&fabric, ports, false);
    let sent = ways::<Brand>(&fabric, &mut a, alloc, count, Blank::new(1));
    let counts = [a.box_full(1), a.head_empty(Queue::Free(0)), a.sent(1)];
    let taken = take_all::<Brand>(&fabric, &mut b, holds, Blank::new(1));
    let misses = [
        b.box_miss(0),
        b.box_miss(1),
        b.head_empty(Queue::Receive(1)),
    ];
    let again = ways::<Brand>(&fabric, &mut a, alloc, more, Blank::new(1))[0];
    let cells = closed(alloc, fabric, a, b)?.account();
    Ok(Seen {
        sent,
        taken,
        again,
        counts,
        misses,
        cells,
    })
}

const BOX: Option<Path> = Some(Path::Box);

const CELL: Option<Path> = Some(Path::Cell);

#[test]
fn a_cell_ahead_of_the_boxes_waits_for_them(rt: HostRuntime) -> Result<(), Fail> {
    let row = row(rt.alloc(), 8, 5, true, 0)?;
    let polled = [Some(0), Some(1), Some(2), Some(3), Some(4), None, None];
    assert_eq!(rt; row.sent, [BOX, BOX, BOX, BOX, CELL, None]);
    assert_eq!(rt; (row.taken.held, row.taken.polled), (Some(4), polled));
    assert_eq!(rt; (row.counts, row.misses), ([1, 0, 5], [2, 2, 2]));
    assert_eq!(rt; (row.cells.total, row.cells.home), (16, 16));
    Ok(())
}

#[test]
fn a_starved_port_gets_its_packet_back(rt: HostRuntime) -> Result<(), Fail> {
    let row = row(rt.alloc(), 1, 6, false, 1)?;
    let polled = [Some(0), Some(1), Some(2), Some(3), Some(4), None, None];
    assert_eq!(rt; row.sent, [BOX, BOX, BOX, BOX, CELL, None]);
    assert_eq!(rt; (row.taken.held, row.taken.polled), (None, polled));
    assert_eq!(rt; (row.counts, row.again), ([2, 1, 5], BOX));
    assert_eq!(rt; (row.cells.total, row.cells.home), (2, 2));
    Ok(())
}

#[test]
fn a_long_hold_ends_in_order(rt: HostRuntime) -> Result<(), Fail> {
    let row = row(rt.alloc(), 8, 6, true, 0)?;
    let polled = [Some(0), Some(1), Some(2), Some(3), Some(4), Some(5), None];
    assert_eq!(rt; row.sent, [BOX, BOX, BOX, BOX, CELL, CELL]);
    assert_eq!(rt; (row.taken.held, row.taken.polled), (Some(4), polled));
    assert_eq!(rt; (row.cells.total, row.cells.home), (16, 16));
    Ok(())
}
