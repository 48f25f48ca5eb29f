//! A fabric at the start.

ghost use Rattle.std.specs.Prelude.{◌≡◌, ℕ, suc, ◌+◌, ◌-◌, ◌*◌, ◌/◌, ◌<◌, ◌≤◌, [], IfOk, Some};
ghost use Rattle.std.specs.Prelude.{None};
ghost use Rattle.std.specs.Prelude.{length, slice_get, replicate};
ghost use Rattle.nm_cells.specs.declared.port.Port.{Port};
ghost use Rattle.nm_chain.specs.Spoken.{view};
ghost use Rattle.nm_chain.specs.declared.table.table.Hand.TheVariants.{Away, Loose};
ghost use Rattle.nm_chain.specs.Rule.{beginners, hand};
ghost use Rattle.nm_chain.specs.Plays.{with_hand, with_put};
ghost use Rattle.nm_cells.specs.Ports.{Owns, Stays, HasCell, knows, holding, cells_of};
ghost use Rattle.nm_cells.specs.Ports.{IsFresh, IsNew, IsNewLoose, Begins};
ghost use Rattle.nm_cells.specs.Counted.{new_tally};

use crate::cell::{Cell, Queue};
use crate::loose::{LooseCells, pick_up};
use crate::port::{Fabric, Port};
use crate::produce::{clear_link, store_head, store_link, swap_tail};
use crate::tallies::Tally;
use nm_chain::seats::{GivesFirst, Steps};
use nm_chain::table::{Board, BoardSeat, Heads, Item, Misses, Slot};
use nm_types::{Memory, Shape};
use std::alloc::Global;
use std::marker::Brand;
use std::sync::ledger::{Blank, Ledger};

// Room for so many counts more, which no port uses: two ports count at the same time, and it keeps what one counts
// out of the lines of memory of the other.
const APART: usize = 2;

// What is counted of each rank at the start: nothing was sent and nothing came.
fn new_peers(alloc: Global, ranks: u64) -> Result<Vec<Tally>, Memory>
    requires { ranks ≤ 64 }
    ensures { IfOk result (λ v. v.items ≡ replicate ranks new_tally) }
{
    let none = Tally {
        sent: 0,
        taken: 0,
        box_put: 0,
        box_got: 0,
        filling: false,
        emptying: false,
        unpassed: 0,
        box_full: 0,
        box_miss: 0,
    };
    let mut peers = vec![in alloc; none; ranks as usize]?;
    peers.reserve_exact(APART)?;
    Ok(peers)
}

// The port of the lowest rank that `rest` speaks for. No cell's slot is taken yet.
fn port_of<I: Item>(
    alloc: Global,
    f: &Fabric<I>,
    rest: &mut BoardSeat<I>,
    rank: u8,
) -> Result<Port<I>, Memory>
    requires table { (rest.old.table_id ≡ f.now.board.shared.table_id) × (rank < f.now.ranks) }
    requires lowest { rest.old.me
        ≡ (view (beginners f.now.ranks f.now.each rank (suc (f.now.ranks - suc rank))), []) }
    ensures port { IfOk result (λ p. IsFresh f.now p rank × (p.hands ≡ f.now.each)
        × (p.loose.first ≡ rank * f.now.each) × (p.loose.end ≡ rank * f.now.each)) }
    ensures untouched { IfOk result (λ p. (c : ℕ) → c < cells_of f.now → c / f.now.each ≡ rank
        → hand (knows p) c ≡ Loose) }
    ensures rest { IfOk result (λ _. (rest.new.table_id ≡ rest.old.table_id) × (rest.new.me
        ≡ (view (beginners f.now.ranks f.now.each (suc rank) (f.now.ranks - suc rank)), []))) }
{
    let room = f.ranks * f.each + 2 * f.ranks;
    let carried = Vec::with_capacity(alloc, room as usize)?;
    let peers = new_peers(alloc, f.ranks)?;
    let seat = f.board.shared.split_seat::<GivesFirst>(rest);
    let first = u64::from(rank) * f.each;
    Ok(Port {
        seat,
        rank,
        receive: Heads { shadow: 0, seen: 0 },
        free: Heads { shadow: 0, seen: 0 },
        receive_missed: Misses::new(),
        free_missed: Misses::new(),
        carried,
        hands: f.each as u32,
        peers,
        held: Slot::empty(),
        loose: LooseCells { first, end: first },
    })
}

// Takes the slots of all own cells, which are loose from then on.
fn loosen<I: Item>(f: &Fabric<I>, port: &mut Port<I>)
    requires fresh { IsFresh f.now port.old port.old.rank × (port.old.hands ≡ f.now.each) }
    requires first { (port.old.loose.first ≡ port.old.rank * f.now.each)
        × (port.old.loose.end ≡ port.old.rank * f.now.each) }
    requires untouched { (c : ℕ) → c < cells_of f.now → c / f.now.each ≡ port.old.rank
        → hand (knows port.old) c ≡ Loose }
    ensures { IsNewLoose f.now port.new port.old.rank }
{
    for _cell in 0..f.each {
        pick_up(f, port);
    }
}

// Puts an empty cell of the port's own into its free queue.
fn put_home<L: Ledger, I: Item>(f: &Fabric<I>, port: &mut Port<I>, cell: Cell, blank: Blank)
    requires blank { (blank.name ≡ L.name) × (blank.parts ≡ L.parts) × (0 < L.parts) }
    requires owns { Owns f.now port.old }
    requires in_hand { HasCell f.now port.old cell }
    requires own { cell.number / f.now.each ≡ port.old.rank }
    requires vacant { holding port.old cell.number ≡ None }
    ensures stays { Stays f.now port.old port.new }
    ensures put { knows port.new ≡ with_put [] (with_hand cell.number Away (knows port.old)) }
    ensures hands { port.new.hands + 1 ≡ port.old.hands }
{
    let mut steps = Steps::<L>::new(blank);
    let own = Queue::Free(port.rank);
    clear_link(f, port, &cell, &mut steps);
    let pending = swap_tail(f, port, own, cell, &mut steps);
    if pending.is_first() {
        store_head(f, port, pending, &mut steps);
    } else {
        store_link(f, port, pending, &mut steps);
    }
}

// Puts all loose cells into the port's free queue.
fn fill_free_queue<I: Item>(f: &Fabric<I>, port: &mut Port<I>)
    requires { IsNewLoose f.now port.old port.old.rank }
    ensures { IsNew f.now port.new port.old.rank }
{
    while let Some(cell) = port.loose() {
        put_home::<Brand, I>(f, port, cell, Blank::new(1));
    }
}

// Takes the slots of all own cells, and puts these into the free queue unless they are to be loose.
fn begin<I: Item>(f: &Fabric<I>, port: &mut Port<I>, loose: bool)
    requires fresh { IsFresh f.now port.old port.old.rank × (port.old.hands ≡ f.now.each) }
    requires first { (port.old.loose.first ≡ port.old.rank * f.now.each)
        × (port.old.loose.end ≡ port.old.rank * f.now.each) }
    requires untouched { (c : ℕ) → c < cells_of f.now → c / f.now.each ≡ port.old.rank
        → hand (knows port.old) c ≡ Loose }
    ensures { Begins loose f.now port.new port.old.rank }
{
    loosen(f, port);
    if !loose {
        fill_free_queue(f, port);
    }
}

// The words, all 0.
fn first_words(alloc: Global, ranks: u64, each: u64) -> Result<Vec<u64>, Memory>
    requires { (ranks ≤ 64) × (0 < each) × (each ≤ 64) }
    ensures { IfOk result
        (λ v. v.items ≡ replicate (4 * ranks + ranks * each + 4 * (ranks * ranks)) 0) }
{
    let count = 4 * ranks + ranks * each + 4 * (ranks * ranks);
    Ok(vec![in alloc; 0; count as usize]?)
}

// So many slots, all empty.
fn empty_slots<I: Item>(alloc: Global, count: u64) -> Result<Vec<Slot<I>>, Memory>
    ensures { IfOk result (λ v. v.items ≡ replicate count None) }
{
    let mut slots = Vec::with_capacity(alloc, count as usize)?;
    for _i in 0..count {
        slots.push(Slot::empty())?;
    }
    Ok(slots)
}

// The fabric, and the seat that speaks for all ranks.
fn whole<I: Item>(alloc: Global, shape: &Shape) -> Result<(Fabric<I>, BoardSeat<I>), Memory>
    ensures { IfOk result (λ t. (t.0.ranks ≡ shape.now.ranks) × (t.0.each ≡ shape.now.cells)
        × (t.1.table_id ≡ t.0.board.shared.table_id) × (t.1.me
        ≡ (view (beginners shape.now.ranks shape.now.cells 0 shape.now.ranks), []))) }
{
    let ranks = u64::from(shape.ranks());
    let each = u64::from(shape.cells());
    let words = first_words(alloc, ranks, each)?;
    let slots = ranks * each + 4 * (ranks * ranks);
    let counted = Vec::with_capacity(alloc, ranks as usize)?;
    let empty = empty_slots(alloc, slots)?;
    let Ok((board, rest)) = Board::<I>::new(alloc, words.as_slice(), empty, shape) else {
        return Err(Memory);
    };
    let fabric = Fabric {
        board,
        ranks,
        each,
        counted,
    };
    Ok((fabric, rest))
}

// The ports of all ranks, whose cells are loose, or else in their free queues.
fn ports_of<I: Item>(
    alloc: Global,
    f: &Fabric<I>,
    mut rest: BoardSeat<I>,
    loose: bool,
) -> Result<Vec<Port<I>>, Memory>
    requires { (rest.table_id ≡ f.now.board.shared.table_id) × (rest.me
        ≡ (view (beginners f.now.ranks f.now.each 0 f.now.ranks), [])) }
    ensures count { IfOk result (λ v. length v.items ≡ f.now.ranks) }
    ensures ports { IfOk result (λ v. (k : ℕ) (p : Port I) → slice_get v.items k ≡ Some p
        → Begins loose f.now p k) }
{
    let mut ports = Vec::new(alloc);
    for rank in 0..f.ranks {
        let mut port = port_of(alloc, f, &mut rest, rank as u8)?;
        begin(f, &mut port, loose);
        ports.push(port)?;
    }
    Ok(ports)
}

impl<I: Item> Fabric<I> {
    /// A fabric whose cells stand in their owners' free queues, with a port for each rank, in
    /// order.
    pub fn build(alloc: Global, shape: Shape) -> Result<(Fabric<I>, Vec<Port<I>>), Memory>
        ensures fabric { IfOk result (λ t. (t.0.ranks ≡ shape.ranks) × (t.0.each ≡ shape.cells)
            × (length t.1.items ≡ shape.ranks)) }
        ensures ports { IfOk result (λ t.
            (k : ℕ) (p : Port I) → slice_get t.1.items k ≡ Some p → IsNew t.0 p k) }
    {
        let (fabric, rest) = whole(alloc, &shape)?;
        let ports = ports_of(alloc, &fabric, rest, false)?;
        Ok((fabric, ports))
    }

    /// A fabric whose queues are all empty and whose cells are loose, each with its owner's port.
    /// There is a port for each rank, in order.
    pub fn build_loose(alloc: Global, shape: Shape) -> Result<(Fabric<I>, Vec<Port<I>>), Memory>
        ensures fabric { IfOk result (λ t. (t.0.ranks ≡ shape.ranks) × (t.0.each ≡ shape.cells)
            × (length t.1.items ≡ shape.ranks)) }
        ensures ports { IfOk result (λ t.
            (k : ℕ) (p : Port I) → slice_get t.1.items k ≡ Some p → IsNewLoose t.0 p k) }
    {
        let (fabric, rest) = whole(alloc, &shape)?;
        let ports = ports_of(alloc, &fabric, rest, true)?;
        Ok((fabric, ports))
    }

    /// How many ranks share it.
    pub fn ranks(&self) -> u8
        ensures { result ≡ self.now.ranks }
    {
        self.ranks as u8
    }
}
