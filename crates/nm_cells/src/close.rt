//! The end of a fabric.

ghost use Rattle.std.specs.Prelude.{◌≡◌, ℕ, ◌+◌, ◌*◌, ◌<◌, ◌≤◌, [], ◌∷◌, Some, length, map};
ghost use Rattle.std.specs.Prelude.{slice_get};
ghost use Rattle.std.specs.Prelude.{vec_len, vec_capacity};
ghost use Rattle.std.specs.Slots.{IsFull, slots_items, slots_len};
ghost use Rattle.nm_chain.specs.Spoken.{view};
ghost use Rattle.nm_cells.specs.declared.port.Port.{Port};
ghost use Rattle.nm_cells.specs.AtClose.{Gathered, Prefixed, AllCame, Settled, vacant};
ghost use Rattle.nm_cells.specs.Ports.{Owns, knows, sent_by, taken_by};
ghost use Rattle.nm_cells.specs.PathLists.{Begins};
ghost use Rattle.nm_cells.specs.ClosedLists.{entries, sent_list, taken_list, AllTaken};

use crate::closed::Closed;
use crate::port::{Fabric, Port};
use crate::tallies::Tally;
use atomic_table::Closed as Table;
use nm_chain::remains::Remains;
use nm_chain::seats::{Joins, Seals};
use nm_chain::table::{Board, BoardSeat, Item, Slot};
use nm_types::Account;
use std::alloc::Global;

// One more port's counts, before those of the others.
fn count_first(counted: &mut Vec<Vec<Tally>>, peers: Vec<Tally>)
    requires { vec_len counted.old < vec_capacity counted.old }
    ensures items { counted.new.items ≡ peers ∷ counted.old.items }
    ensures capacity { vec_capacity counted.old ≤ vec_capacity counted.new }
{
    let Ok(()) = counted.insert(0, peers) else {
        unreachable!()
    };
}

// One seat that speaks for all ranks, and what each port counted, both in rank order.
fn gather<I: Item>(
    board: &Board<I>,
    mut ports: Vec<Port<I>>,
    mut counted: Vec<Vec<Tally>>,
) -> (BoardSeat<I>, Vec<Vec<Tally>>)
    requires count { (0 < length ports.items) × (0 < board.now.shared.table_id.words) }
    requires ports { (k : ℕ) (p : Port I) → slice_get ports.items k ≡ Some p
        → (p.seat.table_id ≡ board.now.shared.table_id) × (p.hands ≡ 0) }
    requires room { (counted.items ≡ []) × (length ports.items ≤ vec_capacity counted) }
    ensures table { result.0.table_id ≡ board.now.shared.table_id }
    ensures all { result.0.me ≡ (view (map knows ports.items), []) }
    ensures counted { result.1.items ≡ map (λ p. p.peers) ports.items }
{
    let Some(last) = ports.pop() else {
        unreachable!()
    };
    let (mut seat, peers) = last.into_parts();
    count_first(&mut counted, peers);
    while let Some(port) = ports.pop() {
        let (other, peers) = port.into_parts();
        board.shared.join_seat::<Joins>(&mut seat, other);
        count_first(&mut counted, peers);
    }
    (seat, counted)
}

// How many cells of the closed table hold nothing. They have its first slots.
fn count_vacant<I>(closed: &Table<Slot<I>, Global>, cells: u64) -> u64
    requires { IsFull closed.now.slots × (cells ≤ slots_len closed.now.slots) }
    ensures vacant { result ≡ vacant (slots_items closed.now.slots) cells }
    ensures few { result ≤ cells }
{
    let mut home: u64 = 0;
    for cell in 0..cells {
        let load = closed.slots.get(cell as usize);
        if load.is_empty() {
            home += 1;
        }
    }
    home
}

// The cells of the closed table, of which those at home hold nothing, and the table.
fn settle<I: Item>(
    board: Board<I>,
    seat: BoardSeat<I>,
    ranks: u64,
    each: u64,
) -> (Account, Remains<Slot<I>>)
    requires table { (seat.table_id ≡ board.shared.table_id) × (board.shared.key.ranks ≡ ranks)
        × (board.shared.key.cells ≡ each) }
    requires sizes { (board.shared.table_id.slots ≡ ranks * each + 4 * (ranks * ranks))
        × (ranks ≤ 64) × (0 < each) × (each ≤ 64) }
    requires all { Gathered ranks each seat.me.0.entries × (seat.me.0 ≡ view seat.me.0.entries) }
    ensures total { result.0.total ≡ ranks * each }
    ensures settled { Settled I.boxable board.shared.key seat.me.0.entries result.0.home }
    ensures paths { Prefixed ranks seat.me.0.entries }
    ensures home { AllCame ranks seat.me.0.entries → result.0.home ≡ result.0.total }
{
    let total = ranks * each;
    let closed = board.close_with(seat);
    let home = count_vacant(&closed, total);
    let cells = Account {
        total: total as u32,
        home: home as u32,
    };
    (cells, Remains { table: closed })
}

impl<I: Item> Fabric<I> {
    /// Joins all ports of a fabric, in rank order, and accounts for its cells. What each rank
    /// passed on of another is the beginning of what that one sent to it. Where each parcel that
    /// was sent was passed on, every cell is in its owner's free queue. The table's memory, and the
    /// boxes in its slots, go where the closed fabric is dropped.
    pub fn close(self, ports: Vec<Port<I>>) -> Closed<I>
        requires count { length ports.items ≡ self.ranks }
        requires ports { (k : ℕ) (p : Port I) → slice_get ports.items k ≡ Some p → Owns self p
            × (p.rank ≡ k) × (p.hands ≡ 0) }
        ensures entries { entries result ≡ map knows ports.items }
        ensures total { result.cells.total ≡ self.ranks * self.each }
        ensures settled { Settled I.boxable self.board.shared.key (entries result) result.cells.home }
        ensures paths { Prefixed self.ranks (entries result) }
        ensures home { AllCame self.ranks (entries result) → result.cells.home
            ≡ result.cells.total }
        ensures counts { (k j : ℕ) (p : Port I) → slice_get ports.items k ≡ Some p → j < self.ranks
            → (length (sent_list result k j) ≡ sent_by p j)
            × (length (taken_list result j k) ≡ taken_by p j) }
        ensures prefix { (i j : ℕ) → i < self.ranks → j < self.ranks
            → Begins (taken_list result i j) (sent_list result i j) }
        ensures all_taken { AllTaken self.ranks result → result.cells.home ≡ result.cells.total }
    {
        let Fabric {
            board,
            ranks,
            each,
            counted,
        } = self;
        let (mut seat, counted) = gather(&board, ports, counted);
        let badge = board.shared.split_seat::<Seals>(&mut seat).into_badge();
        let (cells, remains) = settle(board, seat, ranks, each);
        Closed {
            badge,
            cells,
            counted,
            remains,
        }
    }
}
