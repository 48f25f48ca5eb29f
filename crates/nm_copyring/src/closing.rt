//! The end of the rings.

ghost use Rattle.std.specs.Prelude.{◌≡◌, ℕ, ◌+◌, ◌*◌, ◌<◌, ◌≤◌, List, [], ◌∷◌, ◌++◌, Some, length, map, slice_get};
ghost use Rattle.std.specs.Prelude.{slice_index};
ghost use Rattle.std.specs.Slots.{IsFull, slots_items, slots_len};
ghost use Rattle.nm_chain.specs.Spoken.{view};
ghost use Rattle.nm_chain.specs.Total.{total, sign};
ghost use Rattle.nm_copyring.specs.declared.port.RingPort.{RingPort};
ghost use Rattle.nm_copyring.specs.AtClose.{Gathered, Prefixed, not_pulled};
ghost use Rattle.nm_copyring.specs.ClosedLists.{entries, pulled_list, pushed_list};
ghost use Rattle.nm_types.specs.declared.packets.Piece.{Piece};
ghost use Rattle.nm_copyring.specs.Ports.{Owns, knows, sees};

use crate::close::RingAccount;
use crate::port::{RingPort, Rings};
use crate::slots::Slot;
use crate::table::{Board, Place};
use atomic_table::Closed;
use nm_chain::remains::Remains;
use nm_chain::seats::{Joins, Seals};
use std::alloc::Global;

impl RingAccount {
    /// The pieces that were pushed and not pulled.
    pub fn left(&self) -> u32
        ensures same { result ≡ self.now.left }
        ensures pending { result ≡ not_pulled (length (entries self.now)) (entries self.now) }
    {
        self.left
    }
}

// One seat that speaks for all ranks, in order.
fn gather(r: &Rings, mut ports: Vec<RingPort>) -> Place
    requires count { length ports.items ≡ r.now.ranks }
    requires ports { (k : ℕ) (p : RingPort) → slice_get ports.items k ≡ Some p
        → Owns r.now p × (p.rank ≡ k) }
    ensures table { result.table_id ≡ r.now.board.shared.table_id }
    ensures all { result.me ≡ (view (map sees ports.items), []) }
{
    let Some(last) = ports.pop() else {
        unreachable!()
    };
    let mut seat = last.into_seat();
    while let Some(port) = ports.pop() {
        r.board
            .shared
            .join_seat::<Joins>(&mut seat, port.into_seat());
    }
    seat
}

// How many places of the closed table are full.
fn count_full(closed: &Closed<Slot, Global>, places: u64) -> u32
    requires { IsFull closed.now.words × (places ≤ slots_len closed.now.words) × (places ≤ 16384) }
    ensures { result ≡ total places (λ k. sign (slice_index (slots_items closed.now.words) k)) }
{
    let mut left: u32 = 0;
    for i in 0..places {
        if closed.word(i as usize) != 0 {
            left += 1;
        }
    }
    left
}

// The full places of the closed table, and the table.
fn settle(board: Board, seat: Place, ranks: u64) -> (u32, Remains<Slot>)
    requires table { (seat.table_id ≡ board.shared.table_id) × (board.shared.key ≡ ranks) }
    requires sizes { (board.shared.table_id.words ≡ 4 * (ranks * ranks))
        × (board.shared.table_id.slots ≡ 4 * (ranks * ranks)) × (ranks ≤ 64) }
    requires all { Gathered ranks seat.me.0.entries × (seat.me.0 ≡ view seat.me.0.entries) }
    ensures left { result.0 ≡ not_pulled ranks seat.me.0.entries }
    ensures prefix { Prefixed ranks seat.me.0.entries }
{
    let closed = board.close_with(seat);
    let left = count_full(&closed, 4 * (ranks * ranks));
    (left, Remains { table: closed })
}

impl Rings {
    /// Joins all ports of the rings, in rank order, and counts the pieces that are left. The table's
    /// memory, and the boxes in its slots, go where the account is dropped.
    pub fn close(self, ports: Vec<RingPort>) -> RingAccount
        requires count { length ports.items ≡ self.ranks }
        requires ports { (k : ℕ) (p : RingPort) → slice_get ports.items k ≡ Some p
            → Owns self p × (p.rank ≡ k) }
        ensures entries { entries result ≡ map knows ports.items }
        ensures prefix { Prefixed self.ranks (entries result) }
        ensures lists { (i j : ℕ) → i < self.ranks → j < self.ranks → (left : List Piece)
            × (pushed_list result i j ≡ pulled_list result i j ++ left) × (length left ≤ 4) }
        ensures left { result.left ≡ not_pulled self.ranks (entries result) }
    {
        let mut seat = gather(&self, ports);
        let badge = self
            .board
            .shared
            .split_seat::<Seals>(&mut seat)
            .into_badge();
        let Rings { board, ranks } = self;
        let (left, remains) = settle(board, seat, ranks);
        RingAccount {
            badge,
            left,
            remains,
        }
    }
}
