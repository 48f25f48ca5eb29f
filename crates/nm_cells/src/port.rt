//! The fabric, and the port of a rank.

ghost use Rattle.std.specs.Prelude.{◌≡◌, ℕ, ◌+◌, ◌*◌, ◌<◌, ◌≤◌, length, vec_capacity, []};
ghost use Rattle.nm_chain.specs.Plays.{Alone, mine};
ghost use Rattle.nm_cells.specs.Carried.{Carries};
ghost use Rattle.nm_cells.specs.AtWork.{HoldsBoxes};
ghost use Rattle.nm_cells.specs.Counted.{CountsFor};
ghost use Rattle.nm_cells.specs.LooseCells.{AreKept};

use crate::loose::LooseCells;
use crate::tallies::Tally;
use nm_chain::table::{Board, BoardSeat, Heads, Item, Misses, Slot};

/// The cells, boxes and queues that the ranks share.
#[derive(Drop)]
pub struct Fabric<I: Item> {
    pub(crate) board: Board<I>,
    pub(crate) ranks: u64,
    /// The cells of each rank.
    pub(crate) each: u64,
    /// Room for what each port counted, which is kept when the fabric is closed.
    pub(crate) counted: Vec<Vec<Tally>>,
    pub ghost shape: { (board.shared.key.ranks ≡ ranks) × (board.shared.key.cells ≡ each) },
    pub ghost sizes: { (board.shared.table_id.words
        ≡ 4 * ranks + ranks * each + 4 * (ranks * ranks))
        × (board.shared.table_id.slots ≡ ranks * each + 4 * (ranks * ranks)) },
    pub ghost room: { (counted.items ≡ []) × (ranks ≤ vec_capacity counted) },
    pub ghost small: { (ranks ≤ 64) × (0 < each) × (each ≤ 64) × (ranks * each ≤ 4096) },
    pub ghost some: { 0 < ranks },
}

/// The token of one rank. It has a seat of the fabric's table, and what its program has to remember
/// of what the seat knows: the shadow heads, the counts, the slots in hand, the loose cells, and at
/// most one held parcel.
pub struct Port<I: Drop> {
    pub(crate) seat: BoardSeat<I>,
    pub(crate) rank: u8,
    pub(crate) receive: Heads,
    pub(crate) free: Heads,
    pub(crate) receive_missed: Misses,
    pub(crate) free_missed: Misses,
    /// The slots in hand, the one taken last first. The seat has the same list, but for the proof
    /// alone, and lends and puts back only the slot in front of it: from this copy the program
    /// knows how far to turn the seat's (`bring_slot`). No answer of a call depends on it.
    pub(crate) carried: Vec<u64>,
    /// The cells, loose ones with them, pending enqueues and boxes at work in hand.
    pub(crate) hands: u32,
    /// What is counted of each rank.
    pub(crate) peers: Vec<Tally>,
    pub(crate) held: Slot<I>,
    pub(crate) loose: LooseCells,
    pub ghost alone: { Alone seat.me },
    pub ghost named: { (mine seat.me).rank ≡ rank },
    pub ghost ends: { ((mine seat.me).receive ≡ receive) × ((mine seat.me).free ≡ free) },
    pub ghost missed: { ((mine seat.me).receive_missed ≡ receive_missed)
        × ((mine seat.me).free_missed ≡ free_missed) },
    pub ghost small: { (receive.shadow ≤ length (mine seat.me).hands)
        × (receive.seen ≤ length (mine seat.me).hands)
        × (free.shadow ≤ length (mine seat.me).hands) × (free.seen ≤ length (mine seat.me).hands) },
    pub ghost carries: { Carries seat.me.1 (mine seat.me).hands (mine seat.me).filling
        (mine seat.me).emptying carried.items (vec_capacity carried) hands },
    pub ghost boxes: { HoldsBoxes (mine seat.me) seat.me.1 },
    pub ghost counts: { ∥ CountsFor (mine seat.me) peers.items held ∥₁ },
    pub ghost kept: { AreKept loose (mine seat.me) seat.me.1 },
}

impl<I: Drop> Drop for Port<I> {
    fn drop(self) {
        let Port {
            seat: _,
            rank: _,
            receive: _,
            free: _,
            receive_missed: _,
            free_missed: _,
            carried: _,
            hands: _,
            peers: _,
            held: _,
            loose: _,
        } = self;
    }
}

impl<I: Item> Port<I> {
    /// The seat and the counts, of a port that is spent.
    pub(crate) fn into_parts(self) -> (BoardSeat<I>, Vec<Tally>)
        ensures { (result.0 ≡ self.seat) × (result.1 ≡ self.peers) }
    {
        let Port {
            seat,
            rank: _,
            receive: _,
            free: _,
            receive_missed: _,
            free_missed: _,
            carried: _,
            hands: _,
            peers,
            held: _,
            loose: _,
        } = self;
        (seat, peers)
    }
}
