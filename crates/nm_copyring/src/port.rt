//! The rings, and the port of a rank.

ghost use Rattle.std.specs.Prelude.{◌≡◌, ◌*◌, ◌<◌, ◌≤◌, length};
ghost use Rattle.nm_copyring.specs.Plays.{Rests, mine};
ghost use Rattle.nm_copyring.specs.Counted.{Counts};

use crate::table::{Board, Place};
use crate::tallies::Tally;

/// The places of all ordered pairs of ranks.
#[derive(Drop)]
pub struct Rings {
    pub(crate) board: Board,
    pub(crate) ranks: u64,
    pub ghost shape: { board.shared.key ≡ ranks },
    pub ghost sizes: { (board.shared.table_id.words ≡ 4 * (ranks * ranks))
        × (board.shared.table_id.slots ≡ 4 * (ranks * ranks)) },
    pub ghost small: { (0 < ranks) × (ranks ≤ 64) },
}

/// The token of one rank. It has a seat of the rings' table, and counts for its program what the seat
/// knows.
pub struct RingPort {
    pub(crate) seat: Place,
    pub(crate) rank: u8,
    /// One for each rank.
    pub(crate) tallies: Vec<Tally>,
    pub ghost rests: { Rests seat.me },
    pub ghost wide: { length (mine seat.me).lanes ≡ (mine seat.me).ranks },
    pub ghost named: { (mine seat.me).rank ≡ rank },
    pub ghost counts: { Counts (mine seat.me) tallies.items },
}

impl Drop for RingPort {
    fn drop(self) {
        let RingPort {
            seat: _,
            rank: _,
            tallies: _,
        } = self;
    }
}

impl RingPort {
    /// The seat, of a port that is spent.
    pub(crate) fn into_seat(self) -> Place
        ensures { result ≡ self.seat }
    {
        let RingPort {
            seat,
            rank: _,
            tallies: _,
        } = self;
        seat
    }
}
