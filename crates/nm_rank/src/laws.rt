//! Laws of a rank. Each is the contract of a function that does nothing.

ghost use Rattle.std.specs.Prelude.{◌≡◌, ◌<◌, ◌-◌, ◌^◌, ◌↔◌, ℕ, true, nat_lt, length};
ghost use Rattle.nm_history.specs.Sends.{sends};
ghost use Rattle.nm_history.specs.Pieces.{due_pieces};
ghost use Rattle.nm_sending.specs.Outboxes.{put_to};
ghost use Rattle.nm_receiving.specs.Receipts.{drawn_from};
ghost use Rattle.nm_receiving.specs.Received.{IsOwed};
ghost use Rattle.nm_rank.specs.Ranks.{IsFresh, RankView};

use crate::Rank;
use crate::journal::Recorder;

/// A rank can go on exactly while its clock is below 2^62 - 16, it has made fewer than 2^62 requests,
/// and for each rank it has sent fewer than 2^50 messages and put fewer than 2^60 - 32 packets.
pub fn limits()
    ensures { (v : RankView) → IsFresh v ↔ ((v.clock < 2 ^ 62 - 16) × (v.requests.added < 2 ^ 62)
        × ((to : ℕ) → to < v.sizes.ranks → (length (sends v.events to) < 2 ^ 50)
        × (put_to v.sending.outbox to < 2 ^ 60 - 32))) }
{}

/// A piece of a rank is due, which `Rank::is_piece_due` tells, exactly where there is a message of
/// that rank that was sent by asking, that a receive took, and that by the history is not whole.
/// So where none is due, the bytes of each such message are here, and no receive waits for them.
pub fn pieces_are_due<H: Recorder>(rank: &Rank<H>, from: u8)
    requires { from < rank.now.sizes.ranks }
    ensures owed { (nat_lt (drawn_from rank.now.receiving from)
        (length (due_pieces rank.now.events from)) ≡ true)
        ↔ ((n : ℕ) × IsOwed rank.now.events from n) }
{
    rank.receiving.is_due(from);
}
