//! That all left.

ghost use Rattle.std.specs.Prelude.{◌≡◌, ℕ, List, []};
ghost use Rattle.nm_history.specs.Outgoing.{AreCalled, AreCalledPieces, outgoing, ring};
ghost use Rattle.nm_history.specs.Sends.{Sent};
ghost use Rattle.nm_rndv.specs.Offers.{AllOut};
ghost use Rattle.nm_rank.specs.Ranks.{RankView};
ghost use Rattle.nm_global.specs.Emitted.{IsEmitted, Emitted};

/// Where no packet is in the outbox and each cleared message has left, what left is all that the
/// history calls for (`Rank::fill_front`, `Rank::front_piece`).
pub fn all_left()
    ensures packets { (bodies : Sent → List ℕ) (v : RankView) (to : ℕ) (left : Emitted) →
        v.sending.outbox.letters ≡ [] → IsEmitted bodies v to left →
        AreCalled v.me 0 (outgoing bodies v.events to) left.packets }
    ensures pieces { (bodies : Sent → List ℕ) (v : RankView) (to : ℕ) (left : Emitted) →
        AllOut v.sending.offers → IsEmitted bodies v to left →
        AreCalledPieces v.me 0 (ring bodies v.events to) left.pieces }
{}
