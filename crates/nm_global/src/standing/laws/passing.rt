//! Packets and pieces that leave and come.

ghost use Rattle.std.specs.Prelude.{◌≡◌, ◌<◌, ℕ, Some, List, []};
ghost use Rattle.std.specs.Prelude.{length, slice_get};
ghost use Rattle.nm_types.specs.declared.packets.Packet.{Packet};
ghost use Rattle.nm_types.specs.declared.packets.Piece.{Piece};
ghost use Rattle.nm_types.specs.Commands.{Numbered};
ghost use Rattle.nm_types.specs.Sizes.{Sizes};
ghost use Rattle.nm_history.specs.Pieces.{due_pieces};
ghost use Rattle.nm_history.specs.Rules.{AreRight};
ghost use Rattle.nm_rndv.specs.Offers.{next_offered, offered};
ghost use Rattle.nm_sending.specs.Letters.{Letter};
ghost use Rattle.nm_sending.specs.Departures.{pushed_to};
ghost use Rattle.nm_sending.specs.Sent.{outs};
ghost use Rattle.nm_receiving.specs.Receipts.{drawn_from};
ghost use Rattle.nm_rank.specs.Calls.{TakesPacket, TakesPiece};
ghost use Rattle.nm_rank.specs.Pops.{PopsPacket, PopsPiece, out_with_packet, out_with_piece};
ghost use Rattle.nm_rank.specs.Ranks.{RankView};
ghost use Rattle.nm_global.specs.Moments.{acted, drew, took};
ghost use Rattle.nm_global.specs.ProcessInvariant.{IsOf, GhostHistory, with_moment, with_packet_left};
ghost use Rattle.nm_global.specs.ProcessInvariant.{with_piece_left};

use crate::laws::steps::a_step_keeps_its_place;

/// `Process::pop_front`.
pub fn a_packet_leaves()
    ensures { (shape : Sizes) (commands : List Numbered) (i : ℕ) (v v' : RankView) (past : GhostHistory)
        (letter : Letter) → slice_get v.sending.outbox.letters 0 ≡ Some letter →
        PopsPacket v v' → IsOf shape commands i v past →
        IsOf shape commands i v'
        (with_moment (with_packet_left past (letter.to, letter.packet))
        (acted v (outs (out_with_packet v)))) }
{
    a_step_keeps_its_place();
}

/// `Process::pop_piece`.
pub fn a_piece_leaves()
    ensures { (shape : Sizes) (commands : List Numbered) (i : ℕ) (v v' : RankView) (past : GhostHistory)
        (piece : ℕ × Piece) → Some (offered piece) ≡ next_offered v.sending.offers →
        piece.1.from ≡ v.me → piece.1.number ≡ pushed_to v.sending piece.0 →
        PopsPiece v v' → IsOf shape commands i v past →
        IsOf shape commands i v'
        (with_moment (with_piece_left past piece) (acted v (outs (out_with_piece v)))) }
{
    a_step_keeps_its_place();
}

/// `Process::take_packet`.
pub fn a_packet_is_taken()
    ensures { (shape : Sizes) (commands : List Numbered) (i : ℕ) (v v' : RankView) (past : GhostHistory)
        (p : Packet) → AreRight v.sizes.ranks [] v.events → p.from < v.sizes.ranks →
        TakesPacket p v v' → IsOf shape commands i v past →
        IsOf shape commands i v' (with_moment past (took v p)) }
{
    a_step_keeps_its_place();
}

/// `Process::take_piece`, where one of its rank was due (`Rank::is_piece_due`).
pub fn a_piece_is_taken()
    ensures { (shape : Sizes) (commands : List Numbered) (i : ℕ) (v v' : RankView) (past : GhostHistory)
        (q : Piece) → q.from < v.sizes.ranks →
        drawn_from v.receiving q.from < length (due_pieces v.events q.from) →
        TakesPiece q v v' → IsOf shape commands i v past →
        IsOf shape commands i v' (with_moment past (drew v q)) }
{
    a_step_keeps_its_place();
}
