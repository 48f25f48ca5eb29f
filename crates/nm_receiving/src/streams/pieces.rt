//! Pieces of the messages that a rank granted, as the protocol sees them.

ghost use Rattle.std.specs.Prelude.{◌≡◌, length, slice_get};
ghost use Rattle.nm_history.specs.Effects.{whole_if};
ghost use Rattle.nm_history.specs.Pieces.{piece_makes};
ghost use Rattle.nm_rndv.specs.Grants.{Continues, Granting, due_in, grants_from, joined_by};
ghost use Rattle.nm_receiving.specs.Pieces.{due_of_grants};
ghost use Rattle.nm_types.specs.declared.packets.Piece.{Piece};

use nm_types::Joined;

/// Whether a piece that continued its message makes it whole, by what it did to it.
pub fn is_whole(joined: Joined) -> bool
    ensures { (before : Granting) (piece : Piece) → Continues before piece
        → joined
        ≡ joined_by (due_in (grants_from before piece.from)) piece.at (length piece.bytes)
        → whole_if result piece.from piece.n
        ≡ piece_makes piece.from
        (slice_get (due_of_grants (grants_from before piece.from)) 0) piece }
{
    match joined {
        Joined::Whole => true,
        Joined::Begun | Joined::More => false,
    }
}
