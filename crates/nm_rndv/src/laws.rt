//! Laws of the definitions. Each is the contract of a function that does nothing.

ghost use Rattle.std.specs.Prelude.{◌≡◌, ℕ, ◌*◌, List, length, nat_lt, if◌then◌else◌, Some, None};
ghost use Rattle.std.specs.Prelude.{slice_get};
ghost use Rattle.std.specs.List.{concat};
ghost use Rattle.nm_types.specs.declared.limits.TheConstants.{MAX_PIECE};
ghost use Rattle.nm_rndv.specs.Pieces.{piece_at, pieces_of};

/// The pieces of a body, joined in order, are the body. There is one at each place whose offset is
/// in the body, and no other.
pub fn pieces_make_the_body()
    ensures joined { (bytes : List ℕ) → concat (pieces_of bytes) ≡ bytes }
    ensures places { (bytes : List ℕ) (k : ℕ) → slice_get (pieces_of bytes) k
        ≡ (if nat_lt (MAX_PIECE * k) (length bytes) then Some (piece_at bytes k) else None) }
{}
