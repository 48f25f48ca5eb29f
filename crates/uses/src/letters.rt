//! What parcels and cells carry: a byte of a text.

ghost use Rattle.std.specs.Prelude.{◌≡◌, ◌<◌};
ghost use Rattle.nm_types.specs.declared.limits.TheConstants.{MAX_PACKETS};

use nm_chain::table::{Item, Parcel};

/// A byte.
#[derive(Drop)]
pub struct Letter {
    pub byte: u8,
}

impl Item for Letter {
    ghost use Rattle.std.specs.Prelude.{true};

    ghost boxable = { λ _. true };

    fn fits_box(&self) -> bool {
        true
    }
}

/// A parcel of rank 0 with one byte.
pub fn parcel(seq: u64, byte: u8) -> Parcel<Letter>
    requires { seq < MAX_PACKETS }
    ensures { (result.from ≡ 0) × (result.seq ≡ seq) × (result.item.byte ≡ byte) }
{
    Parcel {
        from: 0,
        seq,
        item: Letter { byte },
    }
}
