//! What may be carried.

ghost use Rattle.std.specs.Prelude.{◌≡◌, Bool};

use nm_types::{MAX_BOX, Packet};

/// What a fabric carries. It lies in a box of memory of its own, so it may be of any size; whether it
/// goes by a fastbox is for the item to say.
pub trait Item: Drop {
    ghost boxable: { Self → Bool };

    /// Whether a fastbox has room for it.
    fn fits_box(&self) -> bool
        ensures { result ≡ boxable self.now };
}

impl Item for Packet {
    ghost use Rattle.std.specs.Prelude.{length};
    ghost use Rattle.nm_chain.specs.Items.{is_short};

    ghost boxable = { λ p. is_short (length p.payload) };

    fn fits_box(&self) -> bool {
        self.payload.as_slice().len() <= MAX_BOX as usize
    }
}
