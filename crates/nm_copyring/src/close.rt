//! What closed rings keep.

ghost use Rattle.std.specs.Prelude.{◌≡◌, length};
ghost use Rattle.nm_copyring.specs.AtClose.{not_pulled, seen_in};

use crate::slots::Slot;
use crate::table::Entry;
use atomic_table::Badge;
use nm_chain::remains::Remains;
use nm_chain::seats::View;

/// Rings that are closed. It keeps what the ports knew, of which no value is made, and how many of
/// the pieces that were pushed were not pulled. It keeps their table's memory, too, and lets it go
/// where it is dropped.
#[derive(Drop)]
pub struct RingAccount {
    pub(crate) badge: Badge<View<Entry>>,
    pub(crate) left: u32,
    pub(crate) remains: Remains<Slot>,
    pub ghost pending: { left ≡ not_pulled (length (seen_in badge.views)) (seen_in badge.views) },
}
