//! What is carried from one rank to another.

ghost use Rattle.std.specs.Prelude.{◌<◌};
ghost use Rattle.nm_types.specs.declared.limits.TheConstants.{MAX_PACKETS};

/// An item on its way, with the rank that it is from, and its number among all from that rank to the
/// one that it goes to, from 0.
#[derive(Drop)]
pub struct Parcel<I> {
    pub from: u8,
    pub seq: u64,
    pub item: I,
    pub ghost seq_in_range: { seq < MAX_PACKETS },
}
