//! What a port counts of each rank.

/// What a port counts of one rank, which may be its own.
#[derive(Clone, Copy)]
pub struct Tally {
    /// The pieces that were pushed to it: the number of the next one.
    pub pushed: u64,
    /// The pieces that were pulled from it: the number of the next one.
    pub pulled: u64,
    /// How often the next place for it was found full, up to 2^64 - 1.
    pub full: u64,
    /// How often the next place of it was found empty, up to 2^64 - 1.
    pub empty: u64,
}
