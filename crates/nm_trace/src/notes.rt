//! What a line of a trace tells.

use nm_history::{Event, Happened};

/// What happened, by its words. The bytes that an answer got are told later: here it has none, and
/// `len` is how many they are.
#[derive(Drop)]
pub struct Said {
    pub what: Happened,
    pub len: u64,
}

/// The event of a rank, in the same way.
#[derive(Drop)]
pub struct Note {
    pub rank: u8,
    pub event: Event,
    pub len: u64,
}
