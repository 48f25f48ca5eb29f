//! The last events of a history, in memory.
//!
//! A `Recent` records what happens at a rank, as the recorders of `nm_rank::journal` do. Contracts see each
//! event, and memory keeps the last 64, and those before them that were pending: receives and messages that were not
//! matched, sends that had not left. A long run grows by no byte of the others, and yet can tell how it ended.
//!
//! # What a contract sees
//! All events, oldest first, those before the last 64 that are pending, and for how many events memory has a place.
//! # What is proved
//! - It is a `Recorder`: it has every event that is put.
//! - `Recent::events` lends the last 64 events of the history, or all where they are fewer.
//! - Each event that `Recent::pending` lends is one of the history.
//! # What is only tested
//! That exactly those are pending that were not over (`ends`), by the pictures of runs (`programs stuck`).
#![tactic(auto)]

mod ends;
mod recents;

pub use recents::{KEPT, Recent};
