//! The items of a round in crews: each crew in a thread of its own where one can be had, and asleep where it
//! has nothing to do.
//!
//! `turns_by` splits the items among crews and makes the turns of all of them at once. `Bells` tell a crew
//! when its items may have something to do, and end the round where none has. `blocks` asks for memory
//! ahead.
//!
//! # What a contract sees
//! The items before and after, and what `Work::told` says of both. Bells and blocks are not seen.
//! # What is proved
//! - What a crew tells of its items, all crews tell of all items (`turns_by`: `told`).
//! # What is only tested
//! That two crews are at work at the same time (`nm_rows::at_once`), and that none sleeps for good (`.ci/small`).
//! Why none does stands in `bells`.
#![tactic(auto)]

pub mod bells;
pub mod blocks;
mod forks;

pub use forks::{Work, turns_by};
