//! Calls of a rank, given one after another by whoever drives it, with no list of commands to begin with.
//!
//! `Calls` are the commands that a rank was called with, as what gives it its commands (`nm_process::Source`): those
//! that ran, and one that is ahead, if there is one. `check_range` says of a command which of its arguments is out of
//! range.
//!
//! # What a contract sees
//! The calls that ran, in order, and among how many ranks they are in range (`CallsView`).
//! # What is proved
//! - The calls are those that were noted or put ahead, in order, each with its line; they are in range (`note`, `put`,
//!   `pass`, `line`).
//! - Commands of later lines change nothing of what was: a process that stands at its place in a run for some
//!   commands stands so for all others that have the same ones at the lines before (`laws`).
//! - A command is refused exactly where an argument is out of range (`check_range`).
#![tactic(auto)]

mod calls;
mod faults;
pub mod laws;

pub use calls::Calls;
pub use faults::{Fault, check_range};
