//! A script of commands that were not fixed before they ran, and the record of their run by the script's lines.
//!
//! Each rank of such a run numbers its own commands: the k-th one, from 0, has line k + 2. In a script each line
//! belongs to one rank. So the commands are put into one list, in the order in which they could start, and the
//! events of the record get the numbers of their lines. Of a long run the last calls are kept (`LastCalls`), and its
//! last events, which name them (`excerpt`).
//!
//! # What a contract sees
//! The commands of each rank, the lines of the script, and the record before and after (`specs`).
//! # What is proved
//! - The script has exactly the commands of each rank, in their order (`transcribe`: `commands`).
//! - The record is the one that was given, each line by the script's number of it (`transcribe`: `renumbered`).
//! - A run is refused only if its commands, or the first ones of each rank, keep not the limits of a script
//!   (`transcribe`: `refused`).
//! - Each call that `LastCalls` keeps is the one that its rank made at that number (`LastCalls::into_parts`).
//! - The script of the end of a long run has calls of each rank, rank by rank, and the record is by their lines
//!   (`excerpt`: `ok`).
//! # What is only tested
//! That these calls are those that the record's events name, and that the new stamps keep the order of the old.
//! That the script's lines stand in the order in which they could start.
#![tactic(auto)]

mod calls;
mod excerpts;
mod last_calls;
pub mod laws;
mod named;
mod orders;
mod placed;
mod renumbered;
mod stamps;
mod starts;
mod transcripts;

pub use calls::Calls;
pub use excerpts::excerpt;
pub use last_calls::{Call, LastCalls};
pub use transcripts::{Refusal, Transcript, arrange, transcribe};
