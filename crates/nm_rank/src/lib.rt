//! The core of one MPI rank: everything that it does, without a thread and without a shared word.
//!
//! MPI 3.1, sections 3.4 to 3.8. A `Rank` starts sends and receives, probes and cancels, and reports what
//! became of its requests. The caller hands it the packets and pieces of other ranks, and fetches its own.
//! README.md has a call, what is proved and what a caller owes.
//!
//! `journal` is a rank's history with the clock that stamps its events. What records it is a parameter of the
//! rank (`journal::Recorder`): a `History` in memory, or `journal::Erased`, which keeps the last event.
//!
//! # What a contract sees
//! Its history and clock, its sending and its receiving side (`nm_sending`, `nm_receiving`), what the packets
//! of each rank say (`nm_history::protocol`), its live requests, and the counts of packets, pieces and
//! strays; neither room nor what records the history.
//! # What is proved
//! - Each call is one relation: which events it adds, and which packets it puts for each rank (`starts`,
//!   `claims`, `cancels`, `finishes`, `records`, `taken`; `specs/Steps`).
//! - The history keeps the rules of a rank's run that mention no command (`history`: `right`).
//! - `test`, `finish`, `probe` and `cancel` answer as MPI's definitions do on that history.
//! - A packet or piece that does not continue its stream is counted, and makes nothing happen (`taken`). A
//!   piece is due exactly if a rendezvous message was taken and is not whole (`laws::pieces_are_due`).
//! - After want of memory the rank is as it was (`err`).
//! # What is only tested
//! That calls which take memory succeed with ample memory (`.ci/examples`).
#![tactic(auto)]

mod answers;
pub mod journal;
pub mod laws;
mod leaves;
mod ranks;
mod requests;
mod room;
mod starts;
mod stays;
mod takes;

pub use answers::{CancelFault, Cancelled, FinishFault, State};
pub use nm_request::{Kind, NoSuch, Req};
pub use ranks::{Leavings, Rank};
