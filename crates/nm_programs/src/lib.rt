//! Ranks that run programs: whatever code gives the commands of a rank, and is told each answer.
//!
//! A caller writes a type that is a `Program`, which gives its next command by the answer of the one before,
//! and hands `run_programs` one of them for each rank. They run in as many threads as there are processors,
//! over the core that runs scripts, until all are at rest. `calls` has MPI's calls as commands, `bodies` the
//! bodies of messages.
//!
//! # What a contract sees
//! What each program was told and what it gave, by what the program says of itself (`Program::says`), and
//! the record of the run. The order of threads is not seen.
//! # What is proved
//! - Each program was told exactly the answers of its rank's history, in order, and gave exactly the commands
//!   that this history is of (`run_programs`: `run`).
//! - With these commands the record tells a run by MPI's rules that is at rest, and what went from rank to rank
//!   is what its histories call for (the same clause). All cells are home (`home`), and `done` tells whether all
//!   programs are at their ends (`done`).
//! - So it is with any recorder (`run_kept`: `run`), and where memory keeps the last event of each rank alone
//!   (`run_unrecorded`: `run`).
//! - A command that is out of range never runs: the run has no outcome, and the error tells the rank and the
//!   command (`stopped`).
//! - A program is told exactly the answers of its commands, one after another, by the source that asks it
//!   (`Given::into_parts`: `played`).
//! - A call makes the command that it names, and a number is read back from its body (`bodies`).
//! # What is only tested
//! That whole programs end with the right results (crate `programs`).
#![tactic(auto)]

pub mod bodies;
pub mod calls;
mod given;
mod programs;
mod ranges;
mod running;
mod stops;

pub use programs::Program;
pub use running::{Finished, Kept, Outcome, Unrecorded, run_kept, run_programs, run_unrecorded};
pub use stops::Stop;
