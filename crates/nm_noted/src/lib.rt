//! Runs of programs whose calls are noted: afterwards they are a script, and the record is of a run of it.
//!
//! A `Noted` program goes on as the program in it does, and keeps a copy of each call. `run_noted` runs programs
//! so. Its calls and its record are what `nm_transcript::transcribe` makes a script and its trace of, for `check`,
//! `verdict`, `chart` and `outcomes`. `run_recent` keeps the last calls and events alone, of which
//! `nm_transcript::excerpt` makes a script and a trace for `chart`.
//!
//! # What a contract sees
//! What each program was told and what it gave, as `nm_programs` says it, and the calls.
//! # What is proved
//! - The programs ran as by `run_programs`, and the calls are exactly those that each gave (`run_noted`: `run`).
//! - The record is of a lawful run of these calls (`told`), which is what `transcribe` asks for.
//! - So it is where the last calls and events are kept, and each event that is kept is one of the run (`run_recent`:
//!   `run`).
//! # What is only tested
//! That whole runs become scripts that `check` takes, and the ends of long ones pictures (crate `programs`).
#![tactic(auto)]

mod accounts;
mod copies;
mod keepers;
mod noted;
mod runs;

pub use keepers::Keeper;
pub use noted::Noted;
pub use runs::{NotedRun, run_noted, run_recent};
