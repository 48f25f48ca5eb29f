//! An MPI process: a rank that runs commands, whatever gives them.
//!
//! A `Process` has the core of its rank (`nm_rank`), the names of its requests, and the handles of its
//! claimed messages. It runs a command when it is told to, and passes the packets and pieces of other
//! ranks to its rank; whoever runs it carries these between ranks. MPI 3.1, sections 3.2 and 3.4 (sends
//! and receives), 3.7 (requests) and 3.8 (probes and cancels). What records its history is a parameter
//! (`nm_rank::journal::Recorder`), a `History` where none is named.
//!
//! A `Source` gives a rank its commands, one after another: a `Scripted` those of a rank of a script.
//! `specs/Playing.antt` says what one gives that asks a program, which is told each answer (`nm_programs`).
//!
//! # What a contract sees
//! A `ProcessView`: the view of the rank, how many commands ran, and what each name and each handle stands
//! for. A name keeps its request when that has ended, and stands for none then; the next start of that
//! name replaces it. Of a source it sees how many of its commands ran and which is next, and which commands
//! it may give in all (`Source::gives`).
//! # What is proved
//! - The history is that of the commands that ran so far (`IsWorking`), whatever packets and pieces come
//!   and whenever: clauses `begins` of `new` and `work` of each call. It is said of all commands that begin
//!   with those that ran, so nothing has to be shown anew where one more is given.
//! - What each command does to the rank and to the names, and that `run` waits only where the rank is worn
//!   or the command can't go on: clauses `stepped` and `waits`.
//! - A source gives each command in order, with its line, and none again: clauses `next` and `pass` of
//!   `Source`, which a `Scripted` meets with the commands of its rank in the script.
#![tactic(auto)]

mod commands;
pub mod laws;
mod names;
mod pages;
mod passing;
mod processes;
pub mod scripted;
pub mod sources;
mod steps;

pub use processes::{Leavings, Process};
pub use sources::Source;
pub use steps::{Handle, Step, looks};
