//! Ranks that their callers drive: a world of ranks, each a handle that one thread calls.
//!
//! A `Handle` has a share of the fabric and the rings, its rank's ports and process, and no program: its caller
//! gives one command after another, which runs at once (`call`) or as soon as it can go on (`give`), and has it make
//! turns (`progress`), which send, take and run. It never waits for another rank. What happened exists in proofs
//! alone, but for the last event.
//!
//! # What a contract sees
//! The process of each handle, the calls that ran with their answers, and whether it is open.
//! # What is proved
//! - A handle stands (`Stands`) from its start on, after each call: its history is that of exactly the calls that
//!   ran, each with its answer, its ports carried what that history calls for, and so it is a rank at its place
//!   in a run (`world`: `new`; `call`, `give`, `progress`, `close`: `kept`).
//! - A call does what its command does to the process (`ran`), and tells its answer (`answer`); one that is
//!   refused does nothing, unless it was refused memory (`refused`), and each refusal has its cause (`cause`).
//! - A turn takes at most 140 word steps for each rank, and 2,048 (`Player::turn`).
//! - Where all ranks of a world are given back and are at rest, the calls of the ranks and their answers are those of
//!   a lawful run, whatever their callers did and in which order (`end`: `run`); where there is no end, it is said
//!   why (`why`). The ranks stay those of their world (`world`: `one`; `laws`).
//! - A rank that is at rest at its place is found so by a turn that did nothing (`rest`); ranks of one world, as many as
//!   it has and in order, are all of it (`laws`).
//! - The count of live requests is of calls and their answers (`HasCalled`, `HasTurned`: `live`).
//! # What is not
//! - That a count of live requests is that of the names in use; that `rest` refuses a rank of another world. Nothing here
//!   runs in a thread: that is left to the callers.
#![tactic(auto)]

mod ends;
mod handles;
pub mod laws;
mod states;
mod steps;
mod worlds;

pub use ends::{Ended, Unended, end, rest};
pub use handles::Handle;
pub use states::State;
pub use worlds::{Shared, world};
