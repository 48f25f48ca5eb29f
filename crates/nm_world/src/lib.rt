//! Ranks with their ports, and the run of all of them.
//!
//! An `Actor` is a process with its port to the fabric and its port to the copy rings. A `Player` is an actor
//! with what gives it its commands, whatever that is (`nm_process::Source`). A turn of it sends and pushes
//! what there is, takes what arrived, and runs commands. A round makes turns of all players in crews, one for
//! each processor, until none has anything to do, and `run_to_rest` makes rounds until all are at rest.
//!
//! What records the histories is a parameter (`nm_rank::journal::Recorder`). With `Erased` a run keeps no byte
//! of them but the last event of each rank. `run_sources` keeps them and makes the record of a run, and `run` of
//! a script is one call of it.
//!
//! # What a contract sees
//! The process and the ports of each actor, and its source. The bells of the crews are not seen.
//! # What is proved
//! - Each turn keeps the player's invariant, and loses nothing (`turn`: `kept`). It answers `true` exactly if
//!   something was sent, taken or run, and `false` only if nothing could be (`moved`, `grew`, `idle`); a
//!   round does so for all players. This holds for all commands that the source may go on to give.
//! - A port polls before each command that looks at arrivals (`turn`: `looked`).
//! - A turn takes at most 140 word steps for each rank, and 2,048, whatever the others do (`turn`: `bound`).
//! - `run_to_rest` makes a run of the commands that its sources gave, and what the closed ports carried is what
//!   its histories call for, also where these exist in proofs alone (`run`, `home`, `done`). `run_sources` gives
//!   its record, and `run` that of a script. So `close_at_rest` does of players that somebody else had make turns,
//!   once they are at rest (`are_at_rest`).
//! - Each source was given exactly the answers of its rank's history, if it takes any, and goes on from where
//!   it was (`stopped`, `goes_on` of both).
//! # What is only tested
//! That a probe sees the packet that arrived last (`nm_rows::world`), that two ranks are at work at the same
//! time (`nm_rows::at_once`), and that no crew sleeps for good (`.ci/small`). `bells` says why.
#![tactic(auto)]

mod actors;
mod by_rank;
pub mod laws;
mod places;
mod players;
mod records;
mod rounds;
mod waiting;
mod whole;

pub use actors::Actor;
pub use by_rank::{places_by_rank, scripts_by_rank};
pub use players::Player;
pub use records::RankEnd;
pub use rounds::round;
pub use whole::{Left, Rested, Ways, are_at_rest, close_at_rest, run, run_sources, run_to_rest};
