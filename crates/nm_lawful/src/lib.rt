//! Whether MPI's text alone allows the answers of a script: a machine without arrivals, and a search over its
//! states.
//!
//! The rules of `nm_history` say what this project's runs report. MPI's text leaves more open, and other
//! libraries use that: which sender a receive of any source takes, in what order messages of different tags
//! or communicators are seen, when a test or a probe first succeeds, whether a standard send waits, and what
//! becomes of a cancel. Here a message is pending from its send to its pair, and nothing else is kept.
//!
//! # What a contract sees
//! `specs/Ranks.antt` has the state of a rank, `specs/States.antt` that of all and what a deed makes of it,
//! `specs/Replies.antt` what a command may answer, each with MPI's section, and `specs/Moves.antt` the four
//! moves: a rank runs its next line with its given answer, a message and a receive become a pair, a send or a
//! receive is cancelled. `specs/Lawful.antt` says when a report is lawful: moves lead from the first state to
//! one at which all answers are given and each rank rests as reported (`IsLawful`), when the answers before a
//! moment are possible (`MayTell`), and when the first ranks can rest as reported (`MayRest`).
//! `specs/Searches.antt` has what a search says.
//! # What is proved
//! - `judge` says that a report is lawful exactly if it is, unless it answers that there are too many states:
//!   then moves lead to more different states than the limit.
//! - If it names an answer, the report isn't lawful, the answers before that one in time are possible, and
//!   those up to it are not. If it names a rank, all answers are possible, and the ranks below it can rest as
//!   reported, but not this one with them.
//! # What is only tested
//! That reports which MPI allows are lawful, and others are not (`.ci/conform`).
#![tactic(auto)]

mod hashes;
pub mod judging;
mod messages;
pub mod moves;
mod ranks;
mod replies;
mod searches;
mod states;
