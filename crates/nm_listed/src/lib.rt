//! The reports of the ends of a search, in dictionary order and each once.
//!
//! `retold` goes from the steps of ranks to a record, and `lawful` has the law that some run's record reports
//! what an end reports.
//!
//! # What a contract sees
//! `Texts` is a list of texts, each a list of bytes. `specs/Finding.antt` says what was found, by the
//! definitions of `nm_outcomes`.
//! # What is proved
//! - `reports` takes ends that report all that runs of the script can (`TellsAll`), each at rest where moves
//!   lead (`TellsOnly`), and gives all reports that the script can have in these sizes, each once, in
//!   dictionary order (`AreOutcomes`), or says that they have more than 134,217,728 bytes.
//! - `trace_of` takes such ends and a number, and gives the trace of a lawful run with the report of this
//!   number (`IsOutcomeTrace`), or says how many there are.
//! - `place_of` finds a text among others, or the first line such that none of them begins with it and the
//!   lines before it (`IsFirstNew`).
//!
//! The record of an end is that of the moves that lead there (`retold`): it is of a run (`lawful`).
//! # What is only tested
//! That both succeed with ample memory (`.ci/outcomes`).
#![tactic(auto)]

mod finding;
pub mod lawful;
mod places;
mod records;
pub mod retold;
mod texts;
mod tracing;

pub use finding::{Found, MAX_REPORTS, reports};
pub use places::{Place, place_of};
pub use texts::Texts;
pub use tracing::{Traced, trace_of};
