//! Whether a given record is of a run of a script, and if not, the first rule that it breaks.
//!
//! `check` does so with a script and a trace in one text, and `texts` puts it in a line. `judging` and `ranking` are
//! for `nm_breaks`, which finds where the trace first breaks a rule.
//!
//! # What a contract sees
//! `specs/Verdicts.antt` says what each verdict means, by the definitions of a run in `nm_history` and
//! `nm_report`: `Judges` of the script's lines, the record and the verdict. The rules of one rank, of two
//! ranks and of rest are with their order in `nm_check_rank` (`KeepsOwn`), in `specs/CarriedClauses.antt` and in
//! `rest`. `specs/Tabled.antt` says what is looked up of each rank. One walk of each history for each rule finds
//! where it first breaks it, with each other rank (`specs/Marked.antt`).
//! # What is proved
//! - `judge` answers `Holds` exactly if the record is of a run of the script (`IsRunIn`), else the first rule
//!   that is broken: rank by rank, then pair by pair of ranks, then of all ranks at rest, then of the cells
//!   and of the end.
//! - Of arrivals, bodies, messages that leave, withdrawals and their answers the first places are exact, for
//!   each rank (`firsts`, by `marks` and `bodies`).
//! - The first pair of ranks between which a rule is broken, by sender and then receiver, is named with the
//!   first such rule, and the event at which it breaks first, as one reads the events of rank after rank
//!   (`between`, by `specs/CarriedBreaks.antt`). `rest` judges whether all ranks are at rest.
//! - `check` tells the cases apart in their order (`IsTrial`, `specs/Trials.antt`): no room or no line `---`, no
//!   script before it, no trace behind it, else the verdict on the trace, which holds for a run of the script.
//!
//! Each history is walked a fixed number of times, with look-ups for each event; that is not proved.
//! # What is only tested
//! That `judge` and `check` succeed with ample memory.
#![tactic(auto)]

pub mod between;
pub mod bodies;
pub mod clauses;
pub mod firsts;
pub mod judging;
pub mod looked;
pub mod marks;
pub mod ranking;
pub mod rest;
pub mod texts;
mod trials;
mod verdicts;

pub use clauses::CarriedClause;
pub use judging::judge;
pub use nm_check_rank::clauses::OwnClause;
pub use rest::clauses::RestClause;
pub use trials::{Trial, check};
pub use verdicts::Verdict;
