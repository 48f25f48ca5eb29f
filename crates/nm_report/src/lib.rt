//! The record of a run, and its report, its trace and its summary as text.
//!
//! A `RunRecord` has the history of each rank, how many packets went between each two ranks, and the cells.
//! docs/use/script.md has the forms of the texts.
//!
//! # What a contract sees
//! `Accounts` and `Pairs` are lists; all else has public fields. The text is `report_text` of
//! `specs/Report.antt`, one definition for each kind of line. `specs/Told.antt` has what a run answers,
//! without its histories, and `specs/Summary.antt` the summary of that. For the crates above,
//! `specs/Cells.antt` says when all cells are in their owners' free queues, and `specs/Ends.antt` gives a
//! record as the lists of quiescence.
//! # What is proved
//! - The lists keep what is put into them, and a refused push changes nothing.
//! - `report` and `trace` give exactly `report_text` of the record, without and with its trace, unless memory
//!   runs out.
//! - `summary` gives exactly `summary_text` of the record and the two numbers, unless memory runs out. Its
//!   condition, that counts are below 2^64, holds for each lawful run of a script (`laws`).
//! # What is only tested
//! That `push`, `report`, `trace` and `summary` succeed with ample memory.
#![tactic(auto)]

mod accounts;
mod answers;
mod digits;
mod events;
pub mod laws;
mod pairs;
mod records;
mod reports;
mod summaries;

pub use accounts::{Accounts, RankAccount};
pub use answers::push_answer;
pub use events::{push_happened, word_of_how};
pub use pairs::{PairCount, Pairs};
pub use records::RunRecord;
pub use reports::{push_end, report, trace};
pub use summaries::summary;
