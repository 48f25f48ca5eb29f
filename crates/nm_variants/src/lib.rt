//! The reports of a script where each standard send, by itself, is buffered or waits for its receive.
//!
//! MPI leaves that to each send (MPI 3.1, 3.4). A variant of a script is the script with some of its standard sends
//! made synchronous; the reports are those of all variants, each searched with an equal share of the states.
//!
//! # What a contract sees
//! `specs/Variants.antt` says what a variant is (`IsVariant`), how many there are, and which one has a number.
//! `specs/Reports.antt` says that texts are the reports of all runs of all variants (`AreVariantOutcomes`).
//! # What is proved
//! - `all_reports` gives the reports of all variants, each once and in dictionary order, and how many variants
//!   there are. Each report is that of a run of a variant, and each run of a variant has one of the reports. Or
//!   it says that there are more variants than states, that a variant has more states than its share or is no
//!   script, or that the reports have more than 134,217,728 bytes.
//! - A send of more bytes than the eager limit waits in each variant.
//! # What is only tested
//! That it succeeds with ample memory (`.ci/outcomes`).
#![tactic(auto)]

mod searching;
mod unions;
mod variants;

pub use unions::{Union, all_reports};
