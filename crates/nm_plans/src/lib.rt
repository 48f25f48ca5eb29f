//! The lines of plans, scripts of persistent requests (MPI 3.1, section 3.9) and of partitioned ones (MPI
//! 4.0, section 4.2).
//!
//! docs/use/plans.md has the commands. `requests` has the requests that the lines of a plan make, and the
//! commands of a script that each line becomes.
//!
//! # What a contract sees
//! The table of the commands with the ranges of their arguments (`Grammar`), the text of a plan (`Text`),
//! what the words of a line spell (`Spelled`, `Commands`), and the kinds of faults (`Faults`).
//! # What is proved
//! - A line is read from its words exactly as the table has it, or refused with the first fault of its own,
//!   unless memory runs out (`line_from`).
//! # What is only tested
//! That reading succeeds with ample memory, by the plans of `.ci/examples`.
#![tactic(auto)]

mod bodies;
mod commands;
mod faults;
mod keywords;
mod limits;
mod lines;
pub mod requests;

pub use commands::line_from;
pub use faults::{PlanFault, PlanKind};
pub use limits::{MAX_CONTEXT, MAX_PARTS, MAX_REQUEST, MAX_TAG};
pub use lines::{PlanCommand, PlanLine, PlanLines};
