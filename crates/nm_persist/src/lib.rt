//! Plans, scripts of persistent requests (MPI 3.1, section 3.9) and of partitioned ones (MPI 4.0, section
//! 4.2): read, and expanded into scripts of sends and receives.
//!
//! docs/use/plans.md has the commands. `runs` has laws: what persistent and partitioned requests promise, for
//! each run of a plan's script.
//!
//! # What a contract sees
//! The faults that a line may have after those before it (`Table`); the limits of a plan (`Plans`); the rules
//! of lines, one for each kind of fault, and the first fault of a text (`Rules`); the text of a plan's run,
//! by the answers to the commands that its lines become (`Report`). The commands and the text of a plan are
//! in `nm_plans`, its requests and its script in `nm_plans::requests`.
//! # What is proved
//! - What is read is spelled by the bytes, within the limits (clause `taken`); whatever bytes spell is read
//!   as exactly that, unless memory runs out (clause `takes`).
//! - A refusal has the line and the kind of the first fault, and each text with a fault is refused with it,
//!   unless memory runs out (clauses `fault`, `faults`).
//! - The script of a plan has exactly the lines that its lines become, and keeps the limits of scripts
//!   (`Plan::expand`: clauses `ranks`, `lines`).
//! - `text` gives exactly `run_text` of the plan's lines and the record, unless memory runs out. If the
//!   record is of a run of the plan's script, each line has its own answers.
//! # What is only tested
//! That `read`, `expand` and `text` succeed with ample memory.
#![tactic(auto)]

mod asked;
mod drafts;
mod plans;
mod reading;
mod results;
pub mod runs;
mod sizes;
mod texts;

pub use nm_plans::{PlanFault, PlanKind};
pub use plans::Plan;
pub use reading::read;
pub use texts::text;
