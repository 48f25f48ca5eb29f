//! The search for one run that hangs: it ends at the first that it finds, and keeps no list of reports.
//!
//! # What a contract sees
//! `specs/Alike.antt` says which states go on alike: they differ in what ended requests were told. `specs/Hunts.antt`
//! says at which states a rank is stuck, and which states were looked at: one of those that go on alike.
//! `specs/Found.antt` has what is found, by the lawful runs of the script (`IsRunIn`).
//! # What is proved
//! - `find_hang` gives the trace of a lawful run at whose end a rank waits, or says that no run of the script hangs, or
//!   that moves lead to more states than the limit.
//! - Of states that go on alike it looks at one: they have the same moves, and these lead to such states again.
//! # What is only tested
//! That it succeeds with ample memory (`.ci/outcomes`).
#![tactic(auto)]

mod alike;
mod classes;
mod hangs;
mod hunts;

pub use hangs::{Hang, find_hang};
