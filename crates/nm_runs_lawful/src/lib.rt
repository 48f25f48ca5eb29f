//! Whatever a run of ours tells, a run by MPI's text alone tells. A crate of laws.
//!
//! Our rules are stricter than MPI: messages come, and each is taken as soon as it can be. The machine of `nm_lawful`,
//! by which `lawful` answers, has no arrivals: it says what MPI promises, and nothing more.
//! # What a contract sees
//! `specs/Runs.antt` says what a report tells of a run, and what it is that each run is lawful (`RunsAreLawful`).
//! `specs/Stands.antt` has the machine's state that stands for a log so far (`state_of`), and what it is for moves to
//! lead on at a step (`StepLeads`).
//! # What is proved
//! - Each run of a script is one by MPI's text alone (`runs_are_lawful`). No condition is left but that the record is
//!   one of a run.
//! - There is such a report for all ranks (`ranks_are_told`).
//! - So a judge of `nm_lawful` does not refuse what it tells (`runs_are_not_refused`).
//! - At each step of its log, moves lead from the state before it to the one behind it (`steps_lead`): none where a
//!   message comes that no receive takes, two where a receive is posted that finds its message.
//! - Where all ranks are at rest the machine has no move, and each rank waits where the record says (`ends_are_ends`).
//! # What is not
//! The converse: the machine tells more than we do.
#![tactic(auto)]

pub mod laws;
