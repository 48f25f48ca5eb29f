//! Whether a rank's history keeps the rules of a rank's run, and which event is the first that does
//! not.
//!
//! A rule is what stands against an event: nothing, where the event keeps it. `paired` has what
//! stands against an event by each rule, and the judge.
//!
//! # What a contract sees
//! `specs/OwnClauses.antt` names all rules of a rank's run, as `nm_history` defines them, and their
//! order; `specs/FirstBroken.antt` says which is the first that is broken. `specs/OwnBreaks.antt` has
//! each rule as it is asked of an event and of the end, what stands against an event (`IsAgainst`),
//! and where a rank breaks a rule first (`IsBreach`).
//! # What is proved
//! - Stamps (`stamps`) and numbers (`numbers`) are judged exactly.
//! - The counts of messages are those of the history (`numbers`).
//! # What is only tested
//! Nothing.
#![tactic(auto)]

pub mod breaks;
pub mod clauses;
pub mod hows;
pub mod numbers;
pub mod paired;
pub mod stamps;
