//! For what a rank waits at the end of a run that hangs.
//!
//! `states` has the states of the ranks after the moves that lead to an end. `waits` says what the next command of a rank
//! needs: a receive at another rank, or a message. `near` says what stands against that: each message that came and does
//! not fit, in which field, or which receive took it; each open receive and why it does not fit. `chains` follows which
//! rank waits for which.
//!
//! # What a contract sees
//! The states of `nm_outcomes` and the moves of `nm_explored`. `specs/Waits.antt` has the needs, `specs/Near.antt` what
//! stands against them, `specs/Chains.antt` the wait-for graph.
//! # What is proved
//! - The states are those that the moves lead to (`states_after`).
//! - A need is that of the rank's next command (`wait_of`); what is near is all that came, or all that is open.
//! - In a chain each rank waits for the next one (`IsChain`).
//! # What is only tested
//! That these succeed with ample memory.
#![tactic(auto)]

pub mod chains;
pub mod near;
pub mod states;
pub mod waits;
