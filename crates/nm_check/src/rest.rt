//! Whether all ranks of a given record are at rest, rule by rule.
//!
//! # What a contract sees
//! `specs/RestClauses.antt` has the rules in their order (`KeepsRest`, `rest_order`), by the
//! definitions of `nm_history`.
//! # What is proved
//! - The first rule that is broken is named, with the first event that breaks it, or the first rank that
//!   stands where it may not (`resting`, by `specs/RestBreaks.antt`). What each event keeps is told exactly:
//!   that its message has come and is over, or its recall is answered (`over`); and what each rank waits for
//!   (`waits`).
//! - That the counts of packets are those that the histories call for is told exactly (`counts`).
//!   They are made as a list, too, and the place is found at which the given ones differ from them first.
//!
//! That each rule walks a history once, with look-ups for each event, is not proved.
//! # What is only tested
//! Nothing.

pub mod clauses;
pub mod counts;
pub mod firsts;
pub mod over;
pub mod resting;
pub mod waits;
