//! What each command of a rank asks for, along the rank's history.
//!
//! # What a contract sees
//! `specs/Asked.antt` says which request a command asks for, the live one of its name, and which
//! message, the live one of its handle, as `nm_history` defines them on the events before its
//! answer. `specs/SinceAnswer.antt` says what there is of a kind of event since the last answer.
//! # What is proved
//! - The command of a line is found by its place, where it is the rank's.
//! - The request and the message of each command are those that it asks for (`Asked::of`), or their
//!   making is in want of memory.
//! - What there is of a kind of event since the last answer, one event after another.
//!
//! The requests are found in one walk of the history, the messages in another, with look-ups for
//! each event; that is not proved.
//! # What is only tested
//! Nothing.

pub mod asked;
pub mod commands;
pub mod handles;
pub mod requests;
pub mod since;
