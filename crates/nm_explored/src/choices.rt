//! What may happen next at the ranks of a script, by the states of all of them.
//!
//! # What a contract sees
//! `specs/Successors.antt` has what the next command of a rank does, which answers it can have, which message
//! comes next and which may be withdrawn; `specs/Moves.antt` has the moves that these are.
//! # What is proved
//! - `begin`, `answer`, `may_say_no`, `next_message` and `may_withdraw` are as defined.
//! - `turns` has all moves of the ranks of a state and nothing else, and `made` the state of a rank after
//!   a move.
//! - What may come next in a run, and is not quiet, is a move of the ranks' states
//!   (`laws::events_are_choices`).
//!
//! That what is told at the end of a way is told by a run is a law of its own (`nm_listed::lawful`).

pub mod choices;
pub mod laws;
pub mod moves;
