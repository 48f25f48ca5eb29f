//! What was paired with what before each event of a given history, and what was free.
//!
//! The definitions of `nm_history` look through the whole history for each event. `Pairing::of`
//! replays the history once, through a `Matcher`, and its answers are look-ups. It asks that sends,
//! receives and arrivals are numbered in order, and for no other rule of a run: a receive may be
//! cancelled before it is posted, a message claimed or withdrawn before it comes, or received by a
//! handle that never claimed it.
//!
//! A matcher takes no such event as a deed. So it is told other deeds with the same queues: a
//! message that is claimed, withdrawn or received by a handle is withdrawn if it is free; a cancel,
//! a claim or a withdrawal that stands before its receive or its message is remembered, and done
//! after it.
//!
//! # What a contract sees
//! `specs/Pairings.antt` says what a `Pairing` tells of a history and the lines of its script
//! (`Tells`); `specs/Looks.antt` what the command of an event finds. `specs/Queues.antt` and
//! `specs/Replays.antt` are the parts that keep it. Messages are named as in `nm_lookups`.
//! # What is proved
//! - `Pairing::of` tells of the whole history what the definitions say.
//! - For each place, `is_taken`, `pair`, `is_paired` and `look` answer as defined on the events
//!   before it; `taken` has the place at which each message was paired first.
//! - `pairs` are all pairs in order, and `first_message` is the first free message at the end.
//!
//! That each answer takes one look-up, and the replay one step for each event besides those of the
//! matcher, is not proved.
//! # What is only tested
//! That `Pairing::of` succeeds with ample memory.

mod looks;
mod pairings;
mod queues;
mod replays;

pub use pairings::Pairing;
