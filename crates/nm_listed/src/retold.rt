//! From a way of moves to the record of a run.
//!
//! A `Telling` takes the moves one by one. Each stands in its log as its event. Four kinds of event are no move: that
//! a message is whole, that it has left, that a withdrawal came too late, and that the answer to a recall came back.
//! Each of these stands just before the result that needs it, and those that no result needs stand at the end. All
//! events are numbered 1, 2, 3 and so on.
//!
//! # What a contract sees
//! `specs/Tellings.antt` has the log that is made of moves, and `specs/Records.antt` the record of a log.
//! # What is proved
//! - The log of a way is this one, and the record has the log's histories, and the packets that they call for.
//! - Where the way leads to a state at which no rank has a move left, the record is of a run that tells what is told
//!   there (`retold`, by `lawful`).
//! # What is only tested
//! Nothing.

mod events;
mod logs;
mod marks;
mod packets;
mod records;
mod tellings;

pub use records::retold;
