//! The receiving side of a rank: its receives, and the messages that arrive.
//!
//! MPI 3.1, sections 3.5 (order and matching), 3.7.3 (completion) and 3.8 (probe, matched probe and cancel).
//! A `Receiving` has the matcher of a rank, the bytes of the messages that arrive in packets or in pieces,
//! and for each message and each receive what became of it. It keeps no history: its contracts relate it to
//! one. `streams` is what a rank knows of each other rank by the packets and pieces that it took.
//!
//! # What a contract sees
//! A `ReceivingView`, and the relation `AreReceived` between it and a history: the matcher's deeds, the
//! messages and the receives are those of the history, and so is what is due from a sender. What a call did
//! is one relation, named after it (`Calls`), with the events that it adds: `Preserves old new happenings`
//! says that, for every history, the new view is in the relation with the longer one, and that the events may
//! come there.
//! # What is proved
//! - Each answer is the definition's on every history in the relation.
//! - Each call keeps the relation, with the events that its `kept` names.
//! - Each call says what it adds to the bytes of which message (`bytes`): a packet adds its payload to the
//!   eager message that it begins or continues (`TakesMessagePacket`), a piece that continues adds its bytes
//!   to its message (`DrawsPiece`), and `finish` changes at most those of the message of its receive.
//! - A piece of a sender is due exactly if a rendezvous message of it was taken by a receive and is not whole
//!   (`is_due`); none is due from any sender exactly if `is_any_due` is false.
//! - `finish` gives the result of the receive, with the bytes of its message.
//! - Memory holds the receives from the first on whose result was not given (`held_receives`), of the messages
//!   that came a byte for each from the first on that was neither sent by asking nor is whole (`held_messages`),
//!   and those that are claimed and not yet received (`Claims`). Each answer is as if it held all. It lets go at
//!   most 2^62 receives, which no run reaches: so a receive's number has 64 bits.
//! - After want of memory nothing has changed (clause `err`).
//! # What is only tested
//! That calls which take memory succeed with ample memory.
#![tactic(auto)]

mod bytes;
mod claims;
pub mod laws;
mod receipts;
mod receives;
mod receivings;
mod rows;
pub mod streams;
mod telling;

pub use receipts::{Receipt, Receive};
pub use receivings::{Drawn, Receiving, Started};
