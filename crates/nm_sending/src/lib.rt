//! The sending side of a rank: the messages that it sent, by packets and by pieces, and what became of them.
//!
//! A message of at most the eager limit is cut into packets (MPI 3.1, section 3.4). A longer or synchronous
//! one goes by rendezvous: one packet announces it, it waits until its receiver clears it, and is then pushed
//! in pieces. A message may be recalled (section 3.8.4). `outbox` has the packets that are still to be sent,
//! in order.
//!
//! # What a contract sees
//! The packets to be sent, the rendezvous messages and the order of their clearances, what became of each
//! message, the counts of pieces pushed, and the number of messages that have not left. The relation
//! `AreSent` ties this to histories. What a call did is one relation, named after it (`Calls`), with the
//! events that it adds (`Preserves`); each answer is the definition's on every history in the relation.
//!
//! # What is proved
//! - The packets of a message are put in order. An eager message leaves with its last packet, and with no
//!   other (`send`: `sent`, `recall`: `recalled`, `answer`: `puts`).
//! - A message leaves once: with its last packet, with its last piece, or if it is empty with its clearance
//!   (`PopsFirstPacket`, `PopsNextPiece`, `ClearsMessage`: `kept`). If no packet is left, each eager message
//!   has left (`fill_front`: `left`).
//! - A recall and its answer are noted, and change no other message (`RecallsMessage`, `AnswersRecall`).
//! - Pieces are those of the first message that was cleared and has not left, in order (`next_piece`: `next`;
//!   `PopsNextPiece`: `in_turn`).
//! - Memory holds the messages to a rank from the first on that may still leave (`held`), beside the recalls. One
//!   that was sent by asking and was withdrawn never does. What is told of a message stays the same when it is let
//!   go.
//! - Want of memory changes nothing but room (`send`, `recall`: `err`).
//! # What is only tested
//! That calls that take memory succeed with ample memory.
#![tactic(auto)]

mod departures;
pub mod laws;
pub mod outbox;
mod putting;
mod recalls;
mod rows;
mod sendings;
mod tables;

pub use departures::Departure;
pub use sendings::Sending;

/// How many messages a rank sends to another at most.
pub const MAX_MESSAGES: u64 = 1125899906842624;
