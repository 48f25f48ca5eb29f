//! The protocol between two ranks: which packets and pieces continue their stream, and what they
//! make happen at the rank that takes them.
//!
//! An eager message comes as a head and as many further packets as its length wants. A message that
//! is sent by asking comes as a request to send; a clear-to-send answers it once a receive took the
//! message, and then its data comes in pieces. MPI 3.1, sections 3.4 (standard and synchronous
//! mode) and 3.8.4 (cancel of a send).
//!
//! # What a contract sees
//! - `Known` is what the packets that were taken from one rank tell, and `learned` what one more
//!   tells. By it and by the history of the rank that takes a packet, `continues` says whether the
//!   packet continues its stream, and `packet_events` what it makes happen.
//! - `due_pieces` lists the pieces that are due from a rank. A piece continues where it is the due
//!   one at the place that `count_continued` says, and `piece_makes` says what it makes happen.
//! - A packet or piece that doesn't continue is a stray: it tells nothing and makes nothing happen.
//! - `to_push` has the messages that a rank may push in pieces, and `pushed_out` those that left.
//! - `stamped` gives what happens the stamps that follow a clock.
//! # What is proved
//! `laws`: what is known of a rank agrees with the history of the rank that takes its packets, and
//! stays so; and right events followed by right ones are right. What follows when one packet, one
//! piece or one event is added stands in the lemmas of `proofs/`, which proofs above cite.

pub mod laws;
