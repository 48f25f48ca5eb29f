//! What left a rank is what its history calls for.
//!
//! A rank stores neither the packets nor the pieces that left it. `IsEmitted` (`specs/Emitted`) is a
//! relation between a rank, another one, and what left it for that one: the packets that left, and
//! then those in its outbox, are those that its history calls for, with their bytes, and none has a
//! stamp past its clock; the pieces that left are those that it calls for, and then the first ones of
//! the message that is leaving. The laws say that the relation stands at a new rank where nothing left,
//! and what follows of it at the end. Each call of a rank keeps it (`nm_global::laws::steps`): a call by which
//! a packet or a piece leaves puts that behind the others, and no other call changes what left.
//!
//! MPI 3.1, sections 3.4 (standard and synchronous mode), 3.5 (order) and 3.8.4 (cancel).
//!
//! # What a contract sees
//! The view of a rank. To use a law, call it.
//! # What is proved
//! - `starts`: from a new rank nothing left.
//! - `leaves`: where nothing is left to send, what left is all that the history calls for.

pub mod laws;
