//! The packets that a rank has still to send.
//!
//! A rank puts its packets for all ranks into one outbox, and sends them from its front. The packets
//! to each rank are numbered from 0 in the order in which they were put, so its receiver takes them
//! in that order (MPI 3.1, section 3.5). The outbox keeps a note for each message, with the message's
//! body, and makes a packet only where it is sent from: so its bytes are copied once.
//!
//! # What a contract sees
//! An outbox is its rank, its letters in order, by rank how many were popped, and the number of notes
//! for which there is room. A letter is a packet with the rank that it goes to, and the message that
//! leaves with it; no letter is kept, and `letters_in` says which ones the notes stand for.
//! `packets_for` are the packets to a rank in a list of letters.
//! # What is proved
//! - `put_bare` and `put_message` put letters behind the others and `pop_front` takes the first one
//!   away, and all change nothing else but room. So what was put for a rank is what was popped for it,
//!   followed by what is in the outbox for it, each in order (`laws`).
//! - What is put are the packets that a message calls for, numbered on from those that were put, and an
//!   eager message leaves with its last one (`PutsBare`, `PutsPackets`, `Pops`).
//! - A packet that is made is the first letter's, of the outbox's rank and with the number after those
//!   that were popped, and so on for the others (`fill_front`: `lawful`).
//! - Nothing but `reserve` takes memory. `put_bare` and `put_message` ask for room for one note; want of
//!   memory changes nothing but the room.
//! # What is only tested
//! That `new` and `reserve` succeed with ample memory (`.ci/examples`).

pub mod laws;
mod making;
mod notes;
mod outboxes;

pub use outboxes::Outbox;
