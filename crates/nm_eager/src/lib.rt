//! Eager messages: cut into packets at the sender, and joined again at the receiver.
//!
//! MPI 3.1, sections 3.4 and 3.5. A `Cutter` gives the packets of one message: a head with the first 256
//! bytes, then one more packet for every further 256 bytes or the rest. A `Joiner` takes the packets of all
//! senders, and keeps the bytes of each message until a receive takes them.
//!
//! # What a contract sees
//! A cutter is a message and the number of packets given. A joiner is the sizes of the run and, for each
//! sender, how many messages were counted and those that weren't taken, each with its number, its length and
//! its bytes so far; and the room for what comes next. `Streams` in `specs/` has the definitions: what the
//! messages of a list of packets are, what one packet changes, and which packets continue their stream.
//! # What is proved
//! - `fill` makes the next packet, with its part of the body, `step` goes on to the next one, and `count`
//!   says how many there are.
//! - `continues` says by two numbers whether a packet continues its stream, and `fits` is true exactly for an
//!   eager one that does (clause `value`); `add` and `skip` change a stream by one step (clause `step`), and
//!   `take` removes one message (clause `others`).
//! - `held` says how many places a joiner keeps for a sender, at most as many as messages were counted since
//!   the first one that wasn't taken.
//! - After `reserve` the packet can be added without memory (clauses `ok` and `succeeds`), and want of memory
//!   changes no message.
//! - `laws`: the steps of a stream give its messages, and the packets of a cut give the body.
//! # What is only tested
//! That `new`, `reserve` and `add` succeed with ample memory.
#![tactic(auto)]

mod continuing;
mod cutting;
mod joining;
pub mod laws;
mod messages;
mod senders;

pub use continuing::continues;
pub use cutting::Cutter;
pub use joining::Joiner;
