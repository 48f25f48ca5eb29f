//! Rendezvous: a message that is announced by a request to send, cleared by its receiver, and then
//! sent in data pieces; and the recall of messages.
//!
//! MPI 3.1, sections 3.4 (synchronous mode) and 3.8.4 (cancel of a send). The sender has `Offers`:
//! a message that was asked is cleared once, is sent in pieces of at most 1,024 bytes, and is out
//! with the last of them. The receiver has `Grants`: a message that was granted takes its pieces in
//! order, is whole with the last of them, and its bytes are taken once. Pieces are sent in the
//! order of clearance, and those of one sender come in the order of its grants.
//!
//! # What a contract sees
//! `Offers` is seen as a list by destination of what was asked and what was recalled, both by the
//! message's number, and as the order of clearance over all destinations. An asked message has one
//! of four states: asked, with its body; cleared, with its body and the number of its pieces that
//! were popped; out; or withdrawn. A recall has its answer, or none yet. `Grants` is seen as a list
//! by sender of its grants in order, each with its message's number, its length and its bytes so
//! far, which are `None` once they were taken; and as the room for more grants of each sender.
//! Entries stay for good in these lists. Memory holds the messages that wait or leave, the recalls that
//! were not answered, the grants whose bytes were not taken, and the order of clearance from the first
//! message on that is not out: `held`, `held_recalls` and `held_order` tell how many they are.
//! The order has one place reserved for each message that waits.
//! # What is proved
//! - Only `cleared` makes a message cleared. It puts it at the end of the order.
//! - `next_piece` fills a place of its caller's with the next piece of the first message in the order
//!   that is not out; `pop_piece` counts it, and names its message at the last piece. `None` comes
//!   exactly where every cleared message is out, and the place is then as it was.
//! - A withdrawal that was done is of a message that was never cleared.
//! - `piece` puts its bytes behind those of the first unfinished grant of its sender, and `take`
//!   gives the bytes of a whole one. A grant after `reserve`, or `reserve_for` its sender, is not
//!   refused. `is_due` is false exactly where every grant of a sender is whole, `is_any_due` where that is so of all.
//! - The pieces of a body, joined in order, are the body (`laws`).
//! - After want of memory nothing has changed.
//! # What is only tested
//! That calls which take memory succeed with ample memory.
#![tactic(auto)]

mod asked;
mod cuts;
mod destinations;
mod granted;
mod granting;
pub mod laws;
mod offering;
mod senders;

pub use granting::Grants;
pub use offering::Offers;
