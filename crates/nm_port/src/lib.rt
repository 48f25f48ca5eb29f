//! A rank's port: sending a parcel by box or by cell, and polling for the next parcel of any rank.
//!
//! The parcels of an ordered pair of ranks are numbered, and race on two ways: by box, or by cell. `poll`
//! merges the two by number. A parcel that came by cell before one with a smaller number is held; then the
//! first one that is missing is in the pair's next box, so the merge never stalls.
//!
//! ```text
//!   send   a short parcel by box; where that is full, or for a longer one, by an own cell
//!   poll   the held parcel, where its turn has come
//!          else the awaited parcel of the first rank whose next box has it
//!          else the first parcel of the receive queue, where its turn has come; its cell goes home
//!          else that one is held, and the awaited parcel of its sender is in the next box: that
//! ```
//!
//! `carried` has laws: what a port carried, by the lists of its packets. README.md has a call and what a
//! caller owes.
//!
//! # What a contract sees
//! What the port knows before and after (`nm_cells`): what was put and taken by each way, the counts of
//! misses, and the steps.
//! # What is proved
//! - `send` reports by which way the parcel went, or gives it back with its causes: the box was full or too
//!   short, and the own free queue had a miss (clauses `sends`, `back`). At most 9 word steps (clause
//!   `bound`).
//! - `poll` gives the parcel of its sender whose number is awaited and no other (clause `polls`); none only
//!   if nothing is held, no next box had the awaited number and the receive queue had a miss (clause `none`).
//!   At most as many word steps as there are ranks, and 10 (clause `bound`).
//! - Neither takes memory or waits. The cells in hand stay, with what they hold, and so does the number of
//!   things in hand, but for a box that the caller had at work (clause `keeps`).
#![tactic(auto)]

pub mod carried;
mod cells;
mod polls;
mod sends;

pub use nm_cells::{Closed, Fabric, Port};
pub use polls::poll;
pub use sends::{Sent, send};
