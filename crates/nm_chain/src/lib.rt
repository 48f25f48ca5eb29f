//! A queue of cells, and the two racing ways of a pair's packets.
//!
//! Nemesis (Buntinas, Mercier and Gropp 2006) gives each rank a receive queue and a free queue of cells,
//! lock-free, with many producers and one consumer. Here are the definitions, over lists and functions.
//! `seats` has what tables of shared words have in common, `remains` a closed one, and `table` the rule of
//! the table of cells, queues and fastboxes, with its kinds of step. The calls that make steps are one crate
//! above.
//!
//! ```text
//!   head        0      the consumer cleared it, once it had loaded cell 4
//!   shadow head 4
//!                  link          link            link
//!   chain       4 ------> 7 - - - - - > 2 ------> 5      0: last
//!                            not stored yet:
//!                            the enqueue of 2 is pending
//!   tail        5
//! ```
//!
//! # What a contract sees
//! `IsChain` says that a list of cells is the chain of a queue with these words. `InSequence` says which
//! packets of an ordered pair are on the way by box and by cell.
//!
//! # What is proved
//! - Each store and exchange of an enqueue and of a dequeue keeps the chain (`laws`): an enqueue appends its
//!   cell, and a dequeue takes the first one.
//! - No packet of an ordered pair is lost or doubled on the two ways, and if one came out of turn, the first
//!   one missing is the next one in the boxes (`laws`).
#![tactic(auto)]

pub mod laws;
pub mod remains;
pub mod seats;
pub mod table;
