//! What the shared tables of cells and of ring places have in common: a step counter, views of seats
//! that speak for ranks, and windows of places between a producer and a consumer.
//!
//! A table (`atomic_table`) has words that change in single atomic steps, slots, and seats. A thread
//! steps with a seat, whose view is what the thread knows. Here a view is a list of entries, one for
//! each rank that the seat speaks for. The first seat speaks for all ranks, a split gives each rank a
//! seat of its own, and joins bring the entries back together in rank order.
//!
//! # What a contract sees
//! `Steps` is the number of steps so far. `View` is a record of two lists, and no value of it is
//! made. `Spoken` ties the views to a ledger, which has one entry for each rank. `Window` says where
//! the items stand that a producer put and a consumer hasn't got yet:
//!
//! ```text
//!   item      got 0 .. g-1      waits g .. p-1              free p .. g+B-1
//!   place     (k mod B)         flag = mark of the item     flag = 0
//!   slot                        at home, with the item      at home, empty
//!                               (out: the one at g, while   (out: the one at p, while
//!                               the consumer empties it)    the producer fills it)
//! ```
//!
//! # What is proved
//! - `tick` raises the count by one, and nothing else changes it.
//! - A seat changes the entries of its own ranks alone, and splits and joins move entries as they are
//!   (`laws`).
//! - At most B items are under way in a window of B places, they come out in the order in which they
//!   went in, a full place is never filled and a free one never emptied; so many flags aren't 0 as items
//!   are under way (`laws`).

pub mod laws;
mod steps;
mod views;

pub use steps::Steps;
pub use views::{GivesFirst, Joins, Seals, View};
