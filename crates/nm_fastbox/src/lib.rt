//! Fastboxes: a short parcel from one rank to another in at most two steps (Buntinas, Mercier and Gropp
//! 2006).
//!
//! ```text
//!   put    1 load the flag of the next box for the rank; where it isn't 0 nothing is sent
//!          2 else put the parcel into the box, and store its number plus 1 in the flag
//!   take   1 load the flag of the next box of the rank; where it isn't the awaited number plus 1, a miss
//!          2 else take the parcel out of the box, and store 0 in the flag
//! ```
//!
//! # What a contract sees
//! What the port knows before and after (`nm_cells`), what the cells in its hand hold, and the steps.
//!
//! # What is proved
//! - `put` sends the parcel by box, or gives it back exactly if the next box was found full, which `box_full`
//!   counts (clauses `puts`, `full`).
//! - `take` gives the parcel with the awaited number, or nothing exactly if another number was found, which
//!   `box_miss` counts, and never after a later parcel came and the awaited one didn't (clauses `took`,
//!   `missed`).
//! - Each takes 2 word steps if a parcel moved, else 1 (clauses `cost`, `bound`).
#![tactic(auto)]

mod moves;

pub use moves::{put, take};
