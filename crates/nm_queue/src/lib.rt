//! Enqueue and dequeue: a queue of cells with many producers and one consumer, without a lock (Buntinas,
//! Mercier and Gropp 2006).
//!
//! ```text
//!   enqueue        1 store 0 in the cell's link
//!                  2 exchange the tail for the cell
//!                  3 store the head where there was no tail, else the link of the cell that was last
//!   dequeue        1 where there is no shadow head: load the head; 0 is a miss
//!                  2   and clear it: its cell is the shadow head
//!                  3 load the link of the shadow head; where it has a cell, the first cell is taken
//!                  4 else exchange the tail for 0 where it is this cell; then it is taken
//!                  5 else load the link once more; 0 is a miss, and the cell stays first
//! ```
//!
//! # What a contract sees
//! What the port knows before and after (`nm_cells`), what the cells in its hand hold, and the steps.
//!
//! # What is proved
//! - `enqueue` can't be refused, takes 3 steps, and puts the cell's parcel (clauses `enqueued`, `bound`).
//! - `dequeue` takes the first cell, or has a miss that names its cause and whose count rose (clauses `took`,
//!   `missed`), in the steps of a table, at most 5 (clauses `cost`, `bound`).
#![tactic(auto)]

mod moves;

pub use moves::{Miss, dequeue, enqueue};
