//! The copy ring: pieces of long messages between two ranks, without a queue.
//!
//! For each ordered pair of ranks there are four places, which its sender fills in turn and its receiver
//! empties in turn. Each place has a flag, which is 1 if the place is full, and a slot for the box that a
//! piece is in. Boxes are exchanged, and no piece is copied. No call takes memory.
//!
//! ```text
//!   sender                                                    receiver
//!     push: flag 0? put the piece in, store 1    pull: flag 1? take the piece, store 0
//!        |                                                        |
//!        v        place 0   place 1   place 2   place 3           v
//!     piece 6    | 4      | 5      | free   | 3      |         piece 3
//! ```
//!
//! The k-th piece of a pair goes through the place k mod 4. A call makes at most two steps, each on one word,
//! and waits for nobody: if the next place is full, nothing is pushed, and if it is empty, nothing is pulled.
//! All flags are atomic, and `steps` counts the steps on them.
//!
//! # What a contract sees
//! What a port's seat knows (`knows`): the pieces that were pushed to each rank and pulled from it, how often
//! its next place was found full, and how often empty; and what it found at its last look (`IsFree`,
//! `IsFull`).
//!
//! # What is proved
//! - The rule of the shared table holds between any two steps of any ranks: what was pushed to a rank is what
//!   that rank pulled, and then what is in the full places, by number.
//! - `push` adds its piece to those that were pushed, or gives it back if it loaded the flag of the next
//!   place as 1, and then the count of full places rose. `pull` gives the next piece by number, or none if it
//!   loaded that flag as 0, and then the count of empty places rose.
//! - `can_push` and `can_pull` load the same flag without a piece. After a yes, which only this load gives, a
//!   push or a pull can't fail.
//! - After `close` what each rank pulled from another is a prefix of what was pushed to it, at most four
//!   pieces are left between the two, and `left` counts all that are left.
#![tactic(auto)]

mod build;
mod close;
mod closing;
mod counts;
mod pieces;
mod port;
mod slots;
mod steps;
mod table;
mod tallies;

pub use close::RingAccount;
pub use pieces::{can_pull, can_push, pull, push};
pub use port::{RingPort, Rings};
pub use slots::Slot;
pub use table::{Entry, Lane, Look, Work};
pub use tallies::Tally;
