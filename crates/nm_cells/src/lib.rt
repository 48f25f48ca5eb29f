//! The shared region of cells, fastboxes and queues, each rank's port to it, and the atomic steps on it.
//!
//! Nemesis (Buntinas, Mercier and Gropp 2006): each rank owns some cells. An empty cell is in its owner's
//! free queue. To send, the owner fills it and enqueues it into the receiver's receive queue; the receiver
//! empties it and enqueues it back.
//!
//! ```text
//!            free queue of 0          receive queue of 1
//!   rank 0  <------------------+    +------------------->  rank 1
//!     | take, fill             |    |                        | take, empty
//!     +------- cell of 0 ------|----+                        |
//!                              +------- cell of 0 -----------+
//! ```
//!
//! Each queue is a chain of cells with a head, a tail and links (`nm_chain`). Each ordered pair of ranks also
//! has four fastboxes, which the sender fills and the receiver empties in turn; a flag is 0, or the number of
//! the parcel in its box plus 1. All words are atomic. Each call but `build`, `build_loose` and `close` makes
//! at most one step on one word, and `steps` counts those steps.
//!
//! A fabric begins with all cells loose: each is its owner's, and in no queue. `build` puts them into their
//! owners' free queues, and `build_loose` leaves them loose until their ports take them (`Port::loose`).
//!
//! # What a contract sees
//! What a port's seat knows (`knows`): the lists of parcels that it put and got by cell and by box, its
//! shadow heads, its part in each cell, the boxes at work, its counts of misses, and what its last steps
//! found of its queues' first cells (`looks`). Also what each cell in hand holds (`holding`), which cells are
//! loose (`IsLoose`), and what was sent (`sent_by`) and passed on (`taken_by`). Of a closed fabric, what each
//! rank sent to and passed on of each other, by number (`sent_list`, `taken_list`).
//!
//! # What is proved
//! - The rule of the shared table (`nm_chain::table`) holds between any two steps of any ranks: each cell is
//!   loose, in one hand or in one chain, each chain has its words and links, free chains hold their owners'
//!   empty cells, and what was put on each way is what was got and then what is under way, in order.
//! - Each kind of step keeps it, and says what it found (`produce`, `consume`, `boxes`), what is in hand and
//!   what the cells in hand hold.
//! - `loose` gives the port's lowest loose cell, empty and in hand from then on, or none exactly if there is
//!   none. No other call changes which cells are loose.
//! - A box that was found free is filled with the sender's next parcel, and one that has the awaited parcel
//!   gives it. If a parcel came before one with a smaller number, the first that is missing is in the next
//!   box (`load_box_in`: `overtaken`).
//! - After `close` what each rank got is a prefix of what was put for it, and what it passed on a prefix of
//!   what was sent to it, by number; if as many parcels were passed on as were sent, every cell is in its
//!   owner's free queue (`paths`, `settled`, `home`, `prefix`, `all_taken`).
//! - A port's counts are those of its lists; a held parcel is one that wasn't passed on.
#![tactic(auto)]

mod boxes;
mod build;
mod cell;
mod close;
mod closed;
mod consume;
mod counts;
mod loose;
mod port;
mod produce;
mod slots;
mod tallies;

pub use boxes::{empty_box, fill_box, load_box_in, load_box_out};
pub use cell::{Cell, Pending, Queue};
pub use closed::Closed;
pub use consume::{clear_head, drop_tail, load_head, load_link, reload_link};
pub use port::{Fabric, Port};
pub use produce::{clear_link, store_head, store_link, swap_tail};
pub use slots::{put_in, take_out};
pub use tallies::Tally;
