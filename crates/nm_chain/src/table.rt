//! The shared table of cells, fastboxes and queues: what a rank's seat knows of it, and its rule.
//!
//! A table (`atomic_table`) has words that change in single atomic steps, slots, and seats. Here
//! the words are the heads and tails of all queues, the links of all cells and the flags of all
//! fastboxes, and the slots are those of the cells and fastboxes (Buntinas, Mercier and Gropp
//! 2006).
//!
//! What is carried is any item (`Item`), which lies in a box of memory with its sender and its number
//! (`Parcel`). A slot has such a box or none (`Slot`), and boxes are exchanged.
//!
//! # What a contract sees
//! `Entry` is what one rank knows, of which no value is made. `Rule` is what holds of the words,
//! the slots and all entries between any two steps of any ranks. For each kind of step (`kinds`)
//! there is a play: which word it is on, and what it tells the seat that makes it (`Plays`). The
//! layout of the words is `head_word`, `tail_word`, `link_word` and `flag_word`, in the rule, the
//! plays and the program alike.
//!
//! # What is proved
//! - The rule holds at the start (`Linked`), and each play keeps it, as the callers of the table
//!   show by the lemmas in `proofs/`.
//! - A parcel in a box is its sender's, and its item fits a box (`GoesByBox`).
//! - What the last steps on an own queue told is kept by queue (`Looks`), and stays so whatever the
//!   other ranks do where the tail was found elsewhere (`Rule.told`).
//! - A count of misses goes up by one, and stands still at its last value (`Misses`, `one_more`).

mod items;
mod kinds;
mod parcels;
mod slots;
mod table;
mod words;

pub use items::Item;
pub use kinds::{
    BoxStep, Clears, ClearsHead, Drains, Fills, Finishes, LoadsHead, LooksIn, LooksOut, Passes,
    Picks, Reloads, Swaps, Vacates,
};
pub use parcels::Parcel;
pub use slots::Slot;
pub use table::{Board, BoardSeat, Entry, Hand, Heads, Linked, Look, Looks, Misses, one_more};
pub use words::{flag_word, head_word, link_word, tail_word};
