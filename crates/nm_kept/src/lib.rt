//! Lists of which memory holds a part.
//!
//! What a long run adds to for ever, and looks up only while it lasts, need not be in memory whole. A
//! `Kept` holds the end of a list: items are pushed behind the others, those at its front are let go when
//! they are done with, and each keeps its number. `Entries` are by numbers that a caller gives; each is let
//! go when it ends, whatever stands before it.
//!
//! # What a contract sees
//! The whole list, with what was let go; of a `Kept` how many items that were, and for how many there is a
//! place; of `Entries` those in memory, and the room for more. So what a contract says of the list stays
//! true as items of it are let go. `Keeping` and `Entering` in `specs/` have the definitions.
//! # What is proved
//! - `push`, `set` and `replace` of a `Kept` change the list as those of a `Vec` do, and `forget_first` and
//!   `forget_to` leave it as it is.
//! - `get` lends an item exactly where it is in memory, and `first` the first that is.
//! - An item can be pushed without memory where there is a place (clause `succeeds`), and each item
//!   that is let go leaves its place to a later one.
//! - `held` is how many are in memory: the items of a `Kept` behind those that were let go, and the entries
//!   of `Entries` that did not end. Memory has places for fewer items of a `Kept` than 2^63
//!   (`places_are_few`), so that one added to how many are free is a `usize`.
//! - `put`, `replace` and `end` of `Entries` change the list as those of a map do that keeps the order of
//!   its entries. After `end` an entry is not in memory, and the others stay there. So a user that ends
//!   each entry when its value fails a test holds in memory exactly those that pass (`AreLive`).
//! - `laws`: the whole list is what was let go and then what is in memory.
#![tactic(auto)]

mod entries;
pub mod laws;
mod lists;

pub use entries::Entries;
pub use lists::Kept;
