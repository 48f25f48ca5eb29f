//! Which receive takes which message, worked out plainly and slowly.
//!
//! MPI 3.1, sections 3.5 and 3.8.2. For each event of a history all events before it are looked
//! through once more, so the time grows with the square of their number. `nm_match` finds a pair
//! when its event happens; this is for a history that is there as a whole.
//!
//! # What a contract sees
//! Events and pairs as lists, by the definitions of `nm_history` (`Matching`).
//! # What is proved
//! Each call gives what the definition of its name says, and `all_pairs` the pairs of the history.
//! # What is only tested
//! That `all_pairs` succeeds with ample memory (`.ci/examples`).

mod pairs;

pub use pairs::{all_pairs, first_message, first_receive, is_free};
