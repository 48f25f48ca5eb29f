//! Lists that only proofs read.
//!
//! A `Trace` takes no bytes: contracts see its items, and the running program has none. A `Latest` keeps only
//! the last item in memory.
//!
//! # What a contract sees
//! The items, oldest first.
//! # What is proved
//! - `Trace::then` and `Latest::push` append one item.
//! - `Latest::last` lends the last one.
#![tactic(auto)]

mod latest;
mod traces;

pub use latest::Latest;
pub use traces::Trace;
