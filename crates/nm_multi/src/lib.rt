//! Several threads that share one rank.
//!
//! MPI 3.1, section 12.4: their calls are as if one came after another. A `Desk` has the only rank of its
//! shape, and the log of all calls made on it. `Turns` is a desk with the programs of the threads, and
//! `multi` runs them, with the `Turns` in a lock.
//!
//! # What a contract sees
//! A `CallLog` is its entries, and for how many more there is room. A `Desk` is the view of its rank
//! (`nm_rank`) and its log, and `Turns` is a desk with the numbers of threads and rounds.
//! # What is proved
//! - A call of `make` adds its entry and no other, with the reply of the rank (`made`, `err`), and the log
//!   leads from a new rank to that of the desk (`replay`). A receive shows the body of the send that it is
//!   paired with.
//! - `next` makes the next call of a thread's program, and answers `false` exactly if the thread made all of
//!   them (`last`, `more`).
//! - The log that `multi` gives is one legal history of one rank, with each thread's whole program, each call
//!   once and in its order, and none cut short (`whole`). Its bytes can be counted in 64 bits (`countable`).
//! - `text` gives exactly `log_text` of the log.
//! # What is only tested
//! That threads run at once, and that the calls succeed with ample memory. No clause orders the calls of
//! different threads.
#![tactic(auto)]

mod calls;
mod desks;
mod laws;
mod moving;
mod texts;
mod threads;
mod turns;

pub use calls::{Call, CallLog, Entry, Reply};
pub use texts::text;
pub use threads::multi;
pub use turns::{MAX_ROUNDS, MAX_THREADS};
