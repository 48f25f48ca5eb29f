//! What a rank knows of each other rank by its packets and pieces, and what these make happen.
//!
//! MPI 3.1, sections 3.4 (communication modes), 3.5 (order) and 3.8.4 (cancel of a send). A rank has
//! one `Stream` for each rank that sends to it, itself too. It tells of each packet whether it
//! continues its stream; one that doesn't is a stray, which teaches nothing and makes nothing
//! happen. `pieces` tells whether a long message is whole with a piece of it.
//!
//! # What a contract sees
//! A `Stream` is seen as what the packets told, by the words of the protocol (`nm_history::protocol`), and as
//! the room for more. What only the rank's own history says is passed as an answer of yes or no:
//! whether the rank awaits the packet, and whether what the packet asks for is done at once.
//! What is still due of a sender's grants (`nm_rndv`) is seen as the protocol's list of due pieces.
//! # What is proved
//! - `continues` is the protocol's answer, on every history of which the answer that was passed is
//!   true.
//! - `learn` is the protocol's step, and takes no memory after `reserve`.
//! - `events` gives what the protocol says that a packet of a message makes happen, on every such history.
//! - Whether a message is whole with a piece that continues it is the protocol's.
//! - Of the withdrawals and the clearances memory holds those that came before their time (`Numbers`), 64 messages
//!   to a block: that of each message to or from the rank, up to the first that has none, is counted. It holds no
//!   answer to a recall.
//! - After want of memory nothing that is known has changed.
//! # What is only tested
//! That calls which take memory succeed with ample memory.

mod apart;
mod counted;
mod effects;
mod numbers;
pub mod pieces;
mod streams;

pub use effects::Made;
pub(crate) use effects::arrival;
pub use streams::Stream;
