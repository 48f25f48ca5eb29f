//! Floods: scripts that are made of three numbers, and load all ways of a message at once.
//!
//! Let R be the ranks and M the messages. Message k, from 0 to M - 1, goes from rank `k mod R` to
//! rank `(k mod R + k div R + KEY) mod R`. It has tag `k mod 1000`, context `k mod 3` and
//! `(331k + 17 KEY) mod 2048` bytes, which are generated, and its send is synchronous where
//! `k mod 8` is 7 (MPI 3.1, 3.4). The sends stand in order, and then the receives, the last one
//! first, so that a receive has many messages to pass by (MPI 3.1, 3.5). Then stand the waits for
//! all sends, and those for all receives (MPI 3.1, 3.7.3). The send of message k has the name k,
//! and its receive the name `16384 + k`.
//!
//! # What a contract sees
//! The lines of a flood, by its three numbers: `flood_lines` of `specs/Flood.antt`.
//! # What is proved
//! - `flood_script` makes exactly these lines, unless memory runs out.
//! - The lines of each flood keep the limits of a script. Each is a send, a receive that names its
//!   source and its tag, or a wait (`laws`).
//! # What is only tested
//! That `flood_script` succeeds with ample memory (`nm_rows`).

pub mod laws;
mod messages;
mod scripts;
mod ways;

pub use scripts::flood_script;
