//! What the programs share, from the bytes that they read to the status that they end with.
//!
//! `words` are those of the command line; `parts` cuts what was read into a script and what stands after the
//! first line `---`; `deliver` writes a text and answers the status that goes with it. `laws` says that what
//! was put together is cut there.
//!
//! # What a contract sees
//! Bytes as a list of numbers. `specs/Inputs.antt` says where they are cut (`IsCut`: at the first line
//! `---`). `specs/Done.antt` says how a call of a program ends, whatever its answers are: `Ending` is what is
//! seen of it, `IsSaid` that a text was written with its status, `IsDone` that it ended with a right answer.
//! # What is proved
//! - `parts` gives the two parts exactly where the bytes are short enough and have a line `---`, and they
//!   can be cut in no other way.
//! - `deliver` writes all of the text and gives its status, or a part of it and 5; a fault of the sink is
//!   not ignored.
//! - A text that has a script, a line `---` and any text is cut into these two, and in no other way.
//! # What is only tested
//! That `words` gives the words of the command line.
#![tactic(auto)]

mod arguments;
mod inputs;
pub mod laws;
mod saying;

pub use arguments::words;
pub use inputs::{MAX_INPUT, parts};
pub use saying::{WANT_OF_MEMORY, deliver, line};
