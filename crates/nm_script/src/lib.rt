//! Scripts as text: the script that some bytes spell, or their first fault. `nm_written` has the one text of a script.
//!
//! docs/use/script.md has the language, README.md what is proved of `read`.
//!
//! `texts` has what scripts and plans share: their first line, the rules of texts of lines, and how such a
//! text is read. `words` reads and writes the lines, words, numbers and hex digits of any text,
//! `command_line` reads the words of the command line, and `flood` makes scripts of three numbers.
//!
//! # What a contract sees
//! The text of a script and its limits (`Spelled`: `IsTextOf`). The rules of lines, one for each kind of
//! fault, and the first fault of a text (`Rules`: `KeepsRule`, `IsFirstFault`), by the words of a line and
//! not by how they are read (`Arguments`).
//! # What is proved
//! - What is read is spelled by the bytes, within the limits, and what bytes spell is read as exactly that,
//!   unless memory runs out (`taken`, `takes`).
//! - A refusal has the line and the kind of the first fault, and each text with a fault is refused with it,
//!   unless memory runs out (`fault`, `faults`). `fault_text` is its line and the name of its kind.
//! - Bytes spell at most one script; reading and writing are inverse, but for a missing last line feed; a
//!   text keeps every rule exactly if it is a command's line at its place (`laws`).
//! # What is only tested
//! That `read` succeeds with ample memory.
#![tactic(auto)]

mod bodies;
pub mod command_line;
mod commands;
mod fault_texts;
mod faults;
pub mod flood;
mod keywords;
pub mod laws;
mod lengths;
mod reading;
pub mod texts;
pub mod words;

pub use bodies::body_from;
pub use commands::rank_from;
pub use fault_texts::fault_text;
pub use faults::{Kind, LineFault, ScriptFault, TextFault};
pub use lengths::{command_len, is_too_long};
pub use reading::read;
