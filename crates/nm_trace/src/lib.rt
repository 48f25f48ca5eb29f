//! Traces read back: the record of a trace, or its first bad line.
//!
//! # What a contract sees
//! Bytes as a list of numbers. `specs/Traces.antt` says when bytes are the trace of a record (`IsTraceOf`),
//! when lines begin one (`BeginUpTo`), and which line is the first bad one (`IsFirstBad`). Two records are
//! the same if they are `SameRun` of `nm_report`: they differ at most in the room of their histories.
//! # What is proved
//! - The trace of a record that `read_trace` gives, with its report, is exactly these bytes; and the bytes of
//!   such a record give this record, unless memory runs out.
//! - It names the first bad line, if there is one, unless memory runs out.
//! # How it is proved
//! `specs/Machine.antt` takes the lines one by one, and the code does what this machine does
//! (`specs/Outcome.antt`). The machine's lines are the text of its state (`specs/Texts.antt`), every state
//! that it reaches begins a trace, and the lines of each trace bring it to the end. Each note of an event is
//! its line and no other (`specs/Notes.antt`).
//! # What is only tested
//! That `read_trace` succeeds with ample memory.
#![tactic(auto)]

mod answers;
mod events;
mod faults;
mod lines;
mod notes;
mod numbers;
mod reading;
mod sorts;
mod texts;

pub use faults::TraceFault;
pub use reading::read_trace;
