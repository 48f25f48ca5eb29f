//! Input and output: where bytes come from, where they go, and what may delay a rank's turn.
//!
//! # What a contract sees
//! A `Source` is the bytes that are left, a `Sink` the bytes that it took, if it reports them; each counts
//! its faults. No clause is about bytes that are not reported. A `RealSource` and a `RealSink` report what std
//! knows: the bytes of a slice, a vector, a cursor or a deque, also through a reference, a box or a buffer, and
//! nothing of standard input, standard output, files and sockets.
//! # What is proved
//! - If a read or a write fails, its count of faults rose, or is at its last value, and no byte moved. If one
//!   succeeds, the count is as it was.
//! - `read_up_to` gives all that was left, or its first `limit` bytes, and never takes more. It ignores no
//!   failure: the count is as it was, unless it reports that a read failed.
//! - `write_all` has written all, or a prefix if it fails, and ignores no failure.
//! # What is only tested
//! That `read_up_to` succeeds with ample memory; how large its buffers are; that a read of a `RealSource` is one
//! read of its std reader, a write of a `RealSink` one write of all its bytes, and that each of their errors is
//! counted, since std's contracts name no errors; that `PairGate::met` is true only after both ranks met
//! (`nm_rows::ends`, `nm_rows::at_once`).
#![tactic(auto)]

mod gate;
mod reading;
mod real;
mod sink;
mod source;
mod writing;

pub use gate::{Gate, OpenGate, PairGate};
pub use reading::{Unread, read_up_to};
pub use real::{RealSink, RealSource};
pub use sink::Sink;
pub use source::{Failed, Source};
pub use writing::write_all;
