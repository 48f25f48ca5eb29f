//! The history of a rank, with its clock.
//!
//! The clock is Lamport's (1978): each event adds 1 to it and has the new value as its stamp, and a
//! packet that comes raises it to the packet's stamp first. A packet that makes nothing happen raises
//! it all the same, so the clock may be past the last event.
//!
//! What records the events is a `Recorder`. A `History` keeps them all in memory. `Erased` keeps the last
//! one alone, so that a long run grows by no byte of it.
//!
//! # What a contract sees
//! A journal is the events, oldest first, the clock, and the number of events for which there is room. Of
//! an erased history, too, it is all events.
//! # What is proved
//! - Each call says exactly which events it adds, with their stamps, and what the clock is then.
//! - Stamps rise, and none is past the clock (`history`: `lawful`).
//! - `add` takes no memory. It asks for room, which `reserve` makes; want of memory changes nothing but
//!   the room.
//! - `Recorder::last` lends the last event (`Erased` has it, too).
//! # What is only tested
//! That `reserve` succeeds with ample memory (`.ci/examples`).

mod erased;
mod journals;
mod recorders;

pub use erased::Erased;
pub use journals::Journal;
pub use recorders::Recorder;
