//! The space-time diagram of a run's record, as lists of shapes.
//!
//! After Lamport, 'Time, Clocks, and the Ordering of Events', 1978. A shape has a rank and a stamp; where it
//! is on a sheet, and what it looks like, `nm_picture` says. `pairs` finds which receive took which message
//! of a whole history.
//!
//! # What a contract sees
//! The record of a run (`nm_report`). `specs/` has the lists: the process lines of the ranks and the lines
//! that they are blocked at, a mark for each event and an arrow for each message (`Diagrams`), a link for
//! each receive that took a message (`Links`), a ring round each message that nobody took (`Left`),
//! withdrawals on their way (`Returns`), the label of each event (`Labels`), which signs are in the legend
//! (`Signs`, `Legend`), and which part of the trace is shown (`Frames`).
//! # What is proved
//! - The code finds those shapes: the arrow, the way or the ring of an event, and the link of a pair.
//! - `laws`, of the stamps of any part: each event that is shown has one mark, and each arrow goes from the
//!   send of a message to its arrival. In a run each arrival that is shown has one arrow, which goes forward,
//!   or its message was sent before the part. The legend has exactly the signs of the picture.
#![tactic(auto)]

mod anchors;
mod arrows;
mod frames;
pub mod laws;
mod legends;
mod links;
pub mod pairs;
mod returns;
mod rings;
mod signs;

pub use arrows::{Arrow, arrow_at};
pub use frames::{Frame, Part, Span};
pub use legends::{all_signs, stands};
pub use links::{Link, link_at, linked_events};
pub use returns::{Return, return_at};
pub use rings::{Ring, is_short, ring_at};
pub use signs::Sign;
