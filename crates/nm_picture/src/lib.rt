//! The picture of a run: its space-time diagram as one SVG.
//!
//! # What a contract sees
//! The record of a run, and bytes as a list of numbers. `nm_diagram` says what a picture shows, by lists of
//! shapes. `specs/Pictures` has the text of each shape, and of all of them in order, `Sheet` what is in each
//! picture, `Flags` the flag that a picture may have at a place, and `WellFormed` what well-formed markup is.
//! # What is proved
//! - The picture is a function of the record: its text is exactly that of those lists, in order.
//! - `laws`: a part of a run has one picture, the same with silent ranks after its own, and it is well-formed
//!   markup. Each sign of the legend is drawn.
//! # What is only tested
//! That it succeeds with ample memory (`.ci/examples`), and that a browser shows what is meant.
#![tactic(auto)]

mod arrows;
mod axis;
mod flags;
mod labels;
pub mod laws;
mod legend;
mod links;
mod marks;
mod outlines;
mod pictures;
mod places;
mod returns;
mod rings;
mod sheet;
mod tags;
mod words;

pub use flags::Flag;
pub use pictures::{flagged_picture, picture, picture_in};
