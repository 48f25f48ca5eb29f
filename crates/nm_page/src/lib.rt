//! The picture of a run as one interactive page of HTML, which needs no network.
//!
//! The page is the picture of `nm_picture`, byte for byte, between two constant texts: a style, and a script
//! that reads the marks, arrows and bows of the picture. It zooms, keeps the names of the ranks and the axis
//! in view, describes what the pointer is on and lights its message, and shows the posted and the unexpected
//! queue of each rank at a stamp.
//!
//! # What a contract sees
//! The record of a run, and bytes as a list of numbers. `specs/Pages` has the text of a page.
//! # What is proved
//! - The page of a part of a run holds the picture of that part, and all else is the same in each page.
//! - `laws`: a part of a run has one page; after its first line it is well-formed markup; and its style hides
//!   nothing.
//! # What is only tested
//! What the script does (`.ci/page`), and that it succeeds with ample memory.
#![tactic(auto)]

pub mod laws;
mod pages;
mod texts;

pub use pages::page_in;
