//! What is said of a script that can hang: where its ranks wait and for what, its least part, and its cures.
//!
//! `Why` is what was found out. `push_why` writes it, a line for each fact.
//! # What a contract sees
//! `specs/Waiting.antt` has the lines of a state in which ranks wait, `specs/Texts.antt` those of the least part and of
//! the changes, and the whole text.
//! # What is proved
//! - `push_why` writes that text and no more.
//! # What is only tested
//! That it succeeds with ample memory.
#![tactic(auto)]

mod texts;
mod waiting;
mod whys;

pub use texts::push_why;
pub use whys::Why;
