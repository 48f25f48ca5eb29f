//! Why a script can hang: the least part of it that can, and the single changes after which it can't.
//!
//! A `Search` says how the runs of a script end, or gives up. `least_part` leaves out many commands at once, then one
//! after another, while the others can still hang (or hang and end); `cures_among` tries single changes.
//!
//! # What a contract sees
//! `specs/Hangs.antt` says when a script can hang and when it can end, by its lawful runs (`IsRunIn`).
//! `specs/Least.antt` has the least part, `specs/Changes.antt` the changes, `specs/Cures.antt` the cures.
//! # What is proved
//! - The part that `least_part` gives does what is asked, and without any one of its commands it does not, but for
//!   those commands at which a search gave up; it names these (`IsLeast`).
//! - After each change that `cures_among` names none of the runs hangs; each other change that was tried is no cure, but
//!   for those at which a search gave up, which it names (`AreCures`).
//! - `script_of` refuses exactly the lines that are no script.
//! # What is only tested
//! That all of these succeed with ample memory.
#![tactic(auto)]

pub mod candidates;
pub mod changes;
pub mod cures;
pub mod hangs;
pub mod least;
mod limits;
pub mod parts;

pub use limits::script_of;
