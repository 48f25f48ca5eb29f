//! Whether a rank's history is a run of its commands, which rule is the first that is broken, and
//! which event is the first that breaks one.
//!
//! # What a contract sees
//! `judging::judge_rank` answers what `IsJudged` says (`specs/Tabled.antt`): that the history is a
//! run of the rank's first commands, as `nm_history` defines it; or the first rule that is broken, by
//! the crate's names and order of the rules, and where a rule breaks first (`IsBreach`,
//! `specs/OwnBreaks.antt`). `AreRankTables` says what is looked up of a history. `specs/Told.antt`
//! has the answers without their bytes, `specs/Handles.antt` what a name and a handle stand for.
//! `specs/Dues.antt` says what is called for at an event that breaks a rule, by
//! `specs/Claimings.antt`, `specs/Startings.antt` with `specs/Arguments.antt`, and
//! `specs/Cancellings.antt`; `specs/Objections.antt` says what stands against it, and
//! `specs/Takes.antt` which event took a message.
//! # What is proved
//! - A rank's history is judged to be a run exactly where it is one, else the first rule that is
//!   broken is named, or its judging is in want of memory.
//! - Each rule has one judge, which answers what stands against an event: nothing exactly where the
//!   event keeps the rule (`standing`).
//! - No event before the first break breaks a rule of the rank. The rule that is told with it is the
//!   first in order that the event breaks, and what stands against it is told: of an answer the
//!   command that was the next one, or the answer that the events before give; of a stamp and a
//!   number those that were due; of a claim the message; of a start the first argument that is another
//!   one, or else whether it asks; of a cancel the request; and at an answer how many of them there
//!   are to be.
//! - The tables tell of the whole history what the definitions say. By them it is told which pair a
//!   wait or a test shows (`Tables::pair_asked`), and whether a command can go on at the end
//!   (`Tables::can_go_on`).
//!
//! One walk finds the first break, with look-ups for each event; of a history that breaks a rule one
//! walk for each rule tells which is the first that is broken. That is not proved.
//! # What is only tested
//! Nothing.

mod answers;
pub mod arguments;
mod arrivals;
pub mod breaches;
mod cancellings;
mod cancels;
mod claimings;
mod claims;
pub mod dues;
pub mod judging;
mod limits;
pub mod manies;
pub mod objections;
mod order;
mod results;
mod runs;
mod so_far;
mod standing;
mod startings;
mod starts;
pub mod tables;
pub mod told;
mod walks;
