//! Where a trace breaks a rule of its script first.
//!
//! `words` reads the words that ask for it. `written` has laws: the trace of a run is read back.
//!
//! # What a contract sees
//! `specs/Found.antt` says what each answer means (`IsFound`), by the definitions of `nm_shell`, `nm_script`,
//! `nm_trace` and of the crates below: the verdict is the one of `nm_check`, and `specs/Judgements.antt`
//! says where the trace breaks the rule first, and what that rests on. For a rule of a rank's own run it is
//! the first event at which that rank breaks any rule of its own run (`IsBreach` of `nm_check_rank`): the
//! events before it keep all of them. For a rule between two ranks it is the first event of both, as their
//! lines are read (`BreaksCarriedAt` of `nm_check`); for a rule of rest the first event that is left
//! unfinished, or the first rank that stands where it may not (`specs/RestBreaks.antt` of
//! `nm_check::rest`), or the first count of packets that is not the one called for. The cells
//! and the end have the last two lines. `specs/Stops.antt` says what stops a text that is no trace.
//! # What is proved
//! - `find` tells the cases apart in their order: no room or no line `---`, no script before it, no trace
//!   behind it, else the judgement on the trace. The trace of a record that is of a run of the script holds.
//! - A judgement rests on what is there: of a rule of a rank's own run the rule that breaks first, what was
//!   called for and what was found, of a rule between two ranks the event of the other rank that it is held
//!   against (`specs/Others.antt`) and what stands between the two (`specs/Against.antt`), of a rank at rest
//!   its next command, of the counts of packets the one that is called for and the one that stands there
//!   (`specs/Miscounts.antt`), and of the cells how many there are to be.
//! - Each line that is told, of an event, of the other rank's event, of a count, of the cells and of the
//!   end, is the one on which it stands (`Stands`, `specs/Lines.antt`).
//! - Of a text that is no trace it tells the first bad line, and what stops the text there (`IsStop`):
//!   that there is no such line, that its line feed is missing, that it begins some trace but stands
//!   behind lines which it can't follow, that it begins one with other numbers, that it names an event
//!   which there isn't, that it is one of a report, or none of these.
//! # What is only tested
//! That `find` succeeds with ample memory.
#![tactic(auto)]

mod against;
pub mod cells;
pub mod counts;
mod finding;
pub mod judgements;
mod others;
pub mod places;
pub mod stops;
pub mod words;
pub mod written;

pub use finding::{Found, find, found_status};
pub use judgements::Judgement;
pub use places::EventLine;
pub use stops::Stop;
