//! All ranks of a run: what each has done, and that nothing is between them at its end.
//!
//! `nm_global::log` ties a rank to the moments of its calls, `nm_global::outgoing` to what left it, and
//! `nm_channels` says what two ranks with nothing left to send owe each other. This crate joins the three for
//! all ranks. Whatever runs them, on one thread or on many, shows at its end that each took what the others
//! sent it, and that nothing is left to send; then the histories are a run (MPI 3.1, chapter 3). No law is
//! about threads or a schedule.
//!
//! # What a contract sees
//! `OneRank` is a rank with what no program keeps: its place among its commands, its log, the receives whose
//! results were given, and what left it for each rank. `RankInvariant` says that it is at its place,
//! `IsPassed` that one rank took of another what left that one for it, and `HasNothingToSend` that nothing is
//! left to send; `AreAtRest` is all of it for all ranks (`specs/Ranks`).
//! # What is proved
//! - `starts`: new ranks are at their places, and nothing is between them.
//! - `steps`: whichever call changes a rank, it is at its place from then on (`specs/Steps`: `IsPlaced`, and
//!   `after`, which has a case for each call).
//! - `rest`: if each rank at rest is at its end or blocked, their histories are a run. As many packets were
//!   popped as the histories call for, and no packet or piece that was taken was a stray.
#![tactic(auto)]

pub mod laws;
pub mod log;
pub mod outgoing;
pub mod standing;
