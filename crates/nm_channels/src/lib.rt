//! From both ends of each channel to the whole run.
//!
//! Each rank knows its own history, and which packets and pieces it took. If both ranks of a pair have
//! nothing left to send, and each took of the other what the other's history calls for, then the messages
//! between them are delivered and over. MPI 3.1, sections 3.4 (standard and synchronous mode), 3.5 (order)
//! and 3.8.4 (cancel). No law is about threads or a schedule.
//!
//! `worked` and `worked_channels` try the definitions on worked runs and logs, right and wrong.
//!
//! # What a contract sees
//! A log is a list of moments (`LogEntry`), which no program keeps: a cause, and the events that it made
//! (`specs/Moments`). Each call of a rank adds one moment, and its history is the events of its log.
//! `AreSound` says that each moment follows those before it by the protocol (`specs/Sound`). `IsEnd` says
//! that a rank has nothing left to send, `IsChannel` that a channel is empty, and `AreEnds` both of two
//! ranks, which may be the same (`specs/Ends`).
//! # What is proved
//! - `logs::moments_go_on`: a log stays sound by one moment more, and how what it shows grows.
//! - `settled::ends_are_settled`: the messages between two ends are delivered, in order and with their
//!   bodies; eager messages, and paired rendezvous ones, are over; those that are claimed and not received
//!   are kept back; recalls have their answers; and no packet was a stray.
//! - `settled::ends_make_a_run_by`: if so for each two ranks, and each rank is at its end or blocked, the
//!   histories are a run of their commands, whatever gave these; a script is one case (`ends_make_a_run`).
//!
//! Proofs above cite the lemmas of `proofs/`, as that an eager message has its body once it is over by the
//! packets taken so far (`SoFar`).
#![tactic(auto)]

pub mod laws;
pub mod worked;
pub mod worked_channels;
