//! Why a script can hang: words and a script in, texts and a status out.
//!
//! `why` is the one top call. It takes the words of the command line, reads a script, searches through all its lawful
//! runs, and writes how many of its reports are stuck; if one is, the least part of the script that still does what
//! the script does, and the single changes after which no run hangs. Where the list of all reports grows too long, a
//! search for one run that hangs, and one for a run that ends, say the same but for the numbers.
//!
//! Each change and each command left out is tried by such searches, which end at the first run that they look for.
//!
//! # What a contract sees
//! The words as lists of bytes; the bytes that the source tells, of which at most 8,388,609 are read; the bytes that the
//! sink tells; the status. `nm_why` says when a script can hang, what a least part of it is, and what a cure.
//! # What is proved
//! - What was written is due, by one relation (`TellsWhy`): the numbers of all reports that the script can have, and of
//!   those that are stuck (`AreOutcomes`), or that they outgrow the list; a least part (`IsLeast`); the cures among all
//!   single changes (`AreCures`, `IsSingle`), with those at which a search gave up.
//! - Status 0 and 1 with it; 2 where the words are not taken, and then nothing was read; 3 where the bytes spell no
//!   script; 4 and 5 where the source or the sink failed; 10 where the searches gave up.
//! # What is only tested
//! That it succeeds with ample memory (`tests/why`).
#![tactic(auto)]

mod answers;
mod asking;
mod searching;
mod seeking;
mod tops;

pub use tops::why;
