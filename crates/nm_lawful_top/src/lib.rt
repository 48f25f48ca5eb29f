//! Whether MPI's text alone allows the answers of a script's ranks: words, a script and answers in, a verdict
//! and a status out.
//!
//! `lawful` is the one top call. The input is a script, a line `---` and the answers in the order of time,
//! each on a line `RANK LINE ANSWER`, or `RANK LINE waits` for a rank that is blocked at the end; the others
//! are at their ends. `words` reads the words of the command line, `items` one line of the answers,
//! `readings` all.
//!
//! # What a contract sees
//! `specs/Items.antt` and `specs/Readings.antt` say what the lines mean, `specs/Answers.antt` which verdict
//! is right, by `JudgedSays` of `nm_lawful`. `lawful` says by one relation, `IsDone`, that it is written and
//! nothing else.
//! # What is proved
//! - Status 0: a run of the machine of `nm_lawful` that comes to rest gives these answers and no others, with
//!   these ranks blocked at these lines. 8: none does, and the first answer in time is named that no run
//!   gives after those before it; or, if all answers are possible, the first rank that can't rest as
//!   reported, with those below it.
//! - Status 2 exactly if the words are not accepted, and then nothing was read; 3 only if the bytes before
//!   `---` spell no script, 9 only if there is no `---`, the input is too long, or a line after it is of no
//!   line of the script, of one that has its answer, or of a rank that is blocked; each with its place. 7
//!   only if moves lead to more different states than the words allow.
//! - Status 4 and 5 only if the count of faults of the source or the sink rose; at 6 nothing was written.
//! # What is only tested
//! That it succeeds with ample memory, and that it agrees with an independent list of all reports
//! (`.ci/conform`).
#![tactic(auto)]

mod asking;
mod items;
mod readings;
mod responses;
mod tops;
mod words;

pub use tops::lawful;
