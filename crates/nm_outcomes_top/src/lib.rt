//! The reports that a script can have: words and a script in, texts and a status out. `outcomes` is the one
//! top call.
//!
//! It reads a script, searches for every report that a lawful run of it can have, and writes all, or a trace
//! of one, or whether a given report is one of them, or a trace of a run that hangs. `words` reads the words
//! of the command line; `laws` has what follows, for each of these.
//!
//! # What a contract sees
//! The words as lists of bytes; the bytes that the source reports, of which at most 8,388,609 are read, with
//! `--among` 67,108,865; the bytes that the sink reports; the status. `AreOutcomes` of `nm_outcomes` says
//! that texts are the reports of all lawful runs of a script, each once, in dictionary order. `outcomes` says
//! by one relation, `IsDone`, that the right answer is written and nothing else.
//! # What is proved
//! - Status 0 and 1 without `--trace`, `--among` and `--hangs`: the reports of all lawful runs of the script that
//!   the bytes spell were written, in the sizes that the words say, each once and after a line with its number,
//!   and the line of their numbers; the status is 1 exactly if one of them is stuck.
//! - With `--eager either`: the reports of all lawful runs where each standard send of at most 4,096 bytes, by
//!   itself, is buffered or waits (`AreVariantOutcomes` of `nm_variants`), behind a line with the number of
//!   variants.
//! - With `--trace K`: the trace of a record that is of a run was written, and its report is the K-th of
//!   these; the status is 1 exactly if it is stuck. Status 7 exactly if there are fewer, with how many.
//! - With `--among`: at 0 the given report is one of them, with its number; at 8 it is not, with the first
//!   line that none of them has after the lines before it. Status 9 only if there is no line `---` or the
//!   input is too long.
//! - With `--hangs`: at 1 the trace of a lawful run that hangs was written, at 0 no run hangs.
//! - Status 2 exactly if the words are not accepted, and then nothing was read; 3 exactly if the bytes spell
//!   no script, with the first fault. 5 and 6 may come in place of each, and 4 in place of 3.
//! - If the bytes spell a script the status is one of these, or 10, or a read, a write or memory failed; 10
//!   comes only then, and then no report was written.
//! - Status 10 only if moves lead from the first state to more states than the words allow, or all reports of
//!   the script have more than 134,217,728 bytes; with `--eager either` only if there are more variants than
//!   states, one has more than its share, or reports of some have more than these bytes.
//! - Status 4 and 5 only if the count of faults of the source or the sink rose; at 5 the sink took a prefix
//!   of the text. At 6 nothing was written.
//! # What is only tested
//! That it succeeds with ample memory (`.ci/outcomes`).
#![tactic(auto)]

mod answers;
mod asking;
pub mod laws;
mod listing;
mod tellings;
mod tops;
pub mod words;

pub use tops::outcomes;
