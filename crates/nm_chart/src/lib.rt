//! Traces in, pictures out.
//!
//! `chart` is the top call. Without words it reads a trace, and writes its picture to the sink. With words
//! `chart_part` writes the picture of the part that they choose (`words`), or the page that holds it. `check`
//! has the call that takes a script and a trace in one text, and marks in the picture where the trace first
//! breaks a rule.
//!
//! # What a contract sees
//! Bytes as a list of numbers, the record that a trace's bytes spell, and the text of its picture
//! (`nm_picture`) or page (`nm_page`). Each of the three calls says by one relation, `IsDone`, that the right
//! text is written and nothing else (`Charts`, `ChartsPart`, `ChartsCheck`).
//! # What is proved
//! - Status 0 exactly if the bytes are the trace of a record, and then the picture of each record with this
//!   trace was written; 9 if they are not, with the first bad line; 2 if there are words. 4, 5 and 6 may come
//!   in place of each.
//! - The same of a part: the picture of the stamps and ranks that the words choose was written; 2 exactly if
//!   the words are not accepted, and then nothing was read.
//! - `laws`: the trace of a record of any shape is accepted; what each status of `chart` means and when it
//!   comes.
//! - The source is read to its end, or its first 67,108,865 bytes are, and never more. No failure of the
//!   source or the sink is ignored.
//! - At 5 the sink took a prefix of the text. At 6 nothing was written.
//! # What is only tested
//! That it succeeds with ample memory (`.ci/examples`).
#![tactic(auto)]

mod answers;
mod charts;
pub mod check;
mod choosing;
pub mod laws;
mod outcomes;
mod parts;
pub mod words;

pub use charts::chart;
pub use outcomes::Form;
pub use parts::chart_part;
