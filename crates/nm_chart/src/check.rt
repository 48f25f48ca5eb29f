//! Scripts and traces in, pictures out, which say where a trace breaks a rule first.
//!
//! `chart_check` is the one top call. It takes the words of `nemesis check`, reads a script and a
//! trace with a line `---` between, and writes the picture of the trace.
//!
//! # What a contract sees
//! Bytes as a list of numbers. `nm_breaks` says what is found of them, `nm_picture` what a picture
//! with a flag is; `specs/Findings.antt` joins the two.
//! # What is proved
//! - At status 0 what was written is the picture of a trace that holds, and at 8 that of a broken one,
//!   whose record is the one that is judged, with a flag at what `nm_breaks` finds: an event, the
//!   end of a rank, or a line of the trace. At 2 the words are not taken, and nothing was read; at 3 there is
//!   no script, at 9 no trace. They yield to 4, 5 and 6.
//! - At 5 the sink took a front of the text that was due. At 6 nothing was written.
//! # What is only tested
//! That it succeeds with ample memory.

mod findings;
mod places;
mod top;

pub use top::chart_check;
