//! Traces in, verdicts out: where a trace breaks a rule of its script first, in plain words.
//!
//! `verdict` is the one top call. It takes the words of `nemesis check`, reads a script and a trace,
//! and writes one line. It says by one relation, `IsDone`, that what is due is said and nothing else;
//! `laws` has what follows from that.
//!
//! # What a contract sees
//! Bytes as a list of numbers. `nm_breaks` says what is found of them, and `specs/Quotes.antt` which
//! line of them is told. `specs/Texts.antt` has the sentence of each finding, `specs/Sentences.antt` the words
//! of each rule, `specs/Dues.antt` those of what was called for (`specs/Called.antt` at claims, starts and
//! cancels), `specs/Counts.antt` those of counts of packets, and `specs/Events.antt` those of what happened.
//! # What is proved
//! - What is said is of what `nm_breaks` finds, as of `nemesis check`. The statuses are 0 where the
//!   trace holds, 8 where it breaks a rule, 3 and 9 where there is no script or no trace, 2 where
//!   the words are not taken. They yield to 4, 5 and 6.
//! - The source is read to its end, or its first 67,108,865 bytes are, and more is taken at no
//!   status. No failure of the source or the sink is passed over.
//! - At 5 the sink took a front of the text that was due. At 6 nothing was written.
//! # What is only tested
//! That it succeeds with ample memory.
#![tactic(auto)]

mod answers;
mod called;
mod dues;
mod events;
pub mod laws;
mod quotes;
mod sentences;
mod texts;
mod top;

pub use top::verdict;
