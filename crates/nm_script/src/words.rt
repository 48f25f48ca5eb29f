//! Words on lines: what texts are made of that a program reads.
//!
//! # What a contract sees
//! Bytes as lists of numbers; the lines of a text and the words of a line as lists of such lists
//! (`Lines`), numbers in decimal (`Decimal`), hex digits in lower case (`Digits`).
//! # What is proved
//! - `split_line` gives the first line of a text and what stands behind it, `words` the words of a
//!   line with one space between each two, `is_printable` and `is_fed` what they test.
//! - `number_up_to` and `number` take exactly the spellings of the numbers in their range, up to 64
//!   bits, and `decimal_len` says how long the spelling of a number is.
//! - `are_lower_digits` says whether bytes are hex digits in lower case.
//! - The lemmas, which are public: lines that are ended are split again, and lines that were split
//!   are the text again; words that are joined are split again; each number has one spelling; hex
//!   digits in lower case are what the bytes are written as.

mod digits;
mod lines;
mod numbers;

pub use digits::are_lower_digits;
pub use lines::{is_fed, is_printable, split_line, words};
pub use numbers::{decimal_len, number, number_up_to};
