//! Laws of the log of a rank. Each is the contract of a function that does nothing.

pub mod moments;
pub mod results;
