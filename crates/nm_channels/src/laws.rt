//! Laws of both ends of a channel. Each is the contract of a function that does nothing.

pub mod logs;
pub mod settled;
