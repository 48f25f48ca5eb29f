//! Laws of the calls of a process. Each is the contract of a function that does nothing.

pub mod passing;
pub mod runs;
pub mod stands;
