//! Laws of what left a rank. Each is the contract of a function that does nothing.

pub mod leaves;
pub mod starts;
