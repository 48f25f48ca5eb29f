//! Laws of the ranks of a run. Each is the contract of a function that does nothing.

pub mod rest;
pub mod starts;
pub mod steps;
