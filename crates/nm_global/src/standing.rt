//! Where a process stands in a run, and that each of its calls keeps that.
//!
//! # What a contract sees
//! `ProcessInvariant` is the relation between a process's view and a `GhostHistory`: its log, the receives whose results
//! were given, and what left it for each rank (`specs/ProcessInvariant`).
//! # What is proved
//! - `stands`: a new process stands so, and one that does is a rank at its place in the run.
//! - `passing`: packets and pieces that leave or come keep it.
//! - `runs`: so does a command, which adds to the history.
//!
//! To use a law, call it.

pub mod laws;
