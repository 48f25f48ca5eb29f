//! The persistent and partitioned requests of a plan: what each line makes of them, which two
//! belong together, and the commands that a line stands for.
//!
//! # What a contract sees
//! The requests that lines make, with their state (`Requests`); the two ends of each (`Ends`); in
//! which state a request is for a command (`States`); the commands that a line and a whole plan
//! stand for, with the parts of a body (`Expansion`).
//! # What is proved
//! - `Requests` and `Ends` have just what the lines that they noted make (clauses of `new`,
//!   `of_line`, `parts` and `note`).
//! - `Request::allows` says whether a request is in a state for a command.
//! - `push_lines_for` puts just the commands that a line stands for.
//! # What is only tested
//! That they succeed with ample memory, by the plans of `.ci/examples`.

mod ends;
mod expansions;
mod parts;
mod requests;
mod states;

pub use ends::{Channel, End, Ends, Sort, parts_in};
pub use expansions::push_lines_for;
pub use requests::{Owner, Request, Requests, Side};
