//! What the ranks told where no move is left is what a lawful run tells: a law.
//!
//! # What a contract sees
//! `specs/Ends.antt` says it, by the states and moves of `nm_explored` and the records of `nm_report`.
//! # What is proved
//! - Wherever moves lead to states at which no rank has a move left, some run of the script tells what the
//!   ranks told there (`ends_are_runs`). With the search that finds all ends this makes its reports those of
//!   all lawful runs, and no other.
//!
//! Beside the moves a log is made, in which each event may come next. A move stands in it as its event. What is
//! no move (a message is whole, has left, is withdrawn too late, a recall is answered) stands just before the
//! result that needs it, so that a test may say no until then, or behind all moves.

ghost use Rattle.nm_listed.specs.Ends.{EndsAreRuns, RecordsAreCountable, RecordsAreRuns};

use nm_types::laws::{bodies_have_their_length, commands_stand_at_their_lines};

/// Where moves lead to states at which no rank has a move left, some run of the script tells what the
/// ranks told there.
pub fn ends_are_runs()
    ensures { EndsAreRuns }
{
    commands_stand_at_their_lines();
}

/// A record of the log that is made of a way of moves to such states is of a run that tells this.
pub fn records_are_runs()
    ensures { RecordsAreRuns }
{
    commands_stand_at_their_lines();
}

/// What becomes of the ranks by such a log can be counted.
pub fn records_are_countable()
    ensures { RecordsAreCountable }
{
    bodies_have_their_length();
    commands_stand_at_their_lines();
}
