//! What persistent and partitioned requests promise, over the text of a plan's run.
//!
//! A persistent receive, and one in parts, takes the message of the matching start of its sender:
//! the request at its other end, with the same sort, tag and context between the two ranks. So a
//! plan's text says which body each start brought, whatever the order in which ranks and packets
//! took their turns.
//!
//! # What a contract sees
//! `specs/Starts.antt` has the starts of a request and the bodies that it held at them,
//! `specs/Promises.antt` the lines that a rank's text shows and what each of them promises. What
//! the proofs keep of a rank on their way is in `specs/Names.antt`, with the commands of such a
//! run.
//! # What is proved
//! - In each lawful run of a plan's script the wait for the r-th start of a receive shows, whole
//!   and in order, the body that its sender held at its own r-th start, or that it was cut off; the
//!   length is that body's. An `arrived` is `yes` only where the request isn't active, or its part
//!   has a result in this start: the bytes of its part of that body, or their number where they
//!   were cut off (`receives_show_their_sends`).
//! - The request at the other end is one (`other_ends_are_one`).
//! - The text of a plan's run is made of just these lines, and of the line where a rank stands
//!   (`texts_show_their_lines`).
//! # What is only tested
//! Nothing: there is no code here.

ghost use Rattle.std.specs.Prelude.{◌≡◌, ◌++◌, ℕ, List};
ghost use Rattle.nm_report.specs.declared.records.RunRecord.{RunRecord};
ghost use Rattle.nm_report.specs.Report.{cells_line, end_line};
ghost use Rattle.nm_plans.specs.declared.lines.PlanLine.{PlanLine};
ghost use Rattle.nm_plans.specs.declared.requests.ends.End.{End};
ghost use Rattle.nm_plans.specs.declared.requests.requests.Owner.{Owner};
ghost use Rattle.nm_persist.specs.Plans.{IsPlan};
ghost use Rattle.nm_persist.specs.Report.{run_text};
ghost use Rattle.nm_persist.specs.Promises.{ReceivesShowTheirSends, accounts_text};
ghost use Rattle.nm_persist.specs.Starts.{IsOther};

use nm_history::laws::rank_run_begins;
use nm_types::laws::{bodies_have_their_length, commands_stand_at_their_lines};

/// In each lawful run of a plan's script, each line that the text shows keeps its promise: a wait
/// for a receive shows the body of this start, and an `arrived` is `yes` only where the part is
/// here or the request isn't active (MPI 4.0, sections 3.9 and 4.2).
pub fn receives_show_their_sends()
    ensures { ReceivesShowTheirSends }
{
    bodies_have_their_length();
    commands_stand_at_their_lines();
    rank_run_begins();
}

/// There is one request at most at the other end of a request: with the same sort, tag and context
/// between the two ranks.
pub fn other_ends_are_one()
    ensures { (ranks : ℕ) (lines : List PlanLine) (e : End) (a b : Owner) → IsPlan ranks lines →
        IsOther lines e a → IsOther lines e b → a ≡ b }
{}

/// The text of a plan's run shows, rank by rank, its lines that have all their answers, and then
/// the line where the rank stands.
pub fn texts_show_their_lines()
    ensures { (lines : List PlanLine) (run : RunRecord) →
        run_text lines run
        ≡ accounts_text lines 0 run.ranks ++ (cells_line run.cells ++ end_line run.done) }
{}
