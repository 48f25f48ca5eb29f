//! That the trace of a run that was made is read back, also behind its script.
//!
//! # What a contract sees
//! `IsTraceOf` of `nm_trace`: when bytes are the trace of a record. `IsInput` of `nm_shell`: what a text is
//! cut into.
//! # What is proved
//! - The trace with the report of a record that is of a run of a script is one that `read_trace`
//!   reads (`traces_are_read`): each number of a record that there is stands within its type
//!   (`ranges`).
//! - A line of a trace is the one of the whole text that stands so far behind the script and the line
//!   `---` (`traces_stand_behind_scripts`).
//! # What is only tested
//! Nothing.

ghost use Rattle.std.specs.Prelude.{◌≡◌, ◌+◌, ◌-◌, ◌≤◌, true, ℕ, List, slice_get};
ghost use Rattle.nm_types.specs.declared.scripts.Line as script_line;
ghost use Rattle.nm_script.specs.Lines.{lines_of};
ghost use Rattle.nm_shell.specs.Inputs.{IsInput};
ghost use Rattle.nm_report.specs.Lawful.{IsRunIn};
ghost use Rattle.nm_report.specs.Report.{report_text};
ghost use Rattle.nm_trace.specs.Traces.{IsTraceOf};
ghost use Rattle.nm_breaks.specs.Stops.{lines_in};

use crate::written::ranges::{cells_fit, pairs_fit, ranks_fit};
use nm_report::RunRecord;

mod ranges;

/// A line of a trace, counted from 1, is the one that stands so far behind the lines of the script and
/// the line `---`. So the two numbers of a line in a verdict name one line.
pub fn traces_stand_behind_scripts()
    ensures { (bytes front rest : List ℕ) (line : ℕ) → IsInput bytes front rest → 1 ≤ line →
        slice_get (lines_of bytes) (lines_in front + line)
        ≡ slice_get (lines_of rest) (line - 1) }
{}

/// The trace with the report of a record that is of a run of a script is one that is read.
pub fn traces_are_read(run: &RunRecord)
    ensures { (lines : List script_line.Line) → IsRunIn run.now.shape lines run.now →
        IsTraceOf run.now.shape (report_text true run.now) run.now }
{
    ranks_fit(run.ranks.as_slice());
    pairs_fit(run.pairs.as_slice());
    cells_fit(run.cells);
}
