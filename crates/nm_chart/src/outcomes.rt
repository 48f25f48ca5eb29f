//! What there is to say of a part, and how it is said.

ghost use Rattle.std.specs.Prelude.{◌≡◌, ◌≤◌, IfOk, length};
ghost use Rattle.nm_chart.specs.Parts.{CanBeShown, Says, Shows};
ghost use Rattle.nm_chart.specs.Parts.{outcome_status as outcome_status_lem};

use crate::answers::USAGE;
use nm_check::texts::trace_fault_text;
use nm_diagram::Part;
use nm_page::page_in;
use nm_picture::picture_in;
use nm_report::RunRecord;
use nm_shell::line;
use nm_types::Memory;
use std::alloc::Global;

/// What there is to say of the words and the source.
#[derive(Drop)]
pub enum Outcome {
    /// The words are not taken.
    Usage,
    /// The source failed.
    Unread,
    /// The bytes are no trace.
    Refused { line: u32 },
    /// They are the trace of a record, of which this is left, and this part is drawn.
    Drawn { run: RunRecord, part: Part },
}

/// As what a part is drawn.
#[derive(Clone, Copy)]
pub enum Form {
    /// One SVG.
    Picture,
    /// One page of HTML, which holds it.
    Page,
}

/// The text that shows a part of a run.
fn shown(alloc: Global, form: Form, run: &RunRecord, part: Part) -> Result<Vec<u8>, Memory>
    requires few { length run.now.ranks ≤ 256 }
    requires in_range { (part.span.first ≤ 1000000) × (part.span.end ≤ 1000001) }
    requires lanes { part.lanes ≤ length run.now.ranks }
    ensures { IfOk result (λ text. Shows form part run.now text.items) }
{
    match form {
        Form::Picture => picture_in(alloc, run, part),
        Form::Page => page_in(alloc, run, part),
    }
}

/// The text of an outcome, whole and in memory.
pub fn outcome_text(alloc: Global, form: Form, outcome: &Outcome) -> Result<Vec<u8>, Memory>
    requires { CanBeShown outcome.now }
    ensures { IfOk result (λ text. Says form outcome.now text.items) }
{
    match outcome {
        Outcome::Usage => Ok(line(alloc, USAGE)?),
        Outcome::Unread => Ok(line(alloc, "fault read\n")?),
        Outcome::Refused { line } => Ok(trace_fault_text(alloc, *line)?),
        Outcome::Drawn { run, part } => shown(alloc, form, run, *part),
    }
}

/// The status of an outcome that was written.
pub fn outcome_status(outcome: &Outcome) -> u8
    ensures { result ≡ outcome_status_lem outcome.now }
{
    match outcome {
        Outcome::Drawn { .. } => 0,
        Outcome::Usage => 2,
        Outcome::Unread => 4,
        Outcome::Refused { .. } => 9,
    }
}
