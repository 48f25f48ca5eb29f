//! What there is to say of the words and the source, and how it is said.

ghost use Rattle.std.specs.Prelude.{◌≡◌, IfOk};
ghost use Rattle.nm_chart.specs.Answers.{CanBeDrawn, Tells, status_of};

use nm_check::texts::trace_fault_text;
use nm_picture::picture;
use nm_report::RunRecord;
use nm_shell::line;
use nm_types::Memory;
use std::alloc::Global;

/// What there is to say.
#[derive(Drop)]
pub enum Response {
    /// There are words.
    Usage,
    /// The source failed.
    Unread,
    /// The bytes are no trace.
    Refused { line: u32 },
    /// They are the trace of a record.
    Drawn { run: RunRecord },
}

/// What is said of words that are not taken.
pub const USAGE: &str =
    "usage: chart [--html] [--from STAMP] [--to STAMP] [--ranks A,B,..] [--of N] <TRACE >PICTURE
       chart check [--cells N] [--eager N] <SCRIPT_AND_TRACE >PICTURE
";

/// The text of an answer, whole and in memory.
pub fn text(alloc: Global, answer: &Response) -> Result<Vec<u8>, Memory>
    requires { CanBeDrawn answer.now }
    ensures { IfOk result (λ text. Tells answer.now text.items) }
{
    match answer {
        Response::Usage => Ok(line(alloc, USAGE)?),
        Response::Unread => Ok(line(alloc, "fault read\n")?),
        Response::Refused { line } => Ok(trace_fault_text(alloc, *line)?),
        Response::Drawn { run } => picture(alloc, run),
    }
}

/// The status of an answer that was written.
pub fn status(answer: &Response) -> u8
    ensures { result ≡ status_of answer.now }
{
    match answer {
        Response::Drawn { .. } => 0,
        Response::Usage => 2,
        Response::Unread => 4,
        Response::Refused { .. } => 9,
    }
}
