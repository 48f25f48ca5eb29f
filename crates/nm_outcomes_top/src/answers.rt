//! What there is to say of the words and the source, and how it is said.

ghost use Rattle.std.specs.Prelude.{◌≡◌, IfOk};
ghost use Rattle.nm_outcomes_top.specs.Answers.{status_of, text_of};
ghost use Rattle.nm_outcomes_top.specs.Texts.{outgrown_text, over_text, unsettled_text};

use crate::tellings::{Telling, telling_status, telling_text};
use crate::words::Question;
use nm_script::{Kind, fault_text};
use nm_shell::line;
use nm_types::Memory;
use std::alloc::{AllocError, Global};

/// What there is to say.
#[derive(Drop)]
pub enum Response {
    /// The words are not taken.
    Usage,
    /// The source failed.
    Unread,
    /// The input is too long, or has no line `---`, where a report is to stand behind it.
    NoReport,
    /// The bytes are no script.
    Refused { line: u32, kind: Kind },
    /// The search met too many states, or the reports are too long.
    Outgrown { question: Question, states: u32 },
    /// What was asked of the reports of the script.
    Told { telling: Telling },
}

/// What is said of words that are not taken.
const USAGE: &str = "usage: outcomes [--cells N] [--eager N] STATES <SCRIPT
       outcomes --eager either [--cells N] STATES <SCRIPT
       outcomes --trace K [--cells N] [--eager N] STATES <SCRIPT
       outcomes --among [--cells N] [--eager N] STATES <SCRIPT_AND_REPORT
       outcomes --hangs [--cells N] [--eager N] STATES <SCRIPT
";

/// What is said where there are too many states, or the reports are too long.
fn outgrown(alloc: Global, states: u32) -> Result<Vec<u8>, AllocError>
    ensures { IfOk result (λ bytes. bytes.items ≡ outgrown_text states) }
{
    let text = format!(in alloc; "fault outcomes {}\n", states)?;
    Ok(text.into_bytes())
}

/// What is said where no run that hangs was found among so many states.
fn unsettled(alloc: Global, states: u32) -> Result<Vec<u8>, AllocError>
    ensures { IfOk result (λ bytes. bytes.items ≡ unsettled_text states) }
{
    let text = format!(in alloc; "no hang in {} states\n", states)?;
    Ok(text.into_bytes())
}

/// What is said where the limit came, by what was asked.
fn over(alloc: Global, question: Question, states: u32) -> Result<Vec<u8>, AllocError>
    ensures { IfOk result (λ bytes. bytes.items ≡ over_text question states) }
{
    match question {
        Question::Hangs => unsettled(alloc, states),
        _ => outgrown(alloc, states),
    }
}

/// The text of an answer, whole and in memory.
pub fn text(alloc: Global, answer: &Response) -> Result<Vec<u8>, Memory>
    ensures { IfOk result (λ text. text.items ≡ text_of answer.now) }
{
    match answer {
        Response::Usage => Ok(line(alloc, USAGE)?),
        Response::Unread => Ok(line(alloc, "fault read\n")?),
        Response::NoReport => Ok(line(alloc, "fault report\n")?),
        Response::Refused { line, kind } => Ok(fault_text(alloc, *line, *kind)?),
        Response::Outgrown { question, states } => Ok(over(alloc, *question, *states)?),
        Response::Told { telling } => telling_text(alloc, telling),
    }
}

/// The status of an answer that was written.
pub fn status(answer: &Response) -> u8
    ensures { result ≡ status_of answer.now }
{
    match answer {
        Response::Told { telling } => telling_status(telling),
        Response::Usage => 2,
        Response::Refused { .. } => 3,
        Response::Unread => 4,
        Response::NoReport => 9,
        Response::Outgrown { .. } => 10,
    }
}
