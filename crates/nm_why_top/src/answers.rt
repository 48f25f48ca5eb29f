//! What there is to say of the words and the source, and how it is said.

ghost use Rattle.std.specs.Prelude.{◌≡◌, IfOk, string_bytes};
ghost use Rattle.nm_outcomes_top.specs.Texts.{outgrown_text};
ghost use Rattle.nm_why_top.specs.Answers.{count_line as count_line_lem, many_line as many_line_lem, status_of};
ghost use Rattle.nm_why_top.specs.Answers.{text_of, told_text, why_status as why_status_lem};

use nm_script::{Kind, fault_text};
use nm_shell::line;
use nm_types::Memory;
use nm_why_texts::{Why, push_why};
use std::alloc::{AllocError, Global};

/// How many reports a script can have.
#[derive(Clone, Copy)]
pub enum Count {
    /// So many, and so many of them are stuck.
    All { reports: usize, stuck: usize },
    /// More states lead to them than the limit, or they are too long.
    Many,
}

/// What there is to say.
#[derive(Drop)]
pub enum Response {
    /// The words are not taken.
    Usage,
    /// The source failed.
    Unread,
    /// The bytes are no script.
    Refused {
        line: u32,
        kind: Kind,
    },
    /// The searches met too many states.
    Outgrown {
        states: u32,
    },
    /// How many reports the script can have, of how many commands, and why it can hang, if it can.
    Told {
        count: Count,
        commands: usize,
        why: Option<Why>,
    },
}

/// What is said of words that are not taken.
const USAGE: &str = "usage: why [--cells N] [--eager N] STATES <SCRIPT
";

/// What is said where there are too many states.
fn outgrown(alloc: Global, states: u32) -> Result<Vec<u8>, AllocError>
    ensures { IfOk result (λ bytes. bytes.items ≡ outgrown_text states) }
{
    let text = format!(in alloc; "fault outcomes {}\n", states)?;
    Ok(text.into_bytes())
}

/// What is said of reports that outgrow the list.
fn many_line(alloc: Global, why: &Option<Why>) -> Result<String, AllocError>
    ensures { IfOk result (λ text. string_bytes text ≡ many_line_lem why.now) }
{
    if why.is_some() {
        format!(in alloc; "outcomes many stuck some\n")
    } else {
        format!(in alloc; "outcomes many stuck 0\n")
    }
}

/// How many reports there are.
fn count_line(alloc: Global, count: Count, why: &Option<Why>) -> Result<String, AllocError>
    ensures { IfOk result (λ text. string_bytes text ≡ count_line_lem count why.now) }
{
    match count {
        Count::All { reports, stuck } => format!(in alloc;
            "outcomes {} stuck {}\n",
            reports, stuck
        ),
        Count::Many => many_line(alloc, why),
    }
}

/// What is told.
fn told(alloc: Global, count: Count, commands: usize, why: &Option<Why>) -> Result<Vec<u8>, Memory>
    ensures { IfOk result (λ bytes. bytes.items ≡ told_text count commands why.now) }
{
    let mut out = count_line(alloc, count, why)?;
    if let Some(why) = why {
        push_why(alloc, &mut out, why, commands)?;
    }
    Ok(out.into_bytes())
}

/// The text of an answer, whole and in memory.
pub fn text(alloc: Global, answer: &Response) -> Result<Vec<u8>, Memory>
    ensures { IfOk result (λ text. text.items ≡ text_of answer.now) }
{
    match answer {
        Response::Usage => Ok(line(alloc, USAGE)?),
        Response::Unread => Ok(line(alloc, "fault read\n")?),
        Response::Refused { line, kind } => Ok(fault_text(alloc, *line, *kind)?),
        Response::Outgrown { states } => Ok(outgrown(alloc, *states)?),
        Response::Told {
            count,
            commands,
            why,
        } => told(alloc, *count, *commands, why),
    }
}

/// The status of what is told: whether the script can hang.
fn why_status(why: &Option<Why>) -> u8
    ensures { result ≡ why_status_lem why.now }
{
    if why.is_some() { 1 } else { 0 }
}

/// The status of an answer that was written.
pub fn status(answer: &Response) -> u8
    ensures { result ≡ status_of answer.now }
{
    match answer {
        Response::Told { why, .. } => why_status(why),
        Response::Usage => 2,
        Response::Refused { .. } => 3,
        Response::Unread => 4,
        Response::Outgrown { .. } => 10,
    }
}
