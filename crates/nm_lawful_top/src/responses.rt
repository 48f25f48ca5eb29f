//! What there is to say, and how it is said.

ghost use Rattle.std.specs.Prelude.{◌≡◌, ◌<◌, IfOk};
ghost use Rattle.nm_lawful_top.specs.Answers.{status_of, text_of};
ghost use Rattle.nm_lawful_top.specs.Texts.{bad_line_lem, judged_status_lem, judged_text, named_line, named_wait};
ghost use Rattle.nm_lawful_top.specs.Texts.{rest_text, unlawful_text};

use crate::readings::line_at;
use nm_lawful::judging::Judged;
use nm_script::{Kind, fault_text};
use nm_shell::line;
use nm_types::Memory;
use std::alloc::{AllocError, Global};

/// What there is to say.
#[derive(Drop)]
pub enum Response {
    /// The words are not taken.
    Usage,
    /// The source failed.
    Unread,
    /// The bytes are no script.
    Refused {
        line: u32,
        kind: Kind,
    },
    /// The input is too long, or has no line `---`.
    NoAnswers,
    /// A line of the answers tells nothing, counted from 1.
    BadLine {
        line: u32,
    },
    /// The verdict, with the line that it names, and the place at which it says that a rank waits.
    Judged {
        judged: Judged,
        line: Vec<u8>,
        wait: Option<usize>,
    },
}

/// What is said of words that are not taken.
const USAGE: &str = "usage: lawful [--cut any] STATES <SCRIPT_AND_ANSWERS
";

/// What is said of a line that tells nothing.
fn bad_line(alloc: Global, line: u32) -> Result<Vec<u8>, AllocError>
    ensures { IfOk result (λ bytes. bytes.items ≡ bad_line_lem line) }
{
    let text = format!(in alloc; "fault answers {}\n", line)?;
    Ok(text.into_bytes())
}

/// What is said of an answer.
fn unlawful(alloc: Global, moment: u32, line: &[u8]) -> Result<Vec<u8>, AllocError>
    ensures { IfOk result (λ bytes. bytes.items ≡ unlawful_text moment line.now) }
{
    let number = u64::from(moment) + 1;
    let text = format!(in alloc; "unlawful {}: ", number)?;
    let mut bytes = text.into_bytes();
    bytes.extend_from_slice(line)?;
    bytes.push(b'\n')?;
    Ok(bytes)
}

/// What is said of a rank that can't rest as is said.
fn restless(alloc: Global, rank: usize, wait: Option<usize>) -> Result<Vec<u8>, AllocError>
    ensures { IfOk result (λ bytes. bytes.items ≡ rest_text rank wait) }
{
    let text = match wait {
        Some(place) => {
            let line = place.wrapping_add(2);
            format!(in alloc; "unlawful rest: {} {} waits\n", rank, line)?
        }
        None => format!(in alloc; "unlawful rest: {} ends\n", rank)?,
    };
    Ok(text.into_bytes())
}

/// What is said of a verdict.
fn verdict_text(
    alloc: Global,
    judged: Judged,
    named: &[u8],
    wait: Option<usize>,
) -> Result<Vec<u8>, AllocError>
    ensures { IfOk result (λ bytes. bytes.items ≡ judged_text judged named.now wait) }
{
    match judged {
        Judged::Lawful => line(alloc, "lawful\n"),
        Judged::Unlawful(moment) => unlawful(alloc, moment, named),
        Judged::NoRest(rank) => restless(alloc, rank, wait),
        Judged::TooMany => line(alloc, "limit\n"),
    }
}

/// The line that a verdict names.
pub fn line_of(alloc: Global, judged: Judged, text: &[u8]) -> Result<Vec<u8>, AllocError>
    ensures { IfOk result (λ bytes. bytes.items ≡ named_line judged text.now) }
{
    match judged {
        Judged::Unlawful(moment) => match line_at(text, moment) {
            Some(line) => Vec::from_slice(alloc, line),
            None => Ok(Vec::new(alloc)),
        },
        _ => Ok(Vec::new(alloc)),
    }
}

/// The wait that a verdict names.
pub fn wait_of(judged: Judged, waits: &[Option<usize>]) -> Option<usize>
    ensures { result ≡ named_wait judged waits.now }
{
    match judged {
        Judged::NoRest(rank) => match waits.get(rank) {
            Some(wait) => *wait,
            None => None,
        },
        _ => None,
    }
}

/// The text of an answer, whole and in memory.
pub fn text(alloc: Global, answer: &Response) -> Result<Vec<u8>, Memory>
    ensures { IfOk result (λ text. text.items ≡ text_of answer.now) }
{
    match answer {
        Response::Usage => Ok(line(alloc, USAGE)?),
        Response::Unread => Ok(line(alloc, "fault read\n")?),
        Response::Refused { line, kind } => Ok(fault_text(alloc, *line, *kind)?),
        Response::NoAnswers => Ok(line(alloc, "fault answers 0\n")?),
        Response::BadLine { line } => Ok(bad_line(alloc, *line)?),
        Response::Judged { judged, line, wait } => {
            Ok(verdict_text(alloc, *judged, line.as_slice(), *wait)?)
        }
    }
}

/// The status of a verdict.
fn judged_status(judged: Judged) -> u8
    ensures { result ≡ judged_status_lem judged }
{
    match judged {
        Judged::Lawful => 0,
        Judged::Unlawful(_) => 8,
        Judged::NoRest(_) => 8,
        Judged::TooMany => 7,
    }
}

/// The status of an answer that was written.
pub fn status(answer: &Response) -> u8
    ensures { result ≡ status_of answer.now }
{
    match answer {
        Response::Usage => 2,
        Response::Refused { .. } => 3,
        Response::Unread => 4,
        Response::NoAnswers => 9,
        Response::BadLine { .. } => 9,
        Response::Judged { judged, .. } => judged_status(*judged),
    }
}
