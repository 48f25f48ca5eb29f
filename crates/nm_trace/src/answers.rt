//! Answers by the lines behind the events, which give the bytes that came.

ghost use Rattle.std.specs.Prelude.{◌≡◌, IfOk, string_bytes};
ghost use Rattle.std.specs.Option.{option_map};
ghost use Rattle.nm_history.specs.Underway.{is_answer};
ghost use Rattle.nm_trace.specs.Answers.{is_due, answer_start, behind, bytes_of};
ghost use Rattle.nm_trace.specs.Answers.{given_answer, given};

use crate::notes::Note;
use nm_history::{Event, Happened};
use nm_report::push_answer;
use nm_script::words::are_lower_digits;
use nm_types::{Answer, Bytes};
use std::alloc::{AllocError, Global};

/// A line behind the events gives this answer.
pub fn is_due(what: &Happened) -> bool
    ensures { result ≡ is_due what.now }
{
    match what {
        Happened::Ran { answer, .. } => !matches!(answer, Answer::Started),
        _ => false,
    }
}

/// A command gave its answer.
pub fn is_ran(what: &Happened) -> bool
    ensures { result ≡ is_answer what.now }
{
    matches!(what, Happened::Ran { .. })
}

/// The line of an answer, up to the digits of the bytes.
fn start_of(
    alloc: Global,
    rank: u8,
    line: u64,
    answer: &Answer,
    len: u64,
) -> Result<String, AllocError>
    ensures { IfOk result (λ text. string_bytes text ≡ answer_start rank line answer.now len) }
{
    let mut out = String::new(alloc);
    write!(out, "{rank} {line} ")?;
    match answer {
        Answer::Got { from, tag, .. } => write!(out, "got {from} {tag} {len} x")?,
        _ => push_answer(&mut out, answer)?,
    }
    Ok(out)
}

/// What stands behind this start of a line.
#[tactic(auto, unfolding(crate::specs::Answers::behind))]
fn behind<'a>(line: &'a [u8], start: &[u8]) -> Option<&'a [u8]>
    ensures { option_map (λ rest. rest.now) result ≡ behind line.now start.now }
{
    if line.len() < start.len() {
        return None;
    }
    let (front, rest) = line.split_at(start.len());
    if front == start { Some(rest) } else { None }
}

/// The bytes of this number that the digits spell.
#[tactic(auto, unfolding(crate::specs::Answers::bytes_of))]
fn bytes_from(alloc: Global, digits: &[u8], len: u64) -> Result<Option<Bytes>, AllocError>
    ensures { IfOk result (λ bytes. bytes ≡ bytes_of digits.now len) }
{
    let is_long = digits.len() % 2 == 0 && digits.len() as u64 / 2 == len;
    if !is_long || !are_lower_digits(digits) {
        return Ok(None);
    }
    match hex::decode(alloc, digits) {
        Ok(bytes) => Ok(Some(Bytes::from_vec(bytes))),
        Err(hex::FromHexError::OutOfMemory) => Err(AllocError),
        Err(_) => Ok(None),
    }
}

/// The answer with the bytes that stand behind the start of its line.
#[tactic(auto, unfolding(crate::specs::Answers::given_answer))]
fn with_bytes(
    alloc: Global,
    answer: Answer,
    len: u64,
    rest: &[u8],
) -> Result<Option<Answer>, AllocError>
    ensures { IfOk result (λ given. given ≡ given_answer answer len rest.now) }
{
    match answer {
        Answer::Got { from, tag, .. } => match bytes_from(alloc, rest, len)? {
            Some(body) => Ok(Some(Answer::Got { from, tag, body })),
            None => Ok(None),
        },
        answer => Ok(if rest.is_empty() { Some(answer) } else { None }),
    }
}

/// The event of a note whose answer this line gives, if it does.
#[tactic(auto, unfolding(crate::specs::Answers::given, crate::specs::Answers::given_what))]
pub fn given(alloc: Global, note: Note, text: &[u8]) -> Result<Option<Event>, AllocError>
    ensures { IfOk result (λ event. event ≡ given note text.now) }
{
    let Note { rank, event, len } = note;
    let Event { stamp, what } = event;
    let Happened::Ran { line, answer } = what else {
        return Ok(None);
    };
    let start = start_of(alloc, rank, line, &answer, len)?;
    let Some(rest) = behind(text, start.as_bytes()) else {
        return Ok(None);
    };
    match with_bytes(alloc, answer, len, rest)? {
        Some(answer) => Ok(Some(Event {
            stamp,
            what: Happened::Ran { line, answer },
        })),
        None => Ok(None),
    }
}
