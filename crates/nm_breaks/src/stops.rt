//! What stops a text that is no trace.

ghost use Rattle.std.specs.Prelude.{◌≡◌, ◌<◌, ◌≤◌, ℕ, ◌++◌, ◌∷◌, [], IfOk, List, length, map};
ghost use Rattle.std.specs.Prelude.{false, slice_get};
ghost use Rattle.std.specs.Option.{option_map};
ghost use Rattle.nm_lookups.specs.Deciding.{Decides};
ghost use Rattle.nm_trace.specs.Traces.{Begins};
ghost use Rattle.nm_script.specs.Lines.{lines_of};
ghost use Rattle.nm_breaks.specs.Stops.{IsLineStop, IsStop};
ghost use Rattle.nm_breaks.specs.Stops.{is_event_name as is_event_name_lem};
ghost use Rattle.nm_breaks.specs.Stops.{is_number as is_number_lem, is_odd_event as is_odd_event_lem};
ghost use Rattle.nm_breaks.specs.Stops.{is_report_line as is_report_line_lem};
ghost use Rattle.nm_breaks.specs.Stops.{lines_in as lines_in_lem, zeroed as zeroed_lem};

use nm_script::words::{split_line, words};
use nm_trace::{TraceFault, read_trace};
use nm_types::{Memory, Shape};
use std::alloc::{AllocError, Global};

/// What stops a text at a line.
#[derive(Clone, Copy)]
pub enum Stop {
    /// There is no such line: the text ends too soon.
    Short,
    /// It has no line feed.
    Unfed,
    /// It may stand in a trace, but not here.
    Order,
    /// Only its numbers are wrong.
    Number,
    /// It names an event that there isn't.
    Event,
    /// It is one of a report, and the events before it have another one.
    Report,
    /// It is another one that may not stand in a trace.
    Line,
}

/// How many lines there are, each with its line feed.
pub(crate) fn lines_in(bytes: &[u8]) -> u32
    requires { length bytes.now ≤ 67108864 }
    ensures { result ≡ lines_in_lem bytes.now }
{
    bytes.iter().filter(|byte| **byte == b'\n').count() as u32
}

/// The first line, if there is one.
fn first_of(bytes: &[u8]) -> Option<&[u8]>
    ensures { option_map (λ line. line.now) result ≡ slice_get (lines_of bytes.now) 0 }
{
    if bytes.is_empty() {
        return None;
    }
    Some(split_line(bytes).0)
}

/// A line, counted from 0, if there are so many.
pub fn line_at(bytes: &[u8], at: u64) -> Option<&[u8]>
    ensures { option_map (λ line. line.now) result ≡ slice_get (lines_of bytes.now) at }
{
    let mut rest = bytes;
    for _line in 0..at {
        if rest.is_empty() {
            return None;
        }
        rest = split_line(rest).1;
    }
    first_of(rest)
}

/// A line with its line feed.
fn fed(alloc: Global, line: &[u8]) -> Result<Vec<u8>, AllocError>
    ensures { IfOk result (λ text. text.items ≡ line.now ++ 10 ∷ []) }
{
    let mut text = Vec::from_slice(alloc, line)?;
    text.push(b'\n')?;
    Ok(text)
}

/// A line with one 0 for each run of digits in it, and its line feed.
fn zeroed(alloc: Global, line: &[u8]) -> Result<Vec<u8>, AllocError>
    ensures { IfOk result (λ text. text.items ≡ zeroed_lem false line.now ++ 10 ∷ []) }
{
    let mut text = Vec::new(alloc);
    let mut behind = false;
    for byte in line {
        let digit = byte.is_ascii_digit();
        if !digit {
            text.push(*byte)?;
        } else if !behind {
            text.push(b'0')?;
        }
        behind = digit;
    }
    text.push(b'\n')?;
    Ok(text)
}

/// Whether some trace of this shape begins with this text, of which each line has its line feed.
fn starts_trace(alloc: Global, shape: Shape, text: &[u8]) -> Result<bool, Memory>
    requires short { length text.now ≤ 67108864 }
    requires ended { (line : List ℕ) × (text.now ≡ line ++ 10 ∷ []) }
    ensures { IfOk result (λ answer. Decides answer (Begins shape text.now)) }
{
    match read_trace(alloc, text, shape) {
        Ok(_run) => Ok(true),
        Err(TraceFault::Bad { line }) => Ok(line > lines_in(text)),
        Err(TraceFault::Memory) => Err(Memory),
    }
}

/// Whether a word is the name of an event.
fn is_event_name(word: &[u8]) -> bool
    ensures { result ≡ is_event_name_lem word.now }
{
    word == b"send".as_slice()
        || word == b"post".as_slice()
        || word == b"arrive".as_slice()
        || word == b"whole".as_slice()
        || word == b"out".as_slice()
        || word == b"cancel".as_slice()
        || word == b"recall".as_slice()
        || word == b"withdraw".as_slice()
        || word == b"undone".as_slice()
        || word == b"claim".as_slice()
        || word == b"match".as_slice()
        || word == b"ran".as_slice()
}

/// Whether these are the words of an event that there isn't.
fn is_odd_event(words: &[&[u8]]) -> bool
    ensures { result ≡ is_odd_event_lem (map (λ word. word.now) words.now) }
{
    match words {
        [at, _rank, _stamp, name, ..] => *at == b"@".as_slice() && !is_event_name(name),
        _ => false,
    }
}

fn is_number(word: &[u8]) -> bool
    ensures { result ≡ is_number_lem word.now }
{
    word.iter().all(|byte| byte.is_ascii_digit())
}

/// Whether these are the words of a line of a report: a rank, a line and an answer.
fn is_report_line(words: &[&[u8]]) -> bool
    ensures { result ≡ is_report_line_lem (map (λ word. word.now) words.now) }
{
    match words {
        [rank, line, _answer, ..] => is_number(rank) && is_number(line),
        _ => false,
    }
}

/// What stops a text at a line that has its line feed.
fn line_stop(alloc: Global, shape: Shape, line: &[u8]) -> Result<Stop, Memory>
    requires { length line.now < 67108864 }
    ensures { IfOk result (IsLineStop shape line.now) }
{
    let text = fed(alloc, line)?;
    if starts_trace(alloc, shape, &text)? {
        return Ok(Stop::Order);
    }
    let other = zeroed(alloc, line)?;
    if starts_trace(alloc, shape, &other)? {
        return Ok(Stop::Number);
    }
    let words = words(alloc, line)?;
    if is_odd_event(&words) {
        return Ok(Stop::Event);
    }
    if is_report_line(&words) {
        Ok(Stop::Report)
    } else {
        Ok(Stop::Line)
    }
}

/// What stops a text at the line of this number, counted from 1.
pub(crate) fn stop_at(alloc: Global, shape: Shape, bytes: &[u8], line: u32) -> Result<Stop, Memory>
    requires { length bytes.now < 67108864 }
    ensures { IfOk result (IsStop shape bytes.now line) }
{
    let Some(text) = line_at(bytes, u64::from(line.saturating_sub(1))) else {
        return Ok(Stop::Short);
    };
    if line > lines_in(bytes) {
        return Ok(Stop::Unfed);
    }
    line_stop(alloc, shape, text)
}
