//! The lines that are told of a trace, as they stand in the input.

ghost use Rattle.std.specs.Prelude.{◌≡◌, IfOk, option_map};
ghost use Rattle.nm_verdict.specs.Quotes as spec;
ghost use Rattle.nm_verdict.specs.Quotes.{quotes_of};

use nm_breaks::stops::line_at;
use nm_breaks::{EventLine, Found, Judgement};
use nm_types::{Bytes, Memory};
use std::alloc::Global;

/// The bytes of the lines that are told of a trace: that of the place, and that of the other rank.
#[derive(Drop)]
pub struct Quotes {
    pub line: Option<Bytes>,
    pub other: Option<Bytes>,
}

/// The line of an event, if there is one.
pub(crate) fn event_line(event: Option<EventLine>) -> Option<u32>
    ensures { result ≡ spec.event_line event }
{
    match event {
        Some(event) => Some(event.line),
        None => None,
    }
}

/// The line of the trace, counted from 1, that is told, if one is.
pub(crate) fn place_line(judgement: Judgement) -> Option<u32>
    ensures { result ≡ spec.place_line judgement }
{
    match judgement {
        Judgement::Own { event, .. } => event_line(event),
        Judgement::Carried { event, .. } | Judgement::Left { event, .. } => Some(event.line),
        Judgement::Counted { line, .. } => Some(line),
        Judgement::Home { line, .. } => Some(line),
        Judgement::Done { line } => Some(line),
        Judgement::Holds | Judgement::Standing { .. } => None,
    }
}

/// .. whose bytes are told: of a count that is missing there is none.
fn quoted_line(judgement: Judgement) -> Option<u32>
    ensures { result ≡ spec.quoted_line judgement }
{
    match judgement {
        Judgement::Counted { line, miscount } => match miscount.found {
            Some(_) => Some(line),
            None => None,
        },
        _ => place_line(judgement),
    }
}

/// .. of the other rank's event.
fn other_line(judgement: Judgement) -> Option<u32>
    ensures { result ≡ spec.other_line judgement }
{
    match judgement {
        Judgement::Carried { other, .. } => event_line(other),
        _ => None,
    }
}

/// The line of the whole input, behind so many lines and the line `---`.
fn whole_line(before: u32, line: Option<u32>) -> Option<u64>
    ensures { result ≡ spec.whole_line before line }
{
    match line {
        Some(line) => Some(u64::from(before) + 1 + u64::from(line)),
        None => None,
    }
}

/// The bytes of a line, counted from 1, if one is asked for and is there.
fn text_at(bytes: &[u8], line: Option<u64>) -> Option<&[u8]>
    ensures { option_map (λ text. text.now) result ≡ spec.text_at bytes.now line }
{
    match line {
        Some(line) => line_at(bytes, line.saturating_sub(1)),
        None => None,
    }
}

/// A copy of the bytes of a line, if it is told.
fn copied(alloc: Global, bytes: &[u8], line: Option<u64>) -> Result<Option<Bytes>, Memory>
    ensures { IfOk result (λ quote. quote ≡ spec.text_at bytes.now line) }
{
    match text_at(bytes, line) {
        Some(text) => {
            let quote = Vec::from_slice(alloc, text)?;
            Ok(Some(Bytes::from_vec(quote)))
        }
        None => Ok(None),
    }
}

/// The bytes of the lines that are told of what was found.
pub fn quoted(alloc: Global, bytes: &[u8], found: &Found) -> Result<Quotes, Memory>
    ensures { IfOk result (λ quotes. quotes ≡ quotes_of bytes.now found.now) }
{
    match found {
        Found::Judged {
            before,
            judgement,
            ..
        } => {
            let line = copied(alloc, bytes, whole_line(*before, quoted_line(*judgement)))?;
            let other = copied(alloc, bytes, whole_line(*before, other_line(*judgement)))?;
            Ok(Quotes { line, other })
        }
        Found::NoTrace | Found::NoScript { .. } | Found::BadTrace { .. } => Ok(Quotes {
            line: None,
            other: None,
        }),
    }
}
