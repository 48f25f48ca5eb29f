//! What was called for, and what was found: of an event, and of a count of packets.

ghost use Rattle.std.specs.Prelude.{◌≡◌, IfOk, codes, if◌then◌else◌, string_bytes};
ghost use Rattle.nm_verdict.specs.Counts as counts;
ghost use Rattle.nm_verdict.specs.Dues as spec;

use crate::called::{claim_words, many_words, mismatch_words, named_words, of_words};
use nm_check_rank::paired::dues::Due;
use nm_check_rank::paired::objections::Objection;
use nm_check_rank::paired::told::Told;
use nm_report::PairCount;
use std::alloc::{AllocError, Global};

/// What is said before a stamp that was called for.
const STAMP: &str = "its stamp is to be greater than ";

/// .. before a number.
const NUMBER: &str = "its number is to be ";

/// .. and before a number of ranks.
const RANK: &str = "its rank is to be less than ";

/// The word of an answer.
fn told_word(told: Told) -> &'static str
    ensures { result.now ≡ spec.told_word told }
{
    match told {
        Told::Started => "started",
        Told::Busy => "busy",
        Told::Null => "null",
        Told::No => "no",
        Told::Nothing => "none",
        Told::Sent => "sent",
        Told::Got { .. } => "got",
        Told::Cut { .. } => "cut",
        Told::Cancelled => "cancelled",
        Told::Seen { .. } => "seen",
        Told::Done => "done",
        Told::Late => "late",
        Told::Asked => "asked",
    }
}

/// The message that an answer shows.
fn shown_words(alloc: Global, told: Told) -> Result<String, AllocError>
    ensures { IfOk result (λ text. string_bytes text ≡ spec.shown_words told) }
{
    match told {
        Told::Got { from, tag, len } => format!(in alloc; " {} {} {}", from, tag, len),
        Told::Cut { from, tag, len } => format!(in alloc; " {} {} {}", from, tag, len),
        Told::Seen { from, tag, len } => format!(in alloc; " {} {} {}", from, tag, len),
        _ => format!(in alloc; ""),
    }
}

/// An answer as a trace has it, but for the bytes of a message.
fn told_words(alloc: Global, told: Told) -> Result<String, AllocError>
    ensures { IfOk result (λ text. string_bytes text ≡ spec.told_words told) }
{
    let shown = shown_words(alloc, told)?;
    format!(in alloc; "`{}{}`", told_word(told), shown)
}

/// An answer that was called for, if there is one, and the one that was found.
fn answer_words(alloc: Global, called: Option<Told>, found: Told) -> Result<String, AllocError>
    ensures { IfOk result (λ text. string_bytes text ≡ spec.answer_words called found) }
{
    let found = told_words(alloc, found)?;
    match called {
        Some(called) => {
            let called = told_words(alloc, called)?;
            format!(in alloc; "its answer is to be {}, and is {}", called, found)
        }
        None => format!(in alloc; "it can't go on, and its answer is {}", found),
    }
}

/// The next command, if one is left.
fn next_words(alloc: Global, next: Option<u64>) -> Result<String, AllocError>
    ensures { IfOk result (λ text. string_bytes text ≡ spec.next_words next) }
{
    match next {
        Some(next) => format!(in alloc; "the next one is in line {}", next),
        None => format!(in alloc; "no command of it is left"),
    }
}

/// A stamp, a number or a rank that was called for, and the one that was found.
fn number_words(alloc: Global, name: &str, called: u64, found: u64) -> Result<String, AllocError>
    ensures { IfOk result (λ text.
        string_bytes text ≡ spec.number_words name.now called found) }
{
    format!(in alloc; "{}{}, and is {}", name, called, found)
}

/// What stands against an event.
fn objection_words(objection: Objection) -> &'static str
    ensures { result.now ≡ spec.objection_words objection }
{
    match objection {
        Objection::Again => "the same happened to its message before",
        Objection::NotCome => "its message had not come",
        Objection::NotTaken => "its message was sent by rendezvous, and no receive had taken it",
        Objection::NotSent => "its message was not sent before",
        Objection::NotRecalled => "its message was not recalled before",
        Objection::Done => "it is to be `done`, and is `late`",
        Objection::Late => "it is to be `late`, and is `done`",
        Objection::NotClaimed => "its message was not claimed before",
        Objection::Taken => "a receive had taken its message",
        Objection::NoMessage => "its handle has no live message",
        Objection::Asking => "a synchronous send goes by rendezvous, and this one does not",
    }
}

/// Whether a send goes by rendezvous that is not to.
fn asking_words(asks: bool) -> &'static str
    ensures { result.now ≡ (if asks then codes " bytes is eager, and this one is not"
        else codes " bytes is not eager, and this one is") }
{
    if asks {
        " bytes is eager, and this one is not"
    } else {
        " bytes is not eager, and this one is"
    }
}

/// Whether a send of so many bytes goes by rendezvous by this limit.
fn eager_words(alloc: Global, limit: u16, len: u64, asks: bool) -> Result<String, AllocError>
    ensures { IfOk result (λ text. string_bytes text ≡ spec.eager_words limit len asks) }
{
    let words = asking_words(asks);
    format!(in alloc;
        "--eager does not fit: by {} a send of {}{}",
        limit, len, words
    )
}

/// The value of a byte, if there is one.
fn value_words(alloc: Global, byte: Option<u8>) -> Result<String, AllocError>
    ensures { IfOk result (λ text. string_bytes text ≡ spec.value_words byte) }
{
    match byte {
        Some(byte) => {
            let one = [byte];
            let digits = hex::encode(alloc, one.as_slice())?;
            format!(in alloc; "x{}", digits)
        }
        None => format!(in alloc; "missing"),
    }
}

/// A byte by its place.
fn place_words(alloc: Global, at: u64) -> Result<String, AllocError>
    ensures { IfOk result (λ text. string_bytes text ≡ spec.place_words at) }
{
    format!(in alloc; "byte {} of its body, counted from 0,", at)
}

/// A byte of the body that was to be shown, and the one that was.
fn byte_words(
    alloc: Global,
    at: u64,
    called: Option<u8>,
    found: Option<u8>,
) -> Result<String, AllocError>
    ensures { IfOk result (λ text. string_bytes text ≡ spec.byte_words at called found) }
{
    let name = place_words(alloc, at)?;
    let called = value_words(alloc, called)?;
    let found = value_words(alloc, found)?;
    format!(in alloc; "{} is to be {}, and is {}", name, called, found)
}

/// What was called for, and what was found.
pub(crate) fn some_words(alloc: Global, due: Due) -> Result<String, AllocError>
    ensures { IfOk result (λ text. string_bytes text ≡ spec.some_words due) }
{
    match due {
        Due::Command { next } => next_words(alloc, next),
        Due::Answer { called, found } => answer_words(alloc, called, found),
        Due::Stamp { last, found } => number_words(alloc, STAMP, last, found),
        Due::Number { called, found } => number_words(alloc, NUMBER, called, found),
        Due::Rank { ranks, found } => {
            number_words(alloc, RANK, u64::from(ranks), u64::from(found))
        }
        Due::Eager { limit, len, asks } => eager_words(alloc, limit, len, asks),
        Due::Against { objection } => format!(in alloc; "{}", objection_words(objection)),
        Due::Many { called, found } => many_words(alloc, called, found),
        Due::Claim { called, found } => claim_words(alloc, called, found),
        Due::Named { called, found } => named_words(alloc, called, found),
        Due::Argument { mismatch } => mismatch_words(alloc, mismatch),
        Due::Of { called, found } => of_words(alloc, called, found),
        Due::Byte { at, called, found } => byte_words(alloc, at, called, found),
    }
}

/// What was called for, and what was found, if it is told.
pub fn due_words(alloc: Global, due: Option<Due>) -> Result<String, AllocError>
    ensures { IfOk result (λ text. string_bytes text ≡ spec.due_words due) }
{
    match due {
        Some(due) => some_words(alloc, due),
        None => format!(in alloc; ""),
    }
}

/// A count as a trace has it.
fn pair_text(alloc: Global, pair: PairCount) -> Result<String, AllocError>
    ensures { IfOk result (λ text. string_bytes text ≡ counts.pair_text pair) }
{
    format!(in alloc; "`pair {} {} {}`", pair.from, pair.to, pair.packets)
}

/// A count that stands where another one is called for, or none.
fn found_words(
    alloc: Global,
    called: Option<PairCount>,
    found: PairCount,
) -> Result<String, AllocError>
    ensures { IfOk result (λ text. string_bytes text ≡ counts.found_words called found) }
{
    let found = pair_text(alloc, found)?;
    match called {
        Some(called) => {
            let called = pair_text(alloc, called)?;
            format!(in alloc; "it is to be {}, and is {}", called, found)
        }
        None => format!(in alloc; "no more counts are called for, and it is {}", found),
    }
}

/// A count that is called for where none stands.
fn missing_words(alloc: Global, called: Option<PairCount>) -> Result<String, AllocError>
    ensures { IfOk result (λ text. string_bytes text ≡ counts.missing_words called) }
{
    match called {
        Some(called) => {
            let called = pair_text(alloc, called)?;
            format!(in alloc; "{} is to stand before it", called)
        }
        None => format!(in alloc; ""),
    }
}

/// The count that is called for, and the one that stands there.
pub(crate) fn counts_words(
    alloc: Global,
    called: Option<PairCount>,
    found: Option<PairCount>,
) -> Result<String, AllocError>
    ensures { IfOk result (λ text. string_bytes text ≡ counts.counts_words called found) }
{
    match found {
        Some(found) => found_words(alloc, called, found),
        None => missing_words(alloc, called),
    }
}
