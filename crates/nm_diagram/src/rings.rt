//! A ring round the arrival of each message that nobody took.

ghost use Rattle.std.specs.Prelude.{◌≡◌, true, IfOk, option_to_list};
ghost use Rattle.std.specs.List.{list_any};
ghost use Rattle.nm_diagram.specs.Left.{are_few, has_left, is_left, is_left_at, ring_of, rings_at};
ghost use Rattle.nm_diagram.specs.Left.{some_left};

use crate::frames::Span;
use crate::pairs::{all_pairs, is_free};
use nm_history::plain::Pair;
use nm_history::{Event, Happened};
use nm_report::RankAccount;
use std::alloc::{AllocError, Global};

/// How many events a rank has at most, among which messages that are left are looked for.
const MAX_SEARCHED: usize = 4096;

/// The ring round the arrival of a message that nobody took.
#[derive(Clone, Copy)]
pub struct Ring {
    /// The rank at which it arrived.
    pub lane: u8,
    /// When.
    pub stamp: u64,
    /// The number of the message.
    pub n: u64,
    /// The rank that it came from.
    pub from: u8,
}

/// Whether an event is the arrival of a message that nobody took.
fn is_of_left(events: &[Event], pairs: &[Pair], what: &Happened) -> bool
    ensures { result ≡ is_left events.now pairs.now what.now }
{
    match what {
        Happened::Arrive { a } => is_free(events, pairs, a),
        _ => false,
    }
}

/// The same, and it is shown.
fn is_shown_left(span: Span, events: &[Event], pairs: &[Pair], event: &Event) -> bool
    ensures { result ≡ is_left_at span events.now pairs.now event.now }
{
    span.shows(event) && is_of_left(events, pairs, &event.what)
}

/// Whether a rank's events are so few that messages that are left are looked for.
pub fn is_short(events: &[Event]) -> bool
    ensures { result ≡ are_few events.now }
{
    events.len() <= MAX_SEARCHED
}

/// Whether nobody took some message of these events, with their pairs.
fn is_any_among(span: Span, events: &[Event], pairs: &[Pair]) -> bool
    ensures { result ≡ list_any (is_left_at span events.now pairs.now) events.now }
{
    events
        .iter()
        .any(|event| is_shown_left(span, events, pairs, event))
}

/// Whether nobody took some message of these events.
fn are_left(alloc: Global, span: Span, events: &[Event]) -> Result<bool, AllocError>
    ensures { IfOk result (λ found. found ≡ some_left span events.now) }
{
    let pairs = all_pairs(alloc, events)?;
    Ok(is_any_among(span, events, pairs.as_slice()))
}

/// Whether nobody took some message of a rank.
fn is_left_by(alloc: Global, span: Span, account: &RankAccount) -> Result<bool, AllocError>
    ensures { IfOk result (λ found. found ≡ has_left span account.now) }
{
    let events = account.history.as_slice();
    if is_short(events) {
        are_left(alloc, span, events)
    } else {
        Ok(false)
    }
}

/// Whether nobody took some message of these ranks.
pub fn is_any_left(alloc: Global, span: Span, ranks: &[RankAccount]) -> Result<bool, AllocError>
    ensures { IfOk result (λ found. found ≡ list_any (has_left span) ranks.now) }
{
    for account in ranks {
        if is_left_by(alloc, span, account)? {
            return Ok(true);
        }
    }
    Ok(false)
}

/// The ring of an event, if it is an arrival.
fn ring_to(rank: u8, event: &Event) -> Option<Ring>
    ensures { option_to_list result ≡ ring_of rank event.now.stamp event.now.what }
{
    match &event.what {
        Happened::Arrive { a } => Some(Ring {
            lane: rank,
            stamp: event.stamp,
            n: a.n,
            from: a.env.from,
        }),
        _ => None,
    }
}

/// The ring of an event among some events of a rank with their pairs, if it has one.
pub fn ring_at(
    span: Span,
    rank: u8,
    events: &[Event],
    pairs: &[Pair],
    event: &Event,
) -> Option<Ring>
    ensures { option_to_list result ≡ rings_at span rank events.now pairs.now event.now }
{
    if is_shown_left(span, events, pairs, event) {
        ring_to(rank, event)
    } else {
        None
    }
}
