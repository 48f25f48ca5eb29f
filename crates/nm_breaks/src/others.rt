//! The event of the other rank that an event is held against.

ghost use Rattle.std.specs.Prelude.{◌≡◌, ◌<◌, ◌≤◌, ◌==◌, ℕ, if◌then◌else◌, Some, length, slice_get};
ghost use Rattle.std.specs.Prelude.{option_map, position, take};
ghost use Rattle.nm_types.specs.Commands.{commands_of};
ghost use Rattle.nm_types.specs.declared.answers.Answer as given_answer;
ghost use Rattle.nm_report.specs.Ends.{ends_of};
ghost use Rattle.nm_history.specs.declared.events.Event as event;
ghost use Rattle.nm_history.specs.declared.events.Happened.TheVariants.{Ran};
ghost use Rattle.nm_history.specs.Quiescence.{history_of};
ghost use Rattle.nm_check.specs.Tabled.{AreTabled, EachTabled};
ghost use Rattle.nm_lookups.specs.Firsts.{is_named as is_named_lem};
ghost use Rattle.nm_breaks.specs.Others as spec;
ghost use Rattle.nm_breaks.specs.Others.{IsHeldAgainst, IsOtherEvent, IsTakenBy};
ghost use Rattle.nm_breaks.specs.Others.{is_mate as is_mate_lem, is_withdrawal as is_withdrawal_lem};
ghost use Rattle.nm_breaks.specs.Others.{pair_shown};
ghost use Rattle.nm_breaks.specs.Places.{events_in};

use crate::places::{EventLine, event_at, events_of, told_at};
use nm_check::firsts::Spot;
use nm_check_rank::paired::tables::Tables;
use nm_history::plain::Pair;
use nm_history::{Event, Happened};
use nm_lookups::firsts::{Kind, Message};
use nm_lookups::kinds::{Recalls, Refused, Sends, Withdrawn};
use nm_report::RankAccount;
use nm_types::Line;

/// Whether message n of a rank is named.
fn is_named(named: Option<Message>, rank: u8, n: u64) -> bool
    ensures { result ≡ is_named_lem (record { rank = rank; n = n }) named }
{
    match named {
        Some(message) => message.rank == rank && message.n == n,
        None => false,
    }
}

/// Whether an event is of a kind, and of message n of a rank.
fn is_of<T: Kind>(rank: u8, n: u64, what: &Happened) -> bool
    ensures { result ≡ T.is_of rank n what.now }
{
    is_named(T::message(what), rank, n)
}

/// Message n of this rank was withdrawn, done or late.
fn is_withdrawal(from: u8, n: u64, what: &Happened) -> bool
    ensures { result ≡ is_withdrawal_lem from n what.now }
{
    let done = is_of::<Withdrawn>(from, n, what);
    let late = is_of::<Refused>(from, n, what);
    done || late
}

/// Whether what happened at rank x is held against this at the other rank.
fn is_mate(x: u8, what: &Happened, other: &Happened) -> bool
    ensures { result ≡ is_mate_lem x what.now other.now }
{
    match what {
        Happened::Arrive { a } => is_of::<Sends>(x, a.n, other),
        Happened::Withdraw { n, .. } => is_of::<Recalls>(x, *n, other),
        Happened::Undone { n, .. } => is_withdrawal(x, *n, other),
        _ => false,
    }
}

/// An event of rank y, by its place.
fn held_at(ranks: &[RankAccount], y: u8, at: Option<usize>) -> Option<EventLine>
    requires short { events_in (ends_of ranks.now) ≤ 67108864 }
    requires inside { (k : ℕ) → at ≡ Some k → k < length (history_of (ends_of ranks.now) y) }
    ensures { result ≡ option_map (spec.held_at (ends_of ranks.now) y) at }
{
    match at {
        Some(at) => Some(told_at(ranks, Spot { rank: y, at })),
        None => None,
    }
}

/// The first place of these events that what happened at rank x is held against.
fn mate_at(events: &[Event], x: u8, what: &Happened) -> Option<usize>
    ensures { result ≡ position (λ e. is_mate_lem x what.now e.what) events.now }
{
    events.iter().position(|e| is_mate(x, what, &e.what))
}

/// The first event of rank y that what happened at rank x is held against.
fn mate_of(ranks: &[RankAccount], x: u8, what: &Happened, y: u8) -> Option<EventLine>
    requires { events_in (ends_of ranks.now) ≤ 67108864 }
    ensures { result ≡ spec.first_held (ends_of ranks.now) y (is_mate_lem x what.now) }
{
    let at = mate_at(events_of(ranks, y), x, what);
    held_at(ranks, y, at)
}

/// The event by which a receive of rank y took message n of rank x.
fn taken_by(ranks: &[RankAccount], tables: &[Tables], x: u8, n: u64, y: u8) -> Option<EventLine>
    requires known { y < length ranks.now }
    requires short { events_in (ends_of ranks.now) ≤ 67108864 }
    requires tabled { AreTabled (ends_of ranks.now) tables.now }
    ensures { IsTakenBy (ends_of ranks.now) x n y result }
{
    let i = y as usize;
    let at = tables[i].taken_at(x, n);
    held_at(ranks, y, at)
}

/// The send of the message that a pair of rank x has.
fn sent_of(ranks: &[RankAccount], x: u8, pair: Option<Pair>) -> Option<EventLine>
    requires { events_in (ends_of ranks.now) ≤ 67108864 }
    ensures { result ≡ spec.sent_held (ends_of ranks.now) x pair }
{
    match pair {
        Some(pair) => {
            let came = Happened::Arrive { a: pair.arrival };
            mate_of(ranks, x, &came, pair.arrival.env.from)
        }
        None => None,
    }
}

/// The send of the message that the answer to the command of a line of rank x shows.
fn shown_by(
    lines: &[Line],
    ranks: &[RankAccount],
    tables: &[Tables],
    x: u8,
    at: usize,
    line: u64,
) -> Option<EventLine>
    requires known { x < length ranks.now }
    requires short { events_in (ends_of ranks.now) ≤ 67108864 }
    requires tabled { EachTabled lines.now (ends_of ranks.now) tables.now }
    ensures { (e : event.Event) (answer : given_answer.Answer) →
        slice_get (history_of (ends_of ranks.now) x) at ≡ Some e → e.what ≡ Ran line answer →
        result ≡ spec.sent_held (ends_of ranks.now) x
        (pair_shown (commands_of x lines.now) (take at (history_of (ends_of ranks.now) x))
        (Ran line answer)) }
{
    let i = x as usize;
    let pair = tables[i].pair_asked(x, lines, at, line);
    sent_of(ranks, x, pair)
}

/// The event of rank y that the one at a place of rank x is held against.
fn held_against(
    lines: &[Line],
    ranks: &[RankAccount],
    tables: &[Tables],
    x: u8,
    at: usize,
    what: &Happened,
    y: u8,
) -> Option<EventLine>
    requires known { x < length ranks.now }
    requires other { y < length ranks.now }
    requires short { events_in (ends_of ranks.now) ≤ 67108864 }
    requires tabled { EachTabled lines.now (ends_of ranks.now) tables.now }
    ensures { (e : event.Event) → slice_get (history_of (ends_of ranks.now) x) at ≡ Some e →
        e.what ≡ what.now → IsHeldAgainst lines.now (ends_of ranks.now) x
        (take at (history_of (ends_of ranks.now) x)) what.now y result }
{
    match what {
        Happened::Out { n, .. } => taken_by(ranks, tables, x, *n, y),
        Happened::Ran { line, .. } => shown_by(lines, ranks, tables, x, at, *line),
        _ => mate_of(ranks, x, what, y),
    }
}

/// The other one of two ranks.
fn other_rank(i: u8, j: u8, x: u8) -> u8
    ensures { result ≡ (if x == i then j else i) }
{
    if x == i { j } else { i }
}

/// What an event is held against, of rank i or rank j.
pub(crate) fn other_event(
    lines: &[Line],
    ranks: &[RankAccount],
    tables: &[Tables],
    i: u8,
    j: u8,
    spot: Spot,
) -> Option<EventLine>
    requires sender { i < length ranks.now }
    requires receiver { j < length ranks.now }
    requires short { events_in (ends_of ranks.now) ≤ 67108864 }
    requires tabled { EachTabled lines.now (ends_of ranks.now) tables.now }
    ensures { IsOtherEvent lines.now (ends_of ranks.now) i j spot result }
{
    match event_at(ranks, spot) {
        Some(e) => {
            let y = other_rank(i, j, spot.rank);
            held_against(lines, ranks, tables, spot.rank, spot.at, &e.what, y)
        }
        None => None,
    }
}
