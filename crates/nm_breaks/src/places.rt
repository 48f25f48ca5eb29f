//! The events of a trace, and their lines.

ghost use Rattle.std.specs.Prelude.{◌≡◌, ◌+◌, ◌<◌, ◌≤◌, ℕ, length, option_map, slice_get};
ghost use Rattle.nm_check_rank.specs.declared.breaks.Break.TheVariants.{At};
ghost use Rattle.nm_report.specs.Ends.{ends_of};
ghost use Rattle.nm_history.specs.Quiescence.{history_of};
ghost use Rattle.nm_breaks.specs.Places as spec;
ghost use Rattle.nm_breaks.specs.Places.{events_in, line_of};

use nm_check::firsts::Spot;
use nm_check_rank::breaks::Break;
use nm_history::Event;
use nm_report::RankAccount;

/// An event, and its line of the trace, counted from 1.
#[derive(Clone, Copy)]
pub struct EventLine {
    pub spot: Spot,
    pub line: u32,
}

/// The events of a rank, and of no rank none.
pub fn events_of(ranks: &[RankAccount], rank: u8) -> &[Event]
    ensures { result.now ≡ history_of (ends_of ranks.now) rank }
{
    let i = rank as usize;
    if i >= ranks.len() {
        return &[];
    }
    ranks[i].history.as_slice()
}

/// The event of a rank at a place, if it has so many.
pub fn event_at(ranks: &[RankAccount], spot: Spot) -> Option<&Event>
    ensures { option_map (λ e. e.now) result
        ≡ slice_get (history_of (ends_of ranks.now) spot.rank) spot.at }
{
    events_of(ranks, spot.rank).get(spot.at)
}

/// How many events these ranks have.
fn events_in(ranks: &[RankAccount]) -> u32
    requires { events_in (ends_of ranks.now) ≤ 67108864 }
    ensures { result ≡ events_in (ends_of ranks.now) }
{
    let mut events = 0;
    for rank in ranks {
        events += rank.history.as_slice().len() as u32;
    }
    events
}

/// The line of the trace with the event of a rank at a place: those of the ranks before stand before
/// it.
fn line_of(ranks: &[RankAccount], rank: u8, at: usize) -> u32
    requires known { rank < length ranks.now }
    requires short { events_in (ends_of ranks.now) ≤ 67108864 }
    requires early { at < 67108864 }
    ensures { result ≡ line_of (ends_of ranks.now) rank at }
{
    events_in(&ranks[..rank as usize]) + at as u32 + 1
}

/// The line of the trace with the count of packets at a place: those of the events stand before it.
pub(crate) fn count_line(ranks: &[RankAccount], at: usize) -> u32
    requires { events_in (ends_of ranks.now) + at ≤ 67108864 }
    ensures { result ≡ events_in (ends_of ranks.now) + at + 1 }
{
    events_in(ranks) + at as u32 + 1
}

/// The event at a place, with its line.
pub(crate) fn told_at(ranks: &[RankAccount], spot: Spot) -> EventLine
    requires short { events_in (ends_of ranks.now) ≤ 67108864 }
    requires inside { spot.at < length (history_of (ends_of ranks.now) spot.rank) }
    ensures { result ≡ spec.told_at (ends_of ranks.now) spot }
{
    EventLine {
        spot,
        line: line_of(ranks, spot.rank, spot.at),
    }
}

/// The event of a rank at which a rule breaks, if it breaks at one.
pub(crate) fn told_of(ranks: &[RankAccount], rank: u8, place: Break) -> Option<EventLine>
    requires short { events_in (ends_of ranks.now) ≤ 67108864 }
    requires inside { (k : ℕ) → place ≡ At k → k < length (history_of (ends_of ranks.now) rank) }
    ensures { result ≡ spec.told_of (ends_of ranks.now) rank place }
{
    match place {
        Break::At(at) => Some(told_at(ranks, Spot { rank, at })),
        Break::Behind => None,
    }
}
