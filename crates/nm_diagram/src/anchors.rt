//! The events at which the ends of arrows and links stand.

ghost use Rattle.std.specs.Prelude.{◌≡◌, slice_get, take};
ghost use Rattle.nm_diagram.specs.Anchors.{first_stamp as first_stamp_lem, found_by};
ghost use Rattle.nm_diagram.specs.Anchors.{is_anchor as is_anchor_lem, since as since_lem};

use crate::frames::Span;
use nm_history::{Event, Happened};
use nm_report::RankAccount;

/// How many of a rank's events, from the first on that may be shown, may hold the start of an arrow
/// or a way.
const MAX_SEARCHED: usize = 20000;

/// What an end of an arrow or a link stands at.
#[derive(Clone, Copy)]
pub enum Anchor {
    /// The send of message `n` to a rank.
    Send { to: u8, n: u64 },
    /// The arrival of message `n` of a rank.
    Arrival { from: u8, n: u64 },
    /// The receive of this number, posted or of a claimed message.
    Receive { number: u64 },
    /// The asking that a rank withdraws message `n`.
    Recall { to: u8, n: u64 },
    /// The withdrawal of message `n` of a rank.
    Withdraw { from: u8, n: u64 },
    /// The answer of a rank to the withdrawal of message `n`.
    Undone { to: u8, n: u64 },
}

/// Whether an event is an anchor.
fn is_anchor(anchor: Anchor, what: &Happened) -> bool
    ensures { result ≡ is_anchor_lem anchor what.now }
{
    match (anchor, what) {
        (Anchor::Send { to, n }, Happened::Send { to: t, n: m, .. }) => { *t == to && *m == n }
        (Anchor::Arrival { from, n }, Happened::Arrive { a }) => { a.env.from == from && a.n == n }
        (Anchor::Receive { number }, Happened::Post { post, .. }) => post.number == number,
        (Anchor::Receive { number }, Happened::Match { number: m, .. }) => *m == number,
        (Anchor::Recall { to, n }, Happened::Recall { to: t, n: m }) => { *t == to && *m == n }
        (Anchor::Withdraw { from, n }, Happened::Withdraw { from: f, n: m, .. }) => {
            *f == from && *m == n
        }
        (Anchor::Undone { to, n }, Happened::Undone { to: t, n: m, .. }) => { *t == to && *m == n }
        _ => false,
    }
}

/// The stamp of the first event that is shown and is this anchor.
pub fn first_stamp(events: &[Event], span: Span, anchor: Anchor) -> Option<u64>
    ensures { result ≡ first_stamp_lem span anchor events.now }
{
    for event in events {
        if span.shows(event) && is_anchor(anchor, &event.what) {
            return Some(event.stamp);
        }
    }
    None
}

/// The first so many events, or all.
pub fn front(events: &[Event], most: usize) -> &[Event]
    ensures { result.now ≡ take most events.now }
{
    &events[..most.min(events.len())]
}

/// The events from the first one on that has this stamp or a later one.
fn since(events: &[Event], first: u64) -> &[Event]
    ensures { result.now ≡ since_lem first events.now }
{
    for (at, event) in events.iter().enumerate() {
        if first <= event.stamp {
            return &events[at..];
        }
    }
    &events[events.len()..]
}

/// The stamp at which this happened at a rank, among the first events that may be shown.
pub fn find(ranks: &[RankAccount], rank: u8, span: Span, anchor: Anchor) -> Option<u64>
    ensures { result ≡ found_by span anchor (slice_get ranks.now rank) }
{
    match ranks.get(rank as usize) {
        Some(account) => {
            let events = since(account.history.as_slice(), span.first);
            first_stamp(front(events, MAX_SEARCHED), span, anchor)
        }
        None => None,
    }
}
