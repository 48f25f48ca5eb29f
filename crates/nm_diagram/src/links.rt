//! A link for each receive that took a message, in the lane of its rank.

ghost use Rattle.std.specs.Prelude.{◌≡◌, option_to_list, take};
ghost use Rattle.nm_diagram.specs.Links.{link_from, link_of};

use crate::anchors::{Anchor, first_stamp, front};
use crate::frames::Span;
use nm_history::Event;
use nm_history::plain::Pair;
use nm_report::RankAccount;

/// How many of a rank's first events are looked through for receives that took a message.
const MAX_LINKED: usize = 4096;

/// The link of a receive to the message that it took.
#[derive(Clone, Copy)]
pub struct Link {
    /// The rank of both.
    pub lane: u8,
    /// When the receive was posted, or took the claimed message.
    pub received: u64,
    /// When the message arrived.
    pub arrived: u64,
    /// The number of the receive.
    pub number: u64,
    /// The rank that sent the message.
    pub from: u8,
    /// Its number among the messages of these two.
    pub n: u64,
}

/// The events of a rank that are looked through for receives that took a message.
pub fn linked_events(account: &RankAccount) -> &[Event]
    ensures { result.now ≡ take 4096 account.now.history.events }
{
    front(account.history.as_slice(), MAX_LINKED)
}

/// The link of a pair of a rank's events, if its receive and its arrival are shown.
pub fn link_at(span: Span, rank: u8, events: &[Event], pair: &Pair) -> Option<Link>
    ensures { option_to_list result ≡ link_of span rank events.now pair.now }
{
    let Pair {
        number,
        arrival,
        ..
    } = *pair;
    let from = arrival.env.from;
    let n = arrival.n;
    let Some(received) = first_stamp(events, span, Anchor::Receive { number }) else {
        return None;
    };
    let Some(arrived) = first_stamp(events, span, Anchor::Arrival { from, n }) else {
        return None;
    };
    Some(Link {
        lane: rank,
        received,
        arrived,
        number,
        from,
        n,
    })
}
