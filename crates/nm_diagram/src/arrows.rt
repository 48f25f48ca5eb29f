//! An arrow for each message, from its send to its arrival.

ghost use Rattle.std.specs.Prelude.{◌≡◌, option_to_list};
ghost use Rattle.nm_diagram.specs.Diagrams.{arrow_of, arrows_at};

use crate::anchors::{Anchor, find};
use crate::frames::Span;
use nm_history::{Event, Happened};
use nm_report::RankAccount;
use nm_types::How;

/// The arrow of a message: from its send at a rank to its arrival at a rank.
#[derive(Clone, Copy)]
pub struct Arrow {
    /// The rank that sent it.
    pub from: u8,
    /// When.
    pub sent: u64,
    /// The rank at which it arrived.
    pub to: u8,
    /// When.
    pub arrived: u64,
    /// Its number among the messages of these two.
    pub n: u64,
    pub how: How,
}

/// The arrow of an event that is the arrival of a message, if its send is shown.
fn arrow_to(span: Span, ranks: &[RankAccount], rank: u8, event: &Event) -> Option<Arrow>
    ensures { option_to_list result
        ≡ arrow_of span ranks.now rank event.now.stamp event.now.what }
{
    let Happened::Arrive { a } = &event.what else {
        return None;
    };
    match find(ranks, a.env.from, span, Anchor::Send { to: rank, n: a.n }) {
        Some(sent) => Some(Arrow {
            from: a.env.from,
            sent,
            to: rank,
            arrived: event.stamp,
            n: a.n,
            how: a.env.how,
        }),
        None => None,
    }
}

/// The arrow of an event of a rank, if it is shown and has one.
pub fn arrow_at(span: Span, ranks: &[RankAccount], rank: u8, event: &Event) -> Option<Arrow>
    ensures { option_to_list result ≡ arrows_at span ranks.now rank event.now }
{
    if span.shows(event) {
        arrow_to(span, ranks, rank, event)
    } else {
        None
    }
}
