//! The way of a withdrawal, from where it is asked for and back with the answer.

ghost use Rattle.std.specs.Prelude.{◌≡◌, option_to_list};
ghost use Rattle.nm_diagram.specs.Returns.{return_from, return_of, returns_at};

use crate::anchors::{Anchor, find};
use crate::frames::Span;
use nm_history::{Event, Happened};
use nm_report::RankAccount;

/// The way of a withdrawal or of its answer, from a rank to a rank.
#[derive(Clone, Copy)]
pub struct Return {
    /// The rank where it starts.
    pub from: u8,
    /// When.
    pub left: u64,
    /// The rank at which it came in.
    pub to: u8,
    /// When.
    pub came: u64,
    /// The number of the message.
    pub n: u64,
}

/// The way that starts at a rank, if its start is shown.
fn way_from(from: u8, to: u8, came: u64, n: u64, left: Option<u64>) -> Option<Return>
    ensures { option_to_list result ≡ return_from from to came n left }
{
    match left {
        Some(left) => Some(Return {
            from,
            left,
            to,
            came,
            n,
        }),
        None => None,
    }
}

/// The way that ends at an event, if it has one.
fn way_to(span: Span, ranks: &[RankAccount], rank: u8, event: &Event) -> Option<Return>
    ensures { option_to_list result
        ≡ return_of span ranks.now rank event.now.stamp event.now.what }
{
    match &event.what {
        Happened::Withdraw { from, n, .. } => {
            let left = find(ranks, *from, span, Anchor::Recall { to: rank, n: *n });
            way_from(*from, rank, event.stamp, *n, left)
        }
        Happened::Undone { to, n, .. } => {
            let left = find(ranks, *to, span, Anchor::Withdraw { from: rank, n: *n });
            way_from(*to, rank, event.stamp, *n, left)
        }
        _ => None,
    }
}

/// The way that ends at an event of a rank, if it is shown and has one.
pub fn return_at(span: Span, ranks: &[RankAccount], rank: u8, event: &Event) -> Option<Return>
    ensures { option_to_list result ≡ returns_at span ranks.now rank event.now }
{
    if span.shows(event) {
        way_to(span, ranks, rank, event)
    } else {
        None
    }
}
