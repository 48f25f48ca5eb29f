//! The legend: which signs stand in a picture.

ghost use Rattle.std.specs.Prelude.{◌≡◌, ◌&&◌, IfOk};
ghost use Rattle.std.specs.List.{list_any};
ghost use Rattle.std.specs.Option.{is_some};
ghost use Rattle.nm_diagram.specs.Legend.{has_sign, is_told, is_used};
ghost use Rattle.nm_diagram.specs.Signs.{all_signs as all_signs_lem, is_waits};

use crate::frames::Span;
use crate::rings::is_any_left;
use crate::signs::Sign;
use nm_history::Event;
use nm_report::RankAccount;
use std::alloc::{AllocError, Global};

/// All signs, in the order of the legend.
const SIGNS: &[Sign] = &[
    Sign::Send,
    Sign::Ask,
    Sign::Post,
    Sign::Arrive,
    Sign::Whole,
    Sign::Out,
    Sign::Cancel,
    Sign::Recall,
    Sign::Withdraw,
    Sign::Undone,
    Sign::Claim,
    Sign::Match,
    Sign::Ran,
    Sign::Waits,
    Sign::EagerWay,
    Sign::AskWay,
    Sign::BackWay,
    Sign::Taken,
    Sign::Left,
];

/// All signs, in the order of the legend.
pub fn all_signs() -> &'static [Sign]
    ensures { result.now ≡ all_signs_lem }
{
    SIGNS
}

/// Whether an event is shown, and told by a sign.
fn is_shown_by(span: Span, sign: Sign, event: &Event) -> bool
    ensures { result ≡ is_told span sign event.now }
{
    span.shows(event) && sign.tells(&event.what)
}

/// Whether a sign tells that a rank waits, and it does.
fn is_of_wait(sign: Sign, account: &RankAccount) -> bool
    ensures { result ≡ (is_waits sign && is_some account.now.waits) }
{
    sign.is_waits() && account.waits.is_some()
}

/// Whether one of these events is shown, and told by a sign.
fn is_of_event(span: Span, sign: Sign, events: &[Event]) -> bool
    ensures { result ≡ list_any (is_told span sign) events.now }
{
    events.iter().any(|event| is_shown_by(span, sign, event))
}

/// Whether a rank has a sign.
fn is_of_rank(span: Span, sign: Sign, account: &RankAccount) -> bool
    ensures { result ≡ has_sign span sign account.now }
{
    is_of_wait(sign, account) || is_of_event(span, sign, account.history.as_slice())
}

/// Whether some of these ranks has a sign.
fn is_of_some(span: Span, sign: Sign, ranks: &[RankAccount]) -> bool
    ensures { result ≡ list_any (has_sign span sign) ranks.now }
{
    ranks.iter().any(|account| is_of_rank(span, sign, account))
}

/// Whether a sign stands in the picture of these ranks.
pub fn stands(
    alloc: Global,
    span: Span,
    sign: Sign,
    ranks: &[RankAccount],
) -> Result<bool, AllocError>
    ensures { IfOk result (λ found. found ≡ is_used span ranks.now sign) }
{
    if sign.is_of_left() && is_any_left(alloc, span, ranks)? {
        return Ok(true);
    }
    Ok(is_of_some(span, sign, ranks))
}
