//! Whether messages have come and are over: eager ones, and those sent by asking that are paired; and recalls
//! are answered.

ghost use Rattle.std.specs.Prelude.{◌≡◌, ◌&&◌, ◌||◌, ℕ, not, IfSome, List, IsTrue, length, slice_get};
ghost use Rattle.std.specs.Bool.{OnTrue};
ghost use Rattle.nm_types.specs.declared.scripts.Line as script_line;
ghost use Rattle.nm_history.specs.declared.events.Event as event;
ghost use Rattle.nm_history.specs.Happens.{happened, is_arrival};
ghost use Rattle.nm_history.specs.Quiescence.{IsAnswered, is_kept_back, is_over};
ghost use Rattle.nm_report.specs.Ends.{ends_of};
ghost use Rattle.nm_lookups.specs.Deciding.{Decides};
ghost use Rattle.nm_lookups.specs.Placed.{ArePlaces};
ghost use Rattle.nm_check_rank.specs.Tabled.{AreRankTables};
ghost use Rattle.nm_check.specs.Marked.{AreLooked};
ghost use Rattle.nm_check.specs.RestBreaks.{KeepsSend, SendKeeps};
ghost use Rattle.nm_check.specs.declared.rest.firsts.EventRule.TheVariants as rule;

use crate::looked::{Looked, own_of};
use crate::rest::firsts::EventRule;
use nm_check_rank::hows::{is_asked, is_eager};
use nm_check_rank::paired::tables::Tables;
use nm_history::Happened;
use nm_lookups::firsts::{is_before, is_ever, is_ever_taken};
use nm_lookups::kinds::{Arrivals, Claims, Late, Outs, Undone, Wholes};
use nm_lookups::places::Places;
use nm_types::How;

fn both(a: bool, b: bool) -> bool
    ensures { result ≡ (a && b) }
{
    a && b
}

fn neither(a: bool, b: bool) -> bool
    ensures { result ≡ (not a && not b) }
{
    !a && !b
}

/// Whether a message of rank i to rank j has left and is whole.
fn is_message_over(i: u8, j: u8, n: u64, sent: &Places, got: &Places) -> bool
    ensures { (hi hj : List event.Event) → ArePlaces hi sent.now → ArePlaces hj got.now →
        result ≡ is_over i j hi hj n }
{
    let out = is_ever::<Outs>(&sent.outgoing.gone.outs, j, n);
    let whole = is_ever::<Wholes>(&got.incoming.came.wholes, i, n);
    both(out, whole)
}

/// Whether a message of rank i to rank j has neither left nor is it whole.
fn is_message_kept_back(i: u8, j: u8, n: u64, sent: &Places, got: &Places) -> bool
    ensures { (hi hj : List event.Event) → ArePlaces hi sent.now → ArePlaces hj got.now →
        result ≡ is_kept_back i j hi hj n }
{
    let out = is_ever::<Outs>(&sent.outgoing.gone.outs, j, n);
    let whole = is_ever::<Wholes>(&got.incoming.came.wholes, i, n);
    neither(out, whole)
}

fn is_implied(asked: bool, holds: bool) -> bool
    ensures { Decides result (OnTrue asked (IsTrue holds)) }
{
    !asked || holds
}

fn are_implied(taken: bool, claimed: bool, over: bool, kept: bool) -> bool
    ensures { Decides result (OnTrue taken (IsTrue over)
        × OnTrue (claimed && not taken) (IsTrue kept)) }
{
    if taken { over } else { !claimed || kept }
}

/// Whether a message of rank i has come to the rank with these tables.
fn has_come(i: u8, n: u64, got: &Places) -> bool
    ensures { (hj : List event.Event) → ArePlaces hj got.now →
        Decides result (IsTrue (happened (is_arrival i n) hj)) }
{
    is_ever::<Arrivals>(&got.incoming.came.arrivals, i, n)
}

/// Whether an eager message of rank i to rank j is over.
fn is_eager_over(i: u8, j: u8, n: u64, how: How, sent: &Places, got: &Places) -> bool
    ensures { (hi hj : List event.Event) → ArePlaces hi sent.now → ArePlaces hj got.now →
        Decides result (KeepsSend rule.Eager i hi j hj n how) }
{
    let over = is_message_over(i, j, n, sent, got);
    is_implied(is_eager(how), over)
}

/// Whether a message of rank i to rank j that was sent by asking is over where it is paired, and kept
/// back where it is claimed and not received.
fn is_asked_over(i: u8, j: u8, n: u64, how: How, sent: &Places, got: &Tables) -> bool
    ensures { (hi hj : List event.Event) (lines : List script_line.Line) → ArePlaces hi sent.now →
        AreRankTables j lines hj got.now → Decides result (KeepsSend rule.Asked i hi j hj n how) }
{
    if !is_asked(how) {
        return true;
    }
    let taken = is_ever_taken(got.pairing.taken(), i, n);
    let claimed = is_ever::<Claims>(&got.places.incoming.settled.claims, i, n);
    let over = is_message_over(i, j, n, sent, &got.places);
    let kept = is_message_kept_back(i, j, n, sent, &got.places);
    are_implied(taken, claimed, over, kept)
}

/// Whether the send of message n of rank i to the rank with these tables keeps the rule.
fn is_kept(rule: EventRule, i: u8, j: u8, n: u64, how: How, sent: &Places, got: &Tables) -> bool
    ensures { (hi hj : List event.Event) (lines : List script_line.Line) → ArePlaces hi sent.now →
        AreRankTables j lines hj got.now → Decides result (KeepsSend rule i hi j hj n how) }
{
    match rule {
        EventRule::Arrived => has_come(i, n, &got.places),
        EventRule::Eager => is_eager_over(i, j, n, how, sent, &got.places),
        EventRule::Asked => is_asked_over(i, j, n, how, sent, got),
        EventRule::Recalls => true,
    }
}

/// .. to rank j, if there is such a rank.
fn is_kept_to(rule: EventRule, i: u8, j: u8, n: u64, how: How, sent: &Places, of: &Looked) -> bool
    requires { AreLooked of.now.lines.now (ends_of of.now.ranks.now) of.now.tables.now }
    ensures { (hi : List event.Event) → ArePlaces hi sent.now → Decides result
        (IfSome (slice_get (ends_of of.now.ranks.now) j)
        (λ rank. KeepsSend rule i hi j rank.events n how)) }
{
    match own_of(of, j) {
        Some((_events, own)) => is_kept(rule, i, j, n, how, sent, own),
        None => true,
    }
}

/// Whether what happened at rank i is no send, or one that keeps the rule.
pub(crate) fn keeps_send(
    rule: EventRule,
    i: u8,
    what: &Happened,
    sent: &Places,
    of: &Looked,
) -> bool
    requires { AreLooked of.now.lines.now (ends_of of.now.ranks.now) of.now.tables.now }
    ensures { (stamp : ℕ) (hi : List event.Event) → ArePlaces hi sent.now → Decides result
        (SendKeeps (λ j hj s. KeepsSend rule i hi j hj s.n s.how) (ends_of of.now.ranks.now)
        stamp what.now) }
{
    match what {
        Happened::Send { to, n, how, .. } => is_kept_to(rule, i, *to, *n, *how, sent, of),
        _ => true,
    }
}

fn is_either(undone: bool, late: bool) -> bool
    ensures { Decides result (IsTrue (undone || late)) }
{
    undone || late
}

/// Whether what happened is no recall, or one that was answered by this place.
pub(crate) fn is_answered(places: &Places, end: usize, what: &Happened) -> bool
    ensures { (h : List event.Event) → ArePlaces h places.now → length h ≡ end →
        Decides result (IsAnswered h what.now) }
{
    match what {
        Happened::Recall { to, n } => {
            let undone = is_before::<Undone>(&places.outgoing.recalled.undone, *to, *n, end);
            let late = is_before::<Late>(&places.outgoing.recalled.late, *to, *n, end);
            is_either(undone, late)
        }
        _ => true,
    }
}
