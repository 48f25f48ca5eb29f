//! The rank with which an event breaks a rule on messages.

ghost use Rattle.std.specs.Prelude.{◌≡◌, ◌<◌, ◌&&◌, if◌then◌else◌, ℕ, List, Some, None, slice_get};
ghost use Rattle.std.specs.Prelude.{take, IsSomeAnd, IsTrue};
ghost use Rattle.std.specs.Bool.{OnTrue};
ghost use Rattle.nm_history.specs.declared.events.Event as event;
ghost use Rattle.nm_history.specs.Completion.{is_taken};
ghost use Rattle.nm_history.specs.Delivery.{OutAfterPair, UndoneAfterWithdraw, WithdrawAfterRecall};
ghost use Rattle.nm_history.specs.Delivery.{earlier_than};
ghost use Rattle.nm_history.specs.Happens.{happened, is_recall, is_withdraw};
ghost use Rattle.nm_history.specs.Growing.{ArrivesNext};
ghost use Rattle.nm_history.specs.AtEach.{AtEach};
ghost use Rattle.nm_history.specs.Quiescence.{history_of};
ghost use Rattle.nm_history.specs.RankRun.{NumberAt, StampAt};
ghost use Rattle.nm_history.specs.Sends.{envelope, sends, sent_of};
ghost use Rattle.nm_report.specs.Ends.{ends_of};
ghost use Rattle.nm_lookups.specs.Deciding.{Decides};
ghost use Rattle.nm_lookups.specs.Placed.{ArePlaces};
ghost use Rattle.nm_check.specs.Marked.{AreLooked, Names};

use crate::looked::{Looked, own_of, sent_at};
use nm_check_rank::hows::is_same_how;
use nm_check_rank::paired::tables::Tables;
use nm_history::{Event, Happened};
use nm_lookups::firsts::{is_before, is_earlier, is_taken_earlier};
use nm_lookups::kinds::{AskedSends, Recalls, Refused, Withdrawn};
use nm_lookups::places::Places;
use nm_types::Arrival;

/// How many ranks a number of 8 bits can name.
pub const NAMES: usize = 256;

/// The place at which a rank's history first breaks each rule of the messages between two ranks, with
/// each other rank: those of the messages that come to it, and those of the messages that it sends.
#[derive(Drop)]
pub struct Marks {
    pub arrivals: [Option<usize>; NAMES],
    pub bodies: [Option<usize>; NAMES],
    pub outs: [Option<usize>; NAMES],
    pub withdrawals: [Option<usize>; NAMES],
    pub answers: [Option<usize>; NAMES],
}

/// This rank, unless it keeps the rule.
pub(crate) fn named_unless(keeps: bool, rank: u8) -> Option<u8>
    ensures { result ≡ (if keeps then None else Some rank) }
{
    if keeps { None } else { Some(rank) }
}

/// Whether a message may leave: it is not sent by asking, or is paired.
fn is_allowed(asked: bool, paired: bool) -> bool
    ensures { Decides result (OnTrue asked (IsTrue paired)) }
{
    !asked || paired
}

fn are_all(tag: bool, ctx: bool, len: bool, how: bool, earlier: bool) -> bool
    ensures { result ≡ (tag && ctx && len && how && earlier) }
{
    tag && ctx && len && how && earlier
}

/// Whether an event is the send of an arrival, with a smaller stamp.
fn is_send_of(e: &Event, a: &Arrival, stamp: u64) -> bool
    ensures { Decides result (IsSomeAnd (sent_of e.now.stamp e.now.what)
        (λ s. (a.now.env ≡ envelope a.now.env.from s) × (s.stamp < stamp))) }
{
    match &e.what {
        Happened::Send {
            tag,
            ctx,
            len,
            how,
            ..
        } => are_all(
            a.env.tag == *tag,
            a.env.ctx == *ctx,
            a.env.len == *len,
            is_same_how(a.env.how, *how),
            e.stamp < stamp,
        ),
        _ => false,
    }
}

/// Whether the sender of an arrival at rank j sent it before.
fn was_sent(j: u8, a: &Arrival, stamp: u64, of: &Looked) -> bool
    requires { AreLooked of.now.lines.now (ends_of of.now.ranks.now) of.now.tables.now }
    ensures { Decides result
        (IsSomeAnd (slice_get (sends (history_of (ends_of of.now.ranks.now) a.now.env.from) j) a.now.n)
        (λ s. (a.now.env ≡ envelope a.now.env.from s) × (s.stamp < stamp))) }
{
    match sent_at(of, a.env.from, j, a.n) {
        Some(e) => is_send_of(e, a, stamp),
        None => false,
    }
}

/// The sender with which what happened at rank j breaks the order of arrivals.
pub(crate) fn sender_not_followed(j: u8, e: &Event, of: &Looked) -> Option<u8>
    requires { AreLooked of.now.lines.now (ends_of of.now.ranks.now) of.now.tables.now }
    ensures { (n : ℕ) (before : List event.Event) → NumberAt n before e.now.what →
        Names (λ i. ArrivesNext i j (history_of (ends_of of.now.ranks.now) i)
        before e.now.stamp e.now.what) result }
{
    match &e.what {
        Happened::Arrive { a } => named_unless(was_sent(j, a, e.stamp, of), a.env.from),
        _ => None,
    }
}

/// Whether rank j paired a message of rank i before a stamp.
fn was_paired(i: u8, j: u8, n: u64, stamp: u64, of: &Looked) -> bool
    requires { AreLooked of.now.lines.now (ends_of of.now.ranks.now) of.now.tables.now }
    ensures { result
        ≡ is_taken (earlier_than stamp (history_of (ends_of of.now.ranks.now) j)) i n }
{
    match own_of(of, j) {
        Some((events, own)) => is_taken_earlier(own.pairing.taken(), events, i, n, stamp),
        None => false,
    }
}

/// The receiver that had not paired the message that left rank i at this place.
pub(crate) fn receiver_not_asked(
    i: u8,
    k: usize,
    e: &Event,
    sent: &Places,
    of: &Looked,
) -> Option<u8>
    requires { AreLooked of.now.lines.now (ends_of of.now.ranks.now) of.now.tables.now }
    ensures { (h : List event.Event) → ArePlaces h sent.now →
        Names (λ j. OutAfterPair i j (history_of (ends_of of.now.ranks.now) j)
        (take k h) e.now.stamp e.now.what) result }
{
    match &e.what {
        Happened::Out { to, n } => {
            let asked = is_before::<AskedSends>(&sent.outgoing.gone.asked, *to, *n, k);
            let paired = was_paired(i, *to, *n, e.stamp, of);
            named_unless(is_allowed(asked, paired), *to)
        }
        _ => None,
    }
}

/// Whether rank i recalled a message to rank j before a stamp.
fn was_recalled(i: u8, j: u8, n: u64, stamp: u64, of: &Looked) -> bool
    requires { AreLooked of.now.lines.now (ends_of of.now.ranks.now) of.now.tables.now }
    ensures { result ≡ happened (is_recall j n)
        (earlier_than stamp (history_of (ends_of of.now.ranks.now) i)) }
{
    match own_of(of, i) {
        Some((events, own)) => {
            is_earlier::<Recalls>(&own.places.outgoing.recalled.recalls, events, j, n, stamp)
        }
        None => false,
    }
}

/// The sender that had not recalled the message that rank j withdrew.
pub(crate) fn sender_not_recalling(j: u8, e: &Event, of: &Looked) -> Option<u8>
    requires { AreLooked of.now.lines.now (ends_of of.now.ranks.now) of.now.tables.now }
    ensures { Names (λ i. WithdrawAfterRecall i j
        (history_of (ends_of of.now.ranks.now) i) e.now.stamp e.now.what) result }
{
    match &e.what {
        Happened::Withdraw { from, n, .. } => {
            named_unless(was_recalled(*from, j, *n, e.stamp, of), *from)
        }
        _ => None,
    }
}

/// Whether these events have a withdrawal of message n of a rank before a stamp, with this answer.
fn is_withdrawn(events: &[Event], own: &Tables, from: u8, n: u64, done: bool, stamp: u64) -> bool
    requires rising { AtEach (λ before e. StampAt before e.stamp) events.now }
    requires places { ArePlaces events.now own.now.places }
    ensures { result ≡ happened (is_withdraw from n done) (earlier_than stamp events.now) }
{
    let settled = &own.places.incoming.settled;
    if done {
        is_earlier::<Withdrawn>(&settled.withdrawn, events, from, n, stamp)
    } else {
        is_earlier::<Refused>(&settled.refused, events, from, n, stamp)
    }
}

/// .. those of rank j.
fn was_withdrawn(i: u8, j: u8, n: u64, done: bool, stamp: u64, of: &Looked) -> bool
    requires { AreLooked of.now.lines.now (ends_of of.now.ranks.now) of.now.tables.now }
    ensures { result ≡ happened (is_withdraw i n done)
        (earlier_than stamp (history_of (ends_of of.now.ranks.now) j)) }
{
    match own_of(of, j) {
        Some((events, own)) => is_withdrawn(events, own, i, n, done, stamp),
        None => false,
    }
}

/// The receiver that had not given the answer to a recall that rank i took.
pub(crate) fn receiver_not_telling(i: u8, e: &Event, of: &Looked) -> Option<u8>
    requires { AreLooked of.now.lines.now (ends_of of.now.ranks.now) of.now.tables.now }
    ensures { Names (λ j. UndoneAfterWithdraw i j
        (history_of (ends_of of.now.ranks.now) j) e.now.stamp e.now.what) result }
{
    match &e.what {
        Happened::Undone { to, n, done } => {
            named_unless(was_withdrawn(i, *to, *n, *done, e.stamp, of), *to)
        }
        _ => None,
    }
}
