//! Which receive takes which message, and which messages are free.

ghost use Rattle.std.specs.Prelude.{◌≡◌, ◌&&◌, true, IfOk};
ghost use Rattle.std.specs.List.{list_any};
ghost use Rattle.nm_history.specs.Selection.{matches};
ghost use Rattle.nm_history.specs.Happens.{happened, is_cancel, is_claim, is_withdraw};
ghost use Rattle.nm_history.specs.Sends.{arrival_of, post_of, message_of as message_of_lem};
ghost use Rattle.nm_history.specs.Matching.{matched_pairs, new_pair};
ghost use Rattle.nm_history.specs.Matching.{first_message as first_message_lem};
ghost use Rattle.nm_history.specs.Matching.{first_receive as first_receive_lem};
ghost use Rattle.nm_history.specs.Matching.{is_free as is_free_lem, is_open as is_open_lem};
ghost use Rattle.nm_history.specs.Matching.{is_of_receive, is_of_message};

use nm_history::plain::{Pair, selects};
use nm_history::{Event, Happened};
use nm_types::{Arrival, Envelope, Peer, Post, TagPick};
use std::alloc::{AllocError, Global};

fn is_cancel_of(number: u64, what: &Happened) -> bool
    ensures { result ≡ is_cancel number what.now }
{
    match what {
        Happened::Cancel { number: n, done } => *n == number && *done,
        _ => false,
    }
}

fn is_withdraw_of(from: u8, n: u64, what: &Happened) -> bool
    ensures { result ≡ is_withdraw from n true what.now }
{
    match what {
        Happened::Withdraw {
            from: f,
            n: m,
            done,
        } => *f == from && *m == n && *done,
        _ => false,
    }
}

fn is_claim_of(from: u8, n: u64, what: &Happened) -> bool
    ensures { result ≡ is_claim from n what.now }
{
    match what {
        Happened::Claim {
            from: f,
            n: m,
            line: _,
        } => *f == from && *m == n,
        _ => false,
    }
}

fn is_cancelled(events: &[Event], number: u64) -> bool
    ensures { result ≡ happened (is_cancel number) events.now }
{
    events.iter().any(|e| is_cancel_of(number, &e.what))
}

fn is_withdrawn(events: &[Event], from: u8, n: u64) -> bool
    ensures { result ≡ happened (is_withdraw from n true) events.now }
{
    events.iter().any(|e| is_withdraw_of(from, n, &e.what))
}

fn is_claimed(events: &[Event], from: u8, n: u64) -> bool
    ensures { result ≡ happened (is_claim from n) events.now }
{
    events.iter().any(|e| is_claim_of(from, n, &e.what))
}

fn is_paired(found: &[Pair], number: u64) -> bool
    ensures { result ≡ list_any (is_of_receive number) found.now }
{
    found.iter().any(|pair| pair.number == number)
}

fn is_taken(found: &[Pair], from: u8, n: u64) -> bool
    ensures { result ≡ list_any (is_of_message from n) found.now }
{
    found.iter().any(|pair| pair.arrival.env.from == from && pair.arrival.n == n)
}

/// Whether a message is free: in no pair, and neither claimed nor withdrawn. MPI 3.1, 3.8.
#[tactic(auto, unfolding(nm_history::specs::Matching::is_free_message))]
pub fn is_free(events: &[Event], found: &[Pair], a: &Arrival) -> bool
    ensures { result ≡ is_free_lem events.now found.now a.now }
{
    !is_taken(found, a.env.from, a.n)
        && !is_claimed(events, a.env.from, a.n)
        && !is_withdrawn(events, a.env.from, a.n)
}

fn is_open(events: &[Event], found: &[Pair], p: &Post) -> bool
    ensures { result ≡ is_open_lem events.now found.now p.now }
{
    !is_paired(found, p.number) && !is_cancelled(events, p.number)
}

fn is_wanted(
    events: &[Event],
    found: &[Pair],
    from: Peer,
    tag: TagPick,
    ctx: u8,
    a: &Arrival,
) -> bool
    ensures { result ≡ (matches from tag ctx a.now.env && is_free_lem events.now found.now a.now) }
{
    selects(from, tag, ctx, &a.env) && is_free(events, found, a)
}

fn arrived(what: &Happened) -> Option<Arrival>
    ensures { result ≡ arrival_of what.now }
{
    match what {
        Happened::Arrive { a } => Some(*a),
        _ => None,
    }
}

fn posted(what: &Happened) -> Option<Post>
    ensures { result ≡ post_of what.now }
{
    match what {
        Happened::Post { post, line: _ } => Some(*post),
        _ => None,
    }
}

/// The first free message that a receive or a probe selects.
pub fn first_message(
    events: &[Event],
    found: &[Pair],
    from: Peer,
    tag: TagPick,
    ctx: u8,
) -> Option<Arrival>
    ensures { result ≡ first_message_lem events.now found.now from tag ctx }
{
    events
        .iter()
        .filter_map(|e| arrived(&e.what))
        .find(|a| is_wanted(events, found, from, tag, ctx, a))
}

/// The first open receive that selects a message.
pub fn first_receive(events: &[Event], found: &[Pair], env: &Envelope) -> Option<Post>
    ensures { result ≡ first_receive_lem events.now found.now env.now }
{
    events.iter().filter_map(|e| posted(&e.what)).find(|p| selects(p.from, p.tag, p.ctx, env)
        && is_open(events, found, p))
}

fn message_of(events: &[Event], from: u8, n: u64) -> Option<Arrival>
    ensures { result ≡ message_of_lem events.now from n }
{
    events
        .iter()
        .filter_map(|e| arrived(&e.what))
        .find(|a| a.env.from == from && a.n == n)
}

fn pair_made(events: &[Event], found: &[Pair], what: &Happened) -> Option<Pair>
    ensures { result ≡ new_pair events.now found.now what.now }
{
    match what {
        Happened::Post { post, line: _ } => {
            let arrival = first_message(events, found, post.from, post.tag, post.ctx)?;
            Some(Pair {
                number: post.number,
                cap: post.cap,
                arrival,
            })
        }
        Happened::Arrive { a } => {
            let post = first_receive(events, found, &a.env)?;
            Some(Pair {
                number: post.number,
                cap: post.cap,
                arrival: *a,
            })
        }
        Happened::Match {
            number,
            from,
            n,
            cap,
            line: _,
        } => {
            let arrival = message_of(events, *from, *n)?;
            Some(Pair {
                number: *number,
                cap: *cap,
                arrival,
            })
        }
        _ => None,
    }
}

/// The pairs of a history.
pub fn all_pairs(alloc: Global, events: &[Event]) -> Result<Vec<Pair>, AllocError>
    ensures { IfOk result (λ v. v.items ≡ matched_pairs events.now) }
{
    let mut found = Vec::new(alloc);
    for (k, e) in events.iter().enumerate() {
        if let Some(pair) = pair_made(&events[..k], &found, &e.what) {
            found.push(pair)?;
        }
    }
    Ok(found)
}
