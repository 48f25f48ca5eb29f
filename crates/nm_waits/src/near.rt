//! What stands against a need: messages that came and do not fit or went elsewhere, receives that are open and do not fit.

ghost use Rattle.std.specs.Prelude.{◌≡◌, ◌++◌, [], IfOk, OnOk, find};
ghost use Rattle.std.specs.List.{cons_option};
ghost use Rattle.nm_history.specs.Matching.{is_of_message};
ghost use Rattle.nm_waits.specs.Near.{claim_line as claim_line_lem, first_said, fit_of as fit_of_lem};
ghost use Rattle.nm_waits.specs.Near.{near_message as near_message_lem, near_messages as near_messages_lem};
ghost use Rattle.nm_waits.specs.Near.{near_receive as near_receive_lem, near_receives as near_receives_lem};
ghost use Rattle.nm_waits.specs.Near.{receive_line as receive_line_lem, send_line as send_line_lem, standing_of};
ghost use Rattle.nm_waits.specs.Near.{standing_unpaired as standing_unpaired_lem};

use nm_history::plain::Pair;
use nm_outcomes::spots::deeds::{Deed, Receive};
use nm_outcomes::spots::ranks::Rank;
use nm_types::{Arrival, Memory, Peer, TagPick};
use std::alloc::Global;

/// Which fields of a message are those that are selected.
#[derive(Clone, Copy)]
pub struct Fit {
    pub source: bool,
    pub tag: bool,
    pub context: bool,
}

/// Where a message stands that came.
#[derive(Clone, Copy)]
pub enum Standing {
    /// No receive took it.
    Free,
    /// The receive of this line took it.
    Taken { line: Option<u64> },
    /// The matched probe of this line claimed it.
    Claimed { line: u64 },
    /// Its sender withdrew it.
    Withdrawn,
}

/// A message that came, and why it is not the one that is needed.
#[derive(Clone, Copy)]
pub struct NearMessage {
    pub message: Arrival,
    pub fit: Fit,
    pub standing: Standing,
}

/// An open receive, and why it is not the one that is needed.
#[derive(Clone, Copy)]
pub struct NearReceive {
    pub receive: Receive,
    pub line: u64,
    pub fit: Fit,
}

/// Which fields of a message a receive or a probe selects.
fn fit_of(from: Peer, tag: TagPick, ctx: u8, a: &Arrival) -> Fit
    ensures { result ≡ fit_of_lem from tag ctx a.now }
{
    let source = match from {
        Peer::Any => true,
        Peer::One(rank) => rank == a.env.from,
    };
    let tag = match tag {
        TagPick::Any => true,
        TagPick::One(tag) => tag == a.env.tag,
    };
    Fit {
        source,
        tag,
        context: ctx == a.env.ctx,
    }
}

/// The line of a deed that starts the receive with a number.
fn receive_line(number: u64, deed: Deed) -> Option<u64>
    ensures { result ≡ receive_line_lem number deed }
{
    match deed {
        Deed::Post { receive, line } if receive.number == number => Some(line),
        Deed::Match {
            number: own,
            line,
            ..
        } if own == number => Some(line),
        _ => None,
    }
}

/// The line of the receive with a number.
fn line_of_receive(deeds: &[Deed], number: u64) -> Option<u64>
    ensures { result ≡ first_said (receive_line_lem number) deeds.now }
{
    for deed in deeds {
        if let Some(line) = receive_line(number, *deed) {
            return Some(line);
        }
    }
    None
}

/// The line of a deed that claims a message.
fn claim_line(from: u8, n: u64, deed: Deed) -> Option<u64>
    ensures { result ≡ claim_line_lem from n deed }
{
    match deed {
        Deed::Claim {
            from: rank,
            n: number,
            line,
        } if rank == from && number == n => Some(line),
        _ => None,
    }
}

/// The line of the matched probe that claimed a message.
fn line_of_claim(deeds: &[Deed], from: u8, n: u64) -> Option<u64>
    ensures { result ≡ first_said (claim_line_lem from n) deeds.now }
{
    for deed in deeds {
        if let Some(line) = claim_line(from, n, *deed) {
            return Some(line);
        }
    }
    None
}

/// The line of a deed that sends message `n` to a rank.
fn send_line(to: u8, n: u64, deed: Deed) -> Option<u64>
    ensures { result ≡ send_line_lem to n deed }
{
    match deed {
        Deed::Send {
            to: rank,
            n: number,
            line,
            ..
        } if rank == to && number == n => Some(line),
        _ => None,
    }
}

/// The line that sends message `n` to a rank.
pub fn line_of_send(deeds: &[Deed], to: u8, n: u64) -> Option<u64>
    ensures { result ≡ first_said (send_line_lem to n) deeds.now }
{
    for deed in deeds {
        if let Some(line) = send_line(to, n, *deed) {
            return Some(line);
        }
    }
    None
}

/// Where a message stands that was not received.
fn standing_unpaired(rank: &Rank, a: &Arrival) -> Standing
    ensures { result ≡ standing_unpaired_lem rank.now a.now }
{
    match line_of_claim(rank.deeds(), a.env.from, a.n) {
        Some(line) => Standing::Claimed { line },
        None => {
            if rank.is_withdrawn(a.env.from, a.n) {
                Standing::Withdrawn
            } else {
                Standing::Free
            }
        }
    }
}

/// The receive that took a message.
fn pair_of(rank: &Rank, from: u8, n: u64) -> Option<Pair>
    ensures { result ≡ find (is_of_message from n) rank.now.pairs }
{
    rank.pairs()
        .iter()
        .copied()
        .find(|p| p.arrival.env.from == from && p.arrival.n == n)
}

/// Where a message stands that came.
pub fn standing_at(rank: &Rank, a: &Arrival) -> Standing
    ensures { result ≡ standing_of rank.now a.now }
{
    match pair_of(rank, a.env.from, a.n) {
        Some(pair) => Standing::Taken {
            line: line_of_receive(rank.deeds(), pair.number),
        },
        None => standing_unpaired(rank, a),
    }
}

/// A message that came, with the fields that are selected and where it stands.
fn near_message(rank: &Rank, from: Peer, tag: TagPick, ctx: u8, a: &Arrival) -> NearMessage
    ensures { result ≡ near_message_lem rank.now from tag ctx a.now }
{
    NearMessage {
        message: *a,
        fit: fit_of(from, tag, ctx, a),
        standing: standing_at(rank, a),
    }
}

/// All messages that came to a rank, as what is selected sees them.
pub fn near_messages(
    alloc: Global,
    rank: &Rank,
    from: Peer,
    tag: TagPick,
    ctx: u8,
) -> Result<Vec<NearMessage>, Memory>
    ensures { IfOk result (λ near. near.items ≡ near_messages_lem rank.now from tag ctx) }
{
    let mut near = Vec::new(alloc);
    for a in rank.came() {
        near.push(near_message(rank, from, tag, ctx, a))?;
    }
    Ok(near)
}

/// A receive that a deed posted, if it is open, with the fields of a message that it selects.
fn near_receive(rank: &Rank, a: &Arrival, deed: Deed) -> Option<NearReceive>
    ensures { result ≡ near_receive_lem rank.now a.now deed }
{
    match deed {
        Deed::Post { receive, line } => {
            if rank.is_paired(receive.number) || rank.is_off(receive.number) {
                return None;
            }
            Some(NearReceive {
                receive,
                line,
                fit: fit_of(receive.from, receive.tag, receive.ctx, a),
            })
        }
        _ => None,
    }
}

/// Adds an open receive, if there is one.
fn push_receive(near: &mut Vec<NearReceive>, receive: Option<NearReceive>) -> Result<(), Memory>
    ensures { OnOk result (near.new.items ≡ near.old.items ++ cons_option receive []) }
{
    if let Some(receive) = receive {
        near.push(receive)?;
    }
    Ok(())
}

/// All open receives of a rank, as a message sees them.
pub fn near_receives(alloc: Global, rank: &Rank, a: &Arrival) -> Result<Vec<NearReceive>, Memory>
    ensures { IfOk result (λ near. near.items ≡ near_receives_lem rank.now a.now) }
{
    let mut near = Vec::new(alloc);
    for deed in rank.deeds() {
        push_receive(&mut near, near_receive(rank, a, *deed))?;
    }
    Ok(near)
}
