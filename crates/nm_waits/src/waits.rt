//! For what a rank waits.

ghost use Rattle.std.specs.Prelude.{◌≡◌, ◌<◌, ◌++◌, [], IfOk, OnOk, find, length, option_and_then};
ghost use Rattle.std.specs.List.{cons_option};
ghost use Rattle.nm_lookups.specs.AskedFor.{meant_by};
ghost use Rattle.nm_waits.specs.Waits as spec;
ghost use Rattle.nm_waits.specs.Waits.{is_posting as is_posting_lem, is_sending as is_sending_lem, need_by as need_by_lem};
ghost use Rattle.nm_waits.specs.Waits.{need_of_request, wait_at as wait_at_lem};

use nm_explored::choices::choices::line_at;
use nm_lookups::asked::commands::command_of_line;
use nm_lookups::asked::requests::Request;
use nm_outcomes::spots::deeds::Deed;
use nm_outcomes::spots::looks::{live, ran};
use nm_outcomes::spots::ranks::Rank;
use nm_types::{Command, Line, Memory, Peer, TagPick};
use std::alloc::Global;

/// What a blocking command needs.
#[derive(Clone, Copy)]
pub enum Need {
    /// A receive at a rank that takes message `n`, which this line sends.
    Receiver {
        to: u8,
        n: u64,
        tag: u16,
        ctx: u8,
        line: u64,
    },
    /// A message that the receive or the probe of this line selects.
    Message {
        from: Peer,
        tag: TagPick,
        ctx: u8,
        line: u64,
    },
}

/// A rank that waits at a line.
#[derive(Clone, Copy)]
pub struct Wait {
    pub rank: u8,
    pub line: u64,
    pub need: Need,
}

/// Whether a deed is the send of message `n` to a rank.
fn is_sending(to: u8, n: u64, deed: &Deed) -> bool
    ensures { result ≡ is_sending_lem to n deed.now }
{
    match deed {
        Deed::Send {
            to: own,
            n: number,
            ..
        } => *own == to && *number == n,
        _ => false,
    }
}

/// Whether a deed posts the receive with a number.
fn is_posting(number: u64, deed: &Deed) -> bool
    ensures { result ≡ is_posting_lem number deed.now }
{
    match deed {
        Deed::Post { receive, .. } => receive.number == number,
        _ => false,
    }
}

/// What the request of a deed needs.
fn need_by(deed: Deed) -> Option<Need>
    ensures { result ≡ need_by_lem deed }
{
    match deed {
        Deed::Send {
            to,
            n,
            tag,
            ctx,
            line,
            ..
        } => Some(Need::Receiver {
            to,
            n,
            tag,
            ctx,
            line,
        }),
        Deed::Post { receive, line } => Some(Need::Message {
            from: receive.from,
            tag: receive.tag,
            ctx: receive.ctx,
            line,
        }),
        _ => None,
    }
}

/// The deed that sends message `n` to a rank.
fn send_of(deeds: &[Deed], to: u8, n: u64) -> Option<Deed>
    ensures { result ≡ find (is_sending_lem to n) deeds.now }
{
    deeds.iter().copied().find(|d| is_sending(to, n, d))
}

/// The deed that posts the receive with a number.
fn post_of(deeds: &[Deed], number: u64) -> Option<Deed>
    ensures { result ≡ find (is_posting_lem number) deeds.now }
{
    deeds.iter().copied().find(|d| is_posting(number, d))
}

/// What the request of a deed needs, if there is one.
fn need_by_some(deed: Option<Deed>) -> Option<Need>
    ensures { result ≡ option_and_then need_by_lem deed }
{
    match deed {
        Some(deed) => need_by(deed),
        None => None,
    }
}

/// What a request needs.
fn need_of(deeds: &[Deed], request: Request) -> Option<Need>
    ensures { result ≡ need_of_request deeds.now (meant_by request) }
{
    match request {
        Request::Sending { to, n } => need_by_some(send_of(deeds, to, n)),
        Request::Receiving { number } => need_by_some(post_of(deeds, number)),
    }
}

/// What a blocking command needs.
fn need_of_command(lines: &[Line], i: u8, rank: &Rank, line: u64, command: &Command) -> Option<Need>
    ensures { result ≡ spec.need_of lines.now i rank.now line command.now }
{
    match command {
        Command::Wait { q } => need_of(rank.deeds(), live(lines, i, rank.deeds(), *q)?),
        Command::Await { from, tag, ctx } => Some(Need::Message {
            from: *from,
            tag: *tag,
            ctx: *ctx,
            line,
        }),
        _ => None,
    }
}

/// The command of a line, and what it needs.
fn wait_at(lines: &[Line], i: u8, rank: &Rank, line: u64) -> Option<Wait>
    ensures { result ≡ wait_at_lem lines.now i rank.now line }
{
    let command = command_of_line(lines, i, line)?;
    let need = need_of_command(lines, i, rank, line, command)?;
    Some(Wait {
        rank: i,
        line,
        need,
    })
}

/// Where a rank in this state waits, and for what.
pub fn wait_of(lines: &[Line], i: u8, rank: &Rank) -> Option<Wait>
    requires { length lines.now < 4294967293 }
    ensures { result ≡ spec.wait_of lines.now i rank.now }
{
    let line = line_at(lines, i, ran(rank.deeds()))?;
    wait_at(lines, i, rank, line)
}

/// The rank that a need names, if it names one.
pub fn awaited(need: Need) -> Option<u8>
    ensures { result ≡ spec.awaited need }
{
    match need {
        Need::Receiver { to, .. } => Some(to),
        Need::Message {
            from: Peer::One(from),
            ..
        } => Some(from),
        Need::Message { .. } => None,
    }
}

/// Adds where a rank waits, if it does.
fn push_wait(waits: &mut Vec<Wait>, wait: Option<Wait>) -> Result<(), Memory>
    ensures { OnOk result (waits.new.items ≡ waits.old.items ++ cons_option wait []) }
{
    if let Some(wait) = wait {
        waits.push(wait)?;
    }
    Ok(())
}

/// Where the ranks wait in these states, and for what.
pub fn waits_of(alloc: Global, lines: &[Line], states: &[Rank]) -> Result<Vec<Wait>, Memory>
    requires few { length states.now < 256 }
    requires short { length lines.now < 4294967293 }
    ensures { IfOk result (λ waits. waits.items ≡ spec.waits_of lines.now states.now) }
{
    let mut waits = Vec::new(alloc);
    for (i, rank) in states.iter().enumerate() {
        push_wait(&mut waits, wait_of(lines, i as u8, rank))?;
    }
    Ok(waits)
}
