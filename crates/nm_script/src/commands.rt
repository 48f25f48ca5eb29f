//! A rank and its command, by the words of a line.

ghost use Rattle.std.specs.Prelude.{◌≡◌, ◌<◌, ◌∷◌, map, IfOk};
ghost use Rattle.nm_script.specs.Faults.{Gives};
ghost use Rattle.nm_script.specs.Commands.{rank_of, argument_of, name_of, peer_of, pick_of};
ghost use Rattle.nm_script.specs.Commands.{selection_of, send_with, send_of, recv_with, recv_of};
ghost use Rattle.nm_script.specs.Commands.{lone_of, probe_of, mprobe_with, mprobe_of, mrecv_with};
ghost use Rattle.nm_script.specs.Commands.{mrecv_of, arguments_of, command_of, line_of};

use crate::bodies::body_from;
use crate::faults::{Kind, LineFault};
use crate::keywords::{Keyword, keyword_from};
use crate::words::number;
use nm_types::{Command, Line, MAX_CAPACITY, MAX_CONTEXT, MAX_NAME, MAX_TAG, Peer, TagPick};
use std::alloc::Global;

/// Which messages a command is about.
#[derive(Clone, Copy)]
pub struct Selection {
    pub from: Peer,
    pub tag: TagPick,
    pub ctx: u8,
}

/// A rank and a colon.
#[tactic(auto, unfolding(crate::specs::Commands::rank_of))]
pub fn rank_from(ranks: u8, word: &[u8]) -> Result<u8, Kind>
    ensures { result ≡ rank_of ranks word.now }
{
    match word {
        [digits @ .., b':'] => match number(digits, u64::from(ranks)) {
            Some(rank) => Ok(rank as u8),
            None => Err(Kind::Rank),
        },
        _ => Err(Kind::Rank),
    }
}

/// A number below `limit`.
#[tactic(auto, unfolding(crate::specs::Commands::argument_of))]
fn argument(word: &[u8], limit: u64) -> Result<u64, Kind>
    ensures exact { result ≡ argument_of limit word.now }
    ensures below { IfOk result (λ n. n < limit) }
{
    number(word, limit).ok_or(Kind::Number)
}

/// A name of a request or of a handle.
#[tactic(auto, unfolding(crate::specs::Commands::name_of))]
fn name_from(word: &[u8]) -> Result<u16, Kind>
    ensures { result ≡ name_of word.now }
{
    Ok(argument(word, u64::from(MAX_NAME) + 1)? as u16)
}

/// Any source, or a rank.
#[tactic(auto, unfolding(crate::specs::Commands::peer_of))]
fn peer_from(ranks: u8, word: &[u8]) -> Result<Peer, Kind>
    ensures { result ≡ peer_of ranks word.now }
{
    if word == b"any".as_slice() {
        return Ok(Peer::Any);
    }
    let rank = argument(word, u64::from(ranks))?;
    Ok(Peer::One(rank as u8))
}

/// Any tag, or one.
#[tactic(auto, unfolding(crate::specs::Commands::pick_of))]
fn pick_from(word: &[u8]) -> Result<TagPick, Kind>
    ensures { result ≡ pick_of word.now }
{
    if word == b"any".as_slice() {
        return Ok(TagPick::Any);
    }
    let tag = argument(word, u64::from(MAX_TAG) + 1)?;
    Ok(TagPick::One(tag as u16))
}

/// A source, a tag and a context.
#[tactic(auto, unfolding(crate::specs::Commands::selection_of))]
fn selection_from(ranks: u8, from: &[u8], tag: &[u8], ctx: &[u8]) -> Result<Selection, Kind>
    ensures { result ≡ selection_of ranks from.now tag.now ctx.now }
{
    let from = peer_from(ranks, from)?;
    let tag = pick_from(tag)?;
    let ctx = argument(ctx, u64::from(MAX_CONTEXT) + 1)? as u8;
    Ok(Selection { from, tag, ctx })
}

/// A send by its arguments, the body last.
#[tactic(auto, unfolding(crate::specs::Commands::send_with))]
fn send_with(
    alloc: Global,
    ranks: u8,
    sync: bool,
    name: &[u8],
    to: &[u8],
    tag: &[u8],
    ctx: &[u8],
    body: &[u8],
) -> Result<Command, LineFault<Kind>>
    ensures { Gives result (send_with ranks sync name.now to.now tag.now ctx.now body.now) }
{
    let q = name_from(name)?;
    let to = argument(to, u64::from(ranks))? as u8;
    let tag = argument(tag, u64::from(MAX_TAG) + 1)? as u16;
    let ctx = argument(ctx, u64::from(MAX_CONTEXT) + 1)? as u8;
    let body = body_from(alloc, body)?;
    Ok(Command::Send {
        q,
        to,
        tag,
        ctx,
        body,
        sync,
    })
}

#[tactic(auto, unfolding(crate::specs::Commands::send_of))]
fn send_from(
    alloc: Global,
    ranks: u8,
    sync: bool,
    arguments: &[&[u8]],
) -> Result<Command, LineFault<Kind>>
    ensures { Gives result (send_of ranks sync (map (λ word. word.now) arguments.now)) }
{
    match arguments {
        [name, to, tag, ctx, body] => send_with(alloc, ranks, sync, name, to, tag, ctx, body),
        _ => Err(LineFault::Bad(Kind::Count)),
    }
}

/// A receive by its arguments.
#[tactic(auto, unfolding(crate::specs::Commands::recv_with))]
fn recv_with(
    ranks: u8,
    name: &[u8],
    from: &[u8],
    tag: &[u8],
    ctx: &[u8],
    cap: &[u8],
) -> Result<Command, Kind>
    ensures { result ≡ recv_with ranks name.now from.now tag.now ctx.now cap.now }
{
    let q = name_from(name)?;
    let Selection { from, tag, ctx } = selection_from(ranks, from, tag, ctx)?;
    let cap = argument(cap, u64::from(MAX_CAPACITY) + 1)? as u32;
    Ok(Command::Recv {
        q,
        from,
        tag,
        ctx,
        cap,
    })
}

#[tactic(auto, unfolding(crate::specs::Commands::recv_of))]
fn recv_from(ranks: u8, arguments: &[&[u8]]) -> Result<Command, Kind>
    ensures { result ≡ recv_of ranks (map (λ word. word.now) arguments.now) }
{
    match arguments {
        [name, from, tag, ctx, cap] => recv_with(ranks, name, from, tag, ctx, cap),
        _ => Err(Kind::Count),
    }
}

/// The one argument of a command about a request.
#[tactic(auto, unfolding(crate::specs::Commands::lone_of))]
fn lone_from(arguments: &[&[u8]]) -> Result<u16, Kind>
    ensures { result ≡ lone_of (map (λ word. word.now) arguments.now) }
{
    match arguments {
        [name] => name_from(name),
        _ => Err(Kind::Count),
    }
}

/// The arguments of a probe.
#[tactic(auto, unfolding(crate::specs::Commands::probe_of))]
fn probe_from(ranks: u8, arguments: &[&[u8]]) -> Result<Selection, Kind>
    ensures { result ≡ probe_of ranks (map (λ word. word.now) arguments.now) }
{
    match arguments {
        [from, tag, ctx] => selection_from(ranks, from, tag, ctx),
        _ => Err(Kind::Count),
    }
}

/// A probe that takes its message out of matching, by its arguments.
#[tactic(auto, unfolding(crate::specs::Commands::mprobe_with))]
fn mprobe_with(ranks: u8, name: &[u8], from: &[u8], tag: &[u8], ctx: &[u8]) -> Result<Command, Kind>
    ensures { result ≡ mprobe_with ranks name.now from.now tag.now ctx.now }
{
    let m = name_from(name)?;
    let Selection { from, tag, ctx } = selection_from(ranks, from, tag, ctx)?;
    Ok(Command::Mprobe { m, from, tag, ctx })
}

#[tactic(auto, unfolding(crate::specs::Commands::mprobe_of))]
fn mprobe_from(ranks: u8, arguments: &[&[u8]]) -> Result<Command, Kind>
    ensures { result ≡ mprobe_of ranks (map (λ word. word.now) arguments.now) }
{
    match arguments {
        [name, from, tag, ctx] => mprobe_with(ranks, name, from, tag, ctx),
        _ => Err(Kind::Count),
    }
}

/// A receive of a handle's message, by its arguments.
#[tactic(auto, unfolding(crate::specs::Commands::mrecv_with))]
fn mrecv_with(name: &[u8], handle: &[u8], cap: &[u8]) -> Result<Command, Kind>
    ensures { result ≡ mrecv_with name.now handle.now cap.now }
{
    let q = name_from(name)?;
    let m = name_from(handle)?;
    let cap = argument(cap, u64::from(MAX_CAPACITY) + 1)? as u32;
    Ok(Command::Mrecv { q, m, cap })
}

#[tactic(auto, unfolding(crate::specs::Commands::mrecv_of))]
fn mrecv_from(arguments: &[&[u8]]) -> Result<Command, Kind>
    ensures { result ≡ mrecv_of (map (λ word. word.now) arguments.now) }
{
    match arguments {
        [name, handle, cap] => mrecv_with(name, handle, cap),
        _ => Err(Kind::Count),
    }
}

/// A command by its arguments.
#[tactic(auto, unfolding(crate::specs::Commands::arguments_of))]
fn arguments_from(
    alloc: Global,
    ranks: u8,
    keyword: Keyword,
    arguments: &[&[u8]],
) -> Result<Command, LineFault<Kind>>
    ensures { Gives result (arguments_of ranks keyword (map (λ word. word.now) arguments.now)) }
{
    match keyword {
        Keyword::Isend => send_from(alloc, ranks, false, arguments),
        Keyword::Issend => send_from(alloc, ranks, true, arguments),
        Keyword::Irecv => Ok(recv_from(ranks, arguments)?),
        Keyword::Wait => Ok(Command::Wait {
            q: lone_from(arguments)?,
        }),
        Keyword::Test => Ok(Command::Test {
            q: lone_from(arguments)?,
        }),
        Keyword::Probe => {
            let Selection { from, tag, ctx } = probe_from(ranks, arguments)?;
            Ok(Command::Probe { from, tag, ctx })
        }
        Keyword::Await => {
            let Selection { from, tag, ctx } = probe_from(ranks, arguments)?;
            Ok(Command::Await { from, tag, ctx })
        }
        Keyword::Cancel => Ok(Command::Cancel {
            q: lone_from(arguments)?,
        }),
        Keyword::Mprobe => Ok(mprobe_from(ranks, arguments)?),
        Keyword::Mrecv => Ok(mrecv_from(arguments)?),
    }
}

/// A command by its name and its arguments.
#[tactic(auto, unfolding(crate::specs::Commands::command_of))]
fn command_from(
    alloc: Global,
    ranks: u8,
    name: &[u8],
    arguments: &[&[u8]],
) -> Result<Command, LineFault<Kind>>
    ensures { Gives result (command_of ranks name.now (map (λ word. word.now) arguments.now)) }
{
    match keyword_from(name) {
        Some(keyword) => arguments_from(alloc, ranks, keyword, arguments),
        None => Err(LineFault::Bad(Kind::Command)),
    }
}

/// A rank and its command, by the words of a line that has a command.
#[tactic(auto, unfolding(crate::specs::Commands::line_of))]
fn line_with(
    alloc: Global,
    ranks: u8,
    first: &[u8],
    name: &[u8],
    arguments: &[&[u8]],
) -> Result<Line, LineFault<Kind>>
    ensures { Gives result
        (line_of ranks (first.now ∷ name.now ∷ map (λ word. word.now) arguments.now)) }
{
    let rank = rank_from(ranks, first)?;
    let command = command_from(alloc, ranks, name, arguments)?;
    Ok(Line { rank, command })
}

/// A line that isn't the first, by its words.
#[tactic(auto, unfolding(crate::specs::Commands::line_of))]
pub fn line_from(alloc: Global, ranks: u8, words: &[&[u8]]) -> Result<Line, LineFault<Kind>>
    ensures { Gives result (line_of ranks (map (λ word. word.now) words.now)) }
{
    match words {
        [] => Err(LineFault::Bad(Kind::Rank)),
        [first] => {
            rank_from(ranks, first)?;
            Err(LineFault::Bad(Kind::Command))
        }
        [first, name, arguments @ ..] => line_with(alloc, ranks, first, name, arguments),
    }
}
