//! A rank and its command, by the words of a line.

ghost use Rattle.std.specs.Prelude.{◌≡◌, ◌<◌, ◌≤◌, [], ◌∷◌, map, IfOk};
ghost use Rattle.nm_script.specs.Commands.{rank_of};
ghost use Rattle.nm_script.specs.Faults.{Gives};
ghost use Rattle.nm_plans.specs.declared.faults.PlanKind.TheVariants as kind;
ghost use Rattle.nm_plans.specs.declared.keywords.PlanKeyword.TheVariants as key;
ghost use Rattle.nm_plans.specs.Commands.{plan_argument, parts_of};
ghost use Rattle.nm_plans.specs.Commands.{arguments_of, command_of, line_of};
ghost use Rattle.nm_plans.specs.Faults.{or_kind};

use crate::bodies::body_from;
use crate::faults::PlanKind;
use crate::keywords::{PlanKeyword, keyword_from};
use crate::limits::{MAX_CONTEXT, MAX_PARTS, MAX_REQUEST, MAX_TAG};
use crate::lines::{PlanCommand, PlanLine};
use nm_script::LineFault;
use nm_script::words::number;
use nm_types::MAX_CAPACITY;
use std::alloc::Global;

/// A rank and a colon.
fn rank_from(ranks: u8, word: &[u8]) -> Result<u8, PlanKind>
    ensures { result ≡ or_kind (rank_of ranks word.now) kind.Rank }
{
    match nm_script::rank_from(ranks, word) {
        Ok(rank) => Ok(rank),
        Err(_) => Err(PlanKind::Rank),
    }
}

/// A number below `limit`.
#[tactic(auto, unfolding(crate::specs::Commands::plan_argument))]
fn argument(word: &[u8], limit: u64) -> Result<u64, PlanKind>
    ensures exact { result ≡ plan_argument limit word.now }
    ensures below { IfOk result (λ n. n < limit) }
{
    number(word, limit).ok_or(PlanKind::Number)
}

/// A name of a request.
fn request_from(word: &[u8]) -> Result<u16, PlanKind>
    ensures { result ≡ plan_argument 4096 word.now }
{
    Ok(argument(word, u64::from(MAX_REQUEST) + 1)? as u16)
}

/// A rank.
fn peer_from(ranks: u8, word: &[u8]) -> Result<u8, PlanKind>
    ensures { result ≡ plan_argument ranks word.now }
{
    Ok(argument(word, u64::from(ranks))? as u8)
}

/// A tag.
fn tag_from(word: &[u8]) -> Result<u16, PlanKind>
    ensures { result ≡ plan_argument 2048 word.now }
{
    Ok(argument(word, u64::from(MAX_TAG) + 1)? as u16)
}

/// A context.
fn context_from(word: &[u8]) -> Result<u8, PlanKind>
    ensures { result ≡ plan_argument 128 word.now }
{
    Ok(argument(word, u64::from(MAX_CONTEXT) + 1)? as u8)
}

/// A number of parts.
#[tactic(auto, unfolding(crate::specs::Commands::parts_of))]
fn parts_from(word: &[u8]) -> Result<u8, PlanKind>
    ensures { result ≡ parts_of word.now }
{
    match argument(word, u64::from(MAX_PARTS) + 1)? {
        0 => Err(PlanKind::Number),
        parts => Ok(parts as u8),
    }
}

/// The number of a part.
fn part_from(word: &[u8]) -> Result<u8, PlanKind>
    ensures { result ≡ plan_argument 16 word.now }
{
    Ok(argument(word, u64::from(MAX_PARTS))? as u8)
}

/// At most how many bytes a receive takes.
fn capacity_from(word: &[u8]) -> Result<u32, PlanKind>
    ensures { result ≡ plan_argument 1048577 word.now }
{
    Ok(argument(word, u64::from(MAX_CAPACITY) + 1)? as u32)
}

/// A request that sends, by its five arguments.
#[tactic(auto, unfolding(crate::specs::Commands::arguments_of))]
fn send_with(
    alloc: Global,
    ranks: u8,
    p: &[u8],
    to: &[u8],
    tag: &[u8],
    ctx: &[u8],
    body: &[u8],
) -> Result<PlanCommand, LineFault<PlanKind>>
    ensures { Gives result (arguments_of ranks key.SendInit
        (p.now ∷ to.now ∷ tag.now ∷ ctx.now ∷ body.now ∷ [])) }
{
    Ok(PlanCommand::SendInit {
        p: request_from(p)?,
        to: peer_from(ranks, to)?,
        tag: tag_from(tag)?,
        ctx: context_from(ctx)?,
        body: body_from(alloc, body)?,
    })
}

/// A request that sends, by its arguments.
fn send_init(
    alloc: Global,
    ranks: u8,
    arguments: &[&[u8]],
) -> Result<PlanCommand, LineFault<PlanKind>>
    ensures { Gives result
        (arguments_of ranks key.SendInit (map (λ word. word.now) arguments.now)) }
{
    match arguments {
        [p, to, tag, ctx, body] => send_with(alloc, ranks, p, to, tag, ctx, body),
        _ => Err(LineFault::Bad(PlanKind::Count)),
    }
}

/// A request that receives, by its five arguments.
#[tactic(auto, unfolding(crate::specs::Commands::arguments_of))]
fn recv_with(
    ranks: u8,
    p: &[u8],
    from: &[u8],
    tag: &[u8],
    ctx: &[u8],
    cap: &[u8],
) -> Result<PlanCommand, PlanKind>
    ensures { result ≡ arguments_of ranks key.RecvInit
        (p.now ∷ from.now ∷ tag.now ∷ ctx.now ∷ cap.now ∷ []) }
{
    Ok(PlanCommand::RecvInit {
        p: request_from(p)?,
        from: peer_from(ranks, from)?,
        tag: tag_from(tag)?,
        ctx: context_from(ctx)?,
        cap: capacity_from(cap)?,
    })
}

/// A request that receives.
fn recv_init(ranks: u8, arguments: &[&[u8]]) -> Result<PlanCommand, PlanKind>
    ensures { result ≡ arguments_of ranks key.RecvInit (map (λ word. word.now) arguments.now) }
{
    match arguments {
        [p, from, tag, ctx, cap] => recv_with(ranks, p, from, tag, ctx, cap),
        _ => Err(PlanKind::Count),
    }
}

/// A request that sends in parts, by its six arguments.
#[tactic(auto, unfolding(crate::specs::Commands::arguments_of))]
fn psend_with(
    alloc: Global,
    ranks: u8,
    p: &[u8],
    to: &[u8],
    tag: &[u8],
    ctx: &[u8],
    parts: &[u8],
    body: &[u8],
) -> Result<PlanCommand, LineFault<PlanKind>>
    ensures { Gives result (arguments_of ranks key.PsendInit
        (p.now ∷ to.now ∷ tag.now ∷ ctx.now ∷ parts.now ∷ body.now ∷ [])) }
{
    Ok(PlanCommand::PsendInit {
        p: request_from(p)?,
        to: peer_from(ranks, to)?,
        tag: tag_from(tag)?,
        ctx: context_from(ctx)?,
        parts: parts_from(parts)?,
        body: body_from(alloc, body)?,
    })
}

/// A request that sends in parts.
fn psend_init(
    alloc: Global,
    ranks: u8,
    arguments: &[&[u8]],
) -> Result<PlanCommand, LineFault<PlanKind>>
    ensures { Gives result
        (arguments_of ranks key.PsendInit (map (λ word. word.now) arguments.now)) }
{
    match arguments {
        [p, to, tag, ctx, parts, body] => psend_with(alloc, ranks, p, to, tag, ctx, parts, body),
        _ => Err(LineFault::Bad(PlanKind::Count)),
    }
}

/// A request that receives in parts, by its six arguments.
#[tactic(auto, unfolding(crate::specs::Commands::arguments_of))]
fn precv_with(
    ranks: u8,
    p: &[u8],
    from: &[u8],
    tag: &[u8],
    ctx: &[u8],
    parts: &[u8],
    cap: &[u8],
) -> Result<PlanCommand, PlanKind>
    ensures { result ≡ arguments_of ranks key.PrecvInit
        (p.now ∷ from.now ∷ tag.now ∷ ctx.now ∷ parts.now ∷ cap.now ∷ []) }
{
    Ok(PlanCommand::PrecvInit {
        p: request_from(p)?,
        from: peer_from(ranks, from)?,
        tag: tag_from(tag)?,
        ctx: context_from(ctx)?,
        parts: parts_from(parts)?,
        cap: capacity_from(cap)?,
    })
}

/// A request that receives in parts.
fn precv_init(ranks: u8, arguments: &[&[u8]]) -> Result<PlanCommand, PlanKind>
    ensures { result ≡ arguments_of ranks key.PrecvInit (map (λ word. word.now) arguments.now) }
{
    match arguments {
        [p, from, tag, ctx, parts, cap] => precv_with(ranks, p, from, tag, ctx, parts, cap),
        _ => Err(PlanKind::Count),
    }
}

/// Another body.
#[tactic(auto, unfolding(crate::specs::Commands::arguments_of))]
fn fill(alloc: Global, ranks: u8, arguments: &[&[u8]]) -> Result<PlanCommand, LineFault<PlanKind>>
    ensures { Gives result (arguments_of ranks key.Fill (map (λ word. word.now) arguments.now)) }
{
    match arguments {
        [p, body] => Ok(PlanCommand::Fill {
            p: request_from(p)?,
            body: body_from(alloc, body)?,
        }),
        _ => Err(LineFault::Bad(PlanKind::Count)),
    }
}

/// A start of a request.
#[tactic(auto, unfolding(crate::specs::Commands::arguments_of))]
fn start(ranks: u8, arguments: &[&[u8]]) -> Result<PlanCommand, PlanKind>
    ensures { result ≡ arguments_of ranks key.Start (map (λ word. word.now) arguments.now) }
{
    match arguments {
        [p] => Ok(PlanCommand::Start {
            p: request_from(p)?,
        }),
        _ => Err(PlanKind::Count),
    }
}

/// A part that may go.
#[tactic(auto, unfolding(crate::specs::Commands::arguments_of))]
fn ready(ranks: u8, arguments: &[&[u8]]) -> Result<PlanCommand, PlanKind>
    ensures { result ≡ arguments_of ranks key.Ready (map (λ word. word.now) arguments.now) }
{
    match arguments {
        [p, k] => Ok(PlanCommand::Ready {
            p: request_from(p)?,
            k: part_from(k)?,
        }),
        _ => Err(PlanKind::Count),
    }
}

/// A question whether a part is here.
#[tactic(auto, unfolding(crate::specs::Commands::arguments_of))]
fn arrived(ranks: u8, arguments: &[&[u8]]) -> Result<PlanCommand, PlanKind>
    ensures { result ≡ arguments_of ranks key.Arrived (map (λ word. word.now) arguments.now) }
{
    match arguments {
        [p, k] => Ok(PlanCommand::Arrived {
            p: request_from(p)?,
            k: part_from(k)?,
        }),
        _ => Err(PlanKind::Count),
    }
}

/// A wait for a request.
#[tactic(auto, unfolding(crate::specs::Commands::arguments_of))]
fn wait(ranks: u8, arguments: &[&[u8]]) -> Result<PlanCommand, PlanKind>
    ensures { result ≡ arguments_of ranks key.Wait (map (λ word. word.now) arguments.now) }
{
    match arguments {
        [p] => Ok(PlanCommand::Wait {
            p: request_from(p)?,
        }),
        _ => Err(PlanKind::Count),
    }
}

/// A command by its arguments.
fn arguments_from(
    alloc: Global,
    ranks: u8,
    keyword: PlanKeyword,
    arguments: &[&[u8]],
) -> Result<PlanCommand, LineFault<PlanKind>>
    ensures { Gives result (arguments_of ranks keyword (map (λ word. word.now) arguments.now)) }
{
    match keyword {
        PlanKeyword::SendInit => send_init(alloc, ranks, arguments),
        PlanKeyword::RecvInit => Ok(recv_init(ranks, arguments)?),
        PlanKeyword::PsendInit => psend_init(alloc, ranks, arguments),
        PlanKeyword::PrecvInit => Ok(precv_init(ranks, arguments)?),
        PlanKeyword::Fill => fill(alloc, ranks, arguments),
        PlanKeyword::Start => Ok(start(ranks, arguments)?),
        PlanKeyword::Ready => Ok(ready(ranks, arguments)?),
        PlanKeyword::Arrived => Ok(arrived(ranks, arguments)?),
        PlanKeyword::Wait => Ok(wait(ranks, arguments)?),
    }
}

/// A command by its name and its arguments.
#[tactic(auto, unfolding(crate::specs::Commands::command_of))]
fn command_from(
    alloc: Global,
    ranks: u8,
    name: &[u8],
    arguments: &[&[u8]],
) -> Result<PlanCommand, LineFault<PlanKind>>
    ensures { Gives result (command_of ranks name.now (map (λ word. word.now) arguments.now)) }
{
    match keyword_from(name) {
        Some(keyword) => arguments_from(alloc, ranks, keyword, arguments),
        None => Err(LineFault::Bad(PlanKind::Command)),
    }
}

/// A rank and its command, by the words of a line that has a command.
#[tactic(auto, unfolding(crate::specs::Commands::line_of))]
fn line_with(
    alloc: Global,
    ranks: u8,
    first: &[u8],
    name: &[u8],
    arguments: &[&[u8]],
) -> Result<PlanLine, LineFault<PlanKind>>
    ensures { Gives result
        (line_of ranks (first.now ∷ name.now ∷ map (λ word. word.now) arguments.now)) }
{
    let rank = rank_from(ranks, first)?;
    let command = command_from(alloc, ranks, name, arguments)?;
    Ok(PlanLine { rank, command })
}

/// A line that isn't the first, by its words.
#[tactic(auto, unfolding(crate::specs::Commands::line_of))]
pub fn line_from(alloc: Global, ranks: u8, words: &[&[u8]]) -> Result<PlanLine, LineFault<PlanKind>>
    ensures { Gives result (line_of ranks (map (λ word. word.now) words.now)) }
{
    match words {
        [] => Err(LineFault::Bad(PlanKind::Rank)),
        [first] => {
            rank_from(ranks, first)?;
            Err(LineFault::Bad(PlanKind::Command))
        }
        [first, name, arguments @ ..] => line_with(alloc, ranks, first, name, arguments),
    }
}
