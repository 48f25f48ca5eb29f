//! Commands by rank, in one list.

ghost use Rattle.std.specs.Prelude.{◌≡◌, ◌<◌, ℕ, [], IfErr, IfOk, IfSome, None, OnOk, length};
ghost use Rattle.nm_transcript.specs.Orders.{AreAll, HasNext, IsGiven, IsNoScript, calls_of};

use crate::calls::Calls;
use crate::starts::Starts;
use crate::transcripts::Refusal;
use nm_types::{Line, Lines, MAX_LINES, Memory};
use std::alloc::Global;

// Of the rank that was found and this one, the rank whose next command could start first.
fn better(rest: &[Calls], starts: &Starts, found: Option<usize>, rank: usize) -> Option<usize>
    requires within { rank < length rest.now }
    requires found { IfSome found (HasNext rest.now) }
    ensures some { IfSome result (HasNext rest.now) }
    ensures none { result ≡ None → (found ≡ None) × (calls_of rest.now rank ≡ []) }
{
    if rest[rank].is_empty() {
        return found;
    }
    match found {
        Some(before) if starts.next(before) <= starts.next(rank) => Some(before),
        _ => Some(rank),
    }
}

// The rank whose next command could start first, if one has a command.
fn first(rest: &[Calls], starts: &Starts) -> Option<usize>
    ensures some { IfSome result (HasNext rest.now) }
    ensures none { result ≡ None → (rank : ℕ) → calls_of rest.now rank ≡ [] }
{
    let mut found: Option<usize> = None;
    for rank in 0..rest.len() {
        found = better(rest, starts, found, rank);
    }
    found
}

// Gives the next command of a rank the next line.
fn give_line(rest: &mut Vec<Calls>, rank: usize, lines: &mut Lines) -> Result<(), Memory>
    requires next { HasNext rest.old.items rank }
    requires few { rank < 256 }
    ensures { OnOk result (IsGiven rank rest.old.items lines.old rest.new.items lines.new) }
{
    let Some(command) = rest[rank].pop() else {
        unreachable!()
    };
    lines.push(Line {
        rank: rank as u8,
        command,
    })?;
    Ok(())
}

/// The commands of all ranks in one list, in the order in which they could start.
pub fn in_one_list(alloc: Global, given: Vec<Calls>, starts: Starts) -> Result<Lines, Refusal>
    requires few { length given.items < 256 }
    ensures ok { IfOk result (λ lines. AreAll lines given.items) }
    ensures err { IfErr result (λ why. (ranks : ℕ) → IsNoScript ranks given.items why) }
{
    let mut rest = given;
    let mut starts = starts;
    let mut lines = Lines::new(alloc);
    for _placed in 0..MAX_LINES {
        let Some(rank) = first(&rest, &starts) else {
            return Ok(lines);
        };
        starts.pass(rank);
        give_line(&mut rest, rank, &mut lines)?;
    }
    Err(Refusal::TooLong)
}
