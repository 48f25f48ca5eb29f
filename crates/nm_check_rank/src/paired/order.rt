//! The commands of a rank and those that ran.

ghost use Rattle.std.specs.Prelude.{◌≡◌, IfOk, map};
ghost use Rattle.nm_types.specs.Commands.{commands_of};
ghost use Rattle.nm_history.specs.RankRun.{ran_of};

use nm_history::Happened;
use nm_types::{Line, Memory};
use std::alloc::Global;

/// The line of the command that an event answers.
pub(crate) fn line_ran(what: &Happened) -> Option<u64>
    ensures { result ≡ ran_of what.now }
{
    match what {
        Happened::Ran { line, .. } => Some(*line),
        _ => None,
    }
}

/// The lines of a rank's commands.
pub(crate) fn own_lines(alloc: Global, rank: u8, lines: &[Line]) -> Result<Vec<u64>, Memory>
    ensures { IfOk result (λ own. own.items ≡ map (λ c. c.line) (commands_of rank lines.now)) }
{
    let mut own = Vec::new(alloc);
    for (k, line) in lines.iter().enumerate() {
        if line.rank == rank {
            own.push(k as u64 + 2)?;
        }
    }
    Ok(own)
}
