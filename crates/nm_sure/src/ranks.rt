//! The lines of each rank's commands.

ghost use Rattle.std.specs.Prelude.{◌≡◌, ◌<◌, IfOk, length, map};
ghost use Rattle.std.specs.List.{range_with_len};
ghost use Rattle.nm_types.specs.declared.limits.TheConstants.{MAX_LINES};
ghost use Rattle.nm_sure.specs.Held.{own_lines};

use nm_types::{Line, Memory};
use std::alloc::Global;

/// The lines of a rank's commands, in order.
fn lines_of(alloc: Global, lines: &[Line], rank: u8) -> Result<Vec<u64>, Memory>
    requires { length lines.now < MAX_LINES }
    ensures { IfOk result (λ own. own.items ≡ own_lines lines.now rank) }
{
    let mut own = Vec::new(alloc);
    for (k, line) in lines.iter().enumerate() {
        if line.rank == rank {
            own.push(k as u64 + 2)?;
        }
    }
    Ok(own)
}

/// The lines of each rank's commands, by rank.
pub(crate) fn all_lines(alloc: Global, lines: &[Line], ranks: u8) -> Result<Vec<Vec<u64>>, Memory>
    requires { length lines.now < MAX_LINES }
    ensures { IfOk result (λ all. map (λ own. own.items) all.items
        ≡ map (own_lines lines.now) (range_with_len 0 ranks)) }
{
    let mut all = Vec::new(alloc);
    for rank in 0..ranks {
        all.push(lines_of(alloc, lines, rank)?)?;
    }
    Ok(all)
}
