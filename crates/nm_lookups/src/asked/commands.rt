//! The commands of a rank, by their lines.

ghost use Rattle.std.specs.Prelude.{◌≡◌, ◌==◌, if◌then◌else◌, Some, None, option_and_then};
ghost use Rattle.std.specs.Prelude.{option_copied, slice_get};
ghost use Rattle.nm_types.specs.Commands.{command_at, commands_of};

use nm_types::{Command, Line};

/// The command of the line at a place, where it is this rank's.
fn own_command(lines: &[Line], rank: u8, k: usize) -> Option<&Command>
    ensures { option_copied result
        ≡ option_and_then (λ l. if l.rank == rank then Some l.command else None)
        (slice_get lines.now k) }
{
    if k >= lines.len() {
        return None;
    }
    let own = &lines[k];
    if own.rank == rank {
        Some(&own.command)
    } else {
        None
    }
}

/// The command of a line, where it is this rank's.
pub fn command_of_line(lines: &[Line], rank: u8, line: u64) -> Option<&Command>
    ensures { option_copied result ≡ command_at (commands_of rank lines.now) line }
{
    if line < 2 {
        return None;
    }
    own_command(lines, rank, (line - 2) as usize)
}
