//! Why a run of programs has no outcome.

ghost use Rattle.std.specs.Prelude.{◌≡◌};
ghost use Rattle.nm_programs.specs.declared.stops.Stop.TheVariants as stop;

use nm_types::{Command, Memory};
use std::fmt;

/// Why a run has no outcome.
#[derive(Drop)]
pub enum Stop {
    /// Memory was refused, to the run or to a program.
    Memory,
    /// The program of this rank gave this command, whose arguments are out of range, or which came after
    /// 2^64 - 6 others. It did not run.
    Range { rank: u8, command: Command },
}

impl From<Memory> for Stop {
    ghost from_gives = { λ _ e. e ≡ stop.Memory };

    fn from(_memory: Memory) -> Stop {
        Stop::Memory
    }
}

impl fmt::Debug for Stop {
    fn fmt<W: fmt::Write>(&self, f: &mut fmt::Formatter<W>) -> fmt::Result {
        match self {
            Stop::Memory => write!(f, "memory was refused"),
            Stop::Range { rank, .. } => write!(
                f,
                "rank {rank} gave a command that is out of range"
            ),
        }
    }
}
