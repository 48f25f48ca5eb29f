//! The words of the command line.
//!
//! The first word says what the program is to do; options stand anywhere behind it, each at most
//! once, in either spelling (`--cells 4` or `--cells=4`); `flood` has three numbers besides, in
//! their order. `multi` has two numbers, and takes no option.
//!
//! # What a contract sees
//! The words as lists of bytes, and what they ask for (`CommandLine`).
//! # What is proved
//! `read` takes exactly the words of the grammar (`IsTaken`), and gives what they ask for.

ghost use Rattle.std.specs.Prelude.{◌≡◌, map, string_bytes, IfSome, Some};
ghost use Rattle.nm_script.specs.CommandWords.{InRange, IsTaken};
ghost use Rattle.nm_script.specs.declared.command_line.CommandLine.{CommandLine};

mod arguments;
mod found;
mod modes;

use found::{Found, rest};
use modes::mode_of;

/// What the program is asked to do.
#[derive(Clone, Copy)]
pub enum Mode {
    /// Run the script of the source, and report what each command answered.
    Run,
    /// The same, with each event of each rank before the report.
    Trace,
    /// Report what every run of the plain script of the source reports, without a run.
    Plain,
    /// Judge whether the trace behind the script of the source is of one of its runs.
    Check,
    /// Run a script of persistent and partitioned requests, and report.
    Parts,
    /// Run a script that is generated of these numbers, and sum up.
    Flood { key: u16, ranks: u8, messages: u16 },
    /// Let so many threads share one rank for so many rounds each, and sum up.
    Multi { threads: u8, rounds: u16 },
}

/// A command line that was taken.
#[derive(Clone, Copy)]
pub struct CommandLine {
    /// What to do.
    pub mode: Mode,
    /// How many cells each rank has, 1 to 64. 8 where no option says.
    pub cells: u8,
    /// Up to how many bytes a standard send is eager, at most 4,096. 1,024 where no option says.
    pub eager: u16,
}

/// How many cells each rank has where no option says.
const CELLS: u8 = 8;

/// Up to how many bytes a standard send is eager where no option says.
const EAGER: u16 = 1024;

/// What the words ask for, or `None` where they are not taken.
///
/// The words are those of the command line without the program's name.
pub fn read(words: &[String]) -> Option<CommandLine>
    ensures taken { IfSome result (IsTaken (map string_bytes words.now)) }
    ensures takes { (line : CommandLine) → IsTaken (map string_bytes words.now) line →
        result ≡ Some line }
    ensures within { IfSome result InRange }
{
    let (first, others) = words.split_first()?;
    let found = rest(Found::nothing(), others)?;
    let mode = mode_of(first.as_bytes(), found)?;
    Some(CommandLine {
        mode,
        cells: found.cells.unwrap_or(CELLS),
        eager: found.eager.unwrap_or(EAGER),
    })
}
