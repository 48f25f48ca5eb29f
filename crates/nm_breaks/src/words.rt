//! The words that ask for a verdict.

ghost use Rattle.std.specs.Prelude.{◌≡◌, Some, map, string_bytes, IfSome, MatchOption};
ghost use Rattle.nm_script.specs.CommandWords.{InRange};
ghost use Rattle.nm_script.specs.declared.command_line.CommandLine as the_line;
ghost use Rattle.nm_breaks.specs.Answers.{IsAsked, NotAsked};

use nm_script::command_line::{CommandLine, Mode};

/// The sizes that the words ask for, if they are those of a check.
pub fn asked(words: &[String]) -> Option<CommandLine>
    ensures asked { MatchOption result (NotAsked (map string_bytes words.now))
        (IsAsked (map string_bytes words.now)) }
    ensures only { (line : the_line.CommandLine) → IsAsked (map string_bytes words.now) line →
        result ≡ Some line }
    ensures within { IfSome result InRange }
{
    match nm_script::command_line::read(words) {
        Some(line) => match line.mode {
            Mode::Check => Some(line),
            _ => None,
        },
        None => None,
    }
}
