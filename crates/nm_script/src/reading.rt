//! The whole text: its length, its first line, and one line after the other.

ghost use Rattle.std.specs.Prelude.{◌≡◌, ◌<◌, ◌^◌, ◌≤◌, ◌+◌, ℕ, List, []};
ghost use Rattle.std.specs.Prelude.{IfErr, IfOk, OnOk};
ghost use Rattle.nm_types.specs.declared.scripts.Line.{Line};
ghost use Rattle.nm_types.specs.Limits.{sent_len};
ghost use Rattle.nm_script.specs.Faults.{Gives, GivesAt, at_line};
ghost use Rattle.nm_script.specs.Lines.{lines_of};
ghost use Rattle.nm_script.specs.Reading.{line_at, parts, read_of, script_reader};
ghost use Rattle.nm_script.specs.declared.faults.Kind.{Kind};
ghost use Rattle.nm_script.specs.Rules.{IsFirstFault, scripts};
ghost use Rattle.nm_script.specs.Spelled.{IsTextOf};
ghost use Rattle.nm_script.specs.TextReading.{AnswersText, IsRefused, lines_from};
ghost use Rattle.nm_script.specs.TextRules.{IsFaultIn};

use crate::commands::line_from;
use crate::faults::{Kind, LineFault, ScriptFault};
use crate::lengths::is_too_long;
use crate::texts::first_line;
use crate::words::{is_printable, split_line, words};
use nm_types::{Command, Line, Lines, MAX_BODIES, MAX_LINES, Script};
use std::alloc::Global;

/// How many bytes a command sends.
fn sent_len(command: &Command) -> u32
    requires { sent_len command.now < 2 ^ 32 }
    ensures { result ≡ sent_len command.now }
{
    match command {
        Command::Send { body, .. } => body.len(),
        _ => 0,
    }
}

/// What a line that isn't the first says, by its number and the lengths of the bodies before it.
#[tactic(auto, unfolding(crate::specs::Reading::line_at))]
fn line_in(
    alloc: Global,
    ranks: u8,
    number: u32,
    total: u32,
    line: &[u8],
) -> Result<Line, LineFault<Kind>>
    requires { total ≤ MAX_BODIES }
    ensures exact { Gives result (line_at ranks number total line.now) }
    ensures in_lines { OnOk result (number ≤ MAX_LINES) }
    ensures in_bodies { IfOk result (λ line. total + sent_len line.command ≤ MAX_BODIES) }
{
    if !is_printable(line) {
        return Err(LineFault::Bad(Kind::NotAscii));
    }
    if number > MAX_LINES {
        return Err(LineFault::Bad(Kind::Lines));
    }
    let words = words(alloc, line)?;
    let line = line_from(alloc, ranks, &words)?;
    if total + sent_len(&line.command) > MAX_BODIES {
        return Err(LineFault::Bad(Kind::BodyTotal));
    }
    Ok(line)
}

/// Another line, with its number at a fault.
fn other_line(
    alloc: Global,
    ranks: u8,
    number: u32,
    total: u32,
    line: &[u8],
) -> Result<Line, ScriptFault>
    requires { total ≤ MAX_BODIES }
    ensures exact { GivesAt (λ line. line) result
        (at_line number (line_at ranks number total line.now)) }
    ensures in_lines { OnOk result (number ≤ MAX_LINES) }
    ensures in_bodies { IfOk result (λ line. total + sent_len line.command ≤ MAX_BODIES) }
{
    line_in(alloc, ranks, number, total, line).map_err(|fault| fault.at(number))
}

/// The lines from the second on.
fn other_lines(alloc: Global, ranks: u8, bytes: &[u8]) -> Result<Lines, ScriptFault>
    ensures { GivesAt (λ lines. lines) result (lines_from script_reader ranks [] (lines_of bytes.now)) }
{
    let mut lines = Lines::new(alloc);
    let mut rest = bytes;
    let mut number = 2u32;
    let mut total = 0u32;
    while !rest.is_empty() {
        let (text, after) = split_line(rest);
        let line = other_line(alloc, ranks, number, total, text)?;
        total += sent_len(&line.command);
        lines.push(line)?;
        rest = after;
        number += 1;
    }
    Ok(lines)
}

/// The script that the bytes spell, or the first fault.
#[tactic(auto, unfolding(crate::specs::Reading::read_of))]
fn read_exactly(alloc: Global, bytes: &[u8]) -> Result<Script, ScriptFault>
    ensures { GivesAt parts result (read_of bytes.now) }
{
    if is_too_long(bytes) {
        return Err(ScriptFault::Bad {
            line: 0,
            kind: Kind::TooLong,
        });
    }
    if bytes.is_empty() {
        return Err(ScriptFault::Bad {
            line: 1,
            kind: Kind::First,
        });
    }
    let (line, rest) = split_line(bytes);
    let ranks = first_line(alloc, line, Kind::NotAscii, Kind::First)?;
    let lines = other_lines(alloc, ranks, rest)?;
    Ok(Script { ranks, lines })
}

/// The script that the bytes spell. The last line may lack its line feed.
///
/// A text has at most `MAX_LINES` lines and `MAX_TEXT` bytes, with the line feed that its last line
/// lacks. `Memory` says nothing of the bytes.
pub fn read(alloc: Global, bytes: &[u8]) -> Result<Script, ScriptFault>
    ensures taken { IfOk result (λ script. IsTextOf bytes.now script.ranks script.lines) }
    ensures takes { (ranks : ℕ) (lines : List Line) →
        IsTextOf bytes.now ranks lines → AnswersText parts result ranks lines }
    ensures fault { IfErr result (IsFaultIn scripts bytes.now) }
    ensures faults { (line : ℕ) (kind : Kind) →
        IsFirstFault bytes.now line kind → IsRefused result line kind }
{
    read_exactly(alloc, bytes)
}
