//! The trace behind a script.

ghost use Rattle.std.specs.Prelude.{◌≡◌, IfOk};
ghost use Rattle.nm_script.specs.CommandWords.{InRange};
ghost use Rattle.nm_script.specs.declared.command_line.Mode.TheVariants.{Check};
ghost use Rattle.nm_cli.specs.Answers.{IsAnswerForBytes};

use crate::answers::Response;
use nm_check::check;
use nm_script::command_line::CommandLine;
use nm_types::Memory;
use std::alloc::Global;

/// Judges the trace by the script before it.
pub fn answer_trace(alloc: Global, line: &CommandLine, bytes: &[u8]) -> Result<Response, Memory>
    requires range { InRange line.now }
    requires check { line.now.mode ≡ Check }
    ensures { IfOk result (IsAnswerForBytes line.now bytes.now) }
{
    let trial = check(alloc, bytes, line.cells, line.eager)?;
    Ok(Response::Checked { trial })
}
