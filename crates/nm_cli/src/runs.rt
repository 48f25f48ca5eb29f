//! The run of a script, and what all its runs report.

ghost use Rattle.std.specs.Prelude.{◌≡◌, IfErr, IfOk};
ghost use Rattle.nm_script.specs.CommandWords.{InRange};
ghost use Rattle.nm_script.specs.declared.command_line.Mode.TheVariants.{Plain};
ghost use Rattle.nm_report.specs.Summary.{CountsFit};
ghost use Rattle.nm_report.specs.Told.{told_of};
ghost use Rattle.nm_script.specs.Spelled.{IsTextOf};
ghost use Rattle.nm_cli.specs.Answers.{IsAnswerFor, IsAnswerForBytes, Refuses};
ghost use Rattle.nm_cli.specs.Scripts.{IsRunOfScript, Reads, Runs};

use crate::answers::Response;
use nm_outside::Gate;
use nm_report::RunRecord;
use nm_script::ScriptFault;
use nm_script::command_line::{CommandLine, Mode};
use nm_sure::{first_free, plain};
use nm_types::{Memory, Script, Shape};
use nm_world::Ways;
use std::alloc::Global;
use std::mem;
use std::sync::Wait;
use std::thread::Threads;

// The script that the bytes spell, or their first fault.
fn read_text(alloc: Global, bytes: &[u8]) -> Result<Script, ScriptFault>
    ensures taken { IfOk result (λ script. IsTextOf bytes.now script.ranks script.lines) }
    ensures refused { IfErr result (λ fault. Refuses bytes.now fault) }
{
    match nm_script::read(alloc, bytes) {
        Ok(script) => Ok(script),
        Err(ScriptFault::Memory) => Err(ScriptFault::Memory),
        Err(ScriptFault::Bad { line, kind }) => Err(ScriptFault::Bad { line, kind }),
    }
}

/// Runs a script, in the sizes that the words say.
pub fn run<R: Threads + Wait + Sync, G: Gate + Sync>(
    rt: &R,
    alloc: Global,
    line: &CommandLine,
    script: &Script,
    gate: &G,
) -> Result<(RunRecord, Ways), Memory>
    requires { InRange line.now }
    ensures run { IfOk result (λ x.
        IsRunOfScript line.now script.now.ranks script.now.lines x.0 x.1) }
    ensures fits { IfOk result (λ x. CountsFit (told_of x.0)) }
{
    let shape = Shape::new(script.ranks, line.cells, line.eager).unwrap();
    let (run, ways) = nm_world::run(rt, alloc, script, shape, gate)?;
    nm_report::laws::summaries_fit();
    Ok((run, ways))
}

/// The same as an answer.
pub fn run_script<R: Threads + Wait + Sync, G: Gate + Sync>(
    rt: &R,
    alloc: Global,
    line: &CommandLine,
    script: &Script,
    gate: &G,
) -> Result<Response, Memory>
    requires range { InRange line.now }
    requires runs { Runs line.now.mode }
    ensures { IfOk result (IsAnswerFor line.now script.now.ranks script.now.lines) }
{
    let (run, ways) = run(rt, alloc, line, script, gate)?;
    Ok(Response::Ran {
        mode: line.mode,
        run,
        ways,
    })
}

// Works out what all runs of a script report, or where it is not plain.
fn work_out(alloc: Global, line: &CommandLine, script: &Script) -> Result<Response, Memory>
    requires range { InRange line.now }
    requires plain { line.now.mode ≡ Plain }
    ensures { IfOk result (IsAnswerFor line.now script.now.ranks script.now.lines) }
{
    if let Some(line) = first_free(script) {
        return Ok(Response::Free { line });
    }
    let shape = Shape::new(script.ranks, line.cells, line.eager).unwrap();
    let run = plain(alloc, script, shape)?;
    Ok(Response::Determinate { run })
}

// Answers the words that ask for something of a script.
fn answer_lines<R: Threads + Wait + Sync, G: Gate + Sync>(
    rt: &R,
    alloc: Global,
    line: &CommandLine,
    script: &Script,
    gate: &G,
) -> Result<Response, Memory>
    requires range { InRange line.now }
    requires reads { Reads line.now.mode }
    ensures { IfOk result (IsAnswerFor line.now script.now.ranks script.now.lines) }
{
    match line.mode {
        Mode::Plain => work_out(alloc, line, script),
        _ => run_script(rt, alloc, line, script, gate),
    }
}

/// Answers the words by the script that the bytes spell, or has their first fault.
pub fn answer_script<R: Threads + Wait + Sync, G: Gate + Sync>(
    rt: &R,
    alloc: Global,
    line: &CommandLine,
    bytes: &[u8],
    gate: &G,
) -> Result<Response, Memory>
    requires range { InRange line.now }
    requires reads { Reads line.now.mode }
    ensures { IfOk result (IsAnswerForBytes line.now bytes.now) }
{
    match read_text(alloc, bytes) {
        Ok(script) => {
            let answer = answer_lines(rt, alloc, line, &script, gate);
            // it goes with the process, and not line by line
            mem::forget(script);
            answer
        }
        Err(ScriptFault::Bad { line, kind }) => Ok(Response::Refused { line, kind }),
        Err(ScriptFault::Memory) => Err(Memory),
    }
}
