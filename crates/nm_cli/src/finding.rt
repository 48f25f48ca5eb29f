//! The answer to the words.

ghost use Rattle.std.specs.Prelude.{◌≡◌, List, map, string_bytes, IfOk};
ghost use Rattle.nm_outside.specs.Told.{LosesAtMost};
ghost use Rattle.nm_script.specs.CommandWords.{AreNumbers, InRange};
ghost use Rattle.nm_script.specs.declared.command_line.Mode.TheVariants.{Flood, Multi};
ghost use Rattle.nm_script.specs.FloodScripts.{flood_lines};
ghost use Rattle.nm_cli.specs.Answers.{CanBeTold, IsAnswer, IsAnswerFor, IsAnswerForBytes};
ghost use Rattle.nm_cli.specs.Answers.{IsAnswerTo, IsLogOf, IsRead, IsReadFor};
ghost use Rattle.nm_cli.specs.Done.{TakesInput};
ghost use Rattle.nm_cli.specs.Scripts.{ReadsSource, limit_of};

use crate::answers::Response;
use crate::checks::answer_trace;
use crate::plans::answer_plan;
use crate::runs::{answer_script, run_script};
use nm_outside::{Gate, Source, Unread, read_up_to};
use nm_script::command_line::{CommandLine, Mode, read};
use nm_script::flood::flood_script;
use nm_shell::MAX_INPUT;
use nm_types::{MAX_TEXT, Memory};
use std::alloc::Global;
use std::mem;
use std::sync::Wait;
use std::thread::Threads;

// Lets several threads share one rank.
fn run_threads<R: Threads + Wait + Sync, G: Gate + Sync>(
    rt: &R,
    alloc: Global,
    threads: u8,
    rounds: u16,
    gate: &G,
) -> Result<Response, Memory>
    requires { AreNumbers (Multi threads rounds) }
    ensures { IfOk result (IsLogOf threads rounds) }
{
    let log = nm_multi::multi(rt, alloc, threads, rounds, gate)?;
    Ok(Response::Logged {
        threads,
        rounds,
        log,
    })
}

// The most bytes that are read for these words: one more than a script may have, and with check one
// more than a script and its trace may.
fn limit(mode: &Mode) -> usize
    ensures { result ≡ limit_of mode.now }
{
    match mode {
        Mode::Check => MAX_INPUT + 1,
        _ => MAX_TEXT as usize + 1,
    }
}

// Answers the words by the bytes that were read.
fn answer_bytes<R: Threads + Wait + Sync, G: Gate + Sync>(
    rt: &R,
    alloc: Global,
    line: &CommandLine,
    bytes: &[u8],
    gate: &G,
) -> Result<Response, Memory>
    requires range { InRange line.now }
    requires reads { ReadsSource line.now.mode }
    ensures { IfOk result (IsAnswerForBytes line.now bytes.now) }
{
    match line.mode {
        Mode::Check => answer_trace(alloc, line, bytes),
        Mode::Parts => answer_plan(rt, alloc, line, bytes, gate),
        _ => answer_script(rt, alloc, line, bytes, gate),
    }
}

// Reads the source, and answers the words by its bytes.
fn answer_source<R: Threads + Wait + Sync, S: Source, G: Gate + Sync>(
    rt: &R,
    alloc: Global,
    line: &CommandLine,
    source: &mut S,
    gate: &G,
) -> Result<Response, Memory>
    requires range { InRange line.now }
    requires reads { ReadsSource line.now.mode }
    ensures answer { IfOk result
        (IsAnswerTo line.now (S.left source.old) (S.faults source.old) (S.faults source.new)) }
    ensures told { IfOk result CanBeTold }
    ensures taken { LosesAtMost (limit_of line.now.mode) (S.left source.old) (S.left source.new) }
    ensures read { IfOk result (IsRead line.now (S.left source.old) (S.left source.new)
        (S.faults source.old) (S.faults source.new)) }
{
    match read_up_to(alloc, source, limit(&line.mode)) {
        Ok(bytes) => answer_bytes(rt, alloc, line, &bytes, gate),
        Err(Unread::Failed) => Ok(Response::Unread),
        Err(Unread::Memory) => Err(Memory),
    }
}

// Runs a flood.
fn run_flood<R: Threads + Wait + Sync, G: Gate + Sync>(
    rt: &R,
    alloc: Global,
    line: &CommandLine,
    key: u16,
    ranks: u8,
    messages: u16,
    gate: &G,
) -> Result<Response, Memory>
    requires range { InRange line.now }
    requires flood { line.now.mode ≡ Flood key ranks messages }
    ensures { IfOk result (IsAnswerFor line.now ranks (flood_lines key ranks messages)) }
{
    let script = flood_script(alloc, key, ranks, messages)?;
    let answer = run_script(rt, alloc, line, &script, gate);
    // it goes with the process, and not line by line
    mem::forget(script);
    answer
}

// Does what words that are taken ask for.
fn answer_line<R: Threads + Wait + Sync, S: Source, G: Gate + Sync>(
    rt: &R,
    alloc: Global,
    line: &CommandLine,
    source: &mut S,
    gate: &G,
) -> Result<Response, Memory>
    requires { InRange line.now }
    ensures answer { IfOk result
        (IsAnswerTo line.now (S.left source.old) (S.faults source.old) (S.faults source.new)) }
    ensures told { IfOk result CanBeTold }
    ensures untouched { ¬ (ReadsSource line.now.mode) → source.new ≡ source.old }
    ensures taken { LosesAtMost (limit_of line.now.mode) (S.left source.old) (S.left source.new) }
    ensures read { IfOk result (IsRead line.now (S.left source.old) (S.left source.new)
        (S.faults source.old) (S.faults source.new)) }
{
    match line.mode {
        Mode::Flood {
            key,
            ranks,
            messages,
        } => run_flood(rt, alloc, line, key, ranks, messages, gate),
        Mode::Multi { threads, rounds } => run_threads(rt, alloc, threads, rounds, gate),
        _ => answer_source(rt, alloc, line, source, gate),
    }
}

/// Finds the answer to the words: runs what they ask for, works out a plain script's report, or
/// judges a trace.
pub fn find_answer<R: Threads + Wait + Sync, S: Source, G: Gate + Sync>(
    rt: &R,
    alloc: Global,
    words: &[String],
    source: &mut S,
    gate: &G,
) -> Result<Response, Memory>
    ensures answer { IfOk result (IsAnswer (map string_bytes words.now)
        (S.left source.old) (S.faults source.old) (S.faults source.new)) }
    ensures told { IfOk result CanBeTold }
    ensures taken { TakesInput (map string_bytes words.now) (S.left source.old) (S.left source.new)
        (source.new ≡ source.old) }
    ensures read { IfOk result (IsReadFor (map string_bytes words.now) (S.left source.old)
        (S.left source.new) (S.faults source.old) (S.faults source.new)) }
{
    let Some(line) = read(words) else {
        return Ok(Response::Usage);
    };
    answer_line(rt, alloc, &line, source, gate)
}
