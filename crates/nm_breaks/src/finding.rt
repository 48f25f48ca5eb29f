//! What is found of a script and a trace in one text.

ghost use Rattle.std.specs.Prelude.{◌≡◌, ◌<◌, ◌≤◌, ℕ, IfOk, List, Some, length};
ghost use Rattle.nm_types.specs.declared.scripts.Line as script_line;
ghost use Rattle.nm_script.specs.Spelled.{IsTextOf};
ghost use Rattle.nm_report.specs.Lawful.{IsRunIn};
ghost use Rattle.nm_report.specs.declared.records.RunRecord as the_record;
ghost use Rattle.nm_trace.specs.Traces.{IsTraceOf};
ghost use Rattle.nm_check.specs.declared.verdicts.Verdict.TheVariants.{Holds};
ghost use Rattle.nm_shell.specs.Inputs.{IsInput};
ghost use Rattle.nm_check.specs.Trials.{sizes};
ghost use Rattle.nm_breaks.specs.Answers.{found_status as found_status_lem};
ghost use Rattle.nm_breaks.specs.Found.{IsFound, IsScriptFound, IsTraceFound, verdict_in};

use crate::judgements::{Judgement, judged};
use crate::stops::{Stop, lines_in, stop_at};
use nm_report::RunRecord;
use nm_script::{Kind, ScriptFault};
use nm_shell::parts;
use nm_trace::{TraceFault, read_trace};
use nm_types::{Memory, Script, Shape};
use std::alloc::Global;

/// What there is to say of a script and a trace.
#[derive(Drop)]
pub enum Found {
    /// The input is too long, or has no line `---`.
    NoTrace,
    /// The lines before it spell no script.
    NoScript {
        line: u32,
        kind: Kind,
    },
    /// The lines behind it are no trace: those up to this one, counted behind it from 1, begin none,
    /// for this cause. So many lines stand before it.
    BadTrace {
        before: u32,
        line: u32,
        stop: Stop,
    },
    /// What the record of the trace is judged to be. So many lines stand before the line `---`.
    Judged {
        before: u32,
        judgement: Judgement,
        run: RunRecord,
    },
}

/// Judges the trace by its script, before which so many lines stand.
fn find_in_trace(
    alloc: Global,
    script: &Script,
    before: u32,
    rest: &[u8],
    cells: u8,
    eager: u16,
) -> Result<Found, Memory>
    requires some_cell { 1 ≤ cells }
    requires few_cells { cells ≤ 64 }
    requires few_eager { eager ≤ 4096 }
    requires short { length rest.now < 67108864 }
    ensures found { IfOk result
        (IsTraceFound (sizes cells eager script.now.ranks) script.now.lines before rest.now) }
    ensures holds { (run : the_record.RunRecord) →
        IsTraceOf (sizes cells eager script.now.ranks) rest.now run →
        IsRunIn (sizes cells eager script.now.ranks) script.now.lines run →
        IfOk result (λ found. verdict_in found ≡ Some Holds) }
{
    let shape = Shape::new(script.ranks, cells, eager).unwrap();
    match read_trace(alloc, rest, shape) {
        Ok(run) => {
            let judgement = judged(alloc, script, &run, lines_in(rest))?;
            Ok(Found::Judged {
                before,
                judgement,
                run,
            })
        }
        Err(TraceFault::Bad { line }) => {
            let stop = stop_at(alloc, shape, rest, line)?;
            Ok(Found::BadTrace { before, line, stop })
        }
        Err(TraceFault::Memory) => Err(Memory),
    }
}

/// Reads the script, and judges the trace by it.
fn find_in_script(
    alloc: Global,
    front: &[u8],
    rest: &[u8],
    cells: u8,
    eager: u16,
) -> Result<Found, Memory>
    requires some_cell { 1 ≤ cells }
    requires few_cells { cells ≤ 64 }
    requires few_eager { eager ≤ 4096 }
    requires short { length rest.now < 67108864 }
    requires short_front { length front.now ≤ 67108864 }
    ensures found { IfOk result (IsScriptFound cells eager front.now rest.now) }
    ensures holds { (ranks : ℕ) (lines : List script_line.Line) (run : the_record.RunRecord) →
        IsTextOf front.now ranks lines → IsTraceOf (sizes cells eager ranks) rest.now run →
        IsRunIn (sizes cells eager ranks) lines run →
        IfOk result (λ found. verdict_in found ≡ Some Holds) }
{
    match nm_script::read(alloc, front) {
        Ok(script) => find_in_trace(alloc, &script, lines_in(front), rest, cells, eager),
        Err(ScriptFault::Bad { line, kind }) => Ok(Found::NoScript { line, kind }),
        Err(ScriptFault::Memory) => Err(Memory),
    }
}

/// What is found of a script and the trace behind the first line `---`, for so many cells of each
/// rank and this eager limit.
///
/// # Errors
/// Want of memory says nothing of the bytes.
pub fn find(alloc: Global, bytes: &[u8], cells: u8, eager: u16) -> Result<Found, Memory>
    requires some_cell { 1 ≤ cells }
    requires few_cells { cells ≤ 64 }
    requires few_eager { eager ≤ 4096 }
    ensures found { IfOk result (IsFound cells eager bytes.now) }
    ensures holds { (front rest : List ℕ) (ranks : ℕ) (lines : List script_line.Line)
        (run : the_record.RunRecord) →
        IsInput bytes.now front rest → IsTextOf front ranks lines →
        IsTraceOf (sizes cells eager ranks) rest run → IsRunIn (sizes cells eager ranks) lines run →
        IfOk result (λ found. verdict_in found ≡ Some Holds) }
{
    match parts(bytes) {
        Some((front, rest)) => find_in_script(alloc, front, rest, cells, eager),
        None => Ok(Found::NoTrace),
    }
}

/// The status of what was found.
pub fn found_status(found: &Found) -> u8
    ensures { result ≡ found_status_lem found.now }
{
    match found {
        Found::NoTrace => 9,
        Found::NoScript { .. } => 3,
        Found::BadTrace { .. } => 9,
        Found::Judged { judgement, .. } => judgement.verdict().status(),
    }
}
