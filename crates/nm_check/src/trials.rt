//! What a script and a trace in one text come to.

ghost use Rattle.std.specs.Prelude.{◌≡◌, ◌<◌, ◌≤◌, ℕ, IfOk, List, Some, length};
ghost use Rattle.nm_types.specs.declared.scripts.Line as script_line;
ghost use Rattle.nm_script.specs.Spelled.{IsTextOf};
ghost use Rattle.nm_report.specs.Lawful.{IsRunIn};
ghost use Rattle.nm_report.specs.declared.records.RunRecord as the_record;
ghost use Rattle.nm_trace.specs.Traces.{IsTraceOf};
ghost use Rattle.nm_shell.specs.Inputs.{IsInput};
ghost use Rattle.nm_check.specs.declared.verdicts.Verdict.TheVariants.{Holds};
ghost use Rattle.nm_check.specs.Answers.{trial_status};
ghost use Rattle.nm_check.specs.Trials.{IsScriptTrial, IsTraceTrial, IsTrial, sizes, verdict_in};

use crate::judging::judge;
use crate::verdicts::Verdict;
use nm_script::{Kind, ScriptFault};
use nm_shell::parts;
use nm_trace::{TraceFault, read_trace};
use nm_types::{Memory, Script, Shape};
use std::alloc::Global;

/// What there is to say of a script and a trace.
#[derive(Clone, Copy)]
pub enum Trial {
    /// The input is too long, or has no line `---`.
    NoTrace,
    /// The lines before it spell no script.
    NoScript { line: u32, kind: Kind },
    /// The lines behind it are no trace: those up to this one, counted behind it from 1, begin none.
    BadTrace { line: u32 },
    /// What the record of the trace is judged to be.
    Judged { verdict: Verdict },
}

impl Trial {
    /// Its status: 0 where the trace holds, 8 where it breaks a rule, 3 without a script, 9 without a trace.
    pub fn status(self) -> u8
        ensures { result ≡ trial_status self }
    {
        match self {
            Trial::NoTrace => 9,
            Trial::NoScript { .. } => 3,
            Trial::BadTrace { .. } => 9,
            Trial::Judged { verdict } => verdict.status(),
        }
    }
}

/// Judges the trace by its script.
fn check_trace(
    alloc: Global,
    script: &Script,
    rest: &[u8],
    cells: u8,
    eager: u16,
) -> Result<Trial, Memory>
    requires some_cell { 1 ≤ cells }
    requires few_cells { cells ≤ 64 }
    requires few_eager { eager ≤ 4096 }
    requires short { length rest.now < 67108864 }
    ensures right { IfOk result
        (IsTraceTrial (sizes cells eager script.now.ranks) script.now.lines rest.now) }
    ensures holds { (run : the_record.RunRecord) →
        IsTraceOf (sizes cells eager script.now.ranks) rest.now run →
        IsRunIn (sizes cells eager script.now.ranks) script.now.lines run →
        IfOk result (λ trial. verdict_in trial ≡ Some Holds) }
{
    let shape = Shape::new(script.ranks, cells, eager).unwrap();
    match read_trace(alloc, rest, shape) {
        Ok(run) => {
            let verdict = judge(alloc, script, &run)?;
            Ok(Trial::Judged { verdict })
        }
        Err(TraceFault::Bad { line }) => Ok(Trial::BadTrace { line }),
        Err(TraceFault::Memory) => Err(Memory),
    }
}

/// Reads the script, and judges the trace by it.
fn check_script(
    alloc: Global,
    front: &[u8],
    rest: &[u8],
    cells: u8,
    eager: u16,
) -> Result<Trial, Memory>
    requires some_cell { 1 ≤ cells }
    requires few_cells { cells ≤ 64 }
    requires few_eager { eager ≤ 4096 }
    requires short { length rest.now < 67108864 }
    ensures right { IfOk result (IsScriptTrial cells eager front.now rest.now) }
    ensures holds { (ranks : ℕ) (lines : List script_line.Line) (run : the_record.RunRecord) →
        IsTextOf front.now ranks lines → IsTraceOf (sizes cells eager ranks) rest.now run →
        IsRunIn (sizes cells eager ranks) lines run →
        IfOk result (λ trial. verdict_in trial ≡ Some Holds) }
{
    match nm_script::read(alloc, front) {
        Ok(script) => check_trace(alloc, &script, rest, cells, eager),
        Err(ScriptFault::Bad { line, kind }) => Ok(Trial::NoScript { line, kind }),
        Err(ScriptFault::Memory) => Err(Memory),
    }
}

/// What a script and the trace behind the first line `---` come to, for so many cells of each rank and this
/// eager limit.
///
/// # Errors
/// Want of memory says nothing of the bytes.
pub fn check(alloc: Global, bytes: &[u8], cells: u8, eager: u16) -> Result<Trial, Memory>
    requires some_cell { 1 ≤ cells }
    requires few_cells { cells ≤ 64 }
    requires few_eager { eager ≤ 4096 }
    ensures right { IfOk result (IsTrial cells eager bytes.now) }
    ensures holds { (front rest : List ℕ) (ranks : ℕ) (lines : List script_line.Line)
        (run : the_record.RunRecord) →
        IsInput bytes.now front rest → IsTextOf front ranks lines →
        IsTraceOf (sizes cells eager ranks) rest run → IsRunIn (sizes cells eager ranks) lines run →
        IfOk result (λ trial. verdict_in trial ≡ Some Holds) }
{
    match parts(bytes) {
        Some((front, rest)) => check_script(alloc, front, rest, cells, eager),
        None => Ok(Trial::NoTrace),
    }
}
