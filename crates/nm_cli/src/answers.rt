//! What there is to say of the words and the source, and how it is said.

ghost use Rattle.std.specs.Prelude.{◌≡◌, IfOk};
ghost use Rattle.nm_report.specs.Summary.{CountsFit};
ghost use Rattle.nm_report.specs.Told.{told_of};
ghost use Rattle.nm_cli.specs.Answers.{CanBeTold, run_text as run_text_lem};
ghost use Rattle.nm_cli.specs.Checks.{checked_text as checked_text_lem};
ghost use Rattle.nm_cli.specs.Answers.{end_status as end_status_lem, status_of, text_of, usage};
ghost use Rattle.nm_cli.specs.Plans.{plan_fault_text as plan_fault_text_lem, plan_kind_text};
ghost use Rattle.nm_cli.specs.Plains.{free_text as free_text_lem};

use nm_check::Trial;
use nm_check::texts::{trace_fault_text, verdict_text};
use nm_multi::CallLog;
use nm_persist::{Plan, PlanKind};
use nm_report::RunRecord;
use nm_script::command_line::Mode;
use nm_script::{Kind, fault_text};
use nm_shell::line;
use nm_sure::PlainRun;
use nm_types::Memory;
use nm_world::Ways;
use std::alloc::{AllocError, Global};

/// What there is to say.
#[derive(Drop)]
pub enum Response {
    /// The words are not taken.
    Usage,
    /// The source failed.
    Unread,
    /// The bytes are no script.
    Refused {
        line: u32,
        kind: Kind,
    },
    /// A script ran.
    Ran {
        mode: Mode,
        run: RunRecord,
        ways: Ways,
    },
    /// The script is not plain, at this line first.
    Free {
        line: u32,
    },
    /// The script is plain, and its plain run has this report.
    Determinate {
        run: PlainRun,
    },
    /// What the bytes are: no script with a trace, or one, with the verdict on it.
    Checked {
        trial: Trial,
    },
    /// The bytes spell no plan.
    NoPlan {
        line: u32,
        kind: PlanKind,
    },
    /// The script of a plan ran.
    Planned {
        plan: Plan,
        run: RunRecord,
        ways: Ways,
    },
    /// Several threads shared one rank.
    Logged {
        threads: u8,
        rounds: u16,
        log: CallLog,
    },
}

const USAGE: &str = "usage: nemesis run [--cells N] [--eager N]
       nemesis trace [--cells N] [--eager N]
       nemesis flood KEY RANKS MESSAGES [--cells N] [--eager N]
       nemesis plain [--cells N] [--eager N]
       nemesis check [--cells N] [--eager N]
       nemesis parts [--cells N] [--eager N]
       nemesis multi THREADS ROUNDS
";

/// The text of an answer, whole and in memory.
pub fn text(alloc: Global, answer: &Response) -> Result<Vec<u8>, Memory>
    requires { CanBeTold answer.now }
    ensures { IfOk result (λ text. text.items ≡ text_of answer.now) }
{
    match answer {
        Response::Usage => Ok(line(alloc, USAGE)?),
        Response::Unread => Ok(line(alloc, "fault read\n")?),
        Response::Refused { line, kind } => Ok(fault_text(alloc, *line, *kind)?),
        Response::Ran { mode, run, .. } => run_text(alloc, mode, run),
        Response::Free { line } => Ok(free_text(alloc, *line)?),
        Response::Determinate { run } => Ok(run.text.clone()?),
        Response::Checked { trial } => Ok(checked_text(alloc, *trial)?),
        Response::NoPlan { line, kind } => Ok(plan_fault_text(alloc, *line, *kind)?),
        Response::Planned { plan, run, .. } => nm_persist::text(alloc, plan, run),
        Response::Logged {
            threads,
            rounds,
            log,
        } => nm_multi::text(alloc, log, *threads, *rounds),
    }
}

// The text of a run: its report, its report with each event, or its summary.
fn run_text(alloc: Global, mode: &Mode, run: &RunRecord) -> Result<Vec<u8>, Memory>
    requires { CountsFit (told_of run.now) }
    ensures { IfOk result (λ text. text.items ≡ run_text_lem mode.now run.now) }
{
    match mode {
        Mode::Run => nm_report::report(alloc, run),
        Mode::Trace => nm_report::trace(alloc, run),
        Mode::Flood { key, messages, .. } => nm_report::summary(alloc, run, *key, *messages),
        Mode::Plain | Mode::Check | Mode::Parts | Mode::Multi { .. } => Ok(Vec::new(alloc)),
    }
}

/// The status of an answer that was written.
pub fn status(answer: &Response) -> u8
    ensures { result ≡ status_of answer.now }
{
    match answer {
        Response::Ran { run, .. } => end_status(run.done),
        Response::Free { .. } => 7,
        Response::Determinate { run } => end_status(run.done),
        Response::Checked { trial } => trial.status(),
        Response::NoPlan { .. } => 3,
        Response::Planned { run, .. } => end_status(run.done),
        Response::Logged { .. } => 0,
        Response::Usage => 2,
        Response::Refused { .. } => 3,
        Response::Unread => 4,
    }
}

// The status of a run: whether every rank is at its end.
fn end_status(done: bool) -> u8
    ensures { result ≡ end_status_lem done }
{
    if done { 0 } else { 1 }
}

// What is said of a script and its trace.
fn checked_text(alloc: Global, trial: Trial) -> Result<Vec<u8>, AllocError>
    ensures { IfOk result (λ bytes. bytes.items ≡ checked_text_lem trial) }
{
    match trial {
        Trial::NoTrace => trace_fault_text(alloc, 0),
        Trial::NoScript { line, kind } => fault_text(alloc, line, kind),
        Trial::BadTrace { line } => trace_fault_text(alloc, line),
        Trial::Judged { verdict } => verdict_text(alloc, verdict),
    }
}

// What is said of a script that is not plain.
fn free_text(alloc: Global, line: u32) -> Result<Vec<u8>, AllocError>
    ensures { IfOk result (λ bytes. bytes.items ≡ free_text_lem line) }
{
    let text = format!(in alloc; "fault plain {}\n", line)?;
    Ok(text.into_bytes())
}

// What is said of a fault of a plan.
fn plan_fault_text(alloc: Global, line: u32, kind: PlanKind) -> Result<Vec<u8>, AllocError>
    ensures { IfOk result (λ bytes. bytes.items ≡ plan_fault_text_lem line kind) }
{
    let text = format!(in alloc; "fault parts {} {}\n", line, plan_kind_name(kind))?;
    Ok(text.into_bytes())
}

fn plan_kind_name(kind: PlanKind) -> &'static str
    ensures { result.now ≡ plan_kind_text kind }
{
    match kind {
        PlanKind::TooLong => "toolong",
        PlanKind::NotAscii => "notascii",
        PlanKind::Lines => "lines",
        PlanKind::First => "first",
        PlanKind::Rank => "rank",
        PlanKind::Command => "command",
        PlanKind::Count => "count",
        PlanKind::Number => "number",
        PlanKind::Body => "body",
        PlanKind::Taken => "taken",
        PlanKind::Parts => "parts",
        PlanKind::Order => "order",
        PlanKind::Size => "size",
    }
}
