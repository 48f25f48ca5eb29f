//! A run of a program as text: its script, a line `---`, and its trace by the lines of the script. The programs
//! `check`, `verdict` and `chart` take such a text. That of a long run has its end alone: `chart` draws it.

ghost use Rattle.std.specs.Prelude.{◌≡◌, length};

use nm_check::{Verdict, judge};
use nm_noted::{NotedRun, run_noted, run_recent};
use nm_outside::OpenGate;
use nm_programs::Program;
use nm_report::trace;
use nm_transcript::{Transcript, excerpt};
use nm_types::Shape;
use nm_written::write;
use std::alloc::Global;
use std::io::{self, Write};
use std::sync::Wait;
use std::test::Fail;
use std::thread::Threads;

/// Runs these programs, and makes of their calls a script, and the record of a run of it.
pub fn transcribe<R: Threads + Wait + Sync, P: Program + Send>(
    rt: &R,
    alloc: Global,
    shape: Shape,
    programs: Vec<P>,
) -> Result<Transcript, Fail>
    requires { length programs.items ≡ shape.ranks }
{
    let NotedRun {
        ranks: _,
        calls,
        record,
        ways: _,
    } = run_noted(rt, alloc, shape, programs, &OpenGate)?;
    match nm_transcript::transcribe(alloc, calls, record) {
        Ok(transcript) => Ok(transcript),
        Err(_) => Err(Fail::new("the run has no transcript")),
    }
}

/// Runs these programs, and makes of their last calls a script, and a record of their last events.
pub fn transcribe_end<R: Threads + Wait + Sync, P: Program + Send>(
    rt: &R,
    alloc: Global,
    shape: Shape,
    programs: Vec<P>,
) -> Result<Transcript, Fail>
    requires { length programs.items ≡ shape.ranks }
{
    let NotedRun {
        ranks: _,
        calls,
        record,
        ways: _,
    } = run_recent(rt, alloc, shape, programs, &OpenGate)?;
    match excerpt(alloc, calls, record) {
        Ok(transcript) => Ok(transcript),
        Err(_) => Err(Fail::new("the end of the run has no transcript")),
    }
}

/// Writes the script, a line `---`, and the trace.
pub fn print(rt: &HostRuntime, alloc: Global, transcript: Transcript) -> Result<(), Fail> {
    let script = write(alloc, &transcript.script)?;
    let trace = trace(alloc, &transcript.record)?;
    let mut out = io::writer(rt);
    out.write_all(script.as_bytes())?;
    out.write_all(b"---\n")?;
    out.write_all(trace.as_slice())?;
    Ok(())
}

/// Whether the record is of a run of the script, asked of `judge`. It is of none where only the end of a run was kept.
pub fn holds(alloc: Global, transcript: &Transcript) -> Result<bool, Fail> {
    let script = &transcript.script;
    let record = &transcript.record;
    if record.shape.ranks() != script.ranks || record.ranks.len() != usize::from(script.ranks) {
        return Ok(false);
    }
    let verdict = judge(alloc, script, record)?;
    Ok(matches!(verdict, Verdict::Holds))
}
