//! The answer to a script and to what its ranks told.

ghost use Rattle.std.specs.Prelude.{◌≡◌, ◌≤◌, IfOk, Ok, length};
ghost use Rattle.nm_lawful.specs.Moves.{report_lem};
ghost use Rattle.nm_lawful_top.specs.Answers.{IsDueFor, IsDueIn, IsDueTo};
ghost use Rattle.nm_lawful_top.specs.Readings.{reading_of};

use crate::readings::{Form, Lines, Report};
use crate::responses::{Response, line_of, wait_of};
use crate::words::Asked;
use nm_lawful::judging::{Case, judge};
use nm_script::ScriptFault;
use nm_shell::parts;
use nm_types::{Memory, Script};
use std::alloc::Global;

// The verdict on what so many lines tell.
fn verdict(
    alloc: Global,
    asked: Asked,
    script: &Script,
    report: &Report,
    text: &[u8],
    count: u32,
) -> Result<Response, Memory>
    requires { reading_of asked.cuts script.now.ranks script.now.lines text.now
        ≡ Ok (report_lem report.now.said.items report.now.waits.items, count) }
    ensures { IfOk result (IsDueFor asked script.now.ranks script.now.lines text.now) }
{
    let lines = script.lines.as_slice();
    let told = report.said.as_slice();
    let waits = report.waits.as_slice();
    let case = Case {
        lines,
        told,
        waits,
        ranks: script.ranks,
        limit: asked.states,
    };
    let judged = judge(alloc, case, count)?;
    let line = line_of(alloc, judged, text)?;
    let wait = wait_of(judged, waits);
    Ok(Response::Judged { judged, line, wait })
}

// The answer to a script and answers.
fn answer_script(
    alloc: Global,
    asked: Asked,
    script: &Script,
    text: &[u8],
) -> Result<Response, Memory>
    requires { length text.now ≤ 67108864 }
    ensures { IfOk result (IsDueFor asked script.now.ranks script.now.lines text.now) }
{
    let lines = script.lines.as_slice();
    let number = lines.len();
    let mut report = Report::new(alloc, number, script.ranks)?;
    let form = Form {
        cuts: asked.cuts,
        lines,
    };
    let read = report.read(alloc, form, text)?;
    match read {
        Lines::Read { count } => verdict(alloc, asked, script, &report, text, count),
        Lines::Bad { line } => Ok(Response::BadLine { line }),
    }
}

// The answer to the text of a script and to answers.
fn answer_parts(alloc: Global, asked: Asked, bytes: &[u8], text: &[u8]) -> Result<Response, Memory>
    requires { length text.now ≤ 67108864 }
    ensures { IfOk result (IsDueIn asked bytes.now text.now) }
{
    match nm_script::read(alloc, bytes) {
        Ok(script) => answer_script(alloc, asked, &script, text),
        Err(ScriptFault::Bad { line, kind }) => Ok(Response::Refused { line, kind }),
        Err(ScriptFault::Memory) => Err(Memory),
    }
}

/// The answer to bytes that were read: a script, and answers behind the first line `---`.
pub fn answer_bytes(alloc: Global, asked: Asked, bytes: &[u8]) -> Result<Response, Memory>
    ensures { IfOk result (IsDueTo asked bytes.now) }
{
    match parts(bytes) {
        Some((front, text)) => answer_parts(alloc, asked, front, text),
        None => Ok(Response::NoAnswers),
    }
}
