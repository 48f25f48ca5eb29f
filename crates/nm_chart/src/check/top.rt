//! The whole program: words, a script and a trace in, a picture and a status out.

ghost use Rattle.std.specs.Prelude.{◌≡◌, ◌⊎◌, IfOk, map, string_bytes};
ghost use Rattle.nm_script.specs.CommandWords.{InRange};
ghost use Rattle.nm_outside.specs.Told.{LosesAtMost};
ghost use Rattle.nm_shell.specs.Done.{IsDone};
ghost use Rattle.nm_chart.specs.Given.{IsReadFor};
ghost use Rattle.nm_chart.specs.Findings.{CanBeDrawn, CanBeFound, ChartsCheck, IsAnswer, IsAnswerIn};
ghost use Rattle.nm_chart.specs.Findings.{WasQuiet, WasRead, finding_of as finding_of_lem};
ghost use Rattle.nm_breaks.specs.Answers.{NotAsked};

use crate::check::findings::{Finding, status, text};
use crate::check::places::flag_of;
use nm_breaks::words::asked;
use nm_breaks::{Found, find};
use nm_outside::{Sink, Source, Unread, read_up_to};
use nm_script::command_line::CommandLine;
use nm_shell::{MAX_INPUT, WANT_OF_MEMORY, deliver};
use nm_types::Memory;
use std::alloc::Global;

/// What there is to say of what was found.
fn finding_of(found: Found) -> Finding
    requires { CanBeFound found }
    ensures finding { result ≡ finding_of_lem found }
    ensures drawn { CanBeDrawn result }
{
    match found {
        Found::NoTrace => Finding::NoTrace { line: 0 },
        Found::NoScript { line, .. } => Finding::NoScript { line },
        Found::BadTrace { line, .. } => Finding::NoTrace { line },
        Found::Judged { judgement, run, .. } => {
            let verdict = judgement.verdict();
            let flag = flag_of(run.ranks.as_slice(), judgement);
            Finding::Drawn { run, verdict, flag }
        }
    }
}

/// What there is to say of a script and a trace in these sizes.
fn finding_in(alloc: Global, bytes: &[u8], line: CommandLine) -> Result<Finding, Memory>
    requires { InRange line }
    ensures finding { IfOk result (λ finding. IsAnswerIn line finding bytes.now) }
    ensures drawn { IfOk result CanBeDrawn }
{
    let found = find(alloc, bytes, line.cells, line.eager)?;
    Ok(finding_of(found))
}

/// Finds the answer to the words and the source.
fn find_finding<S: Source>(
    alloc: Global,
    words: &[String],
    source: &mut S,
) -> Result<Finding, Memory>
    ensures answer { IfOk result (IsAnswer (map string_bytes words.now) (S.left source.old)
        (S.faults source.old) (S.faults source.new)) }
    ensures drawn { IfOk result CanBeDrawn }
    ensures untouched { NotAsked (map string_bytes words.now) → source.new ≡ source.old }
    ensures taken { LosesAtMost 67108865 (S.left source.old) (S.left source.new) }
    ensures read { IfOk result (λ finding. IsReadFor (WasQuiet finding) (WasRead finding)
        (S.left source.old) (S.left source.new) (S.faults source.old) (S.faults source.new)) }
{
    let Some(line) = asked(words) else {
        return Ok(Finding::Usage);
    };
    match read_up_to(alloc, source, MAX_INPUT + 1) {
        Ok(bytes) => finding_in(alloc, &bytes, line),
        Err(Unread::Failed) => Ok(Finding::Unread),
        Err(Unread::Memory) => Err(Memory),
    }
}

/// Reads a script and a trace of the source, with a line `---` between, and writes the picture of the
/// trace to the sink, with a flag where the trace breaks a rule first.
///
/// The words are those of `nemesis check`, with that first word. The status is 0 where the picture
/// was written of a trace that holds, 8 of one that breaks a rule, 2 where the words are not taken, 3
/// where there is no script, 4 where a read failed, 5 where a write failed, 6 for want of memory, and
/// 9 where there is no trace, or more than 67,108,864 bytes. The whole text is in memory before the first write.
pub fn chart_check<S: Source, K: Sink>(
    alloc: Global,
    words: &[String],
    source: &mut S,
    sink: &mut K,
) -> u8
    // What is due is said, and nothing else, by the words and the bytes; or a write failed, or memory
    // ran out before the first write.
    ensures done { IsDone ChartsCheck (record {
      words = map string_bytes words.now;
      input = S.left source.old;
      left = S.left source.new;
      read_old = S.faults source.old;
      read_new = S.faults source.new;
      before = K.taken sink.old;
      after = K.taken sink.new;
      write_old = K.faults sink.old;
      write_new = K.faults sink.new;
      status = result;
    }) }

    // Where the words are not taken, nothing is read, and no more is taken than may be read however
    // it ends.
    ensures not_taken { NotAsked (map string_bytes words.now) → source.new ≡ source.old }
    ensures taken { LosesAtMost 67108865 (S.left source.old) (S.left source.new) }

    // No failure of the sink is passed over.
    ensures quiet_sink { (result ≡ 5) ⊎ (K.faults sink.new ≡ K.faults sink.old) }
{
    let Ok(finding) = find_finding(alloc, words, source) else {
        return WANT_OF_MEMORY;
    };
    let Ok(due) = text(alloc, &finding) else {
        return WANT_OF_MEMORY;
    };
    deliver(sink, &due, status(&finding))
}
