//! The whole program: words and a script in, reports and a status out.

ghost use Rattle.std.specs.Prelude.{◌≡◌, ◌⊎◌, map, string_bytes, IfOk, IfSome};
ghost use Rattle.nm_outside.specs.Told.{Appends, AppendsPart, Rose};
ghost use Rattle.nm_shell.specs.Done.{IsDone, unread};
ghost use Rattle.nm_outcomes_top.specs.declared.answers.Response.{Response};
ghost use Rattle.nm_outcomes_top.specs.declared.words.Asked.{Asked};
ghost use Rattle.nm_outcomes_top.specs.declared.words.Question.TheVariants as question;
ghost use Rattle.nm_outcomes_top.specs.Answers.{IsAnswer, IsAnswerIn, IsAnswerOf, IsAnswerTo};
ghost use Rattle.nm_outcomes_top.specs.Answers.{TellsOutcomes, limit_of, text_of};
ghost use Rattle.nm_outcomes_top.specs.Endings.{IsListed, IsStatus};
ghost use Rattle.nm_outcomes_top.specs.OptionWords.{InRange, IsTaken, NotTaken};

use crate::answers::{Response, status, text};
use crate::asking::answer_script;
use crate::words::{Asked, Question, read};
use nm_outside::{Sink, Source, Unread, read_up_to};
use nm_script::ScriptFault;
use nm_shell::{MAX_INPUT, WANT_OF_MEMORY, deliver, parts};
use nm_types::Memory;
use std::alloc::Global;

/// The most bytes that are read of a script: one more than its text may have.
const MAX_SCRIPT_READ: usize = 8388609;

/// The most bytes that are read.
fn limit(question: Question) -> usize
    ensures { result ≡ limit_of question }
{
    match question {
        Question::Among => MAX_INPUT + 1,
        _ => MAX_SCRIPT_READ,
    }
}

// The answer to the text of a script, with the report that is asked of.
fn answer_parts(
    alloc: Global,
    asked: Asked,
    bytes: &[u8],
    report: &[u8],
) -> Result<Response, Memory>
    requires { InRange asked }
    ensures { IfOk result (IsAnswerIn asked bytes.now report.now) }
{
    match nm_script::read(alloc, bytes) {
        Ok(script) => answer_script(alloc, asked, &script, report),
        Err(ScriptFault::Bad { line, kind }) => Ok(Response::Refused { line, kind }),
        Err(ScriptFault::Memory) => Err(Memory),
    }
}

// The answer to a script and a report behind the first line `---`.
fn answer_pair(alloc: Global, asked: Asked, bytes: &[u8]) -> Result<Response, Memory>
    requires range { InRange asked }
    requires among { asked.question ≡ question.Among }
    ensures { IfOk result (IsAnswerTo asked bytes.now) }
{
    match parts(bytes) {
        Some((front, report)) => answer_parts(alloc, asked, front, report),
        None => Ok(Response::NoReport),
    }
}

// The answer to bytes that were read.
fn answer_bytes(alloc: Global, asked: Asked, bytes: &[u8]) -> Result<Response, Memory>
    requires { InRange asked }
    ensures { IfOk result (IsAnswerTo asked bytes.now) }
{
    match asked.question {
        Question::Among => answer_pair(alloc, asked, bytes),
        _ => answer_parts(alloc, asked, bytes, b"".as_slice()),
    }
}

// Reads the source, and answers words that are taken.
fn answer_source<S: Source>(alloc: Global, asked: Asked, source: &mut S) -> Result<Response, Memory>
    requires { InRange asked }
    ensures { IfOk result (IsAnswerOf asked (S.left source.old) (S.faults source.old)
        (S.faults source.new)) }
{
    match read_up_to(alloc, source, limit(asked.question)) {
        Ok(bytes) => answer_bytes(alloc, asked, &bytes),
        Err(Unread::Failed) => Ok(Response::Unread),
        Err(Unread::Memory) => Err(Memory),
    }
}

// Finds the answer to the words and the source.
fn find_answer<S: Source>(
    alloc: Global,
    words: &[String],
    source: &mut S,
) -> Result<Response, Memory>
    ensures answer { IfOk result (IsAnswer (map string_bytes words.now) (S.left source.old)
        (S.faults source.old) (S.faults source.new)) }
    ensures untouched { NotTaken (map string_bytes words.now) → source.new ≡ source.old }
{
    match read(alloc, words)? {
        Some(asked) => answer_source(alloc, asked, source),
        None => Ok(Response::Usage),
    }
}

/// Does all that the program does: reads a script of the source, searches for every report that a
/// lawful run of it can have, and writes to the sink what is asked of them.
///
/// The words are those of the command line without the program's name: `--trace K`, `--among`,
/// `--hangs` or nothing, then options, and behind them how many states the search may meet. All reports are
/// written where nothing more is asked; behind `--trace K` the trace of a lawful run whose report is
/// the K-th of them, 1 for the first; behind `--among` the number of the report that stands in the
/// source behind the script and a line `---`; behind `--hangs` the trace of a lawful run that hangs, or
/// that no run does.
///
/// The status is 0 where that was written and no report of it is stuck, 1 where one is, 2 where the
/// words are not taken, 3 where the bytes spell no script, 4 where a read failed, 5 where a write
/// failed, 6 for want of memory, 7 where there are fewer than K reports, 8 where the given report is
/// none of them, 9 where there is no line `---` or the source has more than 67,108,864 bytes, and 10
/// where the search met more states, or the reports have more than 134,217,728 bytes. The whole text is
/// in memory before the first write.
pub fn outcomes<S: Source, K: Sink>(
    alloc: Global,
    words: &[String],
    source: &mut S,
    sink: &mut K,
) -> u8
    // All reports that the script can have were written, each once.
    ensures listed { (asked : Asked) → IsTaken (map string_bytes words.now) asked →
        asked.question ≡ question.All → (result ≡ 0) ⊎ (result ≡ 1) → IfSome (S.left source.old)
        (IsListed asked result (K.taken sink.old) (K.taken sink.new)) }

    // What is due is said, and nothing else, by what the words ask for and the bytes are; or a write
    // failed, or memory ran out.
    ensures done { IsDone TellsOutcomes (record {
      words = map string_bytes words.now;
      input = S.left source.old;
      left = S.left source.new;
      read_old = S.faults source.old;
      read_new = S.faults source.new;
      before = K.taken sink.old;
      after = K.taken sink.new;
      write_old = K.faults sink.old;
      write_new = K.faults sink.new;
      status = result;
    }) }

    // Where the words are not taken, nothing is read.
    ensures not_taken { NotTaken (map string_bytes words.now) → source.new ≡ source.old }

    // The source failed.
    ensures unread { result ≡ 4 → Rose (S.faults source.old) (S.faults source.new)
        × Appends (K.taken sink.old) (K.taken sink.new) unread }

    // The sink failed. What it took is a front of the text that was due.
    ensures unwritten { result ≡ 5 → Rose (K.faults sink.old) (K.faults sink.new)
        × (answer : Response) × IsAnswer (map string_bytes words.now) (S.left source.old)
        (S.faults source.old) (S.faults source.new) answer
        × AppendsPart (K.taken sink.old) (K.taken sink.new) (text_of answer) }

    // Want of memory, before the first write.
    ensures memory { result ≡ 6 → K.taken sink.new ≡ K.taken sink.old }
    ensures statuses { IsStatus result }
{
    let Ok(answer) = find_answer(alloc, words, source) else {
        return WANT_OF_MEMORY;
    };
    let Ok(due) = text(alloc, &answer) else {
        return WANT_OF_MEMORY;
    };
    deliver(sink, &due, status(&answer))
}
