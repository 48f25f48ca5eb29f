//! The whole program: words and a script in, why it can hang and a status out.

ghost use Rattle.std.specs.Prelude.{◌≡◌, IfOk, IfSome, Some, map, string_bytes};
ghost use Rattle.nm_shell.specs.Done.{IsDone};
ghost use Rattle.nm_outcomes_top.specs.declared.words.Asked.{Asked};
ghost use Rattle.nm_outcomes_top.specs.declared.words.Question.TheVariants.{All};
ghost use Rattle.nm_outcomes_top.specs.OptionWords.{InRange};
ghost use Rattle.nm_why_top.specs.declared.answers.Response.{Response};
ghost use Rattle.nm_why_top.specs.Answers.{IsAnswer, IsAnswerIn, IsAnswerOf, IsAsked, NotAsked, TellsWhy};

use crate::answers::{Response, status, text};
use crate::asking::answer_script;
use nm_outcomes_top::words::{Asked, Question, read};
use nm_outside::{Sink, Source, Unread, read_up_to};
use nm_script::ScriptFault;
use nm_shell::{WANT_OF_MEMORY, deliver};
use nm_types::Memory;
use std::alloc::Global;

/// The most bytes that are read of a script: one more than its text may have.
const MAX_SCRIPT_READ: usize = 8388609;

// What is asked, if it is no more than the sizes.
fn plain(asked: Asked) -> Option<Asked>
    ensures same { IfSome result (λ found. (found ≡ asked) × (asked.question ≡ All)) }
    ensures takes { asked.question ≡ All → result ≡ Some asked }
{
    match asked.question {
        Question::All => Some(asked),
        Question::Trace { .. } => None,
        Question::Among => None,
        Question::Either => None,
        Question::Hangs => None,
    }
}

// What the words ask for, where they ask for no more than the sizes.
fn asked(alloc: Global, words: &[String]) -> Result<Option<Asked>, Memory>
    ensures taken { IfOk result (λ found. IfSome found (IsAsked (map string_bytes words.now))) }
    ensures takes { IfOk result (λ found. (line : Asked) →
        IsAsked (map string_bytes words.now) line → found ≡ Some line) }
    ensures within { IfOk result (λ found. IfSome found InRange) }
{
    match read(alloc, words)? {
        Some(asked) => Ok(plain(asked)),
        None => Ok(None),
    }
}

// The answer to the text of a script.
fn answer_bytes(alloc: Global, asked: Asked, bytes: &[u8]) -> Result<Response, Memory>
    requires { InRange asked }
    ensures { IfOk result (IsAnswerIn asked bytes.now) }
{
    match nm_script::read(alloc, bytes) {
        Ok(script) => answer_script(alloc, asked, &script),
        Err(ScriptFault::Bad { line, kind }) => Ok(Response::Refused { line, kind }),
        Err(ScriptFault::Memory) => Err(Memory),
    }
}

// Reads the source, and answers words that are taken.
fn answer_source<S: Source>(alloc: Global, asked: Asked, source: &mut S) -> Result<Response, Memory>
    requires { InRange asked }
    ensures { IfOk result (IsAnswerOf asked (S.left source.old) (S.faults source.old)
        (S.faults source.new)) }
{
    match read_up_to(alloc, source, MAX_SCRIPT_READ) {
        Ok(bytes) => answer_bytes(alloc, asked, &bytes),
        Err(Unread::Failed) => Ok(Response::Unread),
        Err(Unread::Memory) => Err(Memory),
    }
}

// Finds the answer to the words and the source.
fn find_answer<S: Source>(
    alloc: Global,
    words: &[String],
    source: &mut S,
) -> Result<Response, Memory>
    ensures answer { IfOk result (IsAnswer (map string_bytes words.now) (S.left source.old)
        (S.faults source.old) (S.faults source.new)) }
    ensures untouched { NotAsked (map string_bytes words.now) → source.new ≡ source.old }
{
    match asked(alloc, words)? {
        Some(asked) => answer_source(alloc, asked, source),
        None => Ok(Response::Usage),
    }
}

/// Does all that the program does: reads a script of the source, searches through all its lawful runs, and writes to
/// the sink whether one of them hangs; if so, the least part of the script that still does what it does, and the single
/// changes after which no run hangs.
///
/// The words are those of the command line without the program's name: options as behind `nemesis run`, and behind
/// them how many states each search may meet.
///
/// The status is 0 where no run hangs, 1 where one does, 2 where the words are not taken, 3 where the bytes spell no
/// script, 4 where a read failed, 5 where a write failed, 6 for want of memory, and 10 where the list of all reports
/// met more states or they have more than 134,217,728 bytes, and a search for a run that hangs met more states, too.
/// The whole text is in memory before the first write.
pub fn why<S: Source, K: Sink>(alloc: Global, words: &[String], source: &mut S, sink: &mut K) -> u8
    // What is due is said, and nothing else, by what the words ask for and the bytes are; or a write failed, or memory
    // ran out.
    ensures done { IsDone TellsWhy (record {
      words = map string_bytes words.now;
      input = S.left source.old;
      left = S.left source.new;
      read_old = S.faults source.old;
      read_new = S.faults source.new;
      before = K.taken sink.old;
      after = K.taken sink.new;
      write_old = K.faults sink.old;
      write_new = K.faults sink.new;
      status = result;
    }) }

    // Where the words are not taken, nothing is read.
    ensures not_taken { NotAsked (map string_bytes words.now) → source.new ≡ source.old }

    // Want of memory, before the first write.
    ensures memory { result ≡ 6 → K.taken sink.new ≡ K.taken sink.old }
{
    let Ok(answer) = find_answer(alloc, words, source) else {
        return WANT_OF_MEMORY;
    };
    let Ok(due) = text(alloc, &answer) else {
        return WANT_OF_MEMORY;
    };
    deliver(sink, &due, status(&answer))
}
