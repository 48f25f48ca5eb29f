//! The whole program: words, a script and a trace in, a verdict and a status out.

ghost use Rattle.std.specs.Prelude.{◌≡◌, ◌⊎◌, map, string_bytes, IfOk};
ghost use Rattle.nm_outside.specs.Told.{Appends, AppendsPart, LosesAtMost, Rose};
ghost use Rattle.nm_verdict.specs.declared.answers.Response.{Response};
ghost use Rattle.nm_breaks.specs.Answers.{NotAsked};
ghost use Rattle.nm_verdict.specs.Answers.{IsAnswer, IsRead, SaysVerdict, text_of};
ghost use Rattle.nm_shell.specs.Done.{IsDone, unread};
ghost use Rattle.nm_verdict.specs.Endings.{IsSpoken, IsTold};

use crate::answers::{Response, status, text};
use crate::quotes::quoted;
use nm_breaks::find;
use nm_breaks::words::asked;
use nm_outside::{Sink, Source, Unread, read_up_to};
use nm_shell::{MAX_INPUT, WANT_OF_MEMORY, deliver};
use nm_types::Memory;
use std::alloc::Global;

/// Finds the answer to the words and the source.
fn find_answer<S: Source>(
    alloc: Global,
    words: &[String],
    source: &mut S,
) -> Result<Response, Memory>
    ensures answer { IfOk result (IsAnswer (map string_bytes words.now) (S.left source.old)
        (S.faults source.old) (S.faults source.new)) }
    ensures untouched { NotAsked (map string_bytes words.now) → source.new ≡ source.old }
    ensures taken { LosesAtMost 67108865 (S.left source.old) (S.left source.new) }
    ensures read { IfOk result (IsRead (map string_bytes words.now) (S.left source.old)
        (S.left source.new) (S.faults source.old) (S.faults source.new)) }
{
    let Some(line) = asked(words) else {
        return Ok(Response::Usage);
    };
    match read_up_to(alloc, source, MAX_INPUT + 1) {
        Ok(bytes) => {
            let found = find(alloc, &bytes, line.cells, line.eager)?;
            let quotes = quoted(alloc, &bytes, &found)?;
            Ok(Response::Told { found, quotes })
        }
        Err(Unread::Failed) => Ok(Response::Unread),
        Err(Unread::Memory) => Err(Memory),
    }
}

/// Does all that the program does: reads a script and a trace of the source, with a line `---`
/// between, and writes to the sink that the trace holds, or where and how it does not.
///
/// The words are those of `nemesis check`, with that first word. The status is 0 where the trace
/// holds, 2 where the words are not taken, 3 where there is no script, 4 where a read failed, 5
/// where a write failed, 6 for want of memory, 8 where the trace breaks a rule, and 9 where there is
/// no trace, or more than 67,108,864 bytes. The whole text is in memory before the first write.
pub fn verdict<S: Source, K: Sink>(
    alloc: Global,
    words: &[String],
    source: &mut S,
    sink: &mut K,
) -> u8
    // What a check says of the bytes, and where they break the rule first.
    ensures told { IsSpoken result → IsTold (map string_bytes words.now) (S.left source.old) result
        (K.taken sink.old) (K.taken sink.new) }

    // What is due is said, and nothing else, by the words and the bytes; or a write failed, or memory
    // ran out.
    ensures done { IsDone SaysVerdict (record {
      words = map string_bytes words.now;
      input = S.left source.old;
      left = S.left source.new;
      read_old = S.faults source.old;
      read_new = S.faults source.new;
      before = K.taken sink.old;
      after = K.taken sink.new;
      write_old = K.faults sink.old;
      write_new = K.faults sink.new;
      status = result;
    }) }

    // Where the words are not taken, nothing is read, and no more is taken than may be read however
    // it ends.
    ensures not_taken { NotAsked (map string_bytes words.now) → source.new ≡ source.old }
    ensures taken { LosesAtMost 67108865 (S.left source.old) (S.left source.new) }

    // The source failed.
    ensures unread { result ≡ 4 → Rose (S.faults source.old) (S.faults source.new)
        × Appends (K.taken sink.old) (K.taken sink.new) unread }

    // The sink failed. What it took is a front of the text that was due.
    ensures unwritten { result ≡ 5 → Rose (K.faults sink.old) (K.faults sink.new)
        × (answer : Response) × IsAnswer (map string_bytes words.now) (S.left source.old)
        (S.faults source.old) (S.faults source.new) answer
        × AppendsPart (K.taken sink.old) (K.taken sink.new) (text_of answer) }
    ensures quiet_sink { (result ≡ 5) ⊎ (K.faults sink.new ≡ K.faults sink.old) }

    // Want of memory, before the first write.
    ensures memory { result ≡ 6 → K.taken sink.new ≡ K.taken sink.old }
{
    let Ok(answer) = find_answer(alloc, words, source) else {
        return WANT_OF_MEMORY;
    };
    let Ok(due) = text(alloc, &answer) else {
        return WANT_OF_MEMORY;
    };
    deliver(sink, &due, status(&answer))
}
