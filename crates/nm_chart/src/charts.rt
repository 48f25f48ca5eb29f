//! The whole program: words and a trace in, a picture and a status out.

ghost use Rattle.std.specs.Prelude.{◌≡◌, ◌⊎◌, [], map, string_bytes, IfOk, IfSome};
ghost use Rattle.nm_outside.specs.Told.{LosesAtMost};
ghost use Rattle.nm_chart.specs.Answers.{CanBeDrawn, Charts, IsAnswer, IsAnswerTo, WasQuiet, WasRead};
ghost use Rattle.nm_shell.specs.Done.{IsDone};
ghost use Rattle.nm_chart.specs.Given.{IsReadFor};
ghost use Rattle.nm_chart.specs.Endings.{IsDrawn};
ghost use Rattle.nm_shell.specs.Inputs.{read_of};

use crate::answers::{Response, status, text};
use nm_outside::{Sink, Source, Unread, read_up_to};
use nm_shell::{MAX_INPUT, WANT_OF_MEMORY, deliver};
use nm_trace::{TraceFault, read_trace};
use nm_types::{Memory, Shape};
use std::alloc::Global;

/// The record whose trace the bytes are, or their first bad line.
pub fn read_bytes(alloc: Global, bytes: &[u8]) -> Result<Response, Memory>
    ensures answer { IfOk result (IsAnswerTo bytes.now) }
    ensures drawn { IfOk result CanBeDrawn }
{
    if bytes.len() > MAX_INPUT {
        return Ok(Response::Refused { line: 0 });
    }
    let widest = Shape::new(64, 1, 0).unwrap();
    match read_trace(alloc, bytes, widest) {
        Ok(run) => Ok(Response::Drawn { run }),
        Err(TraceFault::Bad { line }) => Ok(Response::Refused { line }),
        Err(TraceFault::Memory) => Err(Memory),
    }
}

// Finds the answer to the words and the source.
fn find_answer<S: Source>(
    alloc: Global,
    words: &[String],
    source: &mut S,
) -> Result<Response, Memory>
    ensures answer { IfOk result (IsAnswer (map string_bytes words.now) (S.left source.old)
        (S.faults source.old) (S.faults source.new)) }
    ensures drawn { IfOk result CanBeDrawn }
    ensures untouched { ¬ (words.now ≡ []) → source.new ≡ source.old }
    ensures taken { words.now ≡ [] → LosesAtMost 67108865 (S.left source.old) (S.left source.new) }
    ensures read { IfOk result (λ answer. IsReadFor (WasQuiet answer) (WasRead answer)
        (S.left source.old) (S.left source.new) (S.faults source.old) (S.faults source.new)) }
{
    if !words.is_empty() {
        return Ok(Response::Usage);
    }
    match read_up_to(alloc, source, MAX_INPUT + 1) {
        Ok(bytes) => read_bytes(alloc, &bytes),
        Err(Unread::Failed) => Ok(Response::Unread),
        Err(Unread::Memory) => Err(Memory),
    }
}

/// Does all that the program does: reads a trace of the source, and writes its picture to the sink.
///
/// The words are those of the command line without the program's name: there are to be none. The
/// status is 0 where the picture was written, 2 where there are words, 4 where a read failed, 5
/// where a write failed, 6 for want of memory, and 9 where the bytes are no trace. A trace has at
/// most 67,108,864 bytes: of longer ones it says line 0. The whole text is in memory before the
/// first write.
pub fn chart<S: Source, K: Sink>(
    alloc: Global,
    words: &[String],
    source: &mut S,
    sink: &mut K,
) -> u8
    // The bytes are the trace of a record, and its picture was written.
    ensures drawn { result ≡ 0 → (words.now ≡ []) × IfSome (S.left source.old) (λ bytes.
        IsDrawn (read_of bytes) (K.taken sink.old) (K.taken sink.new)) }

    // What is due is said, and nothing else, by the words and the bytes; or a write failed, or memory
    // ran out before the first write.
    ensures done { IsDone Charts (record {
      words = map string_bytes words.now;
      input = S.left source.old;
      left = S.left source.new;
      read_old = S.faults source.old;
      read_new = S.faults source.new;
      before = K.taken sink.old;
      after = K.taken sink.new;
      write_old = K.faults sink.old;
      write_new = K.faults sink.new;
      status = result;
    }) }

    // Where there are words, nothing is read, and no more is taken than may be read however it ends.
    ensures not_taken { ¬ (words.now ≡ []) → source.new ≡ source.old }
    ensures taken { words.now ≡ [] → LosesAtMost 67108865 (S.left source.old) (S.left source.new) }

    // No failure of the sink is passed over.
    ensures quiet_sink { (result ≡ 5) ⊎ (K.faults sink.new ≡ K.faults sink.old) }
{
    let Ok(answer) = find_answer(alloc, words, source) else {
        return WANT_OF_MEMORY;
    };
    let Ok(due) = text(alloc, &answer) else {
        return WANT_OF_MEMORY;
    };
    deliver(sink, &due, status(&answer))
}
