//! The whole program: words, a script and answers in, a verdict and a status out.

ghost use Rattle.std.specs.Prelude.{◌≡◌, map, string_bytes, IfOk, IfSome};
ghost use Rattle.nm_shell.specs.Done.{IsDone};
ghost use Rattle.nm_lawful_top.specs.Answers.{IsDue, IsDueOf, TellsLawful};
ghost use Rattle.nm_lawful_top.specs.Endings.{AreLawful, AreUnlawful};
ghost use Rattle.nm_lawful_top.specs.Words.{IsTaken, NotTaken};
ghost use Rattle.nm_lawful_top.specs.declared.words.Asked.{Asked};

use crate::asking::answer_bytes;
use crate::responses::{Response, status, text};
use crate::words::{Asked, read};
use nm_outside::{Sink, Source, Unread, read_up_to};
use nm_shell::{MAX_INPUT, WANT_OF_MEMORY, deliver};
use nm_types::Memory;
use std::alloc::Global;

// Reads the source, and answers words that are taken.
fn answer_source<S: Source>(alloc: Global, asked: Asked, source: &mut S) -> Result<Response, Memory>
    ensures { IfOk result (IsDueOf asked (S.left source.old) (S.faults source.old)
        (S.faults source.new)) }
{
    match read_up_to(alloc, source, MAX_INPUT + 1) {
        Ok(bytes) => answer_bytes(alloc, asked, &bytes),
        Err(Unread::Failed) => Ok(Response::Unread),
        Err(Unread::Memory) => Err(Memory),
    }
}

// Finds the answer to the words and the source.
fn find_answer<S: Source>(
    alloc: Global,
    words: &[String],
    source: &mut S,
) -> Result<Response, Memory>
    ensures answer { IfOk result (IsDue (map string_bytes words.now) (S.left source.old)
        (S.faults source.old) (S.faults source.new)) }
    ensures untouched { NotTaken (map string_bytes words.now) → source.new ≡ source.old }
{
    match read(words) {
        Some(asked) => answer_source(alloc, asked, source),
        None => Ok(Response::Usage),
    }
}

/// Does all that the program does: reads a script and answers of the source, and says to the sink whether MPI's text
/// allows that the ranks told this.
///
/// The words are those of the command line without the program's name: `--cut any` or nothing, and behind it how many
/// states a search may meet. The status is 0 where it is allowed, 8 where it isn't, 7 where the states were not
/// enough, 2 where the words are not taken, 3 where the bytes before the first line `---` spell no script, 9 where there
/// is no such line, the source has more than 67,108,864 bytes, or a line behind it tells nothing, 4 where a read failed,
/// 5 where a write failed, and 6 for want of memory. The whole text is in memory before the first write.
pub fn lawful<S: Source, K: Sink>(
    alloc: Global,
    words: &[String],
    source: &mut S,
    sink: &mut K,
) -> u8
    // A run that comes to rest as is said tells these answers and no others.
    ensures lawful { (asked : Asked) → IsTaken (map string_bytes words.now) asked → result ≡ 0 →
        IfSome (S.left source.old) (AreLawful asked) }

    // None does.
    ensures unlawful { (asked : Asked) → IsTaken (map string_bytes words.now) asked → result ≡ 8 →
        IfSome (S.left source.old) (AreUnlawful asked) }

    // What is due is said, and nothing else, by what the words ask for and the bytes are; or a write
    // failed, or memory ran out.
    ensures done { IsDone TellsLawful (record {
      words = map string_bytes words.now;
      input = S.left source.old;
      left = S.left source.new;
      read_old = S.faults source.old;
      read_new = S.faults source.new;
      before = K.taken sink.old;
      after = K.taken sink.new;
      write_old = K.faults sink.old;
      write_new = K.faults sink.new;
      status = result;
    }) }

    // Where the words are not taken, nothing is read.
    ensures not_taken { NotTaken (map string_bytes words.now) → source.new ≡ source.old }
{
    let Ok(answer) = find_answer(alloc, words, source) else {
        return WANT_OF_MEMORY;
    };
    let Ok(due) = text(alloc, &answer) else {
        return WANT_OF_MEMORY;
    };
    deliver(sink, &due, status(&answer))
}
