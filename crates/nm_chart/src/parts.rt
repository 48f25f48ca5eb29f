//! A part of a trace: words and a trace in, a picture of a part and a status out.

ghost use Rattle.std.specs.Prelude.{◌≡◌, ◌⊎◌, None, map, string_bytes, IfOk};
ghost use Rattle.nm_outside.specs.Told.{LosesAtMost};
ghost use Rattle.nm_chart.specs.PartWords.{InRange, asked_of};
ghost use Rattle.nm_shell.specs.Done.{IsDone};
ghost use Rattle.nm_chart.specs.Given.{IsReadFor};
ghost use Rattle.nm_chart.specs.Parts.{CanBeShown, ChartsPart, IsFoundIn, IsOutcome, WasQuiet, WasTaken};

use crate::answers::Response;
use crate::charts::read_bytes;
use crate::choosing::keep_chosen;
use crate::outcomes::{Form, Outcome, outcome_status, outcome_text};
use nm_diagram::Part;
use nm_outside::{Sink, Source, Unread, read_up_to};
use nm_shell::{MAX_INPUT, WANT_OF_MEMORY, deliver};
use nm_types::Memory;
use std::alloc::Global;

// The chosen ranks of the record whose trace the bytes are, or their first bad line.
fn read_part(alloc: Global, bytes: &[u8], part: Part) -> Result<Outcome, Memory>
    requires { InRange part }
    ensures outcome { IfOk result (IsFoundIn part bytes.now) }
    ensures shown { IfOk result CanBeShown }
{
    let read = read_bytes(alloc, bytes)?;
    match read {
        Response::Drawn { mut run } => {
            keep_chosen(alloc, &mut run, &part.chosen);
            Ok(Outcome::Drawn { run, part })
        }
        Response::Refused { line } => Ok(Outcome::Refused { line }),
        Response::Usage => Ok(Outcome::Usage),
        Response::Unread => Ok(Outcome::Unread),
    }
}

// Finds what there is to say of the words and the source.
fn find_outcome<S: Source>(
    alloc: Global,
    words: &[String],
    source: &mut S,
) -> Result<Outcome, Memory>
    ensures outcome { IfOk result (IsOutcome (map string_bytes words.now) (S.left source.old)
        (S.faults source.old) (S.faults source.new)) }
    ensures shown { IfOk result CanBeShown }
    ensures untouched { asked_of (map string_bytes words.now) ≡ None → source.new ≡ source.old }
    ensures taken { LosesAtMost 67108865 (S.left source.old) (S.left source.new) }
    ensures read { IfOk result (λ outcome. IsReadFor (WasQuiet outcome) (WasTaken outcome)
        (S.left source.old) (S.left source.new) (S.faults source.old) (S.faults source.new)) }
{
    let asked = crate::words::read(alloc, words)?;
    let Some(part) = asked else {
        return Ok(Outcome::Usage);
    };
    match read_up_to(alloc, source, MAX_INPUT + 1) {
        Ok(bytes) => read_part(alloc, &bytes, part),
        Err(Unread::Failed) => Ok(Outcome::Unread),
        Err(Unread::Memory) => Err(Memory),
    }
}

/// Does all that the program does where it has words: reads a trace of the source, and writes the
/// picture of the part that the words ask for to the sink, or the page that holds it.
///
/// The words are those of the command line without the program's name, and without `--html`, which
/// stands first and asks for a page: options, as `nm_chart::words` reads them. The status is 0 where the picture was written, 2 where the words are not taken, 4
/// where a read failed, 5 where a write failed, 6 for want of memory, and 9 where the bytes are no
/// trace. A trace has at most 67,108,864 bytes: of longer ones it says line 0. The whole text is in
/// memory before the first write.
pub fn chart_part<S: Source, K: Sink>(
    alloc: Global,
    form: Form,
    words: &[String],
    source: &mut S,
    sink: &mut K,
) -> u8
    // What is due is said, and nothing else, by the words and the bytes; or a write failed, or memory
    // ran out before the first write.
    ensures done { IsDone (ChartsPart form) (record {
      words = map string_bytes words.now;
      input = S.left source.old;
      left = S.left source.new;
      read_old = S.faults source.old;
      read_new = S.faults source.new;
      before = K.taken sink.old;
      after = K.taken sink.new;
      write_old = K.faults sink.old;
      write_new = K.faults sink.new;
      status = result;
    }) }

    // Where the words are not taken, nothing is read, and no more is taken than may be read however
    // it ends.
    ensures not_taken { asked_of (map string_bytes words.now) ≡ None → source.new ≡ source.old }
    ensures taken { LosesAtMost 67108865 (S.left source.old) (S.left source.new) }

    // No failure of the sink is passed over.
    ensures quiet_sink { (result ≡ 5) ⊎ (K.faults sink.new ≡ K.faults sink.old) }
{
    let Ok(outcome) = find_outcome(alloc, words, source) else {
        return WANT_OF_MEMORY;
    };
    let Ok(due) = outcome_text(alloc, form, &outcome) else {
        return WANT_OF_MEMORY;
    };
    deliver(sink, &due, outcome_status(&outcome))
}
