//! The whole program: words and bytes in, bytes and a status out. `nemesis` is the one top call.
//!
//! # What a contract sees
//! The words as lists of bytes; the bytes that the source reports, of which at most 8,388,609 are taken, with
//! `check` 67,108,865, however it ends; the bytes that the sink reports; the status, the record of the run,
//! what the closed ports carried, and the log of several threads. `IsAnswer` says, by cases of the words and
//! the bytes, which answer is right. `nemesis` says by `done` that this answer is written and handed out, and
//! nothing else. `laws` has what follows: what each status means and when it comes, and how each kind of
//! words ends.
//! # What is proved
//! - Status 2 exactly if the words are not accepted, and then nothing was read; 3 with `run`, `trace` and
//!   `plain` exactly if the bytes spell no script; 0 and 1 of a run exactly if they spell one, or the words
//!   ask for a flood. 5 and 6 may come in place of each, and 4 in place of those that depend on bytes.
//! - With `run`, `trace` and a flood no status but 0, 1, 3, 4, 5 and 6, also if the source doesn't report its
//!   bytes.
//! - The record, at 0 and 1 and if its text could not be written: each rank's history is a run of its
//!   commands, what it took of each sender is what was sent, all ranks are quiescent, all cells are home, the
//!   status is 0 exactly if no rank is blocked, and the closed ports carried what the record says
//!   (`IsRunOfWords`).
//! - For a plain script `run` writes what its plain run reports; the summary of a flood is a function of its
//!   numbers and the sizes.
//! - With `plain`: 3 if the bytes spell no script, 7 if it is not plain, with the line, else the report of
//!   the plain run, with 0 or 1.
//! - With `check`: 9 if there is no trace, 3 if the lines before it spell no script, else 0 or 8 with the
//!   verdict on the trace; that of a run of the script holds.
//! - With `parts`: 3 with the first fault of bytes that spell no plan, else the report of a run of the plan's
//!   script, by the plan's own lines: a receive shows the body that its sender held at that start.
//! - With `multi`: 0, with the text of a log that is one legal history of one rank and has each thread's
//!   whole program.
//! - Status 4 and 5 only if the count of faults of the source or the sink rose; at 5 the sink took a prefix
//!   of the text. At 6 nothing was written.
//! - No failure is ignored: at other statuses than 4, 5 and 6 the count of the source is as it was, and at
//!   others than 5 that of the sink; and there the source was read to its end, or to the limit.
//! # What is only tested
//! That it succeeds with ample memory.
#![tactic(auto)]

ghost use Rattle.std.specs.Prelude.{◌≡◌, ◌⊎◌, None, Some, map, string_bytes};
ghost use Rattle.nm_outside.specs.Told.{Appends, AppendsPart, Rose};
ghost use Rattle.nm_script.specs.CommandWords.{IsTaken};
ghost use Rattle.nm_script.specs.declared.command_line.CommandLine.{CommandLine};
ghost use Rattle.nm_cli.specs.declared.answers.Response.{Response};
ghost use Rattle.nm_cli.specs.Answers.{IsAnswer, IsReadFor, log_of, run_of, text_of, ways_of};
ghost use Rattle.nm_shell.specs.Done.{unread};
ghost use Rattle.nm_cli.specs.Done.{IsDone, TakesInput};
ghost use Rattle.nm_cli.specs.Endings.{IsReported, IsStatus};
ghost use Rattle.nm_cli.specs.Scripts.{Runs};

mod answers;
mod checks;
mod finding;
pub mod laws;
mod plans;
mod runs;

use answers::{Response, status, text};
use finding::find_answer;
use nm_multi::CallLog;
use nm_outside::{Gate, Sink, Source};
use nm_report::RunRecord;
use nm_shell::{WANT_OF_MEMORY, deliver};
use nm_world::Ways;
use std::alloc::Global;
use std::sync::Wait;
use std::thread::Threads;

/// How the program ended.
#[derive(Drop)]
pub struct Ended {
    /// 0 where every rank is at its end, 1 where one waits for what can't come, 2 where the words
    /// are not taken, 3 where the bytes are no script or no plan, 4 where a read failed, 5 where a
    /// write failed, 6 for want of memory, 7 where a script is not plain, 8 where a trace breaks a
    /// rule, 9 where there is no trace.
    pub status: u8,
    /// The record of the run, where its text was due.
    pub run: Option<RunRecord>,
    /// What the closed ports of that run kept.
    pub closed: Option<Ways>,
    /// The calls of several threads on one rank, where their text was due.
    pub log: Option<CallLog>,
}

// How it ends with nothing to hand out.
fn hand_out_nothing(status: u8) -> Ended
    ensures { (result.status ≡ status) × (result.run ≡ None) × (result.closed ≡ None)
        × (result.log ≡ None) }
{
    Ended {
        status,
        run: None,
        closed: None,
        log: None,
    }
}

// How it ends with the record of a run.
fn hand_out_run(status: u8, run: RunRecord, ways: Ways) -> Ended
    ensures { (result.status ≡ status) × (result.run ≡ Some run) × (result.closed ≡ Some ways)
        × (result.log ≡ None) }
{
    Ended {
        run: Some(run),
        closed: Some(ways),
        ..hand_out_nothing(status)
    }
}

// How it ends with an answer that was due.
fn hand_out(status: u8, answer: Response) -> Ended
    ensures status { result.status ≡ status }
    ensures run { result.run ≡ run_of answer }
    ensures ways { result.closed ≡ ways_of answer }
    ensures log { result.log ≡ log_of answer }
{
    match answer {
        Response::Ran { run, ways, .. } => hand_out_run(status, run, ways),
        Response::Planned { run, ways, .. } => hand_out_run(status, run, ways),
        Response::Logged { log, .. } => Ended {
            log: Some(log),
            ..hand_out_nothing(status)
        },
        _ => hand_out_nothing(status),
    }
}

/// Does all that the program does: takes the words and the source, runs the script, writes what is
/// to be said to the sink, and answers the status.
///
/// The words are those of the command line without the program's name. `gate.turn(rank)` is called
/// before each turn of a rank. The whole text is in memory before the first write.
pub fn nemesis<R: Threads + Wait + Sync, S: Source, K: Sink, G: Gate + Sync>(
    rt: &R,
    alloc: Global,
    words: &[String],
    source: &mut S,
    sink: &mut K,
    gate: &G,
) -> Ended
    // A script ran, and every rank is at its end, or one waits for what can't come.
    ensures reported { (result.status ≡ 0) ⊎ (result.status ≡ 1) → (line : CommandLine)
        × IsTaken (map string_bytes words.now) line
        × (Runs line.mode → IsReported line (S.left source.old) result.status result.run
        result.closed (K.taken sink.old) (K.taken sink.new)) }

    // What is due is said and handed out, and nothing else, by what the words ask for and the bytes
    // are; or a write failed, or memory ran out.
    ensures done { IsDone (record {
      words = map string_bytes words.now;
      input = S.left source.old;
      left = S.left source.new;
      read_old = S.faults source.old;
      read_new = S.faults source.new;
      before = K.taken sink.old;
      after = K.taken sink.new;
      write_old = K.faults sink.old;
      write_new = K.faults sink.new;
      status = result.status;
      run = result.run;
      closed = result.closed;
      log = result.log;
    }) }

    // What is taken of the source, however it ends.
    ensures taken { TakesInput (map string_bytes words.now) (S.left source.old) (S.left source.new)
        (source.new ≡ source.old) }

    // The source failed.
    ensures unread { result.status ≡ 4 → Rose (S.faults source.old) (S.faults source.new)
        × Appends (K.taken sink.old) (K.taken sink.new) unread }

    // The sink failed. What it took is a front of the text that was due.
    ensures unwritten { result.status ≡ 5 → Rose (K.faults sink.old) (K.faults sink.new)
        × (answer : Response) × IsAnswer (map string_bytes words.now)
        (S.left source.old) (S.faults source.old) (S.faults source.new) answer
        × IsReadFor (map string_bytes words.now) (S.left source.old) (S.left source.new)
        (S.faults source.old) (S.faults source.new) answer
        × AppendsPart (K.taken sink.old) (K.taken sink.new) (text_of answer)
        × (result.run ≡ run_of answer) × (result.closed ≡ ways_of answer)
        × (result.log ≡ log_of answer) }
    ensures quiet_sink { (result.status ≡ 5) ⊎ (K.faults sink.new ≡ K.faults sink.old) }

    // Want of memory, before the first write.
    ensures memory { result.status ≡ 6 → (K.taken sink.new ≡ K.taken sink.old)
        × (result.run ≡ None) × (result.closed ≡ None) × (result.log ≡ None) }
    ensures statuses { IsStatus result.status }
{
    let Ok(answer) = find_answer(rt, alloc, words, source, gate) else {
        return hand_out_nothing(WANT_OF_MEMORY);
    };
    let Ok(due) = text(alloc, &answer) else {
        return hand_out_nothing(WANT_OF_MEMORY);
    };
    let status = deliver(sink, &due, status(&answer));
    hand_out(status, answer)
}
