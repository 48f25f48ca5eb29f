//! The report of a run.

ghost use Rattle.std.specs.Prelude.{◌≡◌, ◌++◌, false, true, IfOk, OnOk, string_bytes};
ghost use Rattle.nm_report.specs.Layout.{by_rank};
ghost use Rattle.nm_report.specs.Report.{answer_line, ran_line, answer_lines, end_line};
ghost use Rattle.nm_report.specs.Report.{cells_line, report_text};

use crate::answers::{push_answer, push_body};
use crate::events::{push_all_events, push_pairs};
use crate::{RankAccount, RunRecord};
use nm_history::Happened;
use nm_types::{Answer, Memory};
use std::alloc::{AllocError, Global};

/// Writes the line of an answer, but none where a start was taken.
fn push_answer_line(
    out: &mut String,
    rank: usize,
    line: u64,
    answer: &Answer,
) -> Result<(), AllocError>
    ensures ok { OnOk result
        (string_bytes out.new ≡ string_bytes out.old ++ answer_line rank line answer.now) }
{
    if let Answer::Started = answer {
        return Ok(());
    }
    write!(out, "{rank} {line} ")?;
    push_answer(out, answer)?;
    push_body(out, answer)?;
    out.push_str("\n")
}

/// Writes the line of an event that is an answer.
fn push_ran(out: &mut String, rank: usize, what: &Happened) -> Result<(), AllocError>
    ensures ok { OnOk result
        (string_bytes out.new ≡ string_bytes out.old ++ ran_line rank what.now) }
{
    match what {
        Happened::Ran { line, answer } => push_answer_line(out, rank, *line, answer),
        _ => Ok(()),
    }
}

/// Writes the lines of a rank's answers, and then of the command that can't go on.
fn push_answers(out: &mut String, rank: usize, account: &RankAccount) -> Result<(), AllocError>
    ensures ok { OnOk result
        (string_bytes out.new ≡ string_bytes out.old ++ answer_lines rank account.now) }
{
    for event in account.history.as_slice() {
        push_ran(out, rank, &event.what)?;
    }
    match account.waits {
        Some(line) => write!(out, "{rank} {line} waits\n"),
        None => Ok(()),
    }
}

/// Writes the lines of all answers, rank by rank.
fn push_all_answers(out: &mut String, ranks: &[RankAccount]) -> Result<(), AllocError>
    ensures ok { OnOk result
        (string_bytes out.new ≡ string_bytes out.old ++ by_rank answer_lines ranks.now) }
{
    for (rank, account) in ranks.iter().enumerate() {
        push_answers(out, rank, account)?;
    }
    Ok(())
}

/// The last line, which says whether every rank is at its end.
fn last_line(done: bool) -> &'static str
    ensures { result.now ≡ end_line done }
{
    if done { "done\n" } else { "stuck\n" }
}

/// Writes the line of the cells, and the last line.
pub fn push_end(out: &mut String, run: &RunRecord) -> Result<(), AllocError>
    ensures ok { OnOk result (string_bytes out.new
        ≡ string_bytes out.old ++ cells_line run.now.cells ++ end_line run.now.done) }
{
    let cells = run.cells;
    write!(out, "cells {} home {}\n", cells.total, cells.home)?;
    out.push_str(last_line(run.done))
}

/// Writes the lines of a report.
fn push_report(out: &mut String, run: &RunRecord) -> Result<(), AllocError>
    ensures ok { OnOk result
        (string_bytes out.new ≡ string_bytes out.old ++ report_text false run.now) }
{
    push_all_answers(out, run.ranks.as_slice())?;
    push_end(out, run)
}

/// The report of a run, each line ended by a line feed.
///
/// Rank by rank, each answer has the line `RANK LINE ANSWER` in the order of the events, and a
/// command that can't go on the line `RANK LINE waits` behind them. Then come `cells TOTAL home
/// HOME`, and `done` or `stuck`. The text depends on the record alone.
pub fn report(alloc: Global, run: &RunRecord) -> Result<Vec<u8>, Memory>
    ensures { IfOk result (λ text. text.items ≡ report_text false run.now) }
{
    let mut out = String::new(alloc);
    push_report(&mut out, run)?;
    Ok(out.into_bytes())
}

/// The trace of a record, each line ended by a line feed: a line for each event and one for each
/// count of packets, and behind them the report. The text depends on the record alone.
pub fn trace(alloc: Global, run: &RunRecord) -> Result<Vec<u8>, Memory>
    ensures { IfOk result (λ text. text.items ≡ report_text true run.now) }
{
    let mut out = String::new(alloc);
    push_all_events(&mut out, run.ranks.as_slice())?;
    push_pairs(&mut out, run.pairs.as_slice())?;
    push_report(&mut out, run)?;
    Ok(out.into_bytes())
}
