//! The text of a plan's run.

ghost use Rattle.std.specs.Prelude.{◌≡◌, ◌++◌, [], map, filter_map, option_map, IfOk, OnOk};
ghost use Rattle.std.specs.Prelude.{List, Option, IsTrue, ◌↔◌, ◌<◌, ◌^◌, option_copied};
ghost use Rattle.std.specs.Prelude.{string_bytes};
ghost use Rattle.std.specs.List.{join_with_byte};
ghost use Rattle.nm_report.specs.Report.{waits_line};
ghost use Rattle.nm_report.specs.Told.{told_by, told_of_rank};
ghost use Rattle.nm_persist.specs.Report.{Named, asked_at, named_from, rank_lines, ranks_lines};
ghost use Rattle.nm_persist.specs.Report.{results_of, run_text, shown_line, shown_words};
ghost use Rattle.nm_persist.specs.Report.{words_shown};
ghost use Rattle.nm_persist.specs.Report.{arrived_word as arrived_word_lem, first_answer};
ghost use Rattle.nm_persist.specs.Report.{received as received_lem};
ghost use Rattle.nm_persist.specs.Results.{AreResults, AreRows, IsReceived};
ghost use Rattle.nm_persist.specs.declared.asked.Asked as questions;
ghost use Rattle.nm_types.specs.declared.answers.Answer as answers;
ghost use Rattle.nm_types.specs.declared.answers.Answer.TheVariants as kind;

use crate::asked::{Asked, Show, asked_of};
use crate::plans::Plan;
use crate::results::{Received, Results};
use nm_history::{Event, Happened, History};
use nm_report::{RankAccount, RunRecord, push_end};
use nm_types::{Answer, Memory};
use std::alloc::{AllocError, Global};

/// The answer that an event is.
fn answer_in(event: &Event) -> Option<&Answer>
    ensures { option_copied result ≡ option_map (λ t. t.answer) (told_by event.now.what) }
{
    match &event.what {
        Happened::Ran { answer, .. } => Some(answer),
        _ => None,
    }
}

/// The answers of a rank, in order.
fn answers_of(alloc: Global, history: &History) -> Result<Vec<&Answer>, AllocError>
    ensures { IfOk result (λ answers. map (λ a. a.now) answers.items
        ≡ map (λ t. t.answer) (filter_map (λ event. told_by event.what) history.now.events)) }
{
    let mut answers = Vec::new(alloc);
    for event in history.as_slice() {
        if let Some(answer) = answer_in(event) {
            answers.push(answer)?;
        }
    }
    Ok(answers)
}

/// Writes what the parts of a receive took.
fn push_received(
    alloc: Global,
    out: &mut String,
    from: u8,
    tag: u16,
    received: &Received,
) -> Result<(), AllocError>
    requires { received.now.lost < 2 ^ 63 }
    ensures { OnOk result ((parts : List (Option answers.Answer)) → IsReceived parts received.now →
        string_bytes out.new
        ≡ string_bytes out.old ++ join_with_byte 32 (received_lem from tag parts)) }
{
    let len = received.len();
    if received.cut {
        return write!(out, "cut {from} {tag} {len}");
    }
    let digits = hex::encode(alloc, received.bytes.as_slice())?;
    write!(out, "got {from} {tag} {len} x")?;
    out.push_str(&digits)
}

/// A part isn't here.
fn is_no(answer: &Answer) -> bool
    ensures { IsTrue result ↔ (answer.now ≡ kind.No) }
{
    matches!(answer, Answer::No)
}

/// Whether a part is here, or its request isn't active, by the answer to its test.
fn arrived_word(answers: &[&Answer]) -> &'static str
    ensures { result.now ≡ arrived_word_lem (first_answer (map (λ a. a.now) answers.now)) }
{
    match answers.first() {
        Some(answer) if is_no(answer) => "no",
        _ => "yes",
    }
}

/// Writes what a line shows, by the answers to its commands.
fn push_words(
    alloc: Global,
    out: &mut String,
    asked: &Asked,
    answers: &[&Answer],
    results: &Results,
) -> Result<(), Memory>
    ensures { OnOk result ((before : List Named) → AreResults before results.now.map →
        string_bytes out.new ≡ string_bytes out.old ++ join_with_byte 32
        (words_shown asked.now.show (map (λ a. a.now) answers.now) (results_of asked.now before))) }
{
    match asked.show {
        Show::Nothing => {}
        Show::Arrived => out.push_str(arrived_word(answers))?,
        Show::Sent => out.push_str("sent")?,
        Show::Received { from, tag } => {
            let received = Received::of_line(alloc, asked, results)?;
            push_received(alloc, out, from, tag, &received)?;
        }
    }
    Ok(())
}

/// Writes the line of what a line shows, if it shows anything.
fn push_shown(
    alloc: Global,
    out: &mut String,
    asked: &Asked,
    answers: &[&Answer],
    results: &Results,
) -> Result<(), Memory>
    ensures { OnOk result ((before : List Named) → AreResults before results.now.map →
        string_bytes out.new ≡ string_bytes out.old
        ++ shown_line asked.now (shown_words asked.now (map (λ a. a.now) answers.now) before)) }
{
    if let Show::Nothing = asked.show {
        return Ok(());
    }
    write!(out, "{} {} ", asked.rank, asked.line)?;
    push_words(alloc, out, asked, answers, results)?;
    out.push_str("\n")?;
    Ok(())
}

/// Writes that a rank can't go on at a line, if it can't.
fn push_waits(
    out: &mut String,
    rank: usize,
    line: u32,
    waits: Option<u64>,
) -> Result<(), AllocError>
    ensures { OnOk result (string_bytes out.new
        ≡ string_bytes out.old ++ waits_line rank (option_map (λ _. line) waits)) }
{
    match waits {
        Some(_) => write!(out, "{rank} {line} waits\n"),
        None => Ok(()),
    }
}

/// How many answers a line has.
fn answer_count(asked: &Asked) -> usize
    ensures exact { result ≡ asked.now.count }
    ensures few { result < 256 }
{
    usize::from(asked.count)
}

/// Writes the lines of a rank, by what its lines ask and the answers that it had.
fn push_rank(
    alloc: Global,
    out: &mut String,
    rank: usize,
    asked: &[Asked],
    answers: &[&Answer],
    waits: Option<u64>,
) -> Result<(), Memory>
    ensures { OnOk result (string_bytes out.new ≡ string_bytes out.old
        ++ rank_lines rank asked.now [] (map (λ a. a.now) answers.now) waits) }
{
    let mut results = Results::new(alloc);
    let mut next = 0;
    for line in asked {
        let rest = &answers[next..];
        let count = answer_count(line);
        if rest.len() < count {
            push_waits(out, rank, line.line, waits)?;
            return Ok(());
        }
        let own = &rest[..count];
        results.note_all(line.name, own)?;
        push_shown(alloc, out, line, own, &results)?;
        next += count;
    }
    Ok(())
}

/// Writes the lines of a rank, by what its lines ask and what became of it.
fn push_account(
    alloc: Global,
    out: &mut String,
    rank: usize,
    asked: &[Asked],
    account: &RankAccount,
) -> Result<(), Memory>
    ensures { OnOk result (string_bytes out.new ≡ string_bytes out.old
        ++ rank_lines rank asked.now [] (map (λ t. t.answer) (told_of_rank account.now).answers)
        account.now.waits) }
{
    let answers = answers_of(alloc, &account.history)?;
    push_rank(alloc, out, rank, asked, &answers, account.waits)
}

/// What the lines of a rank ask.
fn row(asked: &[Vec<Asked>], rank: usize) -> &[Asked]
    ensures { (all : List questions.Asked) → AreRows all asked.now →
        result.now ≡ asked_at rank all }
{
    match asked.get(rank) {
        Some(own) => own.as_slice(),
        None => &[],
    }
}

/// Writes the lines of all ranks, by what each asks.
fn push_ranks(
    alloc: Global,
    out: &mut String,
    asked: &[Vec<Asked>],
    ranks: &[RankAccount],
) -> Result<(), Memory>
    ensures { OnOk result ((all : List questions.Asked) → AreRows all asked.now →
        string_bytes out.new
        ≡ string_bytes out.old ++ ranks_lines all 0 (map told_of_rank ranks.now)) }
{
    for (rank, account) in ranks.iter().enumerate() {
        push_account(alloc, out, rank, row(asked, rank), account)?;
    }
    Ok(())
}

/// The text of a run of a plan's script, each line ended by a line feed.
///
/// Rank by rank, each `wait` and each `arrived` has the line `RANK LINE ANSWER` with the number of
/// its line in the plan. An `arrived` is `no` where the part isn't here and its request is active,
/// and else `yes`. A `wait` for a send is `sent`; one for a receive is `got FROM TAG LEN xHEX` with
/// its parts joined in order, or `cut FROM TAG LEN` where one of them was cut off. A rank that
/// can't go on has the line `RANK LINE waits`. Then come `cells TOTAL home HOME`, and `done` or
/// `stuck`.
///
/// The text depends on the plan's lines, and on what the record's ranks told, its cells and its
/// end. It answers `Memory` only for want of memory.
pub fn text(alloc: Global, plan: &Plan, run: &RunRecord) -> Result<Vec<u8>, Memory>
    ensures { IfOk result (λ text. text.items ≡ run_text plan.now.lines run.now) }
{
    let asked = asked_of(alloc, plan.ranks, plan.lines.as_slice())?;
    let mut out = String::new(alloc);
    push_ranks(alloc, &mut out, &asked, run.ranks.as_slice())?;
    push_end(&mut out, run)?;
    Ok(out.into_bytes())
}
