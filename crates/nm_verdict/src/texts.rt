//! What is said of what was found: the line and its bytes, what stands against it, and the rule.

ghost use Rattle.std.specs.Prelude.{◌≡◌, ◌++◌, if◌then◌else◌, IfOk, OnOk, codes, string_bytes};
ghost use Rattle.nm_report.specs.Ends.{ends_of};
ghost use Rattle.nm_verdict.specs.Sentences.{left_words as left_words_lem};
ghost use Rattle.nm_verdict.specs.Counts.{counts_words as counts_words_lem};
ghost use Rattle.nm_verdict.specs.Events.{event_words as event_words_lem};
ghost use Rattle.nm_verdict.specs.Texts as spec;
ghost use Rattle.nm_verdict.specs.Texts.{quote_words};

use crate::dues::{counts_words, due_words, some_words};
use crate::events::event_words;
use crate::quotes::{Quotes, event_line, place_line};
use crate::sentences::{carried_words, kind_words, left_words, own_words, rest_words, stop_words};
use nm_breaks::cells::CellCount;
use nm_breaks::counts::Miscount;
use nm_breaks::{EventLine, Found, Judgement, Stop};
use nm_check::rest::firsts::EventRule;
use nm_check::rest::resting::clause_of_rule;
use nm_check::rest::waits::Next;
use nm_check::{CarriedClause, OwnClause, RestClause};
use nm_check_rank::paired::dues::Due;
use nm_report::RankAccount;
use nm_types::Bytes;
use std::alloc::{AllocError, Global};

/// The number of a line of the whole input, and of the line behind `---`.
fn line_words(alloc: Global, before: u32, line: u32) -> Result<String, AllocError>
    ensures { IfOk result (λ text. string_bytes text ≡ spec.line_words before line) }
{
    let whole = u64::from(before) + 1 + u64::from(line);
    format!(in alloc; "line {} (line {} behind ---)", whole, line)
}

/// The line that a place tells, if it tells one.
fn place_words(alloc: Global, before: u32, line: Option<u32>) -> Result<String, AllocError>
    ensures { IfOk result (λ text. string_bytes text ≡ spec.place_words before line) }
{
    match line {
        Some(line) => line_words(alloc, before, line),
        None => format!(in alloc; ""),
    }
}

/// What stands against the event at which a rank breaks a rule of its own run first, if it is one.
fn own_against(
    alloc: Global,
    ranks: &[RankAccount],
    event: Option<EventLine>,
    due: Option<Due>,
) -> Result<String, AllocError>
    ensures { IfOk result (λ text.
        string_bytes text ≡ spec.own_against (ends_of ranks.now) event due) }
{
    match event {
        Some(event) => {
            let event = event_words(alloc, ranks, event)?;
            let due = due_words(alloc, due)?;
            format!(in alloc; "{}: {}", event, due)
        }
        None => format!(in alloc; ""),
    }
}

/// The rule that it breaks.
fn own_text(
    alloc: Global,
    rule: OwnClause,
    rank: u8,
    event: Option<EventLine>,
) -> Result<String, AllocError>
    ensures { IfOk result (λ text. string_bytes text ≡ spec.own_text rule rank event) }
{
    let words = own_words(rule);
    match event {
        Some(_) => format!(in alloc;
            "\nIt is the first event at which rank {} breaks a rule: {}\n",
            rank, words
        ),
        None => format!(in alloc; "in the end of rank {} a rule breaks: {}\n", rank, words),
    }
}

/// What stands between an event and the one that it is held against, if something does.
fn between_words(alloc: Global, against: Option<Due>) -> Result<String, AllocError>
    ensures { IfOk result (λ text. string_bytes text ≡ spec.between_words against) }
{
    match against {
        Some(due) => {
            let due = some_words(alloc, due)?;
            format!(in alloc; "{}; ", due)
        }
        None => format!(in alloc; ""),
    }
}

/// The line of the other rank that an event is held against.
fn other_words(alloc: Global, before: u32, other: Option<u32>) -> Result<String, AllocError>
    ensures { IfOk result (λ text. string_bytes text ≡ spec.other_words before other) }
{
    match other {
        Some(line) => {
            let at = line_words(alloc, before, line)?;
            format!(in alloc; "it is held against {}", at)
        }
        None => format!(in alloc; "the other rank has no event that it is held against"),
    }
}

/// What stands against the event at which the messages from one rank to another break a rule first.
fn carried_against(
    alloc: Global,
    before: u32,
    ranks: &[RankAccount],
    event: EventLine,
    other: Option<EventLine>,
    against: Option<Due>,
) -> Result<String, AllocError>
    ensures { IfOk result (λ text. string_bytes text
        ≡ spec.carried_against before (ends_of ranks.now) event other against) }
{
    let event = event_words(alloc, ranks, event)?;
    let between = between_words(alloc, against)?;
    let other = other_words(alloc, before, event_line(other))?;
    format!(in alloc; "{}: {}{}", event, between, other)
}

/// A sender and a receiver.
fn pair_words(alloc: Global, from: u8, to: u8) -> Result<String, AllocError>
    ensures { IfOk result (λ text. string_bytes text ≡ spec.pair_words from to) }
{
    format!(in alloc; "rank {} to rank {}", from, to)
}

/// The rule that the messages from one rank to another break, in these words.
fn carried_text(alloc: Global, words: &str, from: u8, to: u8) -> Result<String, AllocError>
    ensures { IfOk result (λ text. string_bytes text ≡ spec.carried_text words.now from to) }
{
    let ranks = pair_words(alloc, from, to)?;
    format!(in alloc;
        "\nIt is the first event at which the messages from {} break a rule: {}\n",
        ranks, words
    )
}

/// What a rank is said to do in the end.
fn standing_words(alloc: Global, waits: Option<u64>) -> Result<String, AllocError>
    ensures { IfOk result (λ text. string_bytes text ≡ spec.standing_words waits) }
{
    match waits {
        Some(line) => format!(in alloc; "said to wait at the command in line {}", line),
        None => format!(in alloc; "said to be at its end"),
    }
}

fn ability_words(goes_on: bool) -> &'static str
    ensures { result.now ≡ (if goes_on then codes ", and can go on" else codes ", and can't go on") }
{
    if goes_on {
        ", and can go on"
    } else {
        ", and can't go on"
    }
}

/// The next command of a rank.
fn next_words(alloc: Global, next: Next) -> Result<String, AllocError>
    ensures { IfOk result (λ text. string_bytes text ≡ spec.next_words next) }
{
    match next {
        Next::Nothing => format!(in alloc; "no command of it is left"),
        Next::Command { line, goes_on } => {
            format!(in alloc;
                "its next command is in line {}{}",
                line,
                ability_words(goes_on)
            )
        }
    }
}

/// What stands against a rank that stands where it may not.
fn stand_against(
    alloc: Global,
    rank: u8,
    waits: Option<u64>,
    next: Next,
) -> Result<String, AllocError>
    ensures { IfOk result (λ text. string_bytes text ≡ spec.stand_against rank waits next) }
{
    let says = standing_words(alloc, waits)?;
    let next = next_words(alloc, next)?;
    format!(in alloc; "rank {} is {}: {}", rank, says, next)
}

/// What stands against an event that is left unfinished in the end.
fn left_against(
    alloc: Global,
    ranks: &[RankAccount],
    rule: EventRule,
    event: EventLine,
) -> Result<String, AllocError>
    ensures { IfOk result (λ text. string_bytes text
        ≡ event_words_lem (ends_of ranks.now) event ++ (codes ": " ++ left_words_lem rule)) }
{
    let event = event_words(alloc, ranks, event)?;
    format!(in alloc; "{}: {}", event, left_words(rule))
}

/// What stands against a count of packets.
fn count_against(alloc: Global, miscount: Miscount) -> Result<String, AllocError>
    ensures { IfOk result (λ text. string_bytes text
        ≡ codes ": " ++ counts_words_lem miscount.called miscount.found) }
{
    let counts = counts_words(alloc, miscount.called, miscount.found)?;
    format!(in alloc; ": {}", counts)
}

/// A rule of all ranks at rest that breaks, behind these words.
fn rest_text(alloc: Global, start: &str, clause: RestClause) -> Result<String, AllocError>
    ensures { IfOk result (λ text. string_bytes text ≡ spec.rest_text start.now clause) }
{
    format!(in alloc;
        "{} breaks a rule of all ranks in the end: {}\n",
        start,
        rest_words(clause)
    )
}

/// What is said before a rule of rest, of an event that is left unfinished.
const LEFT: &str = "\nIt is the first event that";

/// .. of a rank that stands where it may not.
const STANDING: &str = "\nIt is the first rank that";

/// .. of a count of packets.
const COUNTED: &str = "\nIt is the first count that";

/// The rule of the cells.
const HOME: &str = "as many cells as all ranks have by --cells are there, and all of them are home";

/// The rule of the end.
const DONE: &str = "it is `done` exactly where every rank is at its end, and else `stuck`";

/// One of the last two lines breaks its rule.
fn last_text(alloc: Global, rule: &str) -> Result<String, AllocError>
    ensures { IfOk result (λ text. string_bytes text ≡ spec.last_text rule.now) }
{
    format!(in alloc; "\nIt breaks a rule: {}\n", rule)
}

/// How many cells there are to be, and are; or how many of them are home.
fn count_words(alloc: Global, cells: CellCount) -> Result<String, AllocError>
    ensures { IfOk result (λ text. string_bytes text ≡ spec.count_words cells) }
{
    if cells.total == cells.called {
        format!(in alloc; ": {} of {} are home", cells.home, cells.total)
    } else {
        format!(in alloc;
            ": --cells does not fit: it calls for {} cells, and there are {}",
            cells.called, cells.total
        )
    }
}

/// What stands against the place of a judgement.
fn against_text(
    alloc: Global,
    before: u32,
    ranks: &[RankAccount],
    judgement: Judgement,
) -> Result<String, AllocError>
    ensures { IfOk result (λ text. string_bytes text
        ≡ spec.against_text before (ends_of ranks.now) judgement) }
{
    match judgement {
        Judgement::Holds => format!(in alloc; ""),
        Judgement::Own { first, event, .. } => own_against(alloc, ranks, event, first.due),
        Judgement::Carried {
            event,
            other,
            against,
            ..
        } => carried_against(alloc, before, ranks, event, other, against),
        Judgement::Left { rule, event } => left_against(alloc, ranks, rule, event),
        Judgement::Standing { rank, waits, next } => stand_against(alloc, rank, waits, next),
        Judgement::Counted { miscount, .. } => count_against(alloc, miscount),
        Judgement::Home { cells, .. } => count_words(alloc, cells),
        Judgement::Done { .. } => format!(in alloc; ": it is to be the other word"),
    }
}

/// The rule of a judgement.
fn rule_text(alloc: Global, judgement: Judgement) -> Result<String, AllocError>
    ensures { IfOk result (λ text. string_bytes text ≡ spec.rule_text judgement) }
{
    match judgement {
        Judgement::Holds => format!(in alloc; "holds\n"),
        Judgement::Own {
            rank,
            first,
            event,
            ..
        } => own_text(alloc, first.clause, rank, event),
        Judgement::Carried {
            clause,
            from,
            to,
            ..
        } => carried_text(alloc, carried_words(clause), from, to),
        Judgement::Left { rule, .. } => rest_text(alloc, LEFT, clause_of_rule(rule)),
        Judgement::Standing { .. } => rest_text(alloc, STANDING, RestClause::Waits),
        Judgement::Counted { .. } => rest_text(alloc, COUNTED, RestClause::Counts),
        Judgement::Home { .. } => last_text(alloc, HOME),
        Judgement::Done { .. } => last_text(alloc, DONE),
    }
}

/// The sentence of a trace that is none, behind so many lines.
fn bad_text(alloc: Global, before: u32, line: u32, stop: Stop) -> Result<String, AllocError>
    ensures { IfOk result (λ text. string_bytes text ≡ spec.bad_text before line stop) }
{
    let at = line_words(alloc, before, line)?;
    format!(in alloc; "{}: {}\n", at, stop_words(stop))
}

/// The line of a trace that is told, if one is.
fn head_words(alloc: Global, found: &Found) -> Result<String, AllocError>
    ensures { IfOk result (λ text. string_bytes text ≡ spec.head_words found.now) }
{
    match found {
        Found::Judged {
            before,
            judgement,
            ..
        } => place_words(alloc, *before, place_line(*judgement)),
        Found::NoTrace => format!(in alloc; ""),
        Found::NoScript { .. } => format!(in alloc; ""),
        Found::BadTrace { .. } => format!(in alloc; ""),
    }
}

/// .. what is said behind its bytes.
fn found_against(alloc: Global, found: &Found) -> Result<String, AllocError>
    ensures { IfOk result (λ text. string_bytes text ≡ spec.found_against found.now) }
{
    match found {
        Found::Judged {
            before,
            judgement,
            run,
        } => against_text(alloc, *before, run.ranks.as_slice(), *judgement),
        Found::NoTrace => format!(in alloc; ""),
        Found::NoScript { .. } => format!(in alloc; ""),
        Found::BadTrace { .. } => format!(in alloc; ""),
    }
}

/// .. and at the end.
fn tail_text(alloc: Global, found: &Found) -> Result<String, AllocError>
    ensures { IfOk result (λ text. string_bytes text ≡ spec.tail_text found.now) }
{
    match found {
        Found::NoTrace => format!(in alloc;
            "there is no trace: the input has no line ---, or more than 67,108,864 bytes\n"
        ),
        Found::NoScript { line, kind } => {
            format!(in alloc; "line {} is no script: {}\n", *line, kind_words(*kind))
        }
        Found::BadTrace { before, line, stop } => bad_text(alloc, *before, *line, *stop),
        Found::Judged { judgement, .. } => rule_text(alloc, *judgement),
    }
}

/// Puts the bytes of a line behind a text, if they are told.
fn push_quote(text: &mut Vec<u8>, quote: &Option<Bytes>) -> Result<(), AllocError>
    ensures { OnOk result (text.new.items ≡ text.old.items ++ quote_words quote.now) }
{
    match quote {
        Some(bytes) => {
            text.extend_from_slice(b", `".as_slice())?;
            text.extend_from_slice(bytes.as_slice())?;
            text.push(b'`')?;
            Ok(())
        }
        None => Ok(()),
    }
}

/// What is said of what was found, with the bytes of the line that is told and of the one that it is
/// held against.
pub fn found_text(alloc: Global, found: &Found, quotes: &Quotes) -> Result<Vec<u8>, AllocError>
    ensures { IfOk result (λ bytes. bytes.items ≡ spec.found_text found.now quotes.now) }
{
    let head = head_words(alloc, found)?;
    let against = found_against(alloc, found)?;
    let tail = tail_text(alloc, found)?;
    let mut text = head.into_bytes();
    push_quote(&mut text, &quotes.line)?;
    text.extend_from_slice(against.as_bytes())?;
    push_quote(&mut text, &quotes.other)?;
    text.extend_from_slice(tail.as_bytes())?;
    Ok(text)
}
