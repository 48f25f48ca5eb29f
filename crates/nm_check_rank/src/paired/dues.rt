//! What is called for where a rank breaks a rule of its own run.

ghost use Rattle.std.specs.Prelude.{◌≡◌, ◌<◌, List, MatchOption, Some, length, option_and_then};
ghost use Rattle.std.specs.Prelude.{option_map, slice_get, take};
ghost use Rattle.nm_types.specs.Commands.{Numbered, command_at};
ghost use Rattle.nm_types.specs.declared.answers.Answer as given_answer;
ghost use Rattle.nm_history.specs.declared.events.Event as event;
ghost use Rattle.nm_history.specs.declared.events.Happened.TheVariants.{Ran};
ghost use Rattle.nm_history.specs.Answers.{answer_of};
ghost use Rattle.nm_history.specs.RankRun.{ran_lines};
ghost use Rattle.nm_lookups.specs.Deciding.{Decides};
ghost use Rattle.nm_check_rank.specs.Dues as spec;
ghost use Rattle.nm_check_rank.specs.Dues.{IsDue, IsDueAt, next_line as next_line_lem};
ghost use Rattle.nm_check_rank.specs.OwnBreaks.{NextAt};
ghost use Rattle.nm_check_rank.specs.Runs.{IsRun, commands_in};
ghost use Rattle.nm_check_rank.specs.Told.{untold};
ghost use Rattle.nm_check_rank.specs.declared.paired.dues.Due.TheVariants.{Against, Stamp};

use crate::numbers::counted;
use crate::paired::answers::{answer_told, is_answer_told};
use crate::paired::arguments::Mismatch;
use crate::paired::manies::Many;
use crate::paired::objections::Objection;
use crate::paired::runs::Run;
use crate::paired::told::{Told, told_of};
use nm_history::{Event, Happened};
use nm_lookups::asked::commands::command_of_line;
use nm_lookups::asked::requests::Request;
use nm_lookups::firsts::Message;
use nm_types::{Answer, Shape};

/// What is called for at an event.
#[derive(Clone, Copy)]
pub enum Due {
    /// The command is out of turn: the rank's next one stands in this line, or none is left.
    Command {
        next: Option<u64>,
    },
    /// The command is the next one. It has this answer, or can't go on, and this one was found.
    Answer {
        called: Option<Told>,
        found: Told,
    },
    /// The stamp is to be greater than this one, and this one was found.
    Stamp {
        last: u64,
        found: u64,
    },
    /// The number is to be this one, and this one was found.
    Number {
        called: u64,
        found: u64,
    },
    /// The message is to be of one of so many ranks, and this one was found.
    Rank {
        ranks: u8,
        found: u8,
    },
    /// By this eager limit a send of so many bytes is to ask, and does not, or the other way round.
    Eager {
        limit: u16,
        len: u64,
        asks: bool,
    },
    /// This stands against the event.
    Against {
        objection: Objection,
    },
    /// Since the answer before so many events of the rule are called for, and so many were found.
    Many {
        called: Many,
        found: Many,
    },
    /// This message is to be claimed, if one is, and this one was.
    Claim {
        called: Option<Message>,
        found: Message,
    },
    /// The claim is to name this line, and names this one.
    Named {
        called: u64,
        found: u64,
    },
    /// The start or the arrival is to have this argument, and has this one.
    Argument {
        mismatch: Mismatch,
    },
    /// The cancel is to be of this request, and is of this one.
    Of {
        called: Request,
        found: Request,
    },
    /// The byte at this place of the body is to be this one, if one is to be there, and is this one, if
    /// one is.
    Byte {
        at: u64,
        called: Option<u8>,
        found: Option<u8>,
    },
}

/// The answer that the command of a line has by the events before a place, where it ran.
fn answer_called(run: &Run, k: usize, line: u64) -> Option<Told>
    requires { IsRun run.now }
    ensures { (e : event.Event) (answer : given_answer.Answer) →
        slice_get run.now.events.now k ≡ Some e → e.what ≡ Ran line answer →
        option_map untold result ≡ option_and_then
        (λ c. answer_of (commands_in run.now) (take k run.now.events.now) line c)
        (command_at (commands_in run.now) line) }
{
    match command_of_line(run.lines, run.rank, line) {
        Some(command) => answer_told(run, command, k, line),
        None => None,
    }
}

/// Whether the next command is in this line.
fn is_next(next: Option<u64>, line: u64) -> bool
    ensures { Decides result (next ≡ Some line) }
{
    match next {
        Some(next) => next == line,
        None => false,
    }
}

/// What stands against the answer to the command of a line: another one is next, or it has another
/// answer.
fn line_due(called: Option<Told>, next: Option<u64>, line: u64, answer: &Answer) -> Option<Due>
    ensures { (commands : List Numbered) (before : List event.Event) →
        next ≡ next_line_lem commands before →
        option_map untold called
        ≡ option_and_then (λ c. answer_of commands before line c) (command_at commands line) →
        MatchOption result (NextAt commands before (Ran line answer.now))
        (λ due. (¬ NextAt commands before (Ran line answer.now))
        × IsDue commands before line answer.now due) }
{
    if !is_next(next, line) {
        return Some(Due::Command { next });
    }
    if is_answer_told(called, answer) {
        return None;
    }
    let found = told_of(answer);
    Some(Due::Answer { called, found })
}

/// The line of the next command, behind so many that ran.
fn next_line(own: &[u64], ran: usize) -> Option<u64>
    ensures { result ≡ slice_get own.now ran }
{
    own.get(ran).copied()
}

/// What stands against an event by the rule on answers, where so many commands ran before.
pub(crate) fn answer_due(run: &Run, ran: usize, k: usize, e: &Event) -> Option<Due>
    requires run { IsRun run.now }
    requires ran { ran ≡ length (ran_lines (take k run.now.events.now)) }
    requires here { slice_get run.now.events.now k ≡ Some e.now }
    ensures { MatchOption result
        (NextAt (commands_in run.now) (take k run.now.events.now) e.now.what)
        (λ due. (¬ NextAt (commands_in run.now) (take k run.now.events.now) e.now.what)
        × IsDueAt (commands_in run.now) (take k run.now.events.now) e.now.what (Some due)) }
{
    match &e.what {
        Happened::Ran { line, answer } => {
            let called = answer_called(run, k, *line);
            let next = next_line(run.own, ran);
            line_due(called, next, *line, answer)
        }
        _ => None,
    }
}

/// What stands against a stamp: the one before is not less.
pub(crate) fn stamp_due(last: u64, found: u64) -> Option<Due>
    ensures { MatchOption result (last < found)
        (λ due. (¬ (last < found)) × (Some due ≡ Some (Stamp last found))) }
{
    if last < found {
        None
    } else {
        Some(Due::Stamp { last, found })
    }
}

/// The number of a send, a receive or an arrival.
fn number_of(what: &Happened) -> Option<u64>
    ensures { result ≡ spec.number_of what.now }
{
    match what {
        Happened::Send { n, .. } => Some(*n),
        Happened::Post { post, .. } => Some(post.number),
        Happened::Match { number, .. } => Some(*number),
        Happened::Arrive { a } => Some(a.n),
        _ => None,
    }
}

/// The sender of an arrival that is none of so many ranks.
fn stranger(ranks: u8, what: &Happened) -> Option<u8>
    ensures { result ≡ spec.stranger ranks what.now }
{
    match what {
        Happened::Arrive { a } => {
            if a.env.from < ranks {
                None
            } else {
                Some(a.env.from)
            }
        }
        _ => None,
    }
}

/// The next number, and the one that there is.
fn numbers_due(called: Option<u64>, found: Option<u64>) -> Option<Due>
    ensures { result ≡ spec.numbers_due called found }
{
    let called = called?;
    match found {
        Some(found) => Some(Due::Number { called, found }),
        None => None,
    }
}

/// A rank that there isn't, or the number.
fn rank_or_number(ranks: u8, found: Option<u8>, numbers: Option<Due>) -> Option<Due>
    ensures { result ≡ spec.number_due ranks found numbers }
{
    match found {
        Some(found) => Some(Due::Rank { ranks, found }),
        None => numbers,
    }
}

/// What the rule on numbers calls for at an event behind others.
pub(crate) fn number_due(shape: Shape, before: &[Event], what: &Happened) -> Option<Due>
    ensures { result ≡ spec.number_due shape.ranks (spec.stranger shape.ranks what.now)
        (spec.numbers_due (spec.next_number before.now what.now) (spec.number_of what.now)) }
{
    let ranks = shape.ranks();
    let counts = counted(before);
    let numbers = numbers_due(counts.next_number(what), number_of(what));
    rank_or_number(ranks, stranger(ranks, what), numbers)
}

/// What stands against an event, if something does.
pub(crate) fn against(objection: Option<Objection>) -> Option<Due>
    ensures { result ≡ option_map Against objection }
{
    match objection {
        Some(objection) => Some(Due::Against { objection }),
        None => None,
    }
}
