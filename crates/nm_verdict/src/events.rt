//! The words of what happened.

ghost use Rattle.std.specs.Prelude.{◌≡◌, IfOk, option_map, string_bytes};
ghost use Rattle.nm_report.specs.Ends.{ends_of};
ghost use Rattle.nm_verdict.specs.Events as spec;

use nm_breaks::EventLine;
use nm_breaks::places::event_at;
use nm_history::{Event, Happened};
use nm_report::RankAccount;
use std::alloc::{AllocError, Global};

/// A message to a rank.
pub(crate) fn to_words(alloc: Global, to: u8, n: u64) -> Result<String, AllocError>
    ensures { IfOk result (λ text. string_bytes text ≡ spec.to_words to n) }
{
    format!(in alloc; "message {} to rank {}", n, to)
}

/// .. from a rank.
pub(crate) fn from_words(alloc: Global, from: u8, n: u64) -> Result<String, AllocError>
    ensures { IfOk result (λ text. string_bytes text ≡ spec.from_words from n) }
{
    format!(in alloc; "message {} from rank {}", n, from)
}

/// A receive.
pub(crate) fn receive_words(alloc: Global, number: u64) -> Result<String, AllocError>
    ensures { IfOk result (λ text. string_bytes text ≡ spec.receive_words number) }
{
    format!(in alloc; "receive {}", number)
}

/// The recall of a message to a rank.
fn recall_words(alloc: Global, to: u8, n: u64) -> Result<String, AllocError>
    ensures { IfOk result (λ text. string_bytes text ≡ spec.recall_words to n) }
{
    let message = to_words(alloc, to, n)?;
    format!(in alloc; "the recall of {}", message)
}

/// The message or the receive to which it happened.
fn subject_words(alloc: Global, what: &Happened) -> Result<String, AllocError>
    ensures { IfOk result (λ text. string_bytes text ≡ spec.subject_words what.now) }
{
    match what {
        Happened::Send { to, n, .. } => to_words(alloc, *to, *n),
        Happened::Post { post, .. } => receive_words(alloc, post.number),
        Happened::Arrive { a } => from_words(alloc, a.env.from, a.n),
        Happened::Whole { from, n } => from_words(alloc, *from, *n),
        Happened::Out { to, n } => to_words(alloc, *to, *n),
        Happened::Cancel { number, .. } => receive_words(alloc, *number),
        Happened::Recall { to, n } => to_words(alloc, *to, *n),
        Happened::Withdraw { from, n, .. } => from_words(alloc, *from, *n),
        Happened::Undone { to, n, .. } => recall_words(alloc, *to, *n),
        Happened::Claim { from, n, .. } => from_words(alloc, *from, *n),
        Happened::Match { number, .. } => receive_words(alloc, *number),
        Happened::Ran { .. } => format!(in alloc; "the answer"),
    }
}

/// What happened to it.
fn verb_words(what: &Happened) -> &'static str
    ensures { result.now ≡ spec.verb_words what.now }
{
    match what {
        Happened::Send { .. } => " was sent",
        Happened::Post { .. } => " was posted",
        Happened::Arrive { .. } => " came",
        Happened::Whole { .. } => " was whole",
        Happened::Out { .. } => " left",
        Happened::Cancel { .. } => " was to be cancelled",
        Happened::Recall { .. } => " was recalled",
        Happened::Withdraw { .. } => " was to be withdrawn",
        Happened::Undone { .. } => " was answered",
        Happened::Claim { .. } => " was claimed",
        Happened::Match { .. } => " took a claimed message",
        Happened::Ran { .. } => " was given",
    }
}

/// The line of its command, if it names one.
fn command_line(what: &Happened) -> Option<u64>
    ensures { result ≡ spec.command_line what.now }
{
    match what {
        Happened::Send { line, .. } => Some(*line),
        Happened::Post { line, .. } => Some(*line),
        Happened::Claim { line, .. } => Some(*line),
        Happened::Match { line, .. } => Some(*line),
        Happened::Ran { line, .. } => Some(*line),
        _ => None,
    }
}

fn command_words(alloc: Global, command: Option<u64>) -> Result<String, AllocError>
    ensures { IfOk result (λ text. string_bytes text ≡ spec.command_words command) }
{
    match command {
        Some(line) => format!(in alloc; ", of the command in line {}", line),
        None => format!(in alloc; ""),
    }
}

/// An event, if there is one: what happened, and its command.
fn happened_words(alloc: Global, event: Option<&Event>) -> Result<String, AllocError>
    ensures { IfOk result (λ text. string_bytes text
        ≡ spec.happened_words (option_map (λ e. e.now) event.entry)) }
{
    match event {
        Some(event) => {
            let what = &event.what;
            let subject = subject_words(alloc, what)?;
            let command = command_words(alloc, command_line(what))?;
            format!(in alloc; ", where {}{}{}", subject, verb_words(what), command)
        }
        None => format!(in alloc; ""),
    }
}

/// .. of these ranks.
pub(crate) fn event_words(
    alloc: Global,
    ranks: &[RankAccount],
    event: EventLine,
) -> Result<String, AllocError>
    ensures { IfOk result (λ text. string_bytes text ≡ spec.event_words (ends_of ranks.now) event) }
{
    happened_words(alloc, event_at(ranks, event.spot))
}
