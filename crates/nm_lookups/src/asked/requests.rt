//! The request that each command asks for.

ghost use Rattle.std.specs.Prelude.{◌≡◌, ◌==◌, ◌&&◌, if◌then◌else◌, ℕ, OnOk, IsTrue, List};
ghost use Rattle.std.specs.Prelude.{Option, Some, None, nat_eq, option_map, slice_get, take};
ghost use Rattle.indexmap.specs.IndexMap.{get};
ghost use Rattle.nm_types.specs.Commands.{Numbered, command_at};
ghost use Rattle.nm_history.specs.declared.events.Event as event;
ghost use Rattle.nm_history.specs.declared.events.Happened.TheVariants.{Ran};
ghost use Rattle.nm_history.specs.Answers.{is_result as is_result_lem};
ghost use Rattle.nm_history.specs.Answers.{is_started as is_started_lem};
ghost use Rattle.nm_history.specs.Answers.{line_after, request_at as request_at_lem, request_of};
ghost use Rattle.nm_lookups.specs.Firsts.{is_start_at};
ghost use Rattle.nm_lookups.specs.Placed.{AreByNumber};
ghost use Rattle.nm_lookups.specs.AskedFor.{meant_by, changed};

use crate::places::ByNumber;
use indexmap::IndexMap;
use nm_history::{Event, Happened};
use nm_types::{Answer, Command, Memory};

/// A request: the send of message `n` to a rank, or the receive with a number.
#[derive(Clone, Copy)]
pub enum Request {
    Sending { to: u8, n: u64 },
    Receiving { number: u64 },
}

/// The request that an event makes.
fn request_made(what: &Happened) -> Option<Request>
    ensures { (line : ℕ) → IsTrue (is_start_at line what.now) →
        option_map meant_by result ≡ request_of line what.now }
{
    match what {
        Happened::Send { to, n, .. } => Some(Request::Sending { to: *to, n: *n }),
        Happened::Post { post, .. } => Some(Request::Receiving {
            number: post.number,
        }),
        Happened::Match { number, .. } => Some(Request::Receiving { number: *number }),
        _ => None,
    }
}

/// The request that the event at a place makes.
fn request_there(events: &[Event], place: usize) -> Option<Request>
    ensures { (line : ℕ) (e : event.Event) → slice_get events.now place ≡ Some e →
        IsTrue (is_start_at line e.what) → option_map meant_by result ≡ request_of line e.what }
{
    request_made(&events.get(place)?.what)
}

/// The request that the start of a line made before a place.
pub fn request_at(events: &[Event], places: &ByNumber, line: u64, k: usize) -> Option<Request>
    requires { AreByNumber events.now places.now }
    ensures { option_map meant_by result ≡ request_at_lem (take k events.now) line }
{
    match places.starts.get(&line) {
        Some(place) => {
            if *place < k {
                request_there(events, *place)
            } else {
                None
            }
        }
        None => None,
    }
}

/// What the answer of a command does to the line that a name stands for.
#[derive(Clone, Copy)]
pub enum Change {
    /// The name stands for this command's line from now on.
    Begins(u16),
    /// The name stands for no line any more.
    Ends(u16),
    /// All stays.
    Keeps,
}

/// Whether a start was taken.
pub fn is_started(answer: &Answer) -> bool
    ensures { result ≡ is_started_lem answer.now }
{
    matches!(answer, Answer::Started)
}

/// Whether a wait or a test ended its request.
fn is_result(answer: &Answer) -> bool
    ensures { result ≡ is_result_lem answer.now }
{
    match answer {
        Answer::Sent | Answer::Cancelled => true,
        Answer::Got { .. } | Answer::Cut { .. } => true,
        _ => false,
    }
}

/// What an answer does to the name of a command.
pub fn change_of_name(command: &Command, answer: &Answer) -> Change
    ensures { (commands : List Numbered) (line q : ℕ) (was : Option ℕ) →
        command_at commands line ≡ Some command.now →
        line_after commands q was (Ran line answer.now) ≡ changed q line was result }
{
    match command {
        Command::Send { q, .. } => begins(*q, is_started(answer)),
        Command::Recv { q, .. } => begins(*q, is_started(answer)),
        Command::Mrecv { q, .. } => begins(*q, is_started(answer)),
        Command::Wait { q } => ends(*q, is_result(answer)),
        Command::Test { q } => ends(*q, is_result(answer)),
        _ => Change::Keeps,
    }
}

/// The change that makes the name stand for this line, if it is so.
pub(crate) fn begins(q: u16, so: bool) -> Change
    ensures { (name line : ℕ) (was : Option ℕ) → changed name line was result
        ≡ (if q == name && so then Some line else was) }
{
    if so { Change::Begins(q) } else { Change::Keeps }
}

/// The change after which the name stands for no line, if it is so.
pub(crate) fn ends(q: u16, so: bool) -> Change
    ensures { (name line : ℕ) (was : Option ℕ) → changed name line was result
        ≡ (if q == name && so then None else was) }
{
    if so { Change::Ends(q) } else { Change::Keeps }
}

/// Makes a change to the lines that names stand for.
pub fn apply(lines: &mut IndexMap<u16, u64>, change: Change, line: u64) -> Result<(), Memory>
    ensures { OnOk result ((name : ℕ) → get nat_eq lines.new name
        ≡ changed name line (get nat_eq lines.old name) change) }
{
    match change {
        Change::Begins(q) => {
            lines.insert(q, line)?;
            Ok(())
        }
        Change::Ends(q) => {
            let _ = lines.swap_remove(&q);
            Ok(())
        }
        Change::Keeps => Ok(()),
    }
}
