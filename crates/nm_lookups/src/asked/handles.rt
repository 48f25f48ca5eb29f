//! The message that each handle stands for.

ghost use Rattle.std.specs.Prelude.{◌≡◌, ℕ, IfOk, OnOk, IsTrue, List, Option, Some, [], ◌∷◌, ◌++◌};
ghost use Rattle.std.specs.Prelude.{option_and_then, option_map, slice_get, take};
ghost use Rattle.nm_types.specs.Commands.{Numbered, command_at, commands_of};
ghost use Rattle.nm_history.specs.declared.events.Event as event;
ghost use Rattle.nm_history.specs.declared.events.Happened.TheVariants.{Ran};
ghost use Rattle.nm_history.specs.Answers.{claim_at as claim_at_lem, claim_line_after};
ghost use Rattle.nm_history.specs.Answers.{is_seen as is_seen_lem, message_claimed};
ghost use Rattle.nm_history.specs.Answers.{live_message as live_message_lem};
ghost use Rattle.nm_lookups.specs.Firsts.{is_claim_at};
ghost use Rattle.nm_lookups.specs.Placed.{AreByNumber};
ghost use Rattle.nm_lookups.specs.AskedFor.{AreHandles, AreMessages, asked_message, changed};
ghost use Rattle.nm_lookups.specs.AskedFor.{handle_asked as handle_asked_lem};
ghost use Rattle.nm_lookups.specs.AskedFor.{handle_of as handle_of_lem};
ghost use Rattle.nm_lookups.specs.AskedFor.{message_meant};

use crate::asked::commands::command_of_line;
use crate::asked::requests::{Change, apply, begins, ends, is_started};
use crate::firsts::Message;
use crate::places::ByNumber;
use indexmap::IndexMap;
use nm_history::{Event, Happened};
use nm_types::{Answer, Command, Line, Memory};
use std::alloc::Global;

/// Whether a probe found a message.
pub fn is_seen(answer: &Answer) -> bool
    ensures { result ≡ is_seen_lem answer.now }
{
    matches!(answer, Answer::Seen(_))
}

/// The message that an event claims.
fn message_taken(what: &Happened) -> Option<Message>
    ensures { (line : ℕ) → IsTrue (is_claim_at line what.now) →
        option_map message_meant result ≡ message_claimed line what.now }
{
    match what {
        Happened::Claim { from, n, .. } => Some(Message { rank: *from, n: *n }),
        _ => None,
    }
}

/// The message that the event at a place claims.
fn message_there(events: &[Event], place: usize) -> Option<Message>
    ensures { (line : ℕ) (e : event.Event) → slice_get events.now place ≡ Some e →
        IsTrue (is_claim_at line e.what) →
        option_map message_meant result ≡ message_claimed line e.what }
{
    message_taken(&events.get(place)?.what)
}

/// The message that the command of a line claimed before a place.
pub fn claim_at(events: &[Event], places: &ByNumber, line: u64, k: usize) -> Option<Message>
    requires { AreByNumber events.now places.now }
    ensures { option_map message_meant result ≡ claim_at_lem (take k events.now) line }
{
    match places.claims.get(&line) {
        Some(place) => {
            if *place < k {
                message_there(events, *place)
            } else {
                None
            }
        }
        None => None,
    }
}

/// The handle of a command's message.
fn handle_of(command: &Command) -> Option<u16>
    ensures { result ≡ handle_of_lem command.now }
{
    match command {
        Command::Mprobe { m, .. } => Some(*m),
        Command::Mrecv { m, .. } => Some(*m),
        _ => None,
    }
}

/// The handle of a line's command.
fn handle_of_line(lines: &[Line], rank: u8, line: u64) -> Option<u16>
    ensures { result
        ≡ option_and_then handle_of_lem (command_at (commands_of rank lines.now) line) }
{
    match command_of_line(lines, rank, line) {
        Some(command) => handle_of(command),
        None => None,
    }
}

/// The handle of the message that what happened asks for.
fn handle_asked(lines: &[Line], rank: u8, what: &Happened) -> Option<u16>
    ensures { result ≡ handle_asked_lem (commands_of rank lines.now) what.now }
{
    match what {
        Happened::Ran { line, .. } => handle_of_line(lines, rank, *line),
        _ => None,
    }
}

/// The live message of a handle before a place.
fn live_message(
    handles: &IndexMap<u16, u64>,
    events: &[Event],
    places: &ByNumber,
    m: u16,
    k: usize,
) -> Option<Message>
    requires { AreByNumber events.now places.now }
    ensures { (commands : List Numbered) → AreHandles commands (take k events.now) handles.now →
        option_map message_meant result ≡ live_message_lem commands (take k events.now) m }
{
    match handles.get(&m) {
        Some(line) => claim_at(events, places, *line, k),
        None => None,
    }
}

/// The message that what happened at a place asks for.
fn message_asked(
    handles: &IndexMap<u16, u64>,
    lines: &[Line],
    rank: u8,
    events: &[Event],
    places: &ByNumber,
    k: usize,
    what: &Happened,
) -> Option<Message>
    requires placed { AreByNumber events.now places.now }
    requires held { AreHandles (commands_of rank lines.now) (take k events.now) handles.now }
    ensures { option_map message_meant result
        ≡ asked_message (commands_of rank lines.now) (take k events.now) what.now }
{
    match handle_asked(lines, rank, what) {
        Some(m) => live_message(handles, events, places, m, k),
        None => None,
    }
}

/// What an answer does to the handle of a command.
fn change_of_handle(command: &Command, answer: &Answer) -> Change
    ensures { (commands : List Numbered) (line m : ℕ) (was : Option ℕ) →
        command_at commands line ≡ Some command.now →
        claim_line_after commands m was (Ran line answer.now) ≡ changed m line was result }
{
    match command {
        Command::Mprobe { m, .. } => begins(*m, is_seen(answer)),
        Command::Mrecv { m, .. } => ends(*m, is_started(answer)),
        _ => Change::Keeps,
    }
}

/// What the answer of a line's command does to the handle of its message.
fn change_of(lines: &[Line], rank: u8, line: u64, answer: &Answer) -> Change
    ensures { (m : ℕ) (was : Option ℕ) →
        claim_line_after (commands_of rank lines.now) m was (Ran line answer.now)
        ≡ changed m line was result }
{
    match command_of_line(lines, rank, line) {
        Some(command) => change_of_handle(command, answer),
        None => Change::Keeps,
    }
}

/// Notes what an event does to the lines that handles stand for.
fn hand_on(
    handles: &mut IndexMap<u16, u64>,
    lines: &[Line],
    rank: u8,
    what: &Happened,
) -> Result<(), Memory>
    ensures { OnOk result ((before : List event.Event) (stamp : ℕ) →
        AreHandles (commands_of rank lines.now) before handles.old →
        AreHandles (commands_of rank lines.now)
        (before ++ record { stamp = stamp; what = what.now } ∷ []) handles.new) }
{
    match what {
        Happened::Ran { line, answer } => {
            apply(handles, change_of(lines, rank, *line, answer), *line)?;
            Ok(())
        }
        _ => Ok(()),
    }
}

/// The message that each command asks for, by the place of its answer.
pub(crate) fn messages_asked(
    alloc: Global,
    lines: &[Line],
    rank: u8,
    events: &[Event],
    places: &ByNumber,
) -> Result<Vec<Option<Message>>, Memory>
    requires { AreByNumber events.now places.now }
    ensures { IfOk result (λ asked.
        AreMessages (commands_of rank lines.now) events.now asked.items) }
{
    let mut handles = IndexMap::new(alloc);
    let mut asked = Vec::new(alloc);
    for (k, e) in events.iter().enumerate() {
        asked.push(message_asked(&handles, lines, rank, events, places, k, &e.what))?;
        hand_on(&mut handles, lines, rank, &e.what)?;
    }
    Ok(asked)
}
