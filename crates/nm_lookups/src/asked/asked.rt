//! What each command of a history asks for: the live request of its name and the live message of
//! its handle, before its answer.

ghost use Rattle.std.specs.Prelude.{◌≡◌, ℕ, IfOk, OnOk, List, Option, Some, [], ◌∷◌, ◌++◌};
ghost use Rattle.std.specs.Prelude.{option_and_then, option_map, slice_get, take};
ghost use Rattle.nm_types.specs.Commands.{Numbered, command_at, commands_of};
ghost use Rattle.nm_history.specs.declared.events.Event as event;
ghost use Rattle.nm_history.specs.Answers.{line_after, live as live_lem};
ghost use Rattle.nm_history.specs.declared.events.Happened.TheVariants.{Ran};
ghost use Rattle.nm_lookups.specs.Placed.{AreByNumber};
ghost use Rattle.nm_lookups.specs.AskedFor.{AreNames, IsAskedOf, asked_message, asked_request, changed};
ghost use Rattle.nm_lookups.specs.AskedFor.{meant_by, message_meant};
ghost use Rattle.nm_lookups.specs.AskedFor.{name_asked as name_asked_lem, name_of as name_of_lem};

use crate::asked::commands::command_of_line;
use crate::asked::handles::messages_asked;
use crate::asked::requests::{Change, Request, apply, change_of_name, request_at};
use crate::firsts::Message;
use crate::places::ByNumber;
use indexmap::IndexMap;
use nm_history::{Event, Happened};
use nm_types::{Answer, Command, Line, Memory};
use std::alloc::Global;

/// The name of a command's request.
fn name_of(command: &Command) -> Option<u16>
    ensures { result ≡ name_of_lem command.now }
{
    match command {
        Command::Send { q, .. } => Some(*q),
        Command::Recv { q, .. } => Some(*q),
        Command::Wait { q } => Some(*q),
        Command::Test { q } => Some(*q),
        Command::Cancel { q } => Some(*q),
        Command::Mrecv { q, .. } => Some(*q),
        _ => None,
    }
}

/// The name of the request that what happened asks for.
fn name_asked(lines: &[Line], rank: u8, what: &Happened) -> Option<u16>
    ensures { result ≡ name_asked_lem (commands_of rank lines.now) what.now }
{
    match what {
        Happened::Ran { line, .. } => name_of_line(lines, rank, *line),
        _ => None,
    }
}

/// The name of the request of a line's command.
fn name_of_line(lines: &[Line], rank: u8, line: u64) -> Option<u16>
    ensures { result ≡ option_and_then name_of_lem (command_at (commands_of rank lines.now) line) }
{
    match command_of_line(lines, rank, line) {
        Some(command) => name_of(command),
        None => None,
    }
}

/// The live request of a name before a place.
pub fn live(
    names: &IndexMap<u16, u64>,
    events: &[Event],
    places: &ByNumber,
    q: u16,
    k: usize,
) -> Option<Request>
    requires { AreByNumber events.now places.now }
    ensures { (commands : List Numbered) → AreNames commands (take k events.now) names.now →
        option_map meant_by result ≡ live_lem commands (take k events.now) q }
{
    match names.get(&q) {
        Some(line) => request_at(events, places, *line, k),
        None => None,
    }
}

/// The request that what happened at a place asks for.
fn request_asked(
    names: &IndexMap<u16, u64>,
    lines: &[Line],
    rank: u8,
    events: &[Event],
    places: &ByNumber,
    k: usize,
    what: &Happened,
) -> Option<Request>
    requires placed { AreByNumber events.now places.now }
    requires named { AreNames (commands_of rank lines.now) (take k events.now) names.now }
    ensures { option_map meant_by result
        ≡ asked_request (commands_of rank lines.now) (take k events.now) what.now }
{
    match name_asked(lines, rank, what) {
        Some(q) => live(names, events, places, q, k),
        None => None,
    }
}

/// What the answer of a line's command does to the name of its request.
fn change_of(lines: &[Line], rank: u8, line: u64, answer: &Answer) -> Change
    ensures { (q : ℕ) (was : Option ℕ) →
        line_after (commands_of rank lines.now) q was
        (Ran line answer.now) ≡ changed q line was result }
{
    match command_of_line(lines, rank, line) {
        Some(command) => change_of_name(command, answer),
        None => Change::Keeps,
    }
}

/// Notes what an event does to the lines that names stand for.
fn rename(
    names: &mut IndexMap<u16, u64>,
    lines: &[Line],
    rank: u8,
    what: &Happened,
) -> Result<(), Memory>
    ensures { OnOk result ((before : List event.Event) (stamp : ℕ) →
        AreNames (commands_of rank lines.now) before names.old →
        AreNames (commands_of rank lines.now) (before ++ record {
          stamp = stamp;
          what = what.now;
        } ∷ [])
        names.new) }
{
    match what {
        Happened::Ran { line, answer } => {
            apply(names, change_of(lines, rank, *line, answer), *line)?;
            Ok(())
        }
        _ => Ok(()),
    }
}

/// What the commands of a history ask for.
pub struct Asked {
    /// The request that each command asks for, by the place of its answer.
    pub requests: Vec<Option<Request>>,
    /// The message of each command's handle, by the place of its answer.
    pub messages: Vec<Option<Message>>,
    /// The lines of the starts that names stand for at the end.
    pub names: IndexMap<u16, u64>,
}

impl Drop for Asked {
    fn drop(self) {
        let Asked {
            requests: _,
            messages: _,
            names: _,
        } = self;
    }
}

impl Asked {
    /// What the commands of a rank ask for in its history, whose places are given.
    pub fn of(
        alloc: Global,
        lines: &[Line],
        rank: u8,
        events: &[Event],
        places: &ByNumber,
    ) -> Result<Asked, Memory>
        requires { AreByNumber events.now places.now }
        ensures { IfOk result (IsAskedOf (commands_of rank lines.now) events.now) }
    {
        let mut names = IndexMap::new(alloc);
        let mut requests = Vec::new(alloc);
        for (k, e) in events.iter().enumerate() {
            requests.push(request_asked(&names, lines, rank, events, places, k, &e.what))?;
            rename(&mut names, lines, rank, &e.what)?;
        }
        let messages = messages_asked(alloc, lines, rank, events, places)?;
        Ok(Asked {
            requests,
            messages,
            names,
        })
    }

    /// The request that the event at a place asks for.
    pub fn request(&self, k: usize) -> Option<Request>
        ensures { (commands : List Numbered) (h : List event.Event) (e : event.Event) →
            IsAskedOf commands h self.now → slice_get h k ≡ Some e →
            option_map meant_by result ≡ asked_request commands (take k h) e.what }
    {
        match self.requests.get(k) {
            Some(request) => *request,
            None => None,
        }
    }

    /// The message that the event at a place asks for.
    pub fn message(&self, k: usize) -> Option<Message>
        ensures { (commands : List Numbered) (h : List event.Event) (e : event.Event) →
            IsAskedOf commands h self.now → slice_get h k ≡ Some e →
            option_map message_meant result ≡ asked_message commands (take k h) e.what }
    {
        match self.messages.get(k) {
            Some(message) => *message,
            None => None,
        }
    }
}
