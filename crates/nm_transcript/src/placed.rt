//! Events by the order of the calls that are kept of their rank.

ghost use Rattle.std.specs.Prelude.{◌≡◌, ◌++◌, ◌∷◌, [], IfOk, IfSome, length};
ghost use Rattle.nm_transcript.specs.Renumbered.{AreOf, IsOneOf, line_of as line_of_lem};

use crate::renumbered::{line_of, with_line};
use crate::stamps::number_of;
use nm_history::{Event, Happened};
use nm_types::Memory;
use std::alloc::Global;

/// The line of a call where the k-th one that is kept, from 0, has line k + 2, if it is kept. The calls that are kept
/// had these lines.
pub fn place_in(lines: &[u64], line: u64) -> Option<u64>
    ensures { IfSome result (IsOneOf (length lines.now)) }
{
    match lines.binary_search(&line) {
        Ok(place) => Some(place as u64 + 2),
        Err(_) => None,
    }
}

// What happened by the order of the calls, if the one that it names is kept.
fn placed(what: Happened, lines: &[u64]) -> Option<Happened>
    ensures { IfSome result (λ w. IfSome (line_of_lem w) (IsOneOf (length lines.now))) }
{
    match line_of(&what) {
        None => Some(what),
        Some(line) => match place_in(lines, line) {
            None => None,
            Some(place) => Some(with_line(what, place)),
        },
    }
}

// Puts an event at the end.
fn add(events: &mut Vec<Event>, event: Event) -> Result<(), Memory>
    ensures { IfOk result (λ _. events.new.items ≡ events.old.items ++ event ∷ []) }
{
    events.push(event)?;
    Ok(())
}

// Puts an event at the end, by the order of the calls.
fn put(events: &mut Vec<Event>, event: Event, lines: &[u64], stamps: &[u64]) -> Result<(), Memory>
    requires { AreOf (length lines.now) events.old.items }
    ensures { IfOk result (λ _. AreOf (length lines.now) events.new.items) }
{
    let stamp = number_of(stamps, event.stamp);
    match placed(event.what, lines) {
        Some(what) => add(events, Event { stamp, what }),
        None => Ok(()),
    }
}

/// The events of a rank, by the order of the calls that are kept, which had these lines.
pub fn place_events(
    alloc: Global,
    events: Vec<Event>,
    lines: &[u64],
    stamps: &[u64],
) -> Result<Vec<Event>, Memory>
    ensures { IfOk result (λ all. AreOf (length lines.now) all.items) }
{
    let mut all = Vec::new(alloc);
    for event in events {
        put(&mut all, event, lines, stamps)?;
    }
    Ok(all)
}
