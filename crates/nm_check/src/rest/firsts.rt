//! The first event at which a rule of rest breaks.

ghost use Rattle.std.specs.Prelude.{◌≡◌, ◌<◌, ℕ, List, MatchOption, length};
ghost use Rattle.nm_types.specs.declared.scripts.Line as script_line;
ghost use Rattle.nm_history.specs.declared.events.Event as event;
ghost use Rattle.nm_history.specs.Quiescence.{Packets};
ghost use Rattle.nm_report.specs.Ends.{ends_of};
ghost use Rattle.nm_lookups.specs.Deciding.{Decides};
ghost use Rattle.nm_lookups.specs.Placed.{ArePlaces};
ghost use Rattle.nm_check_rank.specs.Breaks.{BreaksFirstAt};
ghost use Rattle.nm_check.specs.Marked.{AreLooked};
ghost use Rattle.nm_check.specs.Tabled.{EachTabled};
ghost use Rattle.nm_check.specs.RestBreaks.{AreInOrder, BreaksRestAt, KeepRestAt};
ghost use Rattle.nm_check.specs.RestBreaks.{RestAt, rest_clause};
ghost use Rattle.nm_check.specs.RestClauses.{KeepsRest};

use crate::firsts::Spot;
use crate::looked::Looked;
use crate::rest::over::{is_answered, keeps_send};
use nm_history::{Event, Happened};
use nm_lookups::places::Places;

/// A rule of rest that is asked of each event.
#[derive(Clone, Copy)]
pub enum EventRule {
    /// Of each send: its message has come.
    Arrived,
    /// Of each eager send: it has left and is whole.
    Eager,
    /// Of each send by asking: where a receive took it, it has left and is whole, and where it is
    /// claimed alone, it has done neither.
    Asked,
    /// Of each recall: it is answered.
    Recalls,
}

/// Whether what happened at rank i, which has so many events, keeps the rule.
fn keeps_rule(
    rule: EventRule,
    i: u8,
    end: usize,
    what: &Happened,
    own: &Places,
    of: &Looked,
) -> bool
    requires { AreLooked of.now.lines.now (ends_of of.now.ranks.now) of.now.tables.now }
    ensures { (stamp : ℕ) (h : List event.Event) → ArePlaces h own.now → length h ≡ end →
        Decides result (RestAt rule (ends_of of.now.ranks.now) i h stamp what.now) }
{
    match rule {
        EventRule::Arrived => keeps_send(EventRule::Arrived, i, what, own, of),
        EventRule::Eager => keeps_send(EventRule::Eager, i, what, own, of),
        EventRule::Asked => keeps_send(EventRule::Asked, i, what, own, of),
        EventRule::Recalls => is_answered(own, end, what),
    }
}

/// The first event of rank i that breaks the rule.
fn first_of_rank(
    rule: EventRule,
    i: u8,
    events: &[Event],
    own: &Places,
    of: &Looked,
) -> Option<usize>
    requires places { ArePlaces events.now own.now }
    requires looked { AreLooked of.now.lines.now (ends_of of.now.ranks.now) of.now.tables.now }
    ensures { MatchOption result
        (KeepRestAt rule (ends_of of.now.ranks.now) i events.now events.now)
        (BreaksFirstAt (KeepRestAt rule (ends_of of.now.ranks.now) i events.now) events.now) }
{
    let end = events.len();
    for (k, e) in events.iter().enumerate() {
        if !keeps_rule(rule, i, end, &e.what, own, of) {
            return Some(k);
        }
    }
    None
}

/// The first event that breaks the rule, rank by rank.
pub(crate) fn first_rest_at(rule: EventRule, of: &Looked) -> Option<Spot>
    requires few { length of.now.ranks.now < 256 }
    requires ordered { AreInOrder (ends_of of.now.ranks.now) }
    requires tabled { EachTabled of.now.lines.now (ends_of of.now.ranks.now) of.now.tables.now }
    ensures { (lines : List script_line.Line) (packets : List Packets) → MatchOption result
        (KeepsRest lines (ends_of of.now.ranks.now) packets (rest_clause rule))
        (BreaksRestAt rule (ends_of of.now.ranks.now)) }
{
    let ranks = of.ranks;
    let tables = of.tables;
    for (i, rank) in ranks.iter().enumerate() {
        let events = rank.history.as_slice();
        if let Some(at) = first_of_rank(rule, i as u8, events, &tables[i].places, of) {
            return Some(Spot { rank: i as u8, at });
        }
    }
    None
}
