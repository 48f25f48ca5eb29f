//! The verdict on a rank's own run.

ghost use Rattle.std.specs.Prelude.{◌≡◌, ◌<◌, ℕ, All, IfOk, List, MatchOption, length, take};
ghost use Rattle.nm_types.specs.Commands.{Numbered};
ghost use Rattle.nm_types.specs.Sizes.{Sizes};
ghost use Rattle.nm_history.specs.declared.events.Event as event;
ghost use Rattle.nm_history.specs.RankRun.{Always, IsRankRun, NumberAt, last_stamp};
ghost use Rattle.nm_lookups.specs.Deciding.{Decides};
ghost use Rattle.nm_check_rank.specs.Breaks.{BreaksFirstAt};
ghost use Rattle.nm_check_rank.specs.FirstBroken.{IsFirstBroken};
ghost use Rattle.nm_check_rank.specs.OwnBreaks.{IsBreach, KeepsAll};
ghost use Rattle.nm_check_rank.specs.OwnClauses.{KeepsOwn, own_order};
ghost use Rattle.nm_check_rank.specs.Runs.{IsRun, commands_in};
ghost use Rattle.nm_check_rank.specs.SoFar.{IsSoFar};
ghost use Rattle.nm_check_rank.specs.Tabled.{IsJudged};

use crate::breaks::Break;
use crate::clauses::OwnClause;
use crate::numbers::first_number;
use crate::paired::breaches::Breach;
use crate::paired::dues::{number_due, stamp_due};
use crate::paired::order::own_lines;
use crate::paired::runs::Run;
use crate::paired::so_far::SoFar;
use crate::paired::tables::Tables;
use crate::paired::walks::{Walked, walk};
use crate::stamps::stamps_rise;
use nm_history::Event;
use nm_types::{Line, Memory, Shape};
use std::alloc::Global;

/// What a rank's own run is judged to be.
#[derive(Drop)]
pub enum Judged {
    /// A run of the rank's first commands, with what is looked up of it.
    Runs(Tables),
    /// One that breaks a rule: the first rule that is broken, and where a rule breaks first.
    Breaks { clause: OwnClause, first: Breach },
}

/// Whether a rank's events keep a rule, where so many commands are said to have run.
fn keeps(run: &Run, at: u64, clause: OwnClause) -> bool
    requires { IsRun run.now }
    ensures { Decides result
        (KeepsOwn run.now.shape (commands_in run.now) at run.now.events.now clause) }
{
    match walk(run, &[clause]) {
        Walked::Breaks { at: _, standing: _ } => false,
        Walked::Ends(so_far) => so_far.is_over(clause, at),
    }
}

/// The first rule in order that a rank breaks.
fn first_broken(run: &Run, at: u64) -> Option<OwnClause>
    requires { IsRun run.now }
    ensures { MatchOption result
        (All (KeepsOwn run.now.shape (commands_in run.now) at run.now.events.now) own_order)
        (IsFirstBroken (KeepsOwn run.now.shape (commands_in run.now) at run.now.events.now)
        own_order) }
{
    for clause in OwnClause::order() {
        if !keeps(run, at, *clause) {
            return Some(*clause);
        }
    }
    None
}

/// The end breaks a rule first, if it breaks one.
fn left_in_the_end(so_far: SoFar, at: u64) -> Option<Breach>
    ensures { (shape : Sizes) (commands : List Numbered) (h : List event.Event) →
        IsSoFar h (length h) so_far → KeepsAll shape commands h →
        MatchOption result (IsRankRun shape commands at h) (IsBreach shape commands at h) }
{
    for clause in OwnClause::order() {
        if !so_far.is_over(*clause, at) {
            return Some(Breach {
                clause: *clause,
                place: Break::Behind,
                due: None,
            });
        }
    }
    None
}

/// The event at a place has a wrong number, and breaks no rule but that and the one on stamps.
fn wrong_number(shape: Shape, last: u64, events: &[Event], k: usize) -> Breach
    requires inside { k < length events.now }
    requires last { last ≡ last_stamp (take k events.now) }
    requires broken { BreaksFirstAt (Always (NumberAt shape.ranks)) events.now k }
    ensures { (commands : List Numbered) (at : ℕ) →
        KeepsAll shape commands (take k events.now) →
        IsBreach shape commands at events.now result }
{
    let e = &events[k];
    match stamp_due(last, e.stamp) {
        Some(due) => Breach {
            clause: OwnClause::Stamps,
            place: Break::At(k),
            due: Some(due),
        },
        None => Breach {
            clause: OwnClause::Numbers,
            place: Break::At(k),
            due: number_due(shape, &events[..k], &e.what),
        },
    }
}

/// Where a rank breaks a rule first, if it breaks one, behind the events whose numbers are right.
fn breach_behind(run: &Run, at: u64, so_far: SoFar) -> Option<Breach>
    requires run { IsRun run.now }
    requires kept { KeepsAll run.now.shape (commands_in run.now) run.now.events.now }
    requires so_far { IsSoFar run.now.events.now (length run.now.events.now) so_far }
    ensures { MatchOption result
        (IsRankRun run.now.shape (commands_in run.now) at run.now.all.now)
        (IsBreach run.now.shape (commands_in run.now) at run.now.all.now) }
{
    let right = run.events.len();
    let count = run.all.len();
    if right < count {
        return Some(wrong_number(run.shape, so_far.stamp, run.all, right));
    }
    left_in_the_end(so_far, at)
}

/// Where a rank breaks a rule first, if it breaks one.
fn first_breach(run: &Run, at: u64) -> Option<Breach>
    requires { IsRun run.now }
    ensures { MatchOption result
        (IsRankRun run.now.shape (commands_in run.now) at run.now.all.now)
        (IsBreach run.now.shape (commands_in run.now) at run.now.all.now) }
{
    match walk(run, OwnClause::order()) {
        Walked::Breaks { at: k, standing } => Some(Breach {
            clause: standing.clause,
            place: Break::At(k),
            due: Some(standing.due),
        }),
        Walked::Ends(so_far) => breach_behind(run, at, so_far),
    }
}

/// The first rule in order that is broken, where a number is wrong.
fn stamps_or_numbers(events: &[Event]) -> OwnClause
    ensures { (shape : Sizes) (commands : List Numbered) (at : ℕ) →
        ¬ Always (NumberAt shape.ranks) events.now →
        IsFirstBroken (KeepsOwn shape commands at events.now) own_order result }
{
    if stamps_rise(events) {
        OwnClause::Numbers
    } else {
        OwnClause::Stamps
    }
}

/// The first rule in order that a rank breaks, which breaks one there.
fn broken_rule(run: &Run, at: u64, first: Breach) -> OwnClause
    requires run { IsRun run.now }
    requires broken { IsBreach run.now.shape (commands_in run.now) at run.now.all.now first }
    ensures { IsFirstBroken (KeepsOwn run.now.shape (commands_in run.now) at run.now.all.now)
        own_order result }
{
    let right = run.events.len();
    let count = run.all.len();
    if right < count {
        return stamps_or_numbers(run.all);
    }
    match first_broken(run, at) {
        Some(clause) => clause,
        None => first.clause,
    }
}

/// Whether a rank's history is a run of its first commands, as many as `at` says; else which of its
/// rules is the first that is broken, and the first event that breaks one.
pub fn judge_rank(
    alloc: Global,
    shape: Shape,
    rank: u8,
    lines: &[Line],
    at: u64,
    events: &[Event],
) -> Result<Judged, Memory>
    ensures { IfOk result (IsJudged shape rank lines.now at events.now) }
{
    let right = first_number(shape.ranks(), events);
    let front = &events[..right];
    let tables = Tables::of(alloc, rank, lines, front)?;
    let own = own_lines(alloc, rank, lines)?;
    let run = Run {
        shape,
        rank,
        lines,
        own: &own,
        all: events,
        events: front,
        tables: &tables,
    };
    match first_breach(&run, at) {
        Some(first) => {
            let clause = broken_rule(&run, at, first);
            Ok(Judged::Breaks { clause, first })
        }
        None => Ok(Judged::Runs(tables)),
    }
}
