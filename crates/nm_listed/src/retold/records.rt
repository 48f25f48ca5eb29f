//! The record of a log.

ghost use Rattle.std.specs.Prelude.{◌≡◌, ◌<◌, ◌≤◌, ◌==◌, ℕ, ◌++◌, ◌∷◌, [], IfOk, List, OnOk, Some};
ghost use Rattle.std.specs.Prelude.{count_by, false, length, option_copied, option_map, slice_get};
ghost use Rattle.std.specs.List.{cons_option};
ghost use Rattle.nm_types.specs.declared.scripts.Line as script_line;
ghost use Rattle.nm_report.specs.Ends.{ends_of};
ghost use Rattle.nm_report.specs.Lawful.{IsRunIn};
ghost use Rattle.nm_report.specs.Told.{told_of};
ghost use Rattle.nm_outcomes.specs.Logs.{history_in};
ghost use Rattle.nm_outcomes.specs.Looks.{is_answer_by};
ghost use Rattle.nm_outcomes.specs.RankStates as spots;
ghost use Rattle.nm_explored.specs.Ends.{all_told};
ghost use Rattle.nm_explored.specs.Rests.{AreAtRest};
ghost use Rattle.nm_explored.specs.Lines.{line_in};
ghost use Rattle.nm_explored.specs.Met.{IsWay};
ghost use Rattle.nm_listed.specs.Ends.{IsEndWay};
ghost use Rattle.nm_listed.specs.Records.{IsCountable, IsRecordOf, all_ended, ended_as};

use crate::lawful::{records_are_countable, records_are_runs};
use crate::records::{all_home, are_done};
use crate::retold::logs::Entry;
use crate::retold::packets::counts;
use crate::retold::tellings::Telling;
use nm_explored::choices::choices::line_at;
use nm_explored::choices::moves::Turn;
use nm_history::{Event, History};
use nm_outcomes::spots::looks::ran;
use nm_outcomes::spots::ranks::Rank;
use nm_report::{Accounts, RankAccount, RunRecord};
use nm_types::{Line, Memory, Script, Shape};
use std::alloc::Global;
use std::mem;

/// An entry goes to the events of a rank, if it is of this rank, and stays where it was if not.
#[tactic(auto, using(crate::proofs::RecordLemmas::history_push))]
fn deal(entry: Entry, i: u8, events: &mut Vec<Event>, others: &mut Vec<Entry>) -> Result<(), Memory>
    ensures mine { OnOk result (events.new.items ≡ events.old.items ++ history_in (entry ∷ []) i) }
    ensures others { OnOk result ((j : ℕ) → (i == j) ≡ false →
        history_in others.new.items j ≡ history_in others.old.items j ++ history_in (entry ∷ []) j) }
{
    if entry.rank == i {
        let (_, event) = entry.into_parts();
        events.push(event)?;
    } else {
        others.push(entry)?;
    }
    Ok(())
}

/// The events of a rank, which are taken out.
fn take_events(alloc: Global, entries: &mut Vec<Entry>, i: u8) -> Result<Vec<Event>, Memory>
    ensures mine { IfOk result (λ events. events.items ≡ history_in entries.old.items i) }
    ensures others { IfOk result (λ events. (j : ℕ) → (i == j) ≡ false →
        history_in entries.new.items j ≡ history_in entries.old.items j) }
{
    let all = mem::replace(entries, Vec::new(alloc));
    let mut events = Vec::new(alloc);
    for entry in all {
        deal(entry, i, &mut events, entries)?;
    }
    Ok(events)
}

/// What became of a rank with these events.
fn account(lines: &[Line], i: u8, rank: &Rank, events: Vec<Event>) -> RankAccount
    requires short { length lines.now < 4294967293 }
    requires few { count_by is_answer_by rank.now.deeds < 4294967296 }
    ensures at { result.at ≡ count_by is_answer_by rank.now.deeds }
    ensures waits { result.waits ≡ line_in lines.now i (count_by is_answer_by rank.now.deeds) }
    ensures events { result.history.events ≡ events.items }
{
    let at = ran(rank.deeds());
    RankAccount {
        history: History::from_vec(events),
        at: at as u64,
        waits: line_at(lines, i, at),
    }
}

/// Adds what became of a rank, and takes its events out.
fn push_rank(
    alloc: Global,
    lines: &[Line],
    i: u8,
    rank: &Rank,
    entries: &mut Vec<Entry>,
    accounts: &mut Vec<RankAccount>,
) -> Result<(), Memory>
    requires short { length lines.now < 4294967293 }
    requires few { count_by is_answer_by rank.now.deeds < 4294967296 }
    ensures ended { OnOk result (ends_of accounts.new.items ≡ ends_of accounts.old.items
        ++ ended_as lines.now entries.old.items i rank.now ∷ []) }
    ensures others { OnOk result ((j : ℕ) → (i == j) ≡ false →
        history_in entries.new.items j ≡ history_in entries.old.items j) }
{
    let events = take_events(alloc, entries, i)?;
    accounts.push(account(lines, i, rank, events))?;
    Ok(())
}

/// .. if it is there.
fn push_account(
    alloc: Global,
    lines: &[Line],
    i: u8,
    rank: Option<&Rank>,
    entries: &mut Vec<Entry>,
    accounts: &mut Vec<RankAccount>,
) -> Result<(), Memory>
    requires short { length lines.now < 4294967293 }
    requires few { (spot : spots.Spot) → option_copied rank ≡ Some spot →
        count_by is_answer_by spot.deeds < 4294967296 }
    ensures ended { OnOk result (ends_of accounts.new.items ≡ ends_of accounts.old.items
        ++ cons_option (option_map (ended_as lines.now entries.old.items i) (option_copied rank.entry)) []) }
    ensures others { OnOk result ((j : ℕ) → (i == j) ≡ false →
        history_in entries.new.items j ≡ history_in entries.old.items j) }
{
    match rank {
        Some(rank) => push_rank(alloc, lines, i, rank, entries, accounts),
        None => Ok(()),
    }
}

/// How a rank stands, if it is there.
fn state_of(states: &[Rank], i: u8) -> Option<&Rank>
    ensures { option_copied result ≡ slice_get states.now i }
{
    states.get(usize::from(i))
}

/// Adds what became of all ranks.
fn push_accounts(
    alloc: Global,
    lines: &[Line],
    states: &[Rank],
    ranks: u8,
    entries: &mut Vec<Entry>,
    accounts: &mut Vec<RankAccount>,
) -> Result<(), Memory>
    requires short { length lines.now < 4294967293 }
    requires few { (i : ℕ) (spot : spots.Spot) → i < ranks → slice_get states.now i ≡ Some spot →
        count_by is_answer_by spot.deeds < 4294967296 }
    ensures { OnOk result (ends_of accounts.new.items ≡ ends_of accounts.old.items
        ++ all_ended lines.now (record { log = entries.old.items; states = states.now }) ranks) }
{
    for i in 0..ranks {
        let rank = state_of(states, i);
        push_account(alloc, lines, i, rank, entries, accounts)?;
    }
    Ok(())
}

/// The record of a log.
fn record_of(
    alloc: Global,
    lines: &[Line],
    shape: Shape,
    telling: Telling,
) -> Result<RunRecord, Memory>
    requires short { length lines.now < 4294967293 }
    requires countable { IsCountable shape telling }
    ensures { IfOk result (IsRecordOf shape lines.now telling) }
{
    let (log, states) = telling.into_parts();
    let mut entries = log.into_vec();
    let mut ranks = Vec::new(alloc);
    push_accounts(
        alloc,
        lines,
        states.as_slice(),
        shape.ranks(),
        &mut entries,
        &mut ranks,
    )?;
    let pairs = counts(alloc, lines, ranks.as_slice())?;
    let done = are_done(ranks.as_slice());
    Ok(RunRecord {
        shape,
        ranks: Accounts::from_vec(ranks),
        pairs,
        cells: all_home(shape),
        done,
    })
}

/// The record of a run by this way of moves, the newest first, that leads from the first state to one
/// at which no rank has a move left.
pub fn retold(
    alloc: Global,
    script: &Script,
    shape: Shape,
    path: &[Turn],
) -> Result<RunRecord, Memory>
    requires equal { shape.ranks ≡ script.now.ranks }
    requires way { IsEndWay shape script.now.lines path.now }
    ensures { (state : List spots.Spot) → IsWay shape.eager shape.ranks script.now.lines path.now state →
        AreAtRest shape.ranks script.now.lines (λ i. slice_get state i) →
        IfOk result (λ run. IsRunIn shape script.now.lines run
        × (told_of run ≡ all_told script.now.lines (λ i. slice_get state i) shape.ranks)) }
{
    records_are_runs();
    records_are_countable();
    let lines = script.lines.as_slice();
    let mut telling = Telling::of(alloc, lines, shape.ranks(), path)?;
    telling.finish(shape.ranks())?;
    record_of(alloc, lines, shape, telling)
}
