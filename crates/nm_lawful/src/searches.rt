//! The search over the states of the machine. All moves of each state are made.

ghost use Rattle.std.specs.Prelude.{◌≡◌, ◌⊎◌, ℕ, ◌<◌, IfOk, IsTrue, List, OnOk, Some, false, is_some, length};
ghost use Rattle.std.specs.Prelude.{option_copied, slice_get, ◌∷◌, [], ◌++◌};
ghost use Rattle.nm_lawful.specs.Lawful.{AllTold, IsEnd, has_run_lem, rests_at_lem, rests_lem};
ghost use Rattle.nm_search.specs.Lists.{AddsOnly, Extends, Has, StandOnce};
ghost use Rattle.nm_lawful.specs.Moves.{Goes, next_lem, next_of_lem, report_lem};
ghost use Rattle.nm_lawful.specs.Ranks.{RankState};
ghost use Rattle.nm_lawful.specs.Searches.{HasAllMoves, HasMoves, HasMovesOf, IsStill, SearchSays, StepSays};
ghost use Rattle.nm_lawful.specs.declared.moves.Move.TheVariants as move_lem;

use crate::moves::{Move, Report, next, next_of};
use crate::ranks::Rank;
use crate::replies::is_held;
use crate::states::State;
use indexmap::IndexSet;
use nm_types::{Line, Memory};
use std::alloc::Global;
use std::marker::Model;

/// What a search found: an end, that there is none, or more states than the limit.
#[derive(Clone, Copy)]
pub enum Found {
    End,
    NoEnd,
    TooMany,
}

/// What a step of a search did: it found an end, it made all moves of a state, or there was none.
#[derive(Clone, Copy)]
enum Step {
    End,
    On,
    Past,
}

/// States that were found, each once.
struct States {
    items: IndexSet<State>,
}

impl Drop for States {
    fn drop(self) {
        let States { items: _ } = self;
    }
}

impl Model for States {
    ghost use Rattle.std.specs.Prelude.{List};
    ghost use Rattle.nm_lawful.specs.Ranks.{RankState};

    ghost Value = { List (List RankState) };

    ghost view = { λ a. a.items.keys };
}

impl States {
    /// No state.
    fn new(alloc: Global) -> States
        ensures { result ≡ [] }
    {
        States {
            items: IndexSet::new(alloc),
        }
    }

    /// The states, in the order in which they were found.
    fn as_slice(&self) -> &[State]
        ensures value { result.now ≡ self.now }
        ensures once { StandOnce self.now }
    {
        self.items.as_slice()
    }

    /// Adds a state, unless it is there.
    fn add(&mut self, state: State) -> Result<(), Memory>
        ensures there { OnOk result (Has self.new state) }
        ensures added { OnOk result ((self.new ≡ self.old) ⊎ (self.new ≡ self.old ++ state ∷ [])) }
    {
        self.items.insert_full(state)?;
        Ok(())
    }

    /// The state with a number.
    fn get(&self, k: usize) -> Option<&State>
        ensures { option_copied result ≡ slice_get self.now k }
    {
        self.items.get_index(k)
    }

    /// Adds states.
    fn add_all(&mut self, alloc: Global, states: &[State]) -> Result<(), Memory>
        ensures kept { OnOk result (Extends self.old self.new) }
        ensures there { OnOk result ((t : List RankState) → Has states.now t → Has self.new t) }
        ensures only { OnOk result (AddsOnly (Has states.now) self.old self.new) }
    {
        for state in states {
            let copy = state.copy(alloc)?;
            self.add(copy)?;
        }
        Ok(())
    }
}

/// Adds a move.
#[tactic(auto, using(nm_search::proofs::ListLemmas::keeps_push, nm_search::proofs::ListLemmas::has_push))]
fn push(moves: &mut Vec<Move>, by: Move) -> Result<(), Memory>
    ensures kept { OnOk result (Extends moves.old.items moves.new.items) }
    ensures added { OnOk result (Has moves.new.items by) }
{
    moves.push(by)?;
    Ok(())
}

/// Adds the moves of a rank with the message or the receive at a place.
fn push_at(moves: &mut Vec<Move>, i: u8, j: usize) -> Result<(), Memory>
    ensures kept { OnOk result (Extends moves.old.items moves.new.items) }
    ensures added { OnOk result (HasMoves i j moves.new.items) }
{
    push(moves, Move::Take(i, j))?;
    push(moves, Move::Withdraw(i, j))?;
    push(moves, Move::Off(i, j))
}

/// .. at each place.
fn push_places(moves: &mut Vec<Move>, i: u8, width: usize) -> Result<(), Memory>
    ensures kept { OnOk result (Extends moves.old.items moves.new.items) }
    ensures added { OnOk result ((j : ℕ) → j < width → HasMoves i j moves.new.items) }
{
    for j in 0..width {
        push_at(moves, i, j)?;
    }
    Ok(())
}

/// .. of a rank.
fn push_rank(moves: &mut Vec<Move>, i: u8, rank: &Rank) -> Result<(), Memory>
    ensures kept { OnOk result (Extends moves.old.items moves.new.items) }
    ensures added { OnOk result (HasMovesOf i rank.now moves.new.items) }
{
    push(moves, Move::Run(i))?;
    let width = rank.outgoing().len().max(rank.requests().len());
    push_places(moves, i, width)?;
    Ok(())
}

/// The moves that there may be at a state.
fn all_moves(alloc: Global, state: &State) -> Result<Vec<Move>, Memory>
    ensures { IfOk result (λ moves. HasAllMoves state.now moves.items) }
{
    let mut moves = Vec::new(alloc);
    let ranks = state.as_slice();
    for i in 0..ranks.len() {
        push_rank(&mut moves, i as u8, &ranks[i])?;
    }
    Ok(moves)
}

/// Adds the state that a move leads to, if it can be made.
fn push_next(
    alloc: Global,
    report: Report,
    state: &State,
    by: Move,
    states: &mut Vec<State>,
) -> Result<(), Memory>
    ensures kept { OnOk result (Extends states.old.items states.new.items) }
    ensures added { OnOk result ((t : List RankState) →
        next_lem report.entry.lines.now (report_lem report.entry.told.now report.entry.waits.now) report.entry.until state.now by ≡ Some t →
        Has states.new.items t) }
    ensures only { OnOk result (AddsOnly (λ t.
        next_lem report.entry.lines.now (report_lem report.entry.told.now report.entry.waits.now) report.entry.until state.now by ≡ Some t)
        states.old.items states.new.items) }
{
    if let Some(t) = next(alloc, report, state, by)? {
        states.push(t)?;
    }
    Ok(())
}

/// The states that the moves of one lead to.
fn successors(alloc: Global, report: Report, state: &State) -> Result<Vec<State>, Memory>
    ensures all { IfOk result (λ states. (t : List RankState) →
        Goes report.entry.lines.now (report_lem report.entry.told.now report.entry.waits.now) report.entry.until state.now t → Has states.items t) }
    ensures only { IfOk result (λ states. (t : List RankState) → Has states.items t →
        Goes report.entry.lines.now (report_lem report.entry.told.now report.entry.waits.now) report.entry.until state.now t) }
{
    let moves = all_moves(alloc, state)?;
    let mut states = Vec::new(alloc);
    for by in moves.iter() {
        push_next(alloc, report, state, *by, &mut states)?;
    }
    Ok(states)
}

/// Whether the line at a place has run.
fn has_run(report: Report, state: &State, place: usize) -> bool
    ensures { result ≡ has_run_lem report.entry.lines.now state.now place }
{
    match report.lines.get(place) {
        Some(line) => match state.rank(line.rank) {
            Some(rank) => place < rank.at(),
            None => false,
        },
        None => false,
    }
}

/// Whether each line has run of which an answer is told that counts.
fn is_told(report: Report, state: &State) -> bool
    ensures yes { IsTrue result →
        AllTold report.entry.lines.now (report_lem report.entry.told.now report.entry.waits.now) report.entry.until state.now }
    ensures no { AllTold report.entry.lines.now (report_lem report.entry.told.now report.entry.waits.now) report.entry.until state.now →
        IsTrue result }
{
    for place in 0..report.told.len() {
        if report.told_at(place).is_some() && !has_run(report, state, place) {
            return false;
        }
    }
    true
}

/// Whether a rank is said to wait at the line at a place, which is its next one, and is held up.
fn waits_at(
    lines: &[Line],
    ranks: &[Rank],
    i: u8,
    rank: &Rank,
    place: usize,
    wait: Option<usize>,
) -> bool
    requires { place < length lines.now }
    ensures { result ≡ rests_at_lem lines.now ranks.now i rank.now (Some place) wait }
{
    match wait {
        Some(wait) => place == wait && is_held(ranks, i, rank, &lines[place].command),
        None => false,
    }
}

/// Whether a rank rests as it is said to.
fn rests_so(lines: &[Line], ranks: &[Rank], i: u8, rank: &Rank, wait: Option<usize>) -> bool
    ensures { result ≡ rests_at_lem lines.now ranks.now i rank.now (next_of_lem lines.now i rank.now.at) wait }
{
    match next_of(lines, i, rank.at()) {
        Some(place) => waits_at(lines, ranks, i, rank, place, wait),
        None => match wait {
            Some(_) => false,
            None => true,
        },
    }
}

/// .. if that is said of it.
fn rests(report: Report, state: &State, i: u8) -> bool
    ensures { result ≡ rests_lem report.entry.lines.now (report_lem report.entry.told.now report.entry.waits.now) state.now i }
{
    match report.waits.get(i as usize) {
        Some(wait) => match state.rank(i) {
            Some(rank) => rests_so(report.lines, state.as_slice(), i, rank, *wait),
            None => true,
        },
        None => true,
    }
}

/// Whether each rank rests as it is said to.
fn all_rest(report: Report, state: &State) -> bool
    ensures yes { IsTrue result → (i : ℕ) → IsTrue (rests_lem report.entry.lines.now (report_lem report.entry.told.now report.entry.waits.now) state.now i) }
    ensures no { ((i : ℕ) → IsTrue (rests_lem report.entry.lines.now (report_lem report.entry.told.now report.entry.waits.now) state.now i)) → IsTrue result }
{
    for i in 0..state.as_slice().len() {
        if !rests(report, state, i as u8) {
            return false;
        }
    }
    true
}

/// Whether no move leads anywhere, and each rank rests as it is said to.
fn is_still(report: Report, state: &State, states: &[State]) -> bool
    ensures yes { IsTrue result → IsStill report.entry.lines.now (report_lem report.entry.told.now report.entry.waits.now) state.now states.now }
    ensures no { IsStill report.entry.lines.now (report_lem report.entry.told.now report.entry.waits.now) state.now states.now → IsTrue result }
{
    states.is_empty() && all_rest(report, state)
}

/// Whether all is told, and the state is at rest.
fn is_rest(report: Report, state: &State, states: &[State]) -> bool
    ensures yes { IsTrue result → is_some report.entry.until ≡ false →
        ((t : List RankState) →
        Goes report.entry.lines.now (report_lem report.entry.told.now report.entry.waits.now) report.entry.until state.now t → Has states.now t) →
        IsEnd report.entry.lines.now (report_lem report.entry.told.now report.entry.waits.now) report.entry.until state.now }
    ensures no { is_some report.entry.until ≡ false →
        ((t : List RankState) → Has states.now t →
        Goes report.entry.lines.now (report_lem report.entry.told.now report.entry.waits.now) report.entry.until state.now t) →
        IsEnd report.entry.lines.now (report_lem report.entry.told.now report.entry.waits.now) report.entry.until state.now → IsTrue result }
{
    is_told(report, state) && is_still(report, state, states)
}

/// Whether a state is an end, where these are the states that its moves lead to.
fn is_end(report: Report, state: &State, states: &[State]) -> bool
    ensures yes { IsTrue result → ((t : List RankState) →
        Goes report.entry.lines.now (report_lem report.entry.told.now report.entry.waits.now) report.entry.until state.now t → Has states.now t) →
        IsEnd report.entry.lines.now (report_lem report.entry.told.now report.entry.waits.now) report.entry.until state.now }
    ensures no { ((t : List RankState) → Has states.now t →
        Goes report.entry.lines.now (report_lem report.entry.told.now report.entry.waits.now) report.entry.until state.now t) →
        IsEnd report.entry.lines.now (report_lem report.entry.told.now report.entry.waits.now) report.entry.until state.now → IsTrue result }
{
    let moment = report.until.is_some();
    if moment {
        is_told(report, state)
    } else {
        is_rest(report, state, states)
    }
}

/// A step at the state with a number.
fn go_on(alloc: Global, report: Report, met: &mut States, k: usize) -> Result<Step, Memory>
    ensures { IfOk result (StepSays report.entry.lines.now (report_lem report.entry.told.now report.entry.waits.now) report.entry.until
        met.old met.new k) }
{
    let Some(state) = met.get(k) else {
        return Ok(Step::Past);
    };
    let states = successors(alloc, report, state)?;
    let found = states.as_slice();
    let end = is_end(report, state, found);
    if end {
        return Ok(Step::End);
    }
    met.add_all(alloc, found)?;
    Ok(Step::On)
}

/// Looks for an end, at up to so many states.
pub fn search(alloc: Global, report: Report, ranks: u8, limit: u32) -> Result<Found, Memory>
    ensures { IfOk result (SearchSays report.entry.lines.now (report_lem report.entry.told.now report.entry.waits.now) ranks report.entry.until
        limit) }
{
    let mut met = States::new(alloc);
    let first = State::new(alloc, ranks)?;
    met.add(first)?;
    for k in 0..limit as usize {
        let step = go_on(alloc, report, &mut met, k)?;
        match step {
            Step::End => return Ok(Found::End),
            Step::On => {}
            Step::Past => return Ok(Found::NoEnd),
        }
    }
    let found = met.as_slice().len();
    if found <= limit as usize {
        Ok(Found::NoEnd)
    } else {
        Ok(Found::TooMany)
    }
}
