//! Where a rule of the messages between two ranks breaks first.

ghost use Rattle.std.specs.Prelude.{◌≡◌, ◌<◌, ℕ, IfOk, List, None, Some, length, slice_get, slice_index_or};
ghost use Rattle.std.specs.Prelude.{take};
ghost use Rattle.nm_types.specs.declared.scripts.Line as script_line;
ghost use Rattle.nm_history.specs.declared.events.Event as event;
ghost use Rattle.nm_history.specs.Quiescence.{EachRank, Ended, history_of};
ghost use Rattle.nm_history.specs.RankRun.{NumberAt};
ghost use Rattle.nm_report.specs.Ends.{ends_of};
ghost use Rattle.nm_check_rank.specs.Tabled.{AreRankTables};
ghost use Rattle.nm_check.specs.CarriedBreaks as spec;
ghost use Rattle.nm_check.specs.CarriedBreaks.{FirstAt, IsFirstBetween, PartAt};
ghost use Rattle.nm_check.specs.declared.clauses.CarriedClause.TheVariants as carried;
ghost use Rattle.nm_check.specs.Marked.{AreFirsts, AreLooked, AreMarks, EachMarked, IsOwn, KeepsLocal};
ghost use Rattle.nm_check.specs.Marked.{Names, is_rank, noted, places_of};
ghost use Rattle.nm_check.specs.Tabled.{EachTabled};

use crate::bodies::sender_not_shown;
use crate::looked::Looked;
use crate::marks::{
    Marks, NAMES, receiver_not_asked, receiver_not_telling, sender_not_followed,
    sender_not_recalling,
};
use nm_check_rank::paired::tables::Tables;
use nm_history::Event;
use nm_report::RankAccount;
use nm_types::{Line, Memory};
use std::alloc::Global;

/// What an event may break of the rules between its rank and another one.
#[derive(Clone, Copy)]
pub enum Part {
    /// An arrival: that it is the next message of the other rank.
    Arrivals,
    /// An answer: that it shows the body that the other rank sent.
    Bodies,
    /// A message that left: that the other rank had taken it, where it is sent by asking.
    Outs,
    /// A withdrawal: that the other rank had asked for it.
    Withdrawals,
    /// The answer to a recall: that the other rank had given it.
    Answers,
}

/// An event, by its rank and its place in the history of that rank, counted from 0.
#[derive(Clone, Copy)]
pub struct Spot {
    pub rank: u8,
    pub at: usize,
}

/// The rank with which the event at a place of rank x breaks a part of the rules.
fn broken_with(part: Part, x: u8, k: usize, e: &Event, own: &Tables, of: &Looked) -> Option<u8>
    requires { AreLooked of.now.lines.now (ends_of of.now.ranks.now) of.now.tables.now }
    ensures { (n : ℕ) (h : List event.Event) → AreRankTables x of.now.lines.now h own.now →
        slice_get h k ≡ Some e.now → NumberAt n (take k h) e.now.what →
        Names (λ y. PartAt part of.now.lines.now (ends_of of.now.ranks.now) x y
        (take k h) e.now) result }
{
    match part {
        Part::Arrivals => sender_not_followed(x, e, of),
        Part::Bodies => sender_not_shown(x, k, e, own, of),
        Part::Outs => receiver_not_asked(x, k, e, &own.places, of),
        Part::Withdrawals => sender_not_recalling(x, e, of),
        Part::Answers => receiver_not_telling(x, e, of),
    }
}

/// Notes the place at which a history breaks a rule with the named rank, unless it broke it with that
/// rank before.
fn note(firsts: &mut [Option<usize>; NAMES], named: Option<u8>, at: usize)
    ensures { (y : ℕ) → y < 256 →
        slice_index_or firsts.new y None ≡ noted (is_rank named y) at (slice_index_or firsts.old y None) }
{
    if let Some(rank) = named {
        let place = rank as usize;
        if firsts[place].is_none() {
            firsts[place] = Some(at);
        }
    }
}

/// The place at which the history of rank x first breaks a part of the rules, with each other rank.
pub(crate) fn first_places(
    part: Part,
    x: u8,
    events: &[Event],
    own: &Tables,
    of: &Looked,
) -> [Option<usize>; NAMES]
    requires own { IsOwn of.now.lines.now (ends_of of.now.ranks.now) x events.now own.now }
    requires looked { AreLooked of.now.lines.now (ends_of of.now.ranks.now) of.now.tables.now }
    ensures { AreFirsts (PartAt part of.now.lines.now (ends_of of.now.ranks.now) x)
        (history_of (ends_of of.now.ranks.now) x) result }
{
    let mut firsts = [None; NAMES];
    for (k, e) in events.iter().enumerate() {
        let named = broken_with(part, x, k, e, own, of);
        note(&mut firsts, named, k);
    }
    firsts
}

/// Where the history of rank x first breaks each rule, with each other rank.
fn marks_at(x: u8, events: &[Event], own: &Tables, of: &Looked) -> Marks
    requires own { IsOwn of.now.lines.now (ends_of of.now.ranks.now) x events.now own.now }
    requires looked { AreLooked of.now.lines.now (ends_of of.now.ranks.now) of.now.tables.now }
    ensures { AreMarks of.now.lines.now (ends_of of.now.ranks.now) x result }
{
    Marks {
        arrivals: first_places(Part::Arrivals, x, events, own, of),
        bodies: first_places(Part::Bodies, x, events, own, of),
        outs: first_places(Part::Outs, x, events, own, of),
        withdrawals: first_places(Part::Withdrawals, x, events, own, of),
        answers: first_places(Part::Answers, x, events, own, of),
    }
}

/// Where each rank first breaks each rule of the messages between two ranks, with each other one.
pub fn marks_of(
    alloc: Global,
    lines: &[Line],
    ranks: &[RankAccount],
    tables: &[Tables],
) -> Result<Vec<Marks>, Memory>
    requires few { length ranks.now < 256 }
    requires lawful { EachRank KeepsLocal (ends_of ranks.now) }
    requires tabled { EachTabled lines.now (ends_of ranks.now) tables.now }
    ensures { IfOk result (λ marks. EachMarked lines.now (ends_of ranks.now) marks.items) }
{
    let of = Looked {
        lines,
        ranks,
        tables,
    };
    let mut marks = Vec::new(alloc);
    for (x, rank) in ranks.iter().enumerate() {
        let events = rank.history.as_slice();
        marks.push(marks_at(x as u8, events, &tables[x], &of))?;
    }
    Ok(marks)
}

/// The place at which a rank first breaks a part of the rules with rank y.
fn place_with(part: Part, y: u8, marks: &Marks) -> Option<usize>
    ensures { result ≡ slice_index_or (places_of part marks.now) y None }
{
    let place = y as usize;
    match part {
        Part::Arrivals => marks.arrivals[place],
        Part::Bodies => marks.bodies[place],
        Part::Outs => marks.outs[place],
        Part::Withdrawals => marks.withdrawals[place],
        Part::Answers => marks.answers[place],
    }
}

/// The first event of rank x that breaks a part of the rules with rank y.
pub(crate) fn first_at(part: Part, x: u8, y: u8, marks: &Marks) -> Option<Spot>
    ensures { (lines : List script_line.Line) (ranks : List Ended) → AreMarks lines ranks x marks.now →
        FirstAt lines ranks part x y result }
{
    match place_with(part, y, marks) {
        Some(at) => Some(Spot { rank: x, at }),
        None => None,
    }
}

/// Whether the line of one event is read before that of the other.
fn is_read_before(a: Spot, b: Spot) -> bool
    ensures { result ≡ spec.is_read_before a b }
{
    a.rank < b.rank || (a.rank == b.rank && a.at < b.at)
}

/// The one of two events that is read first.
fn first_read(a: Option<Spot>, b: Option<Spot>) -> Option<Spot>
    ensures { result ≡ spec.first_read a b }
{
    let Some(one) = a else {
        return b;
    };
    let Some(other) = b else {
        return a;
    };
    if is_read_before(one, other) { a } else { b }
}

/// The first withdrawal at rank j that rank i had not asked for, or answer at rank i that rank j
/// had not given.
pub(crate) fn first_withdrawal(i: u8, j: u8, sender: &Marks, receiver: &Marks) -> Option<Spot>
    ensures { (lines : List script_line.Line) (ranks : List Ended) → AreMarks lines ranks i sender.now →
        AreMarks lines ranks j receiver.now → IsFirstBetween lines ranks i j carried.Withdrawals result }
{
    let asked = first_at(Part::Withdrawals, j, i, receiver);
    let answered = first_at(Part::Answers, i, j, sender);
    first_read(asked, answered)
}
