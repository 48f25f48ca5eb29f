//! The moves of the machine, and what they do.

ghost use Rattle.std.specs.Prelude.{◌≡◌, ◌==◌, ◌<◌, ◌≤◌, if◌then◌else◌, Bool, IfOk, IfSome, None, Some, drop, is_some};
ghost use Rattle.std.specs.Prelude.{option_copied, option_map, length};
ghost use Rattle.std.specs.List.{position};
ghost use Rattle.std.specs.Option.{option_map_or};
ghost use Rattle.std.specs.Prelude.{false};
ghost use Rattle.nm_lawful.specs.declared.states.Deed.TheVariants as deed;
ghost use Rattle.nm_lawful.specs.Moves.{counted_lem, counts_lem, deed_of_lem, is_first_lem, is_recalled_lem};
ghost use Rattle.nm_lawful.specs.Moves.{next_lem, next_of_lem, off_by_lem, pair_by_lem, pair_of_lem, run_by_lem};
ghost use Rattle.nm_lawful.specs.Moves.{report_lem, told_at_lem, withdrawal_of_lem};

use crate::messages::{Message, Pattern, Request, Standing};
use crate::ranks::{Rank, cap_of, pattern_of};
use crate::replies::{View, act_of};
use crate::states::{Deed, State};
use nm_types::{Answer, Line, Memory};
use std::alloc::Global;

/// An answer, with its number in the order of time. The length 0 of a message that was cut stands for any; words
/// that are no answer stand as `Started`, which no command tells.
#[derive(Drop)]
pub struct Said {
    pub at: u32,
    pub answer: Answer,
}

/// A script, and what is told: at the place of each line its answer, and of ranks, by number, at the place of
/// which line each waits in the end. All answers count, or those before a moment.
#[derive(Clone, Copy)]
pub struct Report<'a> {
    pub lines: &'a [Line],
    pub told: &'a [Option<Said>],
    pub waits: &'a [Option<usize>],
    pub until: Option<u32>,
}

/// A move: a rank runs its next line, the message of a rank at a place is taken or withdrawn, or the receive
/// of a rank at a place is cancelled.
#[derive(Clone, Copy)]
pub enum Move {
    Run(u8),
    Take(u8, usize),
    Withdraw(u8, usize),
    Off(u8, usize),
}

/// Whether an answer counts.
fn counts(until: Option<u32>, at: u32) -> bool
    ensures { result ≡ counts_lem until at }
{
    match until {
        None => true,
        Some(moment) => at < moment,
    }
}

/// The answer, if it counts.
fn counted(until: Option<u32>, said: &Said) -> Option<&Answer>
    ensures { option_copied result ≡ counted_lem until said.now }
{
    if counts(until, said.at) {
        Some(&said.answer)
    } else {
        None
    }
}

impl<'a> Report<'a> {
    /// What is told of the line at a place.
    pub fn told_at(&self, place: usize) -> Option<&'a Answer>
        ensures { option_copied result ≡ told_at_lem (report_lem self.now.told.now self.now.waits.now) self.now.until place }
    {
        match self.told.get(place) {
            Some(Some(said)) => counted(self.until, said),
            _ => None,
        }
    }
}

/// The first line of a rank among these.
fn first_of(lines: &[Line], rank: u8) -> Option<usize>
    ensures value { result ≡ position (λ l. l.rank == rank) lines.now }
    ensures within { IfSome result (λ k. k < length lines.now) }
{
    lines.iter().position(|l| l.rank == rank)
}

/// The place of the first line of a rank from one on.
pub fn next_of(lines: &[Line], rank: u8, at: usize) -> Option<usize>
    ensures value { result ≡ next_of_lem lines.now rank at }
    ensures within { IfSome result (λ k. k < length lines.now) }
{
    if at > lines.len() {
        return None;
    }
    match first_of(&lines[at..], rank) {
        Some(k) => Some(at + k),
        None => None,
    }
}

/// A rank runs its next line.
fn run_by(report: Report, state: &State, i: u8, rank: &Rank) -> Option<Deed>
    ensures { result ≡ run_by_lem report.entry.lines.now (report_lem report.entry.told.now report.entry.waits.now) report.entry.until state.now i rank.now }
{
    let place = next_of(report.lines, i, rank.at())?;
    let view = View {
        lines: report.lines,
        ranks: state.as_slice(),
        i,
        rank,
        place,
    };
    let act = act_of(view, &report.lines[place].command, report.told_at(place))?;
    Some(Deed::Run {
        rank: i,
        place,
        next: place + 1,
        act,
    })
}

/// Whether a message is the first of its sender that is pending and that a pattern selects.
fn is_first(sender: &Rank, receiver: &Rank, m: &Message, p: &Pattern) -> bool
    ensures { result ≡ is_first_lem sender.now receiver.now m.now p.now }
{
    match sender.first_to(m.to, receiver, p) {
        Some(first) => first.place == m.place,
        None => false,
    }
}

/// A message and a receive become a pair.
fn pair_by(sender: &Rank, receiver: &Rank, m: &Message, r: &Request) -> Option<Deed>
    ensures { result ≡ pair_by_lem sender.now receiver.now m.now r.now }
{
    let pattern = pattern_of(&r.standing)?;
    if is_first(sender, receiver, m, &pattern) {
        Some(Deed::Pair {
            message: *m,
            place: r.place,
            cap: cap_of(&r.standing),
        })
    } else {
        None
    }
}

/// .. the oldest open receive of the message's receiver that selects it.
fn pair_of(state: &State, sender: &Rank, m: &Message) -> Option<Deed>
    ensures { result ≡ pair_of_lem state.now sender.now m.now }
{
    let receiver = state.rank(m.to)?;
    let r = receiver.receiver_of(m)?;
    pair_by(sender, receiver, m, &r)
}

/// Whether a request is a send that may be withdrawn.
fn is_recalled(r: Option<Request>) -> bool
    ensures { result ≡ option_map_or (λ r. is_recalled_lem r.standing) r false }
{
    match r {
        Some(r) => matches!(r.standing, Standing::Recalled { .. }),
        None => false,
    }
}

/// A message is withdrawn.
fn withdrawal_of(state: &State, sender: &Rank, m: &Message) -> Option<Deed>
    ensures { result ≡ withdrawal_of_lem state.now sender.now m.now }
{
    let receiver = state.rank(m.to)?;
    if !receiver.is_claimed(m) && is_recalled(sender.request_at(m.place)) {
        Some(Deed::Withdraw { message: *m })
    } else {
        None
    }
}

/// A receive is cancelled.
fn off_by(i: u8, r: &Request) -> Option<Deed>
    ensures { result ≡ off_by_lem i r.now.place r.now.standing }
{
    match r.standing {
        Standing::Marked { .. } => Some(Deed::Off {
            rank: i,
            place: r.place,
        }),
        _ => None,
    }
}

/// What a move does, if it can be made.
fn deed_of(report: Report, state: &State, by: Move) -> Option<Deed>
    ensures { result ≡ deed_of_lem report.entry.lines.now (report_lem report.entry.told.now report.entry.waits.now) report.entry.until state.now by }
{
    match by {
        Move::Run(i) => run_by(report, state, i, state.rank(i)?),
        Move::Take(i, j) => {
            let sender = state.rank(i)?;
            pair_of(state, sender, sender.outgoing().get(j)?)
        }
        Move::Withdraw(i, j) => {
            let sender = state.rank(i)?;
            withdrawal_of(state, sender, sender.outgoing().get(j)?)
        }
        Move::Off(i, j) => off_by(i, state.rank(i)?.requests().get(j)?),
    }
}

/// The state behind a move.
pub fn next(alloc: Global, report: Report, state: &State, by: Move) -> Result<Option<State>, Memory>
    ensures { IfOk result (λ next. next
        ≡ next_lem report.entry.lines.now (report_lem report.entry.told.now report.entry.waits.now) report.entry.until state.now by) }
{
    match deed_of(report, state, by) {
        Some(deed) => {
            let mut next = state.copy(alloc)?;
            next.act(alloc, &deed)?;
            Ok(Some(next))
        }
        None => Ok(None),
    }
}
