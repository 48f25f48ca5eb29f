//! A log of events, and what is put into it that is no move.

ghost use Rattle.std.specs.Prelude.{◌≡◌, ℕ, ◌<◌, ◌++◌, ◌∷◌, ◌||◌, [], List, OnOk, true, false, count_by, find};
ghost use Rattle.std.specs.Prelude.{option_and_then, option_map};
ghost use Rattle.indexmap.specs.IndexSet.{spare};
ghost use Rattle.nm_history.specs.declared.events.Happened as happening;
ghost use Rattle.nm_history.specs.Answers.{is_result as is_result_lem};
ghost use Rattle.nm_history.specs.Happens.{happened, is_undone as is_undone_lem};
ghost use Rattle.nm_history.specs.Happens.{is_withdraw as is_withdraw_lem};
ghost use Rattle.nm_history.specs.Matching.{is_of_receive};
ghost use Rattle.nm_lookups.specs.AskedFor.{meant_by};
ghost use Rattle.nm_types.specs.declared.scripts.Line as script_line;
ghost use Rattle.nm_outcomes.specs.Deeds.{answer_meant};
ghost use Rattle.nm_outcomes.specs.Logs as logs;
ghost use Rattle.nm_outcomes.specs.Logs.{history_in};
ghost use Rattle.nm_outcomes.specs.Looks.{is_send_by, live_in};
ghost use Rattle.nm_listed.specs.Marks.{AreSaid, is_marked as is_marked_lem, said_by as said_by_lem};
ghost use Rattle.nm_listed.specs.Tellings.{answered, before_answer, before_got, before_move, before_result};
ghost use Rattle.nm_listed.specs.Tellings.{before_sent, each_below, may_leave as may_leave_lem};
ghost use Rattle.nm_listed.specs.Tellings.{name_asked as name_asked_lem, over, pushed};
ghost use Rattle.nm_listed.specs.Tellings.{request_asked as request_asked_lem, with_answer, with_late};
ghost use Rattle.nm_listed.specs.Tellings.{with_out, with_undone, with_whole};

use crate::retold::marks::{Mark, Said, said_by};
use indexmap::IndexSet;
use nm_explored::choices::moves::Move;
use nm_history::plain::Pair;
use nm_history::{Event, Happened};
use nm_lookups::asked::commands::command_of_line;
use nm_lookups::asked::requests::Request;
use nm_outcomes::spots::deeds::{Deed, Reply};
use nm_outcomes::spots::looks::{is_unasked, live, sent};
use nm_outcomes::spots::ranks::Rank;
use nm_types::{Command, Line, Memory};
use std::alloc::Global;
use std::marker::Model;

/// An event of a rank.
pub struct Entry {
    pub rank: u8,
    pub event: Event,
}

impl Drop for Entry {
    fn drop(self) {
        let Entry { rank: _, event: _ } = self;
    }
}

impl Model for Entry {
    ghost use Rattle.nm_outcomes.specs.Logs.{Step};

    ghost Value = { Step };

    ghost view = { λ a. record { rank = a.rank; event = a.event } };
}

impl Entry {
    /// This event of this rank.
    pub fn new(rank: u8, event: Event) -> Entry
        ensures { result ≡ record { rank = rank; event = event } }
    {
        Entry { rank, event }
    }

    /// The rank, and the event.
    pub fn into_parts(self) -> (u8, Event)
        ensures { result ≡ (self.rank, self.event) }
    {
        let Entry { rank, event } = self;
        (rank, event)
    }
}

/// The events of all ranks, in the order in which they came.
pub struct Log {
    entries: Vec<Entry>,
    /// What they said of messages.
    said: IndexSet<Said>,
}

impl Drop for Log {
    fn drop(self) {
        let Log {
            entries: _,
            said: _,
        } = self;
    }
}

impl Model for Log {
    ghost use Rattle.std.specs.Prelude.{List};
    ghost use Rattle.nm_outcomes.specs.Logs.{Step};
    ghost use Rattle.nm_listed.specs.Marks.{AreSaid};

    ghost Value = { List Step };

    ghost view = { λ a. a.entries.items };

    ghost invariant = { λ a. AreSaid a.said a.entries.items };
}

/// Adds what an event said, if it said such a thing.
fn note(said: &mut IndexSet<Said>, new: Option<Said>)
    requires { 0 < spare said.old }
    ensures { (log : List logs.Step) (rank stamp : ℕ) (what : happening.Happened) →
        new ≡ said_by_lem rank what → AreSaid said.old log →
        AreSaid said.new (log ++ record { rank = rank; event = record { stamp = stamp; what = what } } ∷ []) }
{
    if let Some(one) = new {
        said.insert(one).unwrap();
    }
}

/// Whether a request ends with a reply.
fn is_result(reply: Reply) -> bool
    ensures { (lines : List script_line.Line) → is_result_lem (answer_meant lines reply) ≡ result }
{
    match reply {
        Reply::Sent | Reply::Cancelled => true,
        Reply::Got { .. } | Reply::Cut { .. } => true,
        _ => false,
    }
}

/// The name of a command that asks for the result of its request.
fn name_asked(command: &Command) -> Option<u16>
    ensures { result ≡ name_asked_lem command.now }
{
    match command {
        Command::Wait { q } => Some(*q),
        Command::Test { q } => Some(*q),
        _ => None,
    }
}

/// The request of a name, if there is a name.
fn request_of_name(lines: &[Line], i: u8, rank: &Rank, name: Option<u16>) -> Option<Request>
    ensures { option_map meant_by result ≡ option_and_then (live_in lines.now i rank.now.deeds) name }
{
    match name {
        Some(q) => live(lines, i, rank.deeds(), q),
        None => None,
    }
}

/// The request that the command of a line asks for.
fn request_asked(lines: &[Line], i: u8, rank: &Rank, line: u64) -> Option<Request>
    ensures { option_map meant_by result ≡ request_asked_lem lines.now i rank.now line }
{
    match command_of_line(lines, i, line) {
        Some(command) => request_of_name(lines, i, rank, name_asked(command)),
        None => None,
    }
}

/// The message of a receive.
fn pair_of(rank: &Rank, number: u64) -> Option<Pair>
    ensures { result ≡ find (is_of_receive number) rank.now.pairs }
{
    rank.pairs().iter().copied().find(|p| p.number == number)
}

/// Whether message n of rank i to rank j may leave.
fn may_leave(rank: &Rank, other: &Rank, i: u8, j: u8, n: u64) -> bool
    ensures { result ≡ may_leave_lem rank.now other.now i j n }
{
    is_unasked(rank.deeds(), j, n) || other.is_taken(i, n)
}

impl Log {
    /// Nothing.
    pub fn new(alloc: Global) -> Log
        ensures { result ≡ [] }
    {
        Log {
            entries: Vec::new(alloc),
            said: IndexSet::new(alloc),
        }
    }

    /// An event more.
    pub fn push(&mut self, rank: u8, what: Happened) -> Result<(), Memory>
        ensures { OnOk result (self.new ≡ pushed self.old rank what) }
    {
        self.said.reserve(1)?;
        let new = said_by(rank, &what);
        let stamp = self.entries.len() as u64 + 1;
        let event = Event { stamp, what };
        self.entries.push(Entry::new(rank, event))?;
        note(&mut self.said, new);
        Ok(())
    }

    /// Whether an event of rank i says this.
    fn has(&self, i: u8, mark: Mark) -> bool
        ensures { result ≡ happened (is_marked_lem mark) (history_in self.now i) }
    {
        self.said.contains(&Said { rank: i, mark })
    }

    /// Whether message n of rank i to a rank was withdrawn, or was to be.
    fn is_withdrawn(&self, i: u8, to: u8, n: u64, done: bool) -> bool
        ensures { result ≡ happened (is_withdraw_lem i n done) (history_in self.now to) }
    {
        let mark = Mark::Withdrawn { from: i, n, done };
        self.has(to, mark)
    }

    /// Whether the answer to the recall of message n of rank i to a rank came back.
    fn is_back(&self, i: u8, to: u8, n: u64) -> bool
        ensures { result ≡ (happened (is_undone_lem to n true) (history_in self.now i)
            || happened (is_undone_lem to n false) (history_in self.now i)) }
    {
        let done = Mark::Undone { to, n, done: true };
        let late = Mark::Undone { to, n, done: false };
        self.has(i, done) || self.has(i, late)
    }

    /// Message n of a rank is whole at rank i.
    fn with_whole(&mut self, i: u8, from: u8, n: u64) -> Result<(), Memory>
        ensures { OnOk result (self.new ≡ with_whole self.old i from n) }
    {
        if self.has(i, Mark::Whole { from, n }) {
            return Ok(());
        }
        self.push(i, Happened::Whole { from, n })
    }

    /// Message n of rank i to a rank has left.
    fn with_out(&mut self, i: u8, to: u8, n: u64) -> Result<(), Memory>
        ensures { OnOk result (self.new ≡ with_out self.old i to n) }
    {
        if self.has(i, Mark::Out { to, n }) {
            return Ok(());
        }
        self.push(i, Happened::Out { to, n })
    }

    /// It was to be withdrawn, too late.
    fn with_late(&mut self, i: u8, to: u8, n: u64) -> Result<(), Memory>
        ensures { OnOk result (self.new ≡ with_late self.old i to n) }
    {
        if self.is_withdrawn(i, to, n, false) {
            return Ok(());
        }
        let late = Happened::Withdraw {
            from: i,
            n,
            done: false,
        };
        self.push(to, late)
    }

    /// The answer to its recall came back.
    fn with_undone(&mut self, i: u8, to: u8, n: u64, done: bool) -> Result<(), Memory>
        ensures { OnOk result (self.new ≡ with_undone self.old i to n done) }
    {
        if self.is_back(i, to, n) {
            return Ok(());
        }
        self.push(i, Happened::Undone { to, n, done })
    }

    /// Its recall is answered.
    fn with_answer(&mut self, i: u8, to: u8, n: u64) -> Result<(), Memory>
        ensures { OnOk result (self.new ≡ with_answer self.old i to n) }
    {
        if self.is_withdrawn(i, to, n, true) {
            return self.with_undone(i, to, n, true);
        }
        self.with_late(i, to, n)?;
        self.with_undone(i, to, n, false)
    }

    /// .. if it was recalled.
    fn answered(&mut self, i: u8, to: u8, n: u64) -> Result<(), Memory>
        ensures { OnOk result (self.new ≡ answered self.old i to n) }
    {
        if self.has(i, Mark::Recalled { to, n }) {
            self.with_answer(i, to, n)
        } else {
            Ok(())
        }
    }

    /// What the result of a send needs.
    fn before_sent(&mut self, i: u8, to: u8, n: u64) -> Result<(), Memory>
        ensures { OnOk result (self.new ≡ before_sent self.old i to n) }
    {
        if self.is_withdrawn(i, to, n, true) {
            return self.answered(i, to, n);
        }
        self.answered(i, to, n)?;
        self.with_out(i, to, n)
    }

    /// What the result of a receive needs.
    fn before_got(&mut self, i: u8, rank: &Rank, number: u64) -> Result<(), Memory>
        ensures { OnOk result (self.new ≡ before_got self.old i rank.now number) }
    {
        if rank.is_off(number) {
            return Ok(());
        }
        match pair_of(rank, number) {
            Some(pair) => self.with_whole(i, pair.arrival.env.from, pair.arrival.n),
            None => Ok(()),
        }
    }

    /// What the result of a request needs.
    fn before_result(&mut self, i: u8, rank: &Rank, request: Request) -> Result<(), Memory>
        ensures { OnOk result (self.new ≡ before_result self.old i rank.now (meant_by request)) }
    {
        match request {
            Request::Sending { to, n } => self.before_sent(i, to, n),
            Request::Receiving { number } => self.before_got(i, rank, number),
        }
    }

    /// What the answer of a line needs.
    fn before_answer(
        &mut self,
        lines: &[Line],
        i: u8,
        rank: &Rank,
        line: u64,
        reply: Reply,
    ) -> Result<(), Memory>
        ensures { OnOk result (self.new ≡ before_answer lines.now self.old i rank.now line reply) }
    {
        if !is_result(reply) {
            return Ok(());
        }
        match request_asked(lines, i, rank, line) {
            Some(request) => self.before_result(i, rank, request),
            None => Ok(()),
        }
    }

    /// What a move needs.
    pub(crate) fn before_move(
        &mut self,
        lines: &[Line],
        i: u8,
        rank: &Rank,
        by: Move,
    ) -> Result<(), Memory>
        ensures { OnOk result (self.new ≡ before_move lines.now self.old i rank.now by) }
    {
        match by {
            Move::Act(Deed::Ran { line, reply }) => self.before_answer(lines, i, rank, line, reply),
            _ => Ok(()),
        }
    }

    /// Message n of rank i to rank j leaves and becomes whole.
    fn leave(&mut self, i: u8, j: u8, n: u64) -> Result<(), Memory>
        ensures { OnOk result (self.new ≡ with_whole (with_out self.old i j n) j i n) }
    {
        self.with_out(i, j, n)?;
        self.with_whole(j, i, n)
    }

    /// All that is left of message n of rank i to rank j.
    fn over(&mut self, rank: &Rank, other: &Rank, i: u8, j: u8, n: u64) -> Result<(), Memory>
        ensures { OnOk result (self.new ≡ over rank.now other.now i j n self.old) }
    {
        self.answered(i, j, n)?;
        if may_leave(rank, other, i, j, n) {
            self.leave(i, j, n)
        } else {
            Ok(())
        }
    }

    /// .. of all messages of rank i to rank j.
    pub(crate) fn all_over(&mut self, rank: &Rank, other: &Rank, i: u8, j: u8) -> Result<(), Memory>
        ensures { OnOk result (self.new ≡ each_below (λ n log. over rank.now other.now i j n log)
            (count_by (is_send_by j) rank.now.deeds) self.old) }
    {
        for n in 0..sent(rank.deeds(), j) {
            self.over(rank, other, i, j, n)?;
        }
        Ok(())
    }

    /// The entries, given away.
    pub(crate) fn into_vec(self) -> Vec<Entry>
        ensures { result.items ≡ self }
    {
        let Log { entries, said: _ } = self;
        entries
    }
}
