//! The ends of a search, and what the ranks told there.

ghost use Rattle.std.specs.Prelude.{◌≡◌, ℕ, ◌<◌, ◌++◌, [], IfOk, IsTrue, List, None, OnOk, Some, filter_map};
ghost use Rattle.std.specs.Prelude.{false, map, option_copied, option_map, slice_get};
ghost use Rattle.std.specs.List.{cons_option};
ghost use Rattle.nm_types.specs.Bodies as bodies;
ghost use Rattle.nm_types.specs.Bodies.{body_len};
ghost use Rattle.nm_history.specs.declared.events.Happened.TheVariants as event;
ghost use Rattle.nm_report.specs.Told.{told_by, told_of_rank};
ghost use Rattle.nm_outcomes.specs.Deeds.{answer_meant, happening as happening_lem};
ghost use Rattle.nm_outcomes.specs.Deeds.{bytes_at as bytes_at_lem};
ghost use Rattle.nm_explored.specs.Successors.{is_withdrawn_next, message_next, spot_in};
ghost use Rattle.nm_search.specs.Lists.{AddsOnly, Has, Extends};
ghost use Rattle.nm_explored.specs.Ends.{AreEndsAmong, AreEndsByWay, AreOnlyEnds, IsEndAmong};
ghost use Rattle.nm_explored.specs.Ends.{IsToldAmong, IsToldIn, TellsOnly};
ghost use Rattle.nm_explored.specs.Ends.{AreEnds, AreShort, IfAll};
ghost use Rattle.nm_explored.specs.Rests.{AreAtRest, IsAtRest, IsHeldUp};
ghost use Rattle.nm_explored.specs.Ends.{TellsAll, all_told};
ghost use Rattle.nm_explored.specs.Rests.{is_waiting as is_waiting_lem};
ghost use Rattle.nm_explored.specs.Ends.{told_at_end, told_in};
ghost use Rattle.nm_explored.specs.Met.{AreBack, AreTooMany, IfTooMany, IsAll, IsWay};
ghost use Rattle.nm_explored.specs.Stores.{AreAllLow, states_in};
ghost use Rattle.nm_types.specs.declared.scripts.Line as script_line;

use crate::choices::choices::{View, answer, line_at, may_withdraw, next_message};
use crate::choices::moves::Turn;
use crate::searches::{Search, Setting};
use nm_history::{Event, Happened, History};
use nm_lookups::asked::commands::command_of_line;
use nm_outcomes::spots::deeds::{Deed, Reply};
use nm_outcomes::spots::looks::{is_answer, ran};
use nm_outcomes::spots::ranks::Rank;
use nm_report::{Accounts, RankAccount};
use nm_types::laws::{bodies_have_their_length, commands_stand_at_their_lines};
use nm_types::{Answer, Body, Bytes, Command, How, Line, Memory, Script, Shape};
use std::alloc::Global;
use std::marker::Model;

/// An end of a script, with a way to it.
pub struct End {
    /// What the ranks told: the answers of each, and the line that it waits at.
    pub told: Accounts,
    /// The moves that lead to it, the newest first.
    pub path: Vec<Turn>,
}

impl Drop for End {
    fn drop(self) {
        let End { told: _, path: _ } = self;
    }
}

impl End {
    /// What the ranks told, and the way.
    pub fn into_parts(self) -> (Accounts, Vec<Turn>)
        ensures { result ≡ (self.told, self.path) }
    {
        let End { told, path } = self;
        (told, path)
    }
}

/// The bytes of a body.
fn bytes_of(alloc: Global, body: &Body) -> Result<Bytes, Memory>
    requires { body_len body.now < 4294967296 }
    ensures { IfOk result (λ bytes. bytes ≡ bodies.bytes_of body.now) }
{
    bodies_have_their_length();
    let mut bytes = Vec::new(alloc);
    for k in 0..body.len() {
        bytes.push(body.byte(k))?;
    }
    Ok(Bytes::from_vec(bytes))
}

/// The bytes that the line of a rank sends.
fn bytes_at(alloc: Global, lines: &[Line], from: u8, line: u64) -> Result<Bytes, Memory>
    requires { AreShort lines.now }
    ensures { IfOk result (λ bytes. bytes ≡ bytes_at_lem lines.now from line) }
{
    match command_of_line(lines, from, line) {
        Some(Command::Send { body, .. }) => bytes_of(alloc, body),
        _ => Ok(Bytes::new(alloc)),
    }
}

/// The answer that a reply stands for.
fn answer_of(alloc: Global, lines: &[Line], reply: Reply) -> Result<Answer, Memory>
    requires { AreShort lines.now }
    ensures { IfOk result (λ answer. answer ≡ answer_meant lines.now reply) }
{
    Ok(match reply {
        Reply::Started => Answer::Started,
        Reply::Busy => Answer::Busy,
        Reply::Null => Answer::Null,
        Reply::No => Answer::No,
        Reply::Nothing => Answer::Nothing,
        Reply::Sent => Answer::Sent,
        Reply::Got { from, tag, line } => Answer::Got {
            from,
            tag,
            body: bytes_at(alloc, lines, from, line)?,
        },
        Reply::Cut { from, tag, len } => Answer::Cut { from, tag, len },
        Reply::Cancelled => Answer::Cancelled,
        Reply::Seen(seen) => Answer::Seen(seen),
        Reply::Done => Answer::Done,
        Reply::Late => Answer::Late,
        Reply::Asked => Answer::Asked,
    })
}

/// The event of a send.
fn sending(to: u8, n: u64, tag: u16, ctx: u8, len: u32, how: How, line: u64) -> Happened
    ensures { result ≡ event.Send to n tag ctx len how line }
{
    Happened::Send {
        to,
        n,
        tag,
        ctx,
        len,
        how,
        line,
    }
}

/// What a deed stands for.
pub fn happening(alloc: Global, lines: &[Line], deed: Deed) -> Result<Happened, Memory>
    requires { AreShort lines.now }
    ensures { IfOk result (λ what. what ≡ happening_lem lines.now deed) }
{
    Ok(match deed {
        Deed::Send {
            to,
            n,
            tag,
            ctx,
            len,
            how,
            line,
        } => sending(to, n, tag, ctx, len, how, line),
        Deed::Post { receive, line } => Happened::Post {
            post: receive.post(),
            line,
        },
        Deed::Match {
            number,
            from,
            n,
            cap,
            line,
        } => Happened::Match {
            number,
            from,
            n,
            cap,
            line,
        },
        Deed::Cancel { number, done } => Happened::Cancel { number, done },
        Deed::Recall { to, n } => Happened::Recall { to, n },
        Deed::Claim { from, n, line } => Happened::Claim { from, n, line },
        Deed::Ran { line, reply } => Happened::Ran {
            line,
            answer: answer_of(alloc, lines, reply)?,
        },
    })
}

/// Adds an event for a deed, if it is an answer.
fn push_answer(
    alloc: Global,
    lines: &[Line],
    deed: Deed,
    events: &mut Vec<Event>,
) -> Result<(), Memory>
    requires { AreShort lines.now }
    ensures { OnOk result (filter_map (λ e. told_by e.what) events.new.items
        ≡ filter_map (λ e. told_by e.what) events.old.items
        ++ cons_option (told_by (happening_lem lines.now deed)) []) }
{
    if is_answer(&deed) {
        let what = happening(alloc, lines, deed)?;
        events.push(Event { stamp: 0, what })?;
    }
    Ok(())
}

/// The answers of a rank, as a history.
fn history(alloc: Global, lines: &[Line], deeds: &[Deed]) -> Result<History, Memory>
    requires { AreShort lines.now }
    ensures { IfOk result (λ history. filter_map (λ e. told_by e.what) history.events
        ≡ filter_map (λ d. told_by (happening_lem lines.now d)) deeds.now) }
{
    let mut events = Vec::with_capacity(alloc, ran(deeds))?;
    for deed in deeds {
        push_answer(alloc, lines, *deed, &mut events)?;
    }
    Ok(History::from_vec(events))
}

/// What a rank told.
fn account(alloc: Global, lines: &[Line], i: u8, rank: &Rank) -> Result<RankAccount, Memory>
    requires { AreShort lines.now }
    ensures { IfOk result (λ account. told_of_rank account ≡ told_in lines.now i rank.now) }
{
    let at = ran(rank.deeds());
    let history = history(alloc, lines, rank.deeds())?;
    let waits = line_at(lines, i, at);
    Ok(RankAccount {
        history,
        at: at as u64,
        waits,
    })
}

/// Adds what a rank told, if it is there.
fn push_account(
    alloc: Global,
    lines: &[Line],
    i: u8,
    rank: Option<&Rank>,
    accounts: &mut Vec<RankAccount>,
) -> Result<(), Memory>
    requires { AreShort lines.now }
    ensures { OnOk result (map told_of_rank accounts.new.items
        ≡ map told_of_rank accounts.old.items
        ++ cons_option (option_map (told_in lines.now i) (option_copied rank.entry)) []) }
{
    if let Some(rank) = rank {
        accounts.push(account(alloc, lines, i, rank)?)?;
    }
    Ok(())
}

/// What the ranks of a state told.
fn told(alloc: Global, view: View, ranks: u8) -> Result<Accounts, Memory>
    requires { AreShort view.lines.now }
    ensures { IfOk result (λ told. map told_of_rank told ≡ all_told view.entry.lines.now
        (spot_in view.entry.table.now view.entry.ids.now) ranks) }
{
    let mut accounts = Vec::with_capacity(alloc, ranks as usize)?;
    for i in 0..ranks {
        push_account(alloc, view.lines, i, view.rank(i), &mut accounts)?;
    }
    Ok(Accounts::from_vec(accounts))
}

/// Whether a command can be held up.
fn is_waiting(command: &Command) -> bool
    ensures { result ≡ is_waiting_lem command.now }
{
    matches!(command, Command::Wait { .. } | Command::Await { .. })
}

/// Whether the next command of a rank has no answer, if there is one.
fn is_held_up(view: View, i: u8, rank: &Rank) -> bool
    requires { AreShort view.lines.now }
    ensures held { IsHeldUp view.entry.lines.now (spot_in view.entry.table.now view.entry.ids.now) i
        rank.now → IsTrue result }
    ensures only { IsTrue result → IsHeldUp view.entry.lines.now
        (spot_in view.entry.table.now view.entry.ids.now) i rank.now }
{
    let Some(line) = line_at(view.lines, i, ran(rank.deeds())) else {
        return true;
    };
    match command_of_line(view.lines, i, line) {
        Some(command) => is_waiting(command) && answer(view, i, rank, line, command).is_none(),
        None => true,
    }
}

/// Whether no message is under way to a rank.
fn has_no_message(view: View, i: u8, ranks: u8) -> bool
    ensures none { ((from : ℕ) → from < ranks →
        message_next (spot_in view.entry.table.now view.entry.ids.now) i from ≡ None) →
        IsTrue result }
    ensures only { IsTrue result → (from : ℕ) → from < ranks →
        message_next (spot_in view.entry.table.now view.entry.ids.now) i from ≡ None }
{
    for from in 0..ranks {
        if next_message(view, i, from).is_some() {
            return false;
        }
    }
    true
}

/// Whether no message of a rank may be withdrawn.
fn has_no_withdrawal(view: View, i: u8, rank: &Rank) -> bool
    ensures none { ((from n : ℕ) → is_withdrawn_next
        (spot_in view.entry.table.now view.entry.ids.now) i from n ≡ false) → IsTrue result }
    ensures only { IsTrue result →
        spot_in view.entry.table.now view.entry.ids.now i ≡ Some rank.now → (from n : ℕ) →
        is_withdrawn_next (spot_in view.entry.table.now view.entry.ids.now) i from n ≡ false }
{
    for a in rank.came() {
        if may_withdraw(view, i, a.env.from, a.n) {
            return false;
        }
    }
    true
}

/// Whether a rank has no move left, and is at its end or held up.
pub fn is_at_rest(view: View, i: u8, ranks: u8) -> bool
    requires { AreShort view.lines.now }
    ensures rests { IsAtRest ranks view.entry.lines.now
        (spot_in view.entry.table.now view.entry.ids.now) i → IsTrue result }
    ensures only { IsTrue result → IsAtRest ranks view.entry.lines.now
        (spot_in view.entry.table.now view.entry.ids.now) i }
{
    match view.rank(i) {
        Some(rank) => {
            is_held_up(view, i, rank)
                && has_no_message(view, i, ranks)
                && has_no_withdrawal(view, i, rank)
        }
        None => true,
    }
}

/// Whether no rank has a move left.
pub fn is_end(view: View, ranks: u8) -> bool
    requires { AreShort view.lines.now }
    ensures rest { AreAtRest ranks view.entry.lines.now
        (spot_in view.entry.table.now view.entry.ids.now) → IsTrue result }
    ensures only { IsTrue result → AreAtRest ranks view.entry.lines.now
        (spot_in view.entry.table.now view.entry.ids.now) }
{
    for i in 0..ranks {
        if !is_at_rest(view, i, ranks) {
            return false;
        }
    }
    true
}

/// The moves that lead to the state with a number, the newest first.
pub fn way_back(alloc: Global, search: &Search, end: usize) -> Result<Vec<Turn>, Memory>
    ensures { (eager ranks : ℕ) (lines : List script_line.Line) → AreBack eager ranks lines search.now →
        (ids : List ℕ) → slice_get search.now.states end ≡ Some ids →
        IfOk result (λ turns. IsWay eager ranks lines turns.items (states_in search.now.table ids)) }
{
    let mut turns = Vec::new(alloc);
    let mut k = end;
    for _turn in 0..end {
        let way = match search.way(k) {
            Some(way) => way,
            None => return Ok(turns),
        };
        turns.push(Turn {
            rank: way.rank,
            by: way.by,
        })?;
        k = way.before;
    }
    Ok(turns)
}

/// The end that a state is, with the way to it.
fn end_at(alloc: Global, search: &Search, k: usize, view: View, ranks: u8) -> Result<End, Memory>
    requires { AreShort view.lines.now }
    ensures told { IfOk result (λ end. told_at_end end ≡ all_told view.entry.lines.now
        (spot_in view.entry.table.now view.entry.ids.now) ranks) }
    ensures way { (eager ranks : ℕ) (lines : List script_line.Line) → AreBack eager ranks lines search.now →
        (ids : List ℕ) → slice_get search.now.states k ≡ Some ids →
        IfOk result (λ end. IsWay eager ranks lines end.path.items (states_in search.now.table ids)) }
{
    let path = way_back(alloc, search, k)?;
    let told = told(alloc, view, ranks)?;
    Ok(End { told, path })
}

/// Adds a state, if it is an end.
fn push_end(
    alloc: Global,
    search: &Search,
    k: usize,
    view: View,
    ranks: u8,
    ends: &mut Vec<End>,
) -> Result<(), Memory>
    requires { AreShort view.lines.now }
    ensures kept { OnOk result (Extends (map told_at_end ends.old.items) (map told_at_end ends.new.items)) }
    ensures added { OnOk result (AreAtRest ranks view.entry.lines.now
        (spot_in view.entry.table.now view.entry.ids.now) → Has (map told_at_end ends.new.items)
        (all_told view.entry.lines.now (spot_in view.entry.table.now view.entry.ids.now) ranks)) }
    ensures only { OnOk result (AddsOnly (IsToldIn ranks view.entry.lines.now
        (spot_in view.entry.table.now view.entry.ids.now)) (map told_at_end ends.old.items)
        (map told_at_end ends.new.items)) }
    ensures ways { OnOk result (AddsOnly (λ end. IsToldIn ranks view.entry.lines.now
        (spot_in view.entry.table.now view.entry.ids.now) (told_at_end end)
        × ((eager : ℕ) (lines : List script_line.Line) → AreBack eager ranks lines search.now →
        (ids : List ℕ) → slice_get search.now.states k ≡ Some ids →
        IsWay eager ranks lines end.path.items (states_in search.now.table ids)))
        ends.old.items ends.new.items) }
{
    if is_end(view, ranks) {
        ends.push(end_at(alloc, search, k, view, ranks)?)?;
    }
    Ok(())
}

/// Adds the state with a number, if it is an end.
fn push_state(
    alloc: Global,
    search: &Search,
    of: Setting,
    k: usize,
    ends: &mut Vec<End>,
) -> Result<(), Memory>
    requires short { AreShort of.lines.now }
    requires low { AreAllLow search.now }
    ensures kept { OnOk result (Extends (map told_at_end ends.old.items) (map told_at_end ends.new.items)) }
    ensures added { OnOk result ((ids : List ℕ) → slice_get search.now.states k ≡ Some ids →
        AreAtRest of.entry.ranks of.entry.lines.now (spot_in search.now.table ids) →
        Has (map told_at_end ends.new.items)
        (all_told of.entry.lines.now (spot_in search.now.table ids) of.entry.ranks)) }
    ensures only { OnOk result (AddsOnly (IsToldAmong of.entry.ranks of.entry.lines.now search.now)
        (map told_at_end ends.old.items) (map told_at_end ends.new.items)) }
    ensures ways { OnOk result (AddsOnly
        (IsEndAmong of.entry.eager of.entry.ranks of.entry.lines.now search.now)
        ends.old.items ends.new.items) }
{
    match search.states.as_slice().get(k) {
        Some(state) => {
            let all = search.table.state(alloc, state.as_slice())?;
            let view = View {
                eager: of.eager,
                lines: of.lines,
                table: all.ranks.as_slice(),
                ids: all.places.as_slice(),
            };
            push_end(alloc, search, k, view, of.ranks, ends)
        }
        None => Ok(()),
    }
}

/// All ends of a search.
fn ends_of(alloc: Global, search: &Search, of: Setting) -> Result<Vec<End>, Memory>
    requires short { AreShort of.lines.now }
    requires low { AreAllLow search.now }
    ensures all { IfOk result (λ ends.
        AreEnds of.entry.ranks of.entry.lines.now search.now ends.items) }
    ensures only { IfOk result (λ ends.
        AreOnlyEnds of.entry.ranks of.entry.lines.now search.now ends.items) }
    ensures ways { IfOk result (λ ends.
        AreEndsAmong of.entry.eager of.entry.ranks of.entry.lines.now search.now ends.items) }
{
    let mut ends = Vec::new(alloc);
    for k in 0..search.states.as_slice().len() {
        push_state(alloc, search, of, k, &mut ends)?;
    }
    Ok(ends)
}

/// The ends of a script, in the order of the search.
pub struct Ends {
    items: Vec<End>,
}

impl Model for Ends {
    ghost use Rattle.std.specs.Prelude.{List};
    ghost use Rattle.nm_explored.specs.declared.ends.End.{End};

    ghost Value = { List End };

    ghost view = { λ a. a.items.items };
}

impl Drop for Ends {
    fn drop(self) {
        let Ends { items: _ } = self;
    }
}

impl Ends {
    /// The ends, given away.
    pub fn into_vec(self) -> Vec<End>
        ensures { result.items ≡ self }
    {
        let Ends { items } = self;
        items
    }

    /// The ends, in order.
    pub fn as_slice(&self) -> &[End]
        ensures { result.now ≡ self.now }
    {
        self.items.as_slice()
    }
}

/// What a search answers.
pub enum Explored {
    /// All ends.
    All(Ends),
    /// The ranks come into more states than the limit.
    TooMany,
}

/// The ends of a search that found all states.
fn all_ends(alloc: Global, search: &Search, of: Setting) -> Result<Explored, Memory>
    requires short { AreShort of.lines.now }
    requires low { AreAllLow search.now }
    ensures all { IfOk result
        (IfAll (AreEnds of.entry.ranks of.entry.lines.now search.now)) }
    ensures only { IfOk result
        (IfAll (AreOnlyEnds of.entry.ranks of.entry.lines.now search.now)) }
    ensures ways { IfOk result
        (IfAll (AreEndsAmong of.entry.eager of.entry.ranks of.entry.lines.now search.now)) }
    ensures found { IfOk result IsAll }
{
    let items = ends_of(alloc, search, of)?;
    Ok(Explored::All(Ends { items }))
}

/// The ends of a script: all that its ranks can tell, and a way to each. What an end tells is told at a
/// state that moves lead to, at which no rank has a move left. Where its ranks come into more
/// than so many states, it answers that they are too many, and only there.
pub fn explore(
    alloc: Global,
    script: &Script,
    shape: Shape,
    states: u32,
) -> Result<Explored, Memory>
    requires { shape.ranks ≡ script.now.ranks }
    ensures all { IfOk result (IfAll (TellsAll shape script.now.lines)) }
    ensures only { IfOk result (IfAll (TellsOnly shape script.now.lines)) }
    ensures ways { IfOk result (IfAll (AreEndsByWay shape script.now.lines)) }
    ensures many { IfOk result
        (IfTooMany (AreTooMany shape.eager shape.ranks script.now.lines states)) }
{
    commands_stand_at_their_lines();
    let of = Setting {
        lines: script.lines.as_slice(),
        ranks: shape.ranks(),
        eager: shape.eager(),
    };
    let mut search = Search::new(alloc, of.ranks)?;
    let all = search.run(alloc, of, states)?;
    if all {
        all_ends(alloc, &search, of)
    } else {
        Ok(Explored::TooMany)
    }
}
