//! The report of the plain run.

ghost use Rattle.std.specs.Prelude.{◌≡◌, ℕ, ◌*◌, ◌<◌, ◌≤◌, [], IfOk, Some, length, map, filter_map};
ghost use Rattle.std.specs.Prelude.{is_none, is_some, slice_get, take};
ghost use Rattle.std.specs.List.{list_all};
ghost use Rattle.nm_types.specs.Bodies as bodies;
ghost use Rattle.nm_types.specs.Bodies.{body_len};
ghost use Rattle.nm_types.specs.Commands.{Numbered, commands_of};
ghost use Rattle.nm_types.specs.Limits.{sent_len};
ghost use Rattle.nm_history.specs.Sends.{sent_bytes};
ghost use Rattle.nm_report.specs.Told.{told_by, told_of_rank};
ghost use Rattle.nm_sure.specs.Agree.{ArePlain};
ghost use Rattle.nm_sure.specs.Names.{started_name};
ghost use Rattle.nm_sure.specs.Plain.{at_of};
ghost use Rattle.nm_sure.specs.PlainText.{plain_answer, plain_done, plain_text, result_at};
ghost use Rattle.nm_sure.specs.PlainText.{shown_of, start_answer, told_after, told_at};
ghost use Rattle.nm_sure.specs.Planned.{IsLine, IsStart};
ghost use Rattle.nm_sure.specs.Ways.{channel_of};

use crate::partners::{Way, receive_way};
use crate::runs::{Plan, make_plan, place_of};
use nm_history::{Event, Happened, History};
use nm_report::laws::reports_say_what_was_told;
use nm_report::{Accounts, Pairs, RankAccount, RunRecord, report};
use nm_types::laws::{bodies_have_their_length, commands_stand_at_their_lines};
use nm_types::{Account, Answer, Body, Bytes, Command, Memory, Script, Shape};
use std::alloc::Global;

/// What the plain run of a script writes.
#[derive(Drop)]
pub struct PlainRun {
    /// The report, as bytes, each line ended by a line feed.
    pub text: Vec<u8>,
    /// Whether every rank is at its end.
    pub done: bool,
}

/// The bytes of a body.
fn bytes_of(alloc: Global, body: &Body) -> Result<Bytes, Memory>
    requires { body_len body.now < 4294967296 }
    ensures { IfOk result (λ bytes. bytes ≡ bodies.bytes_of body.now) }
{
    bodies_have_their_length();
    let mut bytes = Vec::new(alloc);
    for k in 0..body.len() {
        bytes.push(body.byte(k))?;
    }
    Ok(Bytes::from_vec(bytes))
}

/// What a receive of this capacity shows of a send.
fn shown(alloc: Global, way: Way, cap: u32, sent: &Command) -> Result<Answer, Memory>
    requires { sent_len sent.now < 4294967296 }
    ensures { IfOk result (λ answer.
        answer ≡ shown_of (channel_of way) cap (sent_bytes sent.now)) }
{
    bodies_have_their_length();
    let Way { from, tag, .. } = way;
    let Command::Send { body, .. } = sent else {
        let body = Bytes::new(alloc);
        return Ok(Answer::Got { from, tag, body });
    };
    let len = body.len();
    if cap < len {
        return Ok(Answer::Cut { from, tag, len });
    }
    let body = bytes_of(alloc, body)?;
    Ok(Answer::Got { from, tag, body })
}

/// What the request of the start of a line ends with.
fn result(alloc: Global, plan: &Plan, start: u64) -> Result<Answer, Memory>
    requires line { (rank : ℕ) × IsStart plan.now.lines.now rank start }
    ensures { IfOk result (λ answer. (rank : ℕ) → IsStart plan.now.lines.now rank start →
        answer ≡ result_at plan.now.lines.now rank start) }
{
    commands_stand_at_their_lines();
    let place = place_of(start);
    let line = &plan.lines[place];
    let Command::Recv { cap, .. } = &line.command else {
        return Ok(Answer::Sent);
    };
    let Some(way) = receive_way(line) else {
        return Ok(Answer::Null);
    };
    match plan.partners[place] {
        Some(partner) => shown(alloc, way, *cap, &plan.lines[place_of(partner)].command),
        None => Ok(Answer::Null),
    }
}

/// A command that starts a request.
fn is_start(command: &Command) -> bool
    ensures { result ≡ is_some (started_name command.now) }
{
    matches!(command, Command::Send { .. } | Command::Recv { .. })
}

/// The answer to a start whose name stands for this one.
fn started(held: Option<u64>) -> Answer
    ensures { result ≡ start_answer held }
{
    match held {
        Some(_) => Answer::Busy,
        None => Answer::Started,
    }
}

/// The answer of the command of a line.
fn answer(alloc: Global, plan: &Plan, number: u64) -> Result<Answer, Memory>
    requires line { IsLine plan.now.lines.now number }
    ensures { IfOk result (λ answer. (rank n : ℕ) (c : Numbered) →
        slice_get (commands_of rank plan.now.lines.now) n ≡ Some c → c.line ≡ number →
        answer ≡ plain_answer plan.now.lines.now rank
        (take n (commands_of rank plan.now.lines.now)) c.command) }
{
    let place = place_of(number);
    let held = plan.held[place];
    if is_start(&plan.lines[place].command) {
        return Ok(started(held));
    }
    match held {
        Some(start) => result(alloc, plan, start),
        None => Ok(Answer::Null),
    }
}

/// The answers of a rank's first commands, as a history.
fn history(alloc: Global, plan: &Plan, rank: usize, at: u64) -> Result<History, Memory>
    requires rank { rank < length plan.now.ranks.items }
    requires within { at ≤ length (commands_of rank plan.now.lines.now) }
    ensures { IfOk result (λ history. filter_map (λ e. told_by e.what) history.events
        ≡ told_after plan.now.lines.now rank [] (take at (commands_of rank plan.now.lines.now))) }
{
    let own = plan.ranks[rank].as_slice();
    let mut events = Vec::new(alloc);
    for line in &own[..at as usize] {
        let line = *line;
        let answer = answer(alloc, plan, line)?;
        let what = Happened::Ran { line, answer };
        events.push(Event { stamp: 0, what })?;
    }
    Ok(History::from_vec(events))
}

/// What becomes of each rank.
fn accounts(alloc: Global, plan: &Plan, at: &[u64]) -> Result<Accounts, Memory>
    requires ranks { length at.now ≡ length plan.now.ranks.items }
    requires within { (rank : ℕ) →
        at_of at.now rank ≤ length (commands_of rank plan.now.lines.now) }
    ensures { IfOk result (λ accounts. map told_of_rank accounts
        ≡ told_at plan.now.lines.now at.now) }
{
    let mut accounts = Vec::new(alloc);
    for (rank, ran) in at.iter().enumerate() {
        let history = history(alloc, plan, rank, *ran)?;
        let waits = plan.next(at, rank);
        accounts.push(RankAccount {
            history,
            at: *ran,
            waits,
        })?;
    }
    Ok(Accounts::from_vec(accounts))
}

/// No rank waits.
fn are_done(accounts: &[RankAccount]) -> bool
    ensures { result ≡ list_all (λ account. is_none account.waits) accounts.now }
{
    accounts.iter().all(|account| account.waits.is_none())
}

/// The account of a run whose cells are all with their owners.
fn all_home(shape: Shape) -> Account
    ensures { result ≡ record {
      total = shape.ranks * shape.cells;
      home = shape.ranks * shape.cells;
    } }
{
    let total = u32::from(shape.ranks()) * u32::from(shape.cells());
    Account { total, home: total }
}

/// The plain run of a plain script: its report, and whether every rank is at its end.
///
/// Every run of the script has this report, whatever its threads do (MPI 3.1, 3.5 and 3.7.3). It
/// answers `Memory` only for want of memory. Its time grows with the lines times the ranks.
pub fn plain(alloc: Global, script: &Script, shape: Shape) -> Result<PlainRun, Memory>
    requires plain { ArePlain script.now.lines }
    requires ranks { shape.ranks ≡ script.now.ranks }
    ensures text { IfOk result (λ run. run.text.items ≡ plain_text shape script.now.lines) }
    ensures done { IfOk result (λ run. run.done ≡ plain_done shape script.now.lines) }
{
    reports_say_what_was_told();
    let plan = make_plan(alloc, script, shape.eager())?;
    let reached = plan.reached(alloc)?;
    let ranks = accounts(alloc, &plan, reached.at.as_slice())?;
    let done = are_done(ranks.as_slice());
    let run = RunRecord {
        shape,
        ranks,
        pairs: Pairs::new(alloc),
        cells: all_home(shape),
        done,
    };
    let text = report(alloc, &run)?;
    Ok(PlainRun { text, done })
}
