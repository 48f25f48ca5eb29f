//! What is called for at the answer to a cancel.

ghost use Rattle.std.specs.Prelude.{◌≡◌, ℕ, false, if◌then◌else◌, None, List, Some};
ghost use Rattle.std.specs.Prelude.{option_map, slice_get, take};
ghost use Rattle.std.specs.Option.{option_map_or};
ghost use Rattle.nm_types.specs.Commands.{command_at, commands_of};
ghost use Rattle.nm_types.specs.declared.answers.Answer.{Answer};
ghost use Rattle.nm_types.specs.declared.scripts.Line as script_line;
ghost use Rattle.nm_history.specs.declared.events.Event as event;
ghost use Rattle.nm_history.specs.declared.events.Happened.TheVariants.{Cancel, Ran, Recall};
ghost use Rattle.nm_history.specs.RankRun.{cancels_since, is_canceller as is_canceller_lem, is_cancelling};
ghost use Rattle.nm_lookups.specs.AskedFor.{meant_by};
ghost use Rattle.nm_lookups.specs.SinceAnswer.{IsSince};
ghost use Rattle.nm_check_rank.specs.Cancellings as spec;
ghost use Rattle.nm_check_rank.specs.Runs.{IsRun, commands_in};
ghost use Rattle.nm_check_rank.specs.Tabled.{AreRankTables};
ghost use Rattle.nm_check_rank.specs.declared.paired.dues.Due.TheVariants as due;
ghost use Rattle.nm_check_rank.specs.declared.paired.objections.Objection.TheVariants as against;

use crate::paired::cancels::is_canceller;
use crate::paired::dues::{Due, against};
use crate::paired::manies::{Many, many_due, many_of};
use crate::paired::objections::{Objection, cancel_objection, word_after};
use crate::paired::runs::Run;
use crate::paired::tables::Tables;
use nm_history::{Event, Happened};
use nm_lookups::asked::commands::command_of_line;
use nm_lookups::asked::requests::Request;
use nm_lookups::asked::since::Since;
use nm_lookups::firsts::is_before;
use nm_lookups::kinds::Recalls;
use nm_types::Line;

/// The cancel is of another request than is called for.
fn of_another(called: Request, found: Request) -> Option<Due>
    ensures { result ≡ Some (due.Of called found) }
{
    Some(Due::Of { called, found })
}

/// The cancel of a receive is of another one, or has the other word.
fn number_due(number: u64, paired: bool, found: u64, done: bool) -> Option<Due>
    ensures { result ≡ spec.receive_due number paired (Cancel found done) }
{
    if number == found {
        against(word_after(!paired, done))
    } else {
        of_another(
            Request::Receiving { number },
            Request::Receiving { number: found },
        )
    }
}

/// A cancel is of another request than this receive, or it has the other word.
fn receive_due(number: u64, paired: bool, what: &Happened) -> Option<Due>
    ensures { result ≡ spec.receive_due number paired what.now }
{
    match what {
        Happened::Cancel {
            number: found,
            done,
        } => number_due(number, paired, *found, *done),
        Happened::Recall { to, n } => of_another(
            Request::Receiving { number },
            Request::Sending { to: *to, n: *n },
        ),
        _ => None,
    }
}

/// A recall is of another message.
fn message_due(to: u8, n: u64, found: u8, m: u64) -> Option<Due>
    ensures { result ≡ spec.send_due to n (Recall found m) }
{
    let same = to == found && n == m;
    if same {
        None
    } else {
        of_another(
            Request::Sending { to, n },
            Request::Sending { to: found, n: m },
        )
    }
}

/// A cancel is of another request than this send.
fn send_due(to: u8, n: u64, what: &Happened) -> Option<Due>
    ensures { result ≡ spec.send_due to n what.now }
{
    match what {
        Happened::Recall { to: found, n: m } => message_due(to, n, *found, *m),
        Happened::Cancel { number, .. } => of_another(
            Request::Sending { to, n },
            Request::Receiving { number: *number },
        ),
        _ => None,
    }
}

/// What is called for where a receive is cancelled.
fn receive_cancels(
    events: &[Event],
    since: Since,
    k: usize,
    number: u64,
    paired: bool,
) -> Option<Due>
    requires { IsSince is_cancelling events.now k since }
    ensures { result ≡ spec.receive_cancels number paired (cancels_since (take k events.now)) }
{
    match since {
        Since::One(place) => receive_due(number, paired, &events[place].what),
        _ => many_due(Many::One, many_of(since)),
    }
}

/// A send was not recalled.
fn unrecalled(recalled: bool) -> Option<Due>
    ensures { result ≡ (if recalled then None else Some (due.Against against.NotRecalled)) }
{
    if recalled {
        None
    } else {
        Some(Due::Against {
            objection: Objection::NotRecalled,
        })
    }
}

/// What is called for where a send is cancelled.
fn send_cancels(
    events: &[Event],
    since: Since,
    k: usize,
    to: u8,
    n: u64,
    recalled: bool,
) -> Option<Due>
    requires { IsSince is_cancelling events.now k since }
    ensures { result ≡ spec.send_cancels to n recalled (cancels_since (take k events.now)) }
{
    match since {
        Since::Nothing => unrecalled(recalled),
        Since::One(place) => send_due(to, n, &events[place].what),
        Since::More => many_due(Many::One, Many::More),
    }
}

/// What is called for where a request is cancelled, if one is.
fn cancels_due(run: &Run, since: Since, k: usize, request: Option<Request>) -> Option<Due>
    requires run { IsRun run.now }
    requires left { IsSince is_cancelling run.now.events.now k since }
    ensures { result ≡ spec.cancels_due (take k run.now.events.now) (option_map meant_by request)
        (cancels_since (take k run.now.events.now)) }
{
    match request {
        Some(Request::Receiving { number }) => {
            let paired = run.tables.pairing.is_paired(number, k);
            receive_cancels(run.events, since, k, number, paired)
        }
        Some(Request::Sending { to, n }) => {
            let recalls = &run.tables.places.outgoing.recalled.recalls;
            let recalled = is_before::<Recalls>(recalls, to, n, k);
            send_cancels(run.events, since, k, to, n, recalled)
        }
        None => many_due(Many::Nothing, many_of(since)),
    }
}

/// Whether the command of a line is a cancel.
fn is_cancel_line(rank: u8, lines: &[Line], line: u64) -> bool
    ensures { result
        ≡ option_map_or is_canceller_lem (command_at (commands_of rank lines.now) line) false }
{
    match command_of_line(lines, rank, line) {
        Some(command) => is_canceller(command),
        None => false,
    }
}

/// The request that the command of a line cancels, which has its answer at a place.
fn cancelled(rank: u8, lines: &[Line], tables: &Tables, k: usize, line: u64) -> Option<Request>
    ensures { (h : List event.Event) (e : event.Event) (answer : Answer) →
        AreRankTables rank lines.now h tables.now → slice_get h k ≡ Some e →
        e.what ≡ Ran line answer → option_map meant_by result
        ≡ spec.cancelled (commands_of rank lines.now) (take k h) line }
{
    if is_cancel_line(rank, lines, line) {
        tables.asked.request(k)
    } else {
        None
    }
}

/// What is called for at a place by the rule on cancels.
pub(crate) fn cancel_due(run: &Run, since: Since, k: usize, e: &Event) -> Option<Due>
    requires run { IsRun run.now }
    requires left { IsSince is_cancelling run.now.events.now k since }
    requires here { slice_get run.now.events.now k ≡ Some e.now }
    ensures { result ≡ spec.cancel_due (commands_in run.now) (take k run.now.events.now) e.now.what }
{
    match &e.what {
        Happened::Ran { line, answer: _ } => {
            let request = cancelled(run.rank, run.lines, run.tables, k, *line);
            cancels_due(run, since, k, request)
        }
        _ => against(cancel_objection(run.tables, k, &e.what)),
    }
}
