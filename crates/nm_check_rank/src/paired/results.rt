//! The results of requests, by the tables of a history.

ghost use Rattle.std.specs.Prelude.{◌≡◌, ◌&&◌, ◌||◌, if◌then◌else◌, ℕ, List, Option, Some, None};
ghost use Rattle.std.specs.Prelude.{option_map};
ghost use Rattle.std.specs.Prelude.{option_and_then, take, true, unwrap_or};
ghost use Rattle.std.specs.Option.{option_map_or};
ghost use Rattle.nm_types.specs.Commands.{Numbered};
ghost use Rattle.nm_types.specs.declared.answers.Answer.TheVariants as answers;
ghost use Rattle.nm_types.specs.declared.scripts.Line as script_line;
ghost use Rattle.nm_history.specs.declared.events.Event as event;
ghost use Rattle.nm_history.specs.Answers.{cancel_answer as cancel_answer_lem};
ghost use Rattle.nm_history.specs.Completion.{is_complete, is_here, result_of, shown as shown_lem};
ghost use Rattle.nm_history.specs.Completion.Request.{Receiving, Sending};
ghost use Rattle.nm_history.specs.Delivery.{asked_pair, pair_of_request};
ghost use Rattle.nm_lookups.specs.Placed.{ArePlaces};
ghost use Rattle.nm_lookups.specs.AskedFor.{meant_by};
ghost use Rattle.nm_check_rank.specs.Handles.{IsOfName};
ghost use Rattle.nm_check_rank.specs.Tabled.{AreRankTables};
ghost use Rattle.nm_check_rank.specs.Told.{untold};

use crate::paired::tables::Tables;
use crate::paired::told::{Told, shown};
use nm_history::laws::complete_has_result;
use nm_history::plain::Pair;
use nm_lookups::asked::requests::Request;
use nm_lookups::firsts::{is_before, is_number_before};
use nm_lookups::kinds::{Cancels, Late, Outs, Recalls, Undone, Wholes};
use nm_lookups::places::Places;
use nm_types::Command;

/// The result of a receive that is paired, before a place.
fn result_of_pair(places: &Places, pair: Pair, k: usize) -> Option<Told>
    ensures { (h : List event.Event) → ArePlaces h places.now →
        option_map untold result
        ≡ (if is_here (take k h) pair then Some (shown_lem pair) else None) }
{
    let wholes = &places.incoming.came.wholes;
    if is_before::<Wholes>(wholes, pair.arrival.env.from, pair.arrival.n, k) {
        Some(shown(pair))
    } else {
        None
    }
}

/// The result of a receive before a place.
fn result_of_receive(tables: &Tables, number: u64, k: usize) -> Option<Told>
    ensures { (rank : ℕ) (lines : List script_line.Line) (h : List event.Event) →
        AreRankTables rank lines h tables.now →
        option_map untold result ≡ result_of (take k h) (Receiving number) }
{
    if is_number_before::<Cancels>(&tables.places.by_number.cancels, number, k) {
        return Some(Told::Cancelled);
    }
    match tables.pairing.pair(number, k) {
        Some(pair) => result_of_pair(&tables.places, pair, k),
        None => None,
    }
}

/// Whether a send is complete: it has left, or where it was recalled, was undone or left late.
fn is_send_complete(recalled: bool, undone: bool, late: bool, out: bool) -> bool
    ensures { result ≡ (if recalled then undone || (late && out) else out) }
{
    if recalled {
        undone || (late && out)
    } else {
        out
    }
}

/// The result of a send, by whether it is complete and was undone.
fn send_result(complete: bool, undone: bool) -> Option<Told>
    ensures { option_map untold result
        ≡ (if complete then Some (if undone then answers.Cancelled else answers.Sent) else None) }
{
    if !complete {
        return None;
    }
    if undone {
        Some(Told::Cancelled)
    } else {
        Some(Told::Sent)
    }
}

/// The result of a send before a place.
fn result_of_send(places: &Places, to: u8, n: u64, k: usize) -> Option<Told>
    ensures { (h : List event.Event) → ArePlaces h places.now →
        option_map untold result ≡ result_of (take k h) (Sending to n) }
{
    let outgoing = &places.outgoing;
    let recalled = is_before::<Recalls>(&outgoing.recalled.recalls, to, n, k);
    let undone = is_before::<Undone>(&outgoing.recalled.undone, to, n, k);
    let late = is_before::<Late>(&outgoing.recalled.late, to, n, k);
    let out = is_before::<Outs>(&outgoing.gone.outs, to, n, k);
    send_result(is_send_complete(recalled, undone, late, out), undone)
}

/// The result of a request before a place.
pub(crate) fn request_result(tables: &Tables, request: Request, k: usize) -> Option<Told>
    ensures { (rank : ℕ) (lines : List script_line.Line) (h : List event.Event) →
        AreRankTables rank lines h tables.now →
        option_map untold result ≡ result_of (take k h) (meant_by request) }
{
    match request {
        Request::Sending { to, n } => result_of_send(&tables.places, to, n, k),
        Request::Receiving { number } => result_of_receive(tables, number, k),
    }
}

/// The answer of a wait for a name's live request.
pub(crate) fn wait_answer(tables: &Tables, request: Option<Request>, k: usize) -> Option<Told>
    ensures { (rank : ℕ) (lines : List script_line.Line) (h : List event.Event) →
        AreRankTables rank lines h tables.now →
        option_map untold result ≡ option_map_or (result_of (take k h))
        (option_map meant_by request) (Some answers.Null) }
{
    match request {
        Some(request) => request_result(tables, request, k),
        None => Some(Told::Null),
    }
}

/// The answer of a test of a name's live request.
pub(crate) fn test_answer(tables: &Tables, request: Option<Request>, k: usize) -> Told
    ensures { (rank : ℕ) (lines : List script_line.Line) (h : List event.Event) →
        AreRankTables rank lines h tables.now →
        untold result ≡ option_map_or (λ request. unwrap_or
        (result_of (take k h) request) answers.No)
        (option_map meant_by request) answers.Null }
{
    match request {
        Some(request) => request_result(tables, request, k).unwrap_or(Told::No),
        None => Told::Null,
    }
}

/// The answer of a cancel of a name's live request.
pub(crate) fn cancel_answer(tables: &Tables, request: Option<Request>, k: usize) -> Told
    ensures { (rank : ℕ) (lines : List script_line.Line) (h : List event.Event) →
        AreRankTables rank lines h tables.now →
        untold result ≡ option_map_or (cancel_answer_lem (take k h))
        (option_map meant_by request) answers.Null }
{
    match request {
        Some(Request::Receiving { number }) => {
            if tables.pairing.is_paired(number, k) {
                Told::Late
            } else {
                Told::Done
            }
        }
        Some(Request::Sending { .. }) => Told::Asked,
        None => Told::Null,
    }
}

/// Whether a wait for a name's live request is over before a place.
pub(crate) fn is_over(tables: &Tables, request: Option<Request>, k: usize) -> bool
    ensures { (rank : ℕ) (lines : List script_line.Line) (h : List event.Event) →
        AreRankTables rank lines h tables.now →
        result ≡ option_map_or (is_complete (take k h)) (option_map meant_by request) true }
{
    complete_has_result();
    match request {
        Some(request) => request_result(tables, request, k).is_some(),
        None => true,
    }
}

/// The pair of a name's live request before a place, if it is a receive.
fn pair_of_name(tables: &Tables, request: Option<Request>, k: usize) -> Option<Pair>
    ensures { (rank : ℕ) (lines : List script_line.Line) (h : List event.Event) →
        AreRankTables rank lines h tables.now →
        result ≡ option_and_then (pair_of_request (take k h)) (option_map meant_by request) }
{
    match request {
        Some(Request::Receiving { number }) => tables.pairing.pair(number, k),
        Some(Request::Sending { .. }) => None,
        None => None,
    }
}

/// The pair whose message a command shows, by the live request of its name.
pub(crate) fn pair_shown(
    tables: &Tables,
    command: &Command,
    request: Option<Request>,
    k: usize,
) -> Option<Pair>
    ensures { (rank : ℕ) (lines : List script_line.Line) (h : List event.Event)
        (commands : List Numbered) → AreRankTables rank lines h tables.now →
        IsOfName commands (take k h) command.now request →
        result ≡ asked_pair commands (take k h) command.now }
{
    match command {
        Command::Wait { .. } => pair_of_name(tables, request, k),
        Command::Test { .. } => pair_of_name(tables, request, k),
        _ => None,
    }
}
