//! The answers of commands.

ghost use Rattle.std.specs.Prelude.{◌≡◌, ℕ, List, Some, option_map, slice_get, take};
ghost use Rattle.nm_types.specs.Commands.{Numbered, command_at};
ghost use Rattle.nm_types.specs.declared.answers.Answer as given_answer;
ghost use Rattle.nm_types.specs.declared.scripts.Line as script_line;
ghost use Rattle.nm_history.specs.declared.events.Event as event;
ghost use Rattle.nm_history.specs.declared.events.Happened.TheVariants.{Ran};
ghost use Rattle.nm_history.specs.Answers.{answer_of, without_bytes};
ghost use Rattle.nm_history.specs.Answers.{arrival_claimed as arrival_claimed_lem};
ghost use Rattle.nm_lookups.specs.Looks.{found_by};
ghost use Rattle.nm_lookups.specs.Deciding.{Decides};
ghost use Rattle.nm_check_rank.specs.Handles.{IsOfHandle, IsOfName};
ghost use Rattle.nm_check_rank.specs.Runs.{IsRun, commands_in};
ghost use Rattle.nm_check_rank.specs.Tabled.{AreRankTables};
ghost use Rattle.nm_check_rank.specs.Told.{untold};

use crate::paired::arrivals::arrival_claimed;
use crate::paired::results::{cancel_answer, test_answer, wait_answer};
use crate::paired::runs::Run;
use crate::paired::tables::Tables;
use crate::paired::told::{
    Told, await_answer, claim_answer, is_told, probe_answer, receive_answer, start_answer,
};
use nm_lookups::asked::requests::Request;
use nm_lookups::firsts::Message;
use nm_types::{Answer, Arrival, Command};

/// The answer that a command has by what was found: the live request of its name, the live message
/// of its handle, what it claimed, and the first free message that it selects.
fn answer_by(
    tables: &Tables,
    command: &Command,
    request: Option<Request>,
    message: Option<Message>,
    claimed: Option<Arrival>,
    found: Option<Arrival>,
    k: usize,
) -> Option<Told>
    ensures { (rank : ℕ) (lines : List script_line.Line) (h : List event.Event)
        (commands : List Numbered) (line : ℕ) → AreRankTables rank lines h tables.now →
        IsOfName commands (take k h) command.now request →
        IsOfHandle commands (take k h) command.now message →
        claimed ≡ arrival_claimed_lem (take k h) line → found ≡ found_by (take k h) command.now →
        option_map untold result ≡ answer_of commands (take k h) line command.now }
{
    match command {
        Command::Send { .. } => Some(start_answer(request.is_some())),
        Command::Recv { .. } => Some(start_answer(request.is_some())),
        Command::Wait { .. } => wait_answer(tables, request, k),
        Command::Test { .. } => Some(test_answer(tables, request, k)),
        Command::Probe { .. } => Some(probe_answer(found)),
        Command::Await { .. } => await_answer(found),
        Command::Cancel { .. } => Some(cancel_answer(tables, request, k)),
        Command::Mprobe { .. } => claim_answer(message.is_some(), claimed, found),
        Command::Mrecv { .. } => Some(receive_answer(request.is_some(), message.is_some())),
    }
}

/// The answer that the events before a place give to the command of its line.
pub(crate) fn answer_told(run: &Run, command: &Command, k: usize, line: u64) -> Option<Told>
    requires { IsRun run.now }
    ensures { (e : event.Event) (answer : given_answer.Answer) →
        slice_get run.now.events.now k ≡ Some e → e.what ≡ Ran line answer →
        command_at (commands_in run.now) line ≡ Some command.now → option_map untold result
        ≡ answer_of (commands_in run.now) (take k run.now.events.now) line command.now }
{
    let tables = run.tables;
    let request = tables.asked.request(k);
    let message = tables.asked.message(k);
    let claimed = arrival_claimed(run.events, &tables.places, line, k);
    let found = tables.pairing.look(k);
    answer_by(tables, command, request, message, claimed, found, k)
}

/// Whether an answer is the one that a command has.
pub(crate) fn is_answer_told(told: Option<Told>, answer: &Answer) -> bool
    ensures { Decides result (option_map untold told ≡ Some (without_bytes answer.now)) }
{
    match told {
        Some(told) => is_told(told, answer),
        None => false,
    }
}
