//! What is called for at the answer to a start, and at the receive of a claimed message.

ghost use Rattle.std.specs.Prelude.{◌≡◌, ℕ, true, false, if◌then◌else◌, List, [], ◌∷◌, Some, None};
ghost use Rattle.std.specs.Prelude.{option_copied, slice_get, take};
ghost use Rattle.nm_types.specs.Commands.{Numbered, command_at, commands_of};
ghost use Rattle.nm_types.specs.declared.answers.Answer.{Answer};
ghost use Rattle.nm_history.specs.declared.events.Event as event;
ghost use Rattle.nm_history.specs.declared.events.Happened as occurrence;
ghost use Rattle.nm_history.specs.declared.events.Happened.TheVariants as happening;
ghost use Rattle.nm_history.specs.RankRun.{is_start, lacks_message, start_of, starts_since};
ghost use Rattle.nm_lookups.specs.SinceAnswer.{IsSince};
ghost use Rattle.nm_match.specs.declared.names.Message as message_lem;
ghost use Rattle.nm_check_rank.specs.Arguments.{IsFirstMismatch, arguments};
ghost use Rattle.nm_check_rank.specs.Handles.{IsOfHandle};
ghost use Rattle.nm_check_rank.specs.Manies.{many_of as many_of_lem};
ghost use Rattle.nm_check_rank.specs.Runs.{IsRun, commands_in};
ghost use Rattle.nm_check_rank.specs.Startings as spec;
ghost use Rattle.nm_check_rank.specs.Startings.{IsAnswerDue, IsStartDue, IsStartsDue, IsTakenDue};

use crate::paired::arguments::{Mismatch, match_mismatch, post_mismatch, send_mismatch};
use crate::paired::dues::{Due, against};
use crate::paired::limits::one_due;
use crate::paired::manies::{Many, many_due, many_of};
use crate::paired::objections::{Objection, match_objection};
use crate::paired::runs::Run;
use crate::paired::starts::length_of;
use nm_history::{Event, Happened};
use nm_lookups::asked::commands::command_of_line;
use nm_lookups::asked::requests::is_started;
use nm_lookups::asked::since::Since;
use nm_lookups::firsts::Message;
use nm_types::{Command, Line};

/// The first argument that is another one, or else what is called for by how it is sent.
fn mismatch_due(first: Option<Mismatch>, other: Option<Due>) -> Option<Due>
    ensures { result ≡ spec.mismatch_due first other }
{
    match first {
        Some(mismatch) => Some(Due::Argument { mismatch }),
        None => other,
    }
}

/// The first argument in which a start is not the receive of the message of a handle.
fn held_mismatch(what: &Happened, message: Option<Message>, cap: u32, line: u64) -> Option<Mismatch>
    ensures { (m : message_lem.Message) → message ≡ Some m → IsFirstMismatch
        (arguments (happening.Match 0 m.rank m.n cap line)) (arguments what.now) result }
{
    match message {
        Some(message) => match_mismatch(what, message, cap, line),
        None => None,
    }
}

/// The first argument in which an event is not the start that the command of a line calls for.
fn first_mismatch(
    what: &Happened,
    command: &Command,
    message: Option<Message>,
    line: u64,
) -> Option<Mismatch>
    ensures { (limit : ℕ) (commands : List Numbered) (before : List event.Event)
        (w : occurrence.Happened) → IsOfHandle commands before command.now message →
        is_start what.now ≡ true → start_of limit commands before line command.now ≡ w ∷ [] →
        IsFirstMismatch (arguments w) (arguments what.now) result }
{
    match command {
        Command::Send {
            to,
            tag,
            ctx,
            body,
            ..
        } => send_mismatch(what, *to, *tag, *ctx, length_of(body), line),
        Command::Recv {
            from,
            tag,
            ctx,
            cap,
            ..
        } => post_mismatch(what, *from, *tag, *ctx, *cap, line),
        Command::Mrecv { cap, .. } => held_mismatch(what, message, *cap, line),
        _ => None,
    }
}

/// Whether a command is a matched receive whose handle has no live message.
fn lacks(command: &Command, message: Option<Message>) -> bool
    ensures { (commands : List Numbered) (before : List event.Event) →
        IsOfHandle commands before command.now message →
        result ≡ lacks_message commands before command.now }
{
    match command {
        Command::Mrecv { .. } => message.is_none(),
        _ => false,
    }
}

/// How many starts a command calls for, where it lacks no message.
fn starts_called(command: &Command) -> Many
    ensures { (limit : ℕ) (commands : List Numbered) (before : List event.Event) (line : ℕ) →
        lacks_message commands before command.now ≡ false →
        result ≡ many_of_lem (start_of limit commands before line command.now) }
{
    match command {
        Command::Send { .. } => Many::One,
        Command::Recv { .. } => Many::One,
        Command::Mrecv { .. } => Many::One,
        _ => Many::Nothing,
    }
}

/// What is called for where a command that lacks no message has one start, which is this event.
fn found_due(
    what: &Happened,
    command: &Command,
    message: Option<Message>,
    line: u64,
    limit: u16,
) -> Option<Due>
    ensures { (commands : List Numbered) (before : List event.Event) →
        IsOfHandle commands before command.now message →
        lacks_message commands before command.now ≡ false → is_start what.now ≡ true →
        IsStartsDue limit command.now (start_of limit commands before line command.now)
        (what.now ∷ []) result }
{
    let called = starts_called(command);
    match called {
        Many::One => {
            let first = first_mismatch(what, command, message, line);
            mismatch_due(first, one_due(limit, what, command))
        }
        _ => many_due(called, Many::One),
    }
}

/// What is called for where the command of a line was taken.
fn taken_due(
    run: &Run,
    since: Since,
    k: usize,
    command: &Command,
    message: Option<Message>,
    line: u64,
) -> Option<Due>
    requires { IsSince is_start run.now.events.now k since }
    ensures { (commands : List Numbered) →
        IsOfHandle commands (take k run.now.events.now) command.now message →
        IsTakenDue run.now.shape.eager commands (take k run.now.events.now) line command.now
        (starts_since (take k run.now.events.now)) result }
{
    if lacks(command, message) {
        return Some(Due::Against {
            objection: Objection::NoMessage,
        });
    }
    let events = run.events;
    match since {
        Since::One(place) => {
            let what = &events[place].what;
            found_due(what, command, message, line, run.shape.eager())
        }
        _ => many_due(starts_called(command), many_of(since)),
    }
}

/// The command of a line, if it was taken.
fn started_command(lines: &[Line], rank: u8, line: u64, started: bool) -> Option<&Command>
    ensures { option_copied result
        ≡ (if started then command_at (commands_of rank lines.now) line else None) }
{
    if started {
        command_of_line(lines, rank, line)
    } else {
        None
    }
}

/// What is called for at the answer to the command of a line.
fn answer_due(run: &Run, since: Since, k: usize, line: u64, started: bool) -> Option<Due>
    requires run { IsRun run.now }
    requires left { IsSince is_start run.now.events.now k since }
    ensures { (e : event.Event) (answer : Answer) → slice_get run.now.events.now k ≡ Some e →
        e.what ≡ happening.Ran line answer →
        IsAnswerDue run.now.shape.eager (commands_in run.now) (take k run.now.events.now) line
        started result }
{
    match started_command(run.lines, run.rank, line, started) {
        Some(command) => taken_due(run, since, k, command, run.tables.asked.message(k), line),
        None => many_due(Many::Nothing, many_of(since)),
    }
}

/// What is called for at a place by the rule on starts.
pub(crate) fn start_due(run: &Run, since: Since, k: usize, e: &Event) -> Option<Due>
    requires run { IsRun run.now }
    requires left { IsSince is_start run.now.events.now k since }
    requires here { slice_get run.now.events.now k ≡ Some e.now }
    ensures { IsStartDue run.now.shape.eager (commands_in run.now) (take k run.now.events.now)
        e.now.what result }
{
    match &e.what {
        Happened::Ran { line, answer } => answer_due(run, since, k, *line, is_started(answer)),
        _ => against(match_objection(run.tables, k, &e.what)),
    }
}
