//! What the command of an event finds of the messages that wait.

ghost use Rattle.std.specs.Prelude.{◌≡◌, List};
ghost use Rattle.nm_types.specs.Commands.{commands_of};
ghost use Rattle.nm_history.specs.declared.events.Event as event;
ghost use Rattle.nm_lookups.specs.Looks.{found_by, line_of_look, look_of};
ghost use Rattle.nm_lookups.specs.Queues.{HasQueuesOf};

use crate::asked::commands::command_of_line;
use nm_history::Happened;
use nm_match::Matcher;
use nm_types::{Arrival, Command, Line};

/// The line of the command that an event answers, or claims a message for.
fn line_of(what: &Happened) -> Option<u64>
    ensures { result ≡ line_of_look what.now }
{
    match what {
        Happened::Ran { line, .. } | Happened::Claim { line, .. } => Some(*line),
        _ => None,
    }
}

/// The first free message that a command selects, if it is a probe, a matched one too.
fn found(matcher: &mut Matcher, command: &Command) -> Option<Arrival>
    ensures found { (h : List event.Event) → HasQueuesOf h matcher.old →
        result ≡ found_by h command.now }
    ensures same { matcher.new ≡ matcher.old }
{
    match command {
        Command::Probe { from, tag, ctx }
        | Command::Await { from, tag, ctx }
        | Command::Mprobe { from, tag, ctx, .. } => {
            matcher.prepare(*from, *tag);
            matcher.probe(*from, *tag, *ctx)
        }
        _ => None,
    }
}

/// What the command of an event finds of the messages that wait in the matcher.
pub(crate) fn look(
    rank: u8,
    lines: &[Line],
    matcher: &mut Matcher,
    what: &Happened,
) -> Option<Arrival>
    ensures found { (h : List event.Event) → HasQueuesOf h matcher.old →
        result ≡ look_of (commands_of rank lines.now) h what.now }
    ensures same { matcher.new ≡ matcher.old }
{
    let number = line_of(what)?;
    let command = command_of_line(lines, rank, number)?;
    found(matcher, command)
}
