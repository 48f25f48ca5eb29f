//! Claims, and the matched probes that call for them.

ghost use Rattle.std.specs.Prelude.{◌≡◌, ◌&&◌, false};
ghost use Rattle.std.specs.Option.{option_map_or};
ghost use Rattle.nm_types.specs.Commands.{command_at, commands_of};
ghost use Rattle.nm_history.specs.Answers.{is_seen as is_seen_lem};
ghost use Rattle.nm_history.specs.RankRun.{is_matched_probe, line_of_claim};

use nm_history::Happened;
use nm_lookups::asked::commands::command_of_line;
use nm_lookups::asked::handles::is_seen;
use nm_lookups::asked::since::Called;
use nm_types::{Answer, Command, Line};

/// A claim.
pub(crate) struct Claiming;

impl Called for Claiming {
    ghost use Rattle.nm_check_rank.specs.Kinds.{is_claiming};

    ghost counts = { is_claiming };

    fn is_called(what: &Happened) -> bool {
        matches!(what, Happened::Claim { .. })
    }
}

fn is_mprobe(command: &Command) -> bool
    ensures { result ≡ is_matched_probe command.now }
{
    matches!(command, Command::Mprobe { .. })
}

/// Whether the command of a line is a matched probe.
pub(crate) fn is_mprobe_line(rank: u8, lines: &[Line], line: u64) -> bool
    ensures { result
        ≡ option_map_or is_matched_probe (command_at (commands_of rank lines.now) line) false }
{
    match command_of_line(lines, rank, line) {
        Some(command) => is_mprobe(command),
        None => false,
    }
}

/// Whether an answer calls for a claim: that of a matched probe which shows a message.
pub(crate) fn calls_for_claim(rank: u8, lines: &[Line], line: u64, answer: &Answer) -> bool
    ensures { result
        ≡ (option_map_or is_matched_probe (command_at (commands_of rank lines.now) line) false
        && is_seen_lem answer.now) }
{
    is_mprobe_line(rank, lines, line) && is_seen(answer)
}

/// The line of a claim.
pub(crate) fn claim_line(what: &Happened) -> Option<u64>
    ensures { result ≡ line_of_claim what.now }
{
    match what {
        Happened::Claim { line, .. } => Some(*line),
        _ => None,
    }
}
