//! Cancels.

ghost use Rattle.std.specs.Prelude.{◌≡◌};
ghost use Rattle.nm_history.specs.RankRun.{is_canceller as is_canceller_lem, is_cancelling};

use nm_history::Happened;
use nm_lookups::asked::since::Called;
use nm_types::Command;

/// A cancel or a recall.
pub(crate) struct Cancelling;

impl Called for Cancelling {
    ghost use Rattle.nm_history.specs.RankRun.{is_cancelling};

    ghost counts = { is_cancelling };

    fn is_called(what: &Happened) -> bool {
        matches!(what, Happened::Cancel { .. } | Happened::Recall { .. })
    }
}

/// Whether a command is a cancel.
pub(crate) fn is_canceller(command: &Command) -> bool
    ensures { result ≡ is_canceller_lem command.now }
{
    matches!(command, Command::Cancel { .. })
}
