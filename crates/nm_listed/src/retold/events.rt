//! The events that moves stand for.

ghost use Rattle.std.specs.Prelude.{◌≡◌, IfOk};
ghost use Rattle.nm_explored.specs.Ends.{AreShort};
ghost use Rattle.nm_listed.specs.Tellings.{event_of_move as event_of_move_lem};

use nm_explored::choices::moves::Move;
use nm_explored::happening;
use nm_history::Happened;
use nm_types::{Line, Memory};
use std::alloc::Global;

/// The event that a move stands for.
pub(crate) fn event_of_move(alloc: Global, lines: &[Line], by: Move) -> Result<Happened, Memory>
    requires { AreShort lines.now }
    ensures { IfOk result (λ what. what ≡ event_of_move_lem lines.now by) }
{
    match by {
        Move::Act(deed) => happening(alloc, lines, deed),
        Move::Arrive(a) => Ok(Happened::Arrive { a }),
        Move::Withdraw(message) => Ok(Happened::Withdraw {
            from: message.rank,
            n: message.n,
            done: true,
        }),
    }
}
