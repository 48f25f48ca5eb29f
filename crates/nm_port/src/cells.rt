//! The first cell of an own queue.

ghost use Rattle.std.specs.Prelude.{◌≡◌, ◌+◌, ◌≤◌, IfSome, IfNone};
ghost use Rattle.nm_cells.specs.Ports.{Owns, Leaves, knows, IsOwn, own_of};
ghost use Rattle.nm_queue.specs.Moves.{TakesFirst};
ghost use Rattle.nm_port.specs.Sends.{HadMiss};

use nm_cells::{Cell, Fabric, Port, Queue};
use nm_chain::seats::Steps;
use nm_chain::table::Item;
use nm_queue::dequeue;
use std::sync::ledger::Ledger;

// Takes the first cell of an own queue, or none where that one had a miss.
#[inline(always)]
pub(crate) fn take_cell<L: Ledger, I: Item>(
    f: &Fabric<I>,
    port: &mut Port<I>,
    q: Queue,
    steps: &mut Steps<L>,
) -> Option<Cell>
    requires owns { Owns f.now port.old }
    requires own { IsOwn port.old q }
    ensures owns { Owns f.now port.new × (port.new.rank ≡ port.old.rank) }
    ensures took { IfSome result (TakesFirst q f.now port.old port.new) }
    ensures none { IfNone result (HadMiss (own_of q) (knows port.old) (knows port.new)
        × Leaves port.old port.new) }
    ensures bound { steps.new ≤ steps.old + 5 }
{
    match dequeue(f, port, q, steps) {
        Ok(cell) => Some(cell),
        Err(_) => None,
    }
}
