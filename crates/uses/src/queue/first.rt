//! The first cell of an own queue.

ghost use Rattle.std.specs.Prelude.{◌≡◌, IfNone, IfSome};
ghost use Rattle.nm_cells.specs.Ports.{Owns, IsOwn, Takes, own_of, knows};
ghost use Rattle.uses.specs.QueueCrossings.{SameLists};

use crate::letters::Letter;
use nm_cells::{Cell, Fabric, Port, Queue};
use nm_chain::seats::Steps;
use nm_queue::dequeue;
use std::sync::ledger::Ledger;

/// Takes the first cell of an own queue, or none where that one had a miss.
pub fn take_first<L: Ledger>(
    f: &Fabric<Letter>,
    port: &mut Port<Letter>,
    q: Queue,
    steps: &mut Steps<L>,
) -> Option<Cell>
    requires owns { Owns f.now port.old }
    requires own { IsOwn port.old q }
    ensures owns { Owns f.now port.new × (port.new.rank ≡ port.old.rank) }
    ensures took { IfSome result (Takes (own_of q) f.now port.old port.new) }
    ensures none { IfNone result (SameLists (knows port.old) (knows port.new)
        × (port.new.hands ≡ port.old.hands)) }
{
    match dequeue(f, port, q, steps) {
        Ok(cell) => Some(cell),
        Err(_) => None,
    }
}
