//! The taking rank: the bytes of the cells that come.

ghost use Rattle.std.specs.Prelude.{◌≡◌, OnOk};
ghost use Rattle.nm_cells.specs.Ports.{Owns, knows};
ghost use Rattle.uses.specs.QueueCrossings.{Gets};

use crate::letters::Letter;
use crate::queue::first::take_first;
use nm_cells::{Fabric, Port, Queue, take_out};
use nm_chain::seats::Steps;
use nm_queue::enqueue;
use nm_types::Memory;
use std::sync::ledger::Ledger;

/// Takes the first cell, where one came, sends it home, and puts the byte of one of rank 0 behind those that
/// came.
pub fn take_next<L: Ledger>(
    f: &Fabric<Letter>,
    port: &mut Port<Letter>,
    came: &mut Vec<u8>,
    steps: &mut Steps<L>,
) -> Result<(), Memory>
    requires owns { Owns f.now port.old × (port.old.rank ≡ 1) × (port.old.hands ≡ 0) }
    requires gets { Gets (knows port.old) came.old.items }
    ensures owns { Owns f.now port.new × (port.new.rank ≡ 1) × (port.new.hands ≡ 0) }
    ensures gets { OnOk result (Gets (knows port.new) came.new.items) }
{
    let Some(cell) = take_first(f, port, Queue::Receive(1), steps) else {
        return Ok(());
    };
    let parcel = take_out(f, port, &cell, None);
    let owner = cell.owner();
    enqueue(f, port, Queue::Free(owner), cell, steps);
    if parcel.from != 0 {
        return Ok(());
    }
    came.push(parcel.item.byte)?;
    Ok(())
}
