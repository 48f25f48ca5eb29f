//! The putting rank: a cell for each byte of a text.

ghost use Rattle.std.specs.Prelude.{◌≡◌};
ghost use Rattle.nm_cells.specs.Ports.{Owns, knows};
ghost use Rattle.uses.specs.QueueCrossings.{Puts};

use crate::letters::{Letter, parcel};
use crate::queue::first::take_first;
use nm_cells::{Fabric, Port, Queue, put_in};
use nm_chain::seats::Steps;
use nm_queue::enqueue;
use nm_types::Memory;
use std::alloc::Global;
use std::sync::ledger::Ledger;

/// Puts the next byte of the text into the queue of rank 1, where a cell is at home.
pub fn put_next<L: Ledger>(
    f: &Fabric<Letter>,
    port: &mut Port<Letter>,
    alloc: Global,
    text: &[u8],
    steps: &mut Steps<L>,
) -> Result<(), Memory>
    requires owns { Owns f.now port.old × (port.old.rank ≡ 0) × (port.old.hands ≡ 0) }
    requires two { f.now.ranks ≡ 2 }
    requires puts { Puts (knows port.old) text.now }
    ensures owns { Owns f.now port.new × (port.new.rank ≡ 0) × (port.new.hands ≡ 0) }
    ensures puts { Puts (knows port.new) text.now }
{
    let number = port.sent(1);
    if number >= text.len() as u64 || !port.has_room(1) {
        return Ok(());
    }
    let next = Box::new(alloc, parcel(number, text[number as usize]))?;
    let Some(cell) = take_first(f, port, Queue::Free(0), steps) else {
        return Ok(());
    };
    put_in(f, port, &cell, next);
    enqueue(f, port, Queue::Receive(1), cell, steps);
    Ok(())
}
