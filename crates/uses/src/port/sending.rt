//! The sending rank: a parcel for each byte of a text.

ghost use Rattle.std.specs.Prelude.{◌≡◌};
ghost use Rattle.nm_cells.specs.Ports.{Owns, knows};
ghost use Rattle.uses.specs.Crossings.{Sends};

use crate::letters::{Letter, parcel};
use nm_chain::seats::Steps;
use nm_port::carried::laws::a_send_carries;
use nm_port::{Fabric, Port, send};
use nm_types::Memory;
use std::alloc::Global;
use std::sync::ledger::Ledger;

/// Sends the next byte of the text to rank 1, where a box or a cell is free.
pub fn send_next<L: Ledger>(
    f: &Fabric<Letter>,
    port: &mut Port<Letter>,
    alloc: Global,
    text: &[u8],
    steps: &mut Steps<L>,
) -> Result<(), Memory>
    requires owns { Owns f.now port.old × (port.old.rank ≡ 0) × (port.old.hands ≡ 0) }
    requires two { f.now.ranks ≡ 2 }
    requires sends { Sends (knows port.old) 1 text.now }
    ensures owns { Owns f.now port.new × (port.new.rank ≡ 0) × (port.new.hands ≡ 0) }
    ensures sends { Sends (knows port.new) 1 text.now }
{
    let number = port.sent(1);
    if number >= text.len() as u64 || !port.has_room(1) {
        return Ok(());
    }
    let next = Box::new(alloc, parcel(number, text[number as usize]))?;
    // no step: the law of a parcel that leaves
    a_send_carries::<Letter, u64>();
    let _ = send(f, port, 1, next, steps);
    Ok(())
}
