//! The taking rank: the bytes of the parcels that come.

ghost use Rattle.std.specs.Prelude.{◌≡◌, OnOk};
ghost use Rattle.nm_cells.specs.Ports.{Owns};
ghost use Rattle.nm_port.specs.Polls.{HoldsTheRest};
ghost use Rattle.uses.specs.Crossings.{Takes};

use crate::letters::Letter;
use nm_chain::seats::Steps;
use nm_port::carried::laws::a_poll_carries;
use nm_port::{Fabric, Port, poll};
use nm_types::Memory;
use std::sync::ledger::Ledger;

/// Takes the next parcel, where one came, and puts the byte of one of rank 0 behind those that came.
pub fn take_next<L: Ledger>(
    f: &Fabric<Letter>,
    port: &mut Port<Letter>,
    came: &mut Vec<u8>,
    steps: &mut Steps<L>,
) -> Result<(), Memory>
    requires owns { Owns f.now port.old × (port.old.rank ≡ 1) × (port.old.hands ≡ 0) }
    requires rest { HoldsTheRest port.old }
    requires takes { Takes port.old 0 came.old.items }
    ensures owns { Owns f.now port.new × (port.new.rank ≡ 1) × (port.new.hands ≡ 0) }
    ensures rest { HoldsTheRest port.new }
    ensures takes { OnOk result (Takes port.new 0 came.new.items) }
{
    // no step: the law of a parcel that comes
    a_poll_carries::<Letter, u64>();
    let Ok(parcel) = poll(f, port, None, steps) else {
        return Ok(());
    };
    if parcel.from != 0 {
        return Ok(());
    }
    came.push(parcel.item.byte)?;
    Ok(())
}
