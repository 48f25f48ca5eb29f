//! Sending a parcel.

ghost use Rattle.std.specs.Prelude.{◌≡◌, ◌+◌, ◌<◌, ◌≤◌, IfOk, IfErr, false, ⊤};
ghost use Rattle.nm_types.specs.declared.packets.Path.TheVariants.{Cell};
ghost use Rattle.nm_chain.specs.Rule.{filling_of};
ghost use Rattle.nm_cells.specs.Ports.{Owns, SameTaken, knows};
ghost use Rattle.nm_fastbox.specs.Boxes.{IsNextFor};
ghost use Rattle.nm_port.specs.Keeps.{KeepsPort};
ghost use Rattle.nm_port.specs.Sends.{HasNoWay, SendsBy, SendsByCell};

use crate::cells::take_cell;
use nm_cells::{Fabric, Port, Queue, put_in};
use nm_chain::seats::Steps;
use nm_chain::table::{Item, Parcel};
use nm_fastbox::put;
use nm_queue::enqueue;
use nm_types::Path;
use std::sync::ledger::Ledger;

/// How a parcel went, and the box of memory that its place kept from its last parcel, if there was one. That
/// one can serve for the next parcel.
#[derive(Drop)]
pub struct Sent<I> {
    pub path: Path,
    pub spare: Option<Box<Parcel<I>>>,
}

// Sends a parcel by a cell of the own free queue, unless that one had a miss.
#[inline(always)]
fn send_by_cell<L: Ledger, I: Item>(
    f: &Fabric<I>,
    port: &mut Port<I>,
    to: u8,
    parcel: Box<Parcel<I>>,
    steps: &mut Steps<L>,
) -> Result<Sent<I>, Box<Parcel<I>>>
    requires owns { Owns f.now port.old }
    requires peer { to < f.now.ranks }
    requires parcel { IsNextFor to parcel.value port.old }
    ensures sends { IfOk result (λ sent. (sent.path ≡ Cell)
        × SendsByCell false to parcel.value port.old port.new) }
    ensures back { IfErr result (λ back. (back ≡ parcel) × HasNoWay false to port.old port.new) }
    ensures keeps { KeepsPort f.now ⊤ port.old port.new }
    ensures taken { SameTaken port.old port.new }
    ensures bound { steps.new ≤ steps.old + 8 }
{
    let own = port.rank();
    let Some(cell) = take_cell(f, port, Queue::Free(own), steps) else {
        return Err(parcel);
    };
    let spare = put_in(f, port, &cell, parcel);
    enqueue(f, port, Queue::Receive(to), cell, steps);
    Ok(Sent {
        path: Path::Cell,
        spare,
    })
}

/// Sends the next parcel to a rank, in at most nine word steps, and tells by which way: where it
/// fits a box and the next one is free, by that box, and else by a cell of the own free queue.
///
/// The parcel comes back where neither could be: it doesn't fit a box or that one was full, and the
/// own free queue had no cell to take.
pub fn send<L: Ledger, I: Item>(
    f: &Fabric<I>,
    port: &mut Port<I>,
    to: u8,
    parcel: Box<Parcel<I>>,
    steps: &mut Steps<L>,
) -> Result<Sent<I>, Box<Parcel<I>>>
    requires owns { Owns f.now port.old }
    requires peer { to < f.now.ranks }
    requires parcel { IsNextFor to parcel.value port.old }
    ensures sends { IfOk result (λ sent.
        SendsBy sent.path (I.boxable parcel.value.item) to parcel.value port.old port.new) }
    ensures back { IfErr result (λ back. (back ≡ parcel)
        × HasNoWay (I.boxable parcel.value.item) to port.old port.new) }
    ensures keeps { KeepsPort f.now (filling_of (knows port.old) to ≡ false) port.old port.new }
    ensures taken { SameTaken port.old port.new }
    ensures bound { steps.new ≤ steps.old + 9 }
{
    if !parcel.item.fits_box() {
        return send_by_cell(f, port, to, parcel, steps);
    }
    match put(f, port, to, parcel, steps) {
        Ok(spare) => Ok(Sent {
            path: Path::Box,
            spare,
        }),
        Err(back) => send_by_cell(f, port, to, back, steps),
    }
}
