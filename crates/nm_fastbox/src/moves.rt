//! The two moves of a box.

ghost use Rattle.std.specs.Prelude.{◌≡◌, ◌+◌, ◌<◌, ◌≤◌, true, IfOk, IfErr};
ghost use Rattle.nm_cells.specs.Ports.{Owns, Stays, holding};
ghost use Rattle.nm_fastbox.specs.Boxes.{Costs, FindsFull, IsNextFor, KeepsCells, MissesInBox};
ghost use Rattle.nm_fastbox.specs.Boxes.{PutsInBox, TakesFromBox};

use nm_cells::{Fabric, Port, empty_box, fill_box, load_box_in, load_box_out};
use nm_chain::seats::Steps;
use nm_chain::table::{Item, Parcel};
use std::sync::ledger::Ledger;

/// Sends a parcel by the port's next box for a rank, and answers the box of memory that its place kept, if
/// there was one. The parcel comes back where that next box was found full.
pub fn put<L: Ledger, I: Item>(
    f: &Fabric<I>,
    port: &mut Port<I>,
    to: u8,
    parcel: Box<Parcel<I>>,
    steps: &mut Steps<L>,
) -> Result<Option<Box<Parcel<I>>>, Box<Parcel<I>>>
    requires owns { Owns f.now port.old }
    requires peer { to < f.now.ranks }
    requires fits { I.boxable parcel.value.item ≡ true }
    requires parcel { IsNextFor to parcel.value port.old }
    ensures stays { Stays f.now port.old port.new × (holding port.new ≡ holding port.old) }
    ensures puts { IfOk result (λ _. PutsInBox to parcel.value port.old port.new) }
    ensures full { IfErr result (λ back. (back ≡ parcel) × FindsFull to port.old port.new) }
    ensures cost { Costs result steps.old steps.new }
    ensures bound { steps.new ≤ steps.old + 2 }
{
    if !load_box_out(f, port, to, steps) {
        return Err(parcel);
    }
    Ok(fill_box(f, port, to, parcel, steps))
}

/// Takes the awaited parcel of a rank out of the port's next box of it, and leaves a box of memory in its
/// place, if one is given. That comes back where the parcel wasn't there. It is passed on.
pub fn take<L: Ledger, I: Item>(
    f: &Fabric<I>,
    port: &mut Port<I>,
    sender: u8,
    spare: Option<Box<Parcel<I>>>,
    steps: &mut Steps<L>,
) -> Result<Box<Parcel<I>>, Option<Box<Parcel<I>>>>
    requires owns { Owns f.now port.old }
    requires peer { sender < f.now.ranks }
    ensures keeps { KeepsCells f.now port.old port.new }
    ensures took { IfOk result (λ parcel. TakesFromBox sender parcel.value port.old port.new) }
    ensures missed { IfErr result (λ back. (back ≡ spare)
        × MissesInBox sender port.old port.new) }
    ensures cost { Costs result steps.old steps.new }
    ensures bound { steps.new ≤ steps.old + 2 }
{
    if !load_box_in(f, port, sender, steps) {
        return Err(spare);
    }
    Ok(empty_box(f, port, sender, spare, steps))
}
