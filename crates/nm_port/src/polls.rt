//! Polling for the next parcel of any rank.

ghost use Rattle.std.specs.Prelude.{◌≡◌, ◌+◌, ◌≤◌, ◌⊎◌, ◌∷◌, [], Some, None, IfOk, IfErr, ⊤};
ghost use Rattle.nm_chain.specs.Plays.{with_emptying, with_got_box};
ghost use Rattle.nm_cells.specs.Ports.{Owns, knows, taken_by, unpassed_by, IsUnpassed};
ghost use Rattle.nm_fastbox.specs.Boxes.{KeepsCells};
ghost use Rattle.nm_port.specs.Keeps.{KeepsPort};
ghost use Rattle.nm_port.specs.Polls.{HoldsTheRest, EmptiesNone, IsNext, Polls, PollsNone};
ghost use Rattle.nm_port.specs.Polls.{HoldsOutOfTurn, MissesAll, Receives, ReceivesNone};

use crate::cells::take_cell;
use nm_cells::{Fabric, Port, Queue, empty_box, load_box_in, take_out};
use nm_chain::seats::Steps;
use nm_chain::table::{Item, Parcel};
use nm_fastbox::take;
use nm_queue::enqueue;
use std::sync::ledger::Ledger;

// Passes the held parcel on, where its turn has come.
fn pass_held<I: Item>(
    f: &Fabric<I>,
    port: &mut Port<I>,
    spare: Option<Box<Parcel<I>>>,
) -> Result<Box<Parcel<I>>, Option<Box<Parcel<I>>>>
    requires owns { Owns f.now port.old }
    requires rest { HoldsTheRest port.old }
    ensures keeps { KeepsPort f.now ⊤ port.old port.new }
    ensures polls { IfOk result (λ parcel. Polls f.now port.old port.new parcel.value) }
    ensures rest { HoldsTheRest port.new }
    ensures kept { IfErr result (λ back. (back ≡ spare) × (port.new ≡ port.old)
        × HoldsOutOfTurn port.old) }
{
    let Some(held) = port.held() else {
        return Err(spare);
    };
    if held.seq != port.taken(held.from) {
        return Err(spare);
    }
    let Ok(parcel) = port.unhold(spare) else {
        unreachable!()
    };
    port.pass(&parcel);
    Ok(parcel)
}

// Takes the awaited parcel of the first rank whose next box has it.
fn take_first<L: Ledger, I: Item>(
    f: &Fabric<I>,
    port: &mut Port<I>,
    spare: Option<Box<Parcel<I>>>,
    steps: &mut Steps<L>,
) -> Result<Box<Parcel<I>>, Option<Box<Parcel<I>>>>
    requires owns { Owns f.now port.old }
    ensures keeps { KeepsCells f.now port.old port.new }
    ensures hands { (port.new.hands ≤ port.old.hands)
        × (EmptiesNone port.old → port.new.hands ≡ port.old.hands) }
    ensures polls { IfOk result (λ parcel. Polls f.now port.old port.new parcel.value) }
    ensures missed { IfErr result (λ back. (back ≡ spare) × MissesAll f.now port.old port.new
        × (steps.new ≡ steps.old + f.now.ranks)) }
    ensures bound { steps.new ≤ steps.old + (f.now.ranks + 1) }
{
    for sender in 0..f.ranks() {
        if load_box_in(f, port, sender, steps) {
            return Ok(empty_box(f, port, sender, spare, steps));
        }
    }
    Err(spare)
}

// Takes the parcel out of the first cell of the receive queue, and sends the cell home.
fn receive<L: Ledger, I: Item>(
    f: &Fabric<I>,
    port: &mut Port<I>,
    spare: Option<Box<Parcel<I>>>,
    steps: &mut Steps<L>,
) -> Result<Box<Parcel<I>>, Option<Box<Parcel<I>>>>
    requires owns { Owns f.now port.old }
    ensures keeps { KeepsPort f.now ⊤ port.old port.new }
    ensures held { (port.new.held ≡ port.old.held) × (taken_by port.new ≡ taken_by port.old) }
    ensures came { IfOk result (λ parcel. Receives parcel.value port.old port.new) }
    ensures none { IfErr result (λ back. (back ≡ spare) × ReceivesNone port.old port.new) }
    ensures bound { steps.new ≤ steps.old + 8 }
{
    let own = port.rank();
    let Some(cell) = take_cell(f, port, Queue::Receive(own), steps) else {
        return Err(spare);
    };
    let parcel = take_out(f, port, &cell, spare);
    let owner = cell.owner();
    enqueue(f, port, Queue::Free(owner), cell, steps);
    Ok(parcel)
}

// Passes a parcel on that came by cell, where its turn has come. Else it is held, and the next one
// of its sender is passed on, which is in the next box then.
fn pass_or_hold<L: Ledger, I: Item>(
    f: &Fabric<I>,
    port: &mut Port<I>,
    parcel: Box<Parcel<I>>,
    steps: &mut Steps<L>,
) -> Box<Parcel<I>>
    requires owns { Owns f.now port.old }
    requires parcel { IsUnpassed port.old parcel.value }
    requires alone { (unpassed_by port.old ≡ 1) × (port.old.held ≡ None) }
    ensures keeps { KeepsPort f.now (EmptiesNone port.old) port.old port.new }
    ensures rest { HoldsTheRest port.new }
    ensures next { IsNext f.now port.old port.new result.value }
    ensures way { ((result.value ≡ parcel.value) × (port.new.held ≡ None)
        × (knows port.new ≡ knows port.old))
        ⊎ ((result.value.from ≡ parcel.value.from) × (port.new.held ≡ Some parcel.value)
        × (knows port.new ≡ with_got_box (Some result.value ∷ [])
        (with_emptying result.value.from None (knows port.old)))) }
    ensures bound { steps.new ≤ steps.old + 2 }
{
    let source = parcel.from;
    if parcel.seq == port.taken(source) {
        port.pass(&parcel);
        return parcel;
    }
    let spare = port.hold(parcel);
    let Ok(next) = take(f, port, source, spare, steps) else {
        unreachable!()
    };
    next
}

// The next parcel of the receive queue, or the one that it has to wait for.
fn receive_next<L: Ledger, I: Item>(
    f: &Fabric<I>,
    port: &mut Port<I>,
    spare: Option<Box<Parcel<I>>>,
    steps: &mut Steps<L>,
) -> Result<Box<Parcel<I>>, Option<Box<Parcel<I>>>>
    requires owns { Owns f.now port.old }
    requires nothing { (unpassed_by port.old ≡ 0) × (port.old.held ≡ None) }
    ensures keeps { KeepsPort f.now (EmptiesNone port.old) port.old port.new }
    ensures rest { HoldsTheRest port.new }
    ensures polls { IfOk result (λ parcel. Polls f.now port.old port.new parcel.value) }
    ensures none { IfErr result (λ back. (back ≡ spare) × ReceivesNone port.old port.new
        × (port.new.held ≡ None) × (taken_by port.new ≡ taken_by port.old)) }
    ensures bound { steps.new ≤ steps.old + 10 }
{
    match receive(f, port, spare, steps) {
        Ok(parcel) => Ok(pass_or_hold(f, port, parcel, steps)),
        Err(spare) => Err(spare),
    }
}

/// Gives the next parcel of a rank, the one with the number that the port awaits from it and no other,
/// and leaves a box of memory for it, if one is given. That comes back where there is none.
///
/// It takes at most as many word steps as there are ranks, and 10. There is none only where nothing
/// was held and nothing is, the next box of each rank was found without the awaited number, and the
/// receive queue had no cell to take. At most one parcel is held from one call to the next.
pub fn poll<L: Ledger, I: Item>(
    f: &Fabric<I>,
    port: &mut Port<I>,
    spare: Option<Box<Parcel<I>>>,
    steps: &mut Steps<L>,
) -> Result<Box<Parcel<I>>, Option<Box<Parcel<I>>>>
    requires owns { Owns f.now port.old }
    requires rest { HoldsTheRest port.old }
    ensures keeps { KeepsPort f.now (EmptiesNone port.old) port.old port.new }
    ensures rest { HoldsTheRest port.new }
    ensures polls { IfOk result (λ parcel. Polls f.now port.old port.new parcel.value) }
    ensures none { IfErr result (λ back. (back ≡ spare) × PollsNone port.old port.new) }
    ensures bound { steps.new ≤ steps.old + (f.now.ranks + 10) }
{
    match pass_held(f, port, spare) {
        Ok(parcel) => Ok(parcel),
        Err(spare) => match take_first(f, port, spare, steps) {
            Ok(parcel) => Ok(parcel),
            Err(spare) => receive_next(f, port, spare, steps),
        },
    }
}
