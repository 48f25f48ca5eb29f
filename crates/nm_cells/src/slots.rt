//! What a cell in hand holds. No call here makes a step on a word.

ghost use Rattle.std.specs.Prelude.{◌≡◌, ◌+◌, ◌<◌, ◌≤◌, ◌∷◌, ◌++◌, ℕ, Some, None, length, map};
ghost use Rattle.std.specs.Prelude.{take, drop};
ghost use Rattle.std.specs.Prelude.{IsSome, slice_index, vec_len, vec_capacity};
ghost use Rattle.atomic_table.specs.Table.{rest};
ghost use Rattle.nm_chain.specs.Update.{update};
ghost use Rattle.nm_chain.specs.Rule.{Load, hand};
ghost use Rattle.nm_chain.specs.Plays.{InHand, first_load, load_in};
ghost use Rattle.nm_cells.specs.Carried.{times};
ghost use Rattle.nm_cells.specs.Ports.{Owns, Stays, HasCell, knows, slots, holding};

use crate::cell::Cell;
use crate::port::{Fabric, Port};
use nm_chain::table::{Board, BoardSeat, Item, Parcel};

// One more slot is in hand. Mostly it is the only one.
#[inline(always)]
pub(crate) fn carry(carried: &mut Vec<u64>, slot: u64)
    requires { vec_len carried.old < vec_capacity carried.old }
    ensures items { carried.new.items ≡ slot ∷ carried.old.items }
    ensures capacity { vec_capacity carried.old ≤ vec_capacity carried.new }
{
    if carried.is_empty() {
        carried.push_reserved(slot);
        return;
    }
    let Ok(()) = carried.insert(0, slot) else {
        unreachable!()
    };
}

// Brings a slot that the seat has taken to the front. Where it stands there already, as the only
// slot in hand does, nothing is done.
#[inline(always)]
fn bring<I: Item>(seat: &mut BoardSeat<I>, carried: &mut Vec<u64>, slot: u64)
    requires same { map (λ x. x.0) seat.old.me.1 ≡ carried.old.items }
    requires there { (k : ℕ) × (k < length carried.old.items) × (slice_index carried.old.items k
        ≡ slot) }
    ensures seat { (seat.new.table_id ≡ seat.old.table_id) × (seat.new.id ≡ seat.old.id)
        × (seat.new.me.0 ≡ seat.old.me.0) }
    ensures turned { (k : ℕ) × (k < length carried.old.items)
        × (slice_index carried.old.items k ≡ slot)
        × (seat.new.me.1 ≡ drop k seat.old.me.1 ++ take k seat.old.me.1)
        × (carried.new.items ≡ drop k carried.old.items ++ take k carried.old.items) }
    ensures capacity { vec_capacity carried.new ≡ vec_capacity carried.old }
{
    let Some(at) = carried.iter().position(|x| *x == slot) else {
        unreachable!()
    };
    if at == 0 {
        return;
    }
    for _i in 0..at {
        seat.turn();
    }
    carried.rotate_left(at);
}

// Brings a slot that the port has taken once to the front.
#[inline(always)]
pub(crate) fn bring_slot<I: Item>(port: &mut Port<I>, slot: u64)
    requires once { times slot (map (λ x. x.0) (slots port.old)) ≡ 1 }
    ensures seat { (port.new.seat.table_id ≡ port.old.seat.table_id)
        × (port.new.seat.me.0 ≡ port.old.seat.me.0) }
    ensures same { (port.new.rank ≡ port.old.rank) × (port.new.peers ≡ port.old.peers)
        × (port.new.held ≡ port.old.held) × (port.new.hands ≡ port.old.hands)
        × (port.new.loose ≡ port.old.loose) }
    ensures front { slots port.new ≡ (slot, load_in slot (slots port.old)) ∷ rest (slots port.new) }
    ensures holding { holding port.new ≡ holding port.old }
{
    bring(&mut port.seat, &mut port.carried, slot);
}

// Brings the slot of a cell in hand to the front.
pub(crate) fn bring_cell<I: Item>(port: &mut Port<I>, number: u64)
    requires low { number < length (knows port.old).hands }
    requires in_hand { InHand (hand (knows port.old) number) }
    ensures seat { (port.new.seat.table_id ≡ port.old.seat.table_id)
        × (port.new.seat.me.0 ≡ port.old.seat.me.0) }
    ensures same { (port.new.rank ≡ port.old.rank) × (port.new.peers ≡ port.old.peers)
        × (port.new.held ≡ port.old.held) × (port.new.hands ≡ port.old.hands)
        × (port.new.loose ≡ port.old.loose) }
    ensures front { slots port.new ≡ (number, holding port.old number) ∷ rest (slots port.new) }
    ensures holding { holding port.new ≡ holding port.old }
{
    bring_slot(port, number);
}

// Puts a parcel into the slot that was taken last. It answers the box that was kept there.
pub(crate) fn fill_slot<I: Item>(
    board: &Board<I>,
    seat: &mut BoardSeat<I>,
    slot: usize,
    parcel: Box<Parcel<I>>,
) -> Option<Box<Parcel<I>>>
    requires front { (seat.old.table_id ≡ board.now.shared.table_id)
        × ((old : Load I) × (seat.old.me.1 ≡ (slot, old) ∷ rest seat.old.me.1)) }
    ensures seat { (seat.new.table_id ≡ seat.old.table_id) × (seat.new.id ≡ seat.old.id) }
    ensures filled { seat.new.me ≡ (seat.old.me.0, (slot, Some parcel.value) ∷ rest seat.old.me.1) }
{
    seat.slot_mut(&board.shared, slot).fill(parcel)
}

// Takes the parcel out of the slot that was taken last, and leaves a box there, if one is given.
pub(crate) fn empty_slot<I: Item>(
    board: &Board<I>,
    seat: &mut BoardSeat<I>,
    slot: usize,
    spare: Option<Box<Parcel<I>>>,
) -> Box<Parcel<I>>
    requires front { (seat.old.table_id ≡ board.now.shared.table_id)
        × ((old : Load I) × (seat.old.me.1 ≡ (slot, old) ∷ rest seat.old.me.1)) }
    requires full { IsSome (first_load seat.old.me.1) }
    ensures seat { (seat.new.table_id ≡ seat.old.table_id) × (seat.new.id ≡ seat.old.id) }
    ensures parcel { seat.old.me.1 ≡ (slot, Some result.value) ∷ rest seat.old.me.1 }
    ensures emptied { seat.new.me ≡ (seat.old.me.0, (slot, None) ∷ rest seat.old.me.1) }
{
    seat.slot_mut(&board.shared, slot).take(spare)
}

/// Puts a parcel into an empty cell in hand. It answers the box that the cell kept, if there was one.
pub fn put_in<I: Item>(
    f: &Fabric<I>,
    port: &mut Port<I>,
    cell: &Cell,
    parcel: Box<Parcel<I>>,
) -> Option<Box<Parcel<I>>>
    requires owns { Owns f.now port.old }
    requires in_hand { HasCell f.now port.old cell.now }
    requires empty { holding port.old cell.now.number ≡ None }
    ensures stays { Stays f.now port.old port.new × (knows port.new ≡ knows port.old) }
    ensures hands { port.new.hands ≡ port.old.hands }
    ensures filled { holding port.new
        ≡ update (holding port.old) cell.now.number (Some parcel.value) }
{
    bring_cell(port, cell.number);
    let slot = cell.number as usize;
    fill_slot(&f.board, &mut port.seat, slot, parcel)
}

/// Takes the parcel out of a cell in hand, and leaves a box of memory there, if one is given. The cell is
/// empty from then on.
pub fn take_out<I: Item>(
    f: &Fabric<I>,
    port: &mut Port<I>,
    cell: &Cell,
    spare: Option<Box<Parcel<I>>>,
) -> Box<Parcel<I>>
    requires owns { Owns f.now port.old }
    requires in_hand { HasCell f.now port.old cell.now }
    requires full { IsSome (holding port.old cell.now.number) }
    ensures stays { Stays f.now port.old port.new × (knows port.new ≡ knows port.old) }
    ensures parcel { holding port.old cell.now.number ≡ Some result.value }
    ensures hands { port.new.hands ≡ port.old.hands }
    ensures emptied { holding port.new ≡ update (holding port.old) cell.now.number None }
{
    bring_cell(port, cell.number);
    let slot = cell.number as usize;
    empty_slot(&f.board, &mut port.seat, slot, spare)
}
