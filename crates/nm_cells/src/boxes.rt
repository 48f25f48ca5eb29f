//! The calls that make one step on a box's flag. There are four boxes for each ordered pair of ranks, and the
//! k-th parcel of the pair that goes by box goes into the box k mod 4.
//!
//! A step can't be told a number of its caller's by its operands alone. So each is written once for
//! numbers that the caller picks, and called by a function that picks its arguments.

ghost use Rattle.std.specs.Prelude.{◌≡◌, ℕ, ◌+◌, ◌*◌, ◌%◌, ◌<◌, ◌≤◌, ◌∷◌, [], Some, None};
ghost use Rattle.std.specs.Prelude.{true, false, length, is_some, vec_len, vec_capacity};
ghost use Rattle.nm_chain.specs.Update.{update};
ghost use Rattle.nm_chain.specs.Rule.{box_slot, filling_of, emptying_of};
ghost use Rattle.nm_chain.specs.Plays.{with_filling, with_emptying, with_box_full, with_box_miss};
ghost use Rattle.nm_chain.specs.Plays.{with_put_box, with_got_box, box_load, Overtaken};
ghost use Rattle.nm_cells.specs.Ports.{Owns, Stays, knows, holding, sent_by, taken_by};
ghost use Rattle.nm_cells.specs.Ports.{unpassed_by, Empties, opens, unless};

use crate::port::{Fabric, Port};
use crate::slots::{bring_slot, carry, empty_slot, fill_slot};
use crate::tallies::{
    count_boxed, count_full, count_miss, count_unboxed, note_emptying, note_filling,
};
use nm_chain::seats::Steps;
use nm_chain::table::{BoxStep, Fills, Item, LooksIn, LooksOut, Parcel, Vacates, flag_word};
use std::marker::Brand;
use std::sync::ledger::Ledger;

impl<I: Item> Fabric<I> {
    // The slot of the box at this place of the pair.
    fn box_at(&self, from: u8, to: u8, place: u64) -> u64
        requires { (from < self.now.ranks) × (to < self.now.ranks) }
        ensures at { result ≡ box_slot self.now.ranks self.now.each from to (place % 4) }
        ensures low { result
            < self.now.ranks * self.now.each + 4 * (self.now.ranks * self.now.ranks) }
        ensures behind { self.now.ranks * self.now.each ≤ result }
    {
        let pair = u64::from(from) * self.ranks + u64::from(to);
        self.ranks * self.each + (4 * pair + place % 4)
    }
}

// The slot of a box is in hand, unless it was already.
fn take_box(carried: &mut Vec<u64>, hands: &mut u32, slot: u64, at_work: bool)
    requires room { at_work ≡ false → (vec_len carried.old < vec_capacity carried.old)
        × (hands.old + 1 ≤ 4294967295) }
    ensures items { carried.new.items ≡ unless at_work (slot ∷ carried.old.items)
        carried.old.items }
    ensures hands { hands.new ≡ hands.old + opens at_work }
    ensures capacity { vec_capacity carried.old ≤ vec_capacity carried.new }
{
    if !at_work {
        carry(carried, slot);
        *hands += 1;
    }
}

fn look_out<T: BoxStep, L: Ledger, I: Item>(
    f: &Fabric<I>,
    port: &mut Port<I>,
    to: u8,
    steps: &mut Steps<L>,
) -> bool
    requires owns { Owns f.now port.old }
    requires peer { to < f.now.ranks }
    requires told { to ≡ T.peer }
    ensures stays { Stays f.now port.old port.new }
    ensures free { result ≡ true → (filling_of (knows port.new) to ≡ true)
        × (knows port.new ≡ with_filling to true (knows port.old))
        × (port.new.hands ≡ port.old.hands + opens (filling_of (knows port.old) to)) }
    ensures full { result ≡ false → (knows port.new ≡ with_box_full to (knows port.old))
        × (port.new.hands ≡ port.old.hands) }
    ensures holding { holding port.new ≡ holding port.old }
    ensures cost { steps.new ≡ steps.old + 1 }
{
    steps.tick();
    let peer = port.peer(to);
    let slot = f.box_at(port.rank, to, peer.box_put);
    let word = flag_word(f.ranks, slot);
    let found = f
        .board
        .shared
        .load::<LooksOut<T>>(&mut port.seat, word as usize);
    if found != 0 {
        count_full(&mut port.peers, to as usize);
        return false;
    }
    take_box(&mut port.carried, &mut port.hands, slot, peer.filling);
    note_filling(&mut port.peers, to as usize);
    true
}

/// Loads the flag of the port's next box for a rank, and answers whether it was 0.
///
/// Then the box is the port's to fill. Else it is full, which `box_full` counts.
pub fn load_box_out<L: Ledger, I: Item>(
    f: &Fabric<I>,
    port: &mut Port<I>,
    to: u8,
    steps: &mut Steps<L>,
) -> bool
    requires owns { Owns f.now port.old }
    requires peer { to < f.now.ranks }
    ensures stays { Stays f.now port.old port.new }
    ensures free { result ≡ true → (filling_of (knows port.new) to ≡ true)
        × (knows port.new ≡ with_filling to true (knows port.old))
        × (port.new.hands ≡ port.old.hands + opens (filling_of (knows port.old) to)) }
    ensures full { result ≡ false → (knows port.new ≡ with_box_full to (knows port.old))
        × (port.new.hands ≡ port.old.hands) }
    ensures holding { holding port.new ≡ holding port.old }
    ensures cost { steps.new ≡ steps.old + 1 }
{
    look_out::<Brand, L, I>(f, port, to, steps)
}

#[inline(always)]
fn look_in<T: BoxStep, L: Ledger, I: Item>(
    f: &Fabric<I>,
    port: &mut Port<I>,
    sender: u8,
    steps: &mut Steps<L>,
) -> bool
    requires owns { Owns f.now port.old }
    requires peer { sender < f.now.ranks }
    requires told { (sender ≡ T.peer) × (taken_by port.old sender ≡ T.awaited) }
    ensures stays { Stays f.now port.old port.new }
    ensures found { result ≡ true → Empties port.new sender (taken_by port.old sender)
        × (knows port.new
        ≡ with_emptying sender (Some (box_load sender (knows port.new))) (knows port.old))
        × (port.new.hands ≡ port.old.hands
        + opens (is_some (emptying_of (knows port.old) sender))) }
    ensures missed { result ≡ false → (knows port.new ≡ with_box_miss sender (knows port.old))
        × (port.new.hands ≡ port.old.hands) }
    ensures overtaken { Overtaken (knows port.old) sender (taken_by port.old sender)
        → result ≡ true }
    ensures holding { holding port.new ≡ holding port.old }
    ensures cost { steps.new ≡ steps.old + 1 }
{
    steps.tick();
    let peer = port.peer(sender);
    let slot = f.box_at(sender, port.rank, peer.box_got);
    let word = flag_word(f.ranks, slot);
    let found = f
        .board
        .shared
        .load::<LooksIn<T>>(&mut port.seat, word as usize);
    if found != peer.taken + 1 {
        count_miss(&mut port.peers, sender as usize);
        return false;
    }
    take_box(&mut port.carried, &mut port.hands, slot, peer.emptying);
    note_emptying(&mut port.peers, sender as usize);
    true
}

/// Loads the flag of the port's next box of a rank, and answers whether the box has the parcel that the
/// port awaits from it.
///
/// Then the parcel is the port's to take. Else this is a miss, which `box_miss` counts. Where the
/// port got a later parcel of that rank and not the awaited one, the awaited one is there.
#[inline(always)]
pub fn load_box_in<L: Ledger, I: Item>(
    f: &Fabric<I>,
    port: &mut Port<I>,
    sender: u8,
    steps: &mut Steps<L>,
) -> bool
    requires owns { Owns f.now port.old }
    requires peer { sender < f.now.ranks }
    ensures stays { Stays f.now port.old port.new }
    ensures found { result ≡ true → Empties port.new sender (taken_by port.old sender)
        × (knows port.new
        ≡ with_emptying sender (Some (box_load sender (knows port.new))) (knows port.old))
        × (port.new.hands ≡ port.old.hands
        + opens (is_some (emptying_of (knows port.old) sender))) }
    ensures missed { result ≡ false → (knows port.new ≡ with_box_miss sender (knows port.old))
        × (port.new.hands ≡ port.old.hands) }
    ensures overtaken { Overtaken (knows port.old) sender (taken_by port.old sender)
        → result ≡ true }
    ensures holding { holding port.new ≡ holding port.old }
    ensures cost { steps.new ≡ steps.old + 1 }
{
    look_in::<Brand, L, I>(f, port, sender, steps)
}

fn fill<T: BoxStep, L: Ledger, I: Item>(
    f: &Fabric<I>,
    port: &mut Port<I>,
    to: u8,
    parcel: Box<Parcel<I>>,
    steps: &mut Steps<L>,
) -> Option<Box<Parcel<I>>>
    requires owns { Owns f.now port.old }
    requires peer { to < f.now.ranks }
    requires free { filling_of (knows port.old) to ≡ true }
    requires fits { I.boxable parcel.value.item ≡ true }
    requires parcel { (parcel.value.from ≡ port.old.rank)
        × (parcel.value.seq ≡ sent_by port.old to) }
    requires told { to ≡ T.peer }
    ensures stays { Stays f.now port.old port.new }
    ensures put { knows port.new
        ≡ with_put_box ((to, Some parcel.value) ∷ []) (with_filling to false (knows port.old)) }
    ensures hands { port.new.hands + 1 ≡ port.old.hands }
    ensures holding { holding port.new ≡ holding port.old }
    ensures cost { steps.new ≡ steps.old + 1 }
{
    steps.tick();
    let slot = f.box_at(port.rank, to, port.peer(to).box_put);
    bring_slot(port, slot);
    let word = flag_word(f.ranks, slot);
    let flag = parcel.seq + 1;
    let spare = fill_slot(&f.board, &mut port.seat, slot as usize, parcel);
    f.board
        .shared
        .store::<Fills<T>>(&mut port.seat, word as usize, flag);
    port.carried.remove(0);
    port.hands -= 1;
    count_boxed(&mut port.peers, to as usize);
    spare
}

/// Puts a parcel into the port's next box for a rank, which was found free, and stores its number
/// plus 1 in the flag. The parcel is sent. It answers the box that was kept there, if there was one.
pub fn fill_box<L: Ledger, I: Item>(
    f: &Fabric<I>,
    port: &mut Port<I>,
    to: u8,
    parcel: Box<Parcel<I>>,
    steps: &mut Steps<L>,
) -> Option<Box<Parcel<I>>>
    requires owns { Owns f.now port.old }
    requires peer { to < f.now.ranks }
    requires free { filling_of (knows port.old) to ≡ true }
    requires fits { I.boxable parcel.value.item ≡ true }
    requires parcel { (parcel.value.from ≡ port.old.rank)
        × (parcel.value.seq ≡ sent_by port.old to) }
    ensures stays { Stays f.now port.old port.new }
    ensures put { knows port.new
        ≡ with_put_box ((to, Some parcel.value) ∷ []) (with_filling to false (knows port.old)) }
    ensures hands { port.new.hands + 1 ≡ port.old.hands }
    ensures holding { holding port.new ≡ holding port.old }
    ensures cost { steps.new ≡ steps.old + 1 }
{
    fill::<Brand, L, I>(f, port, to, parcel, steps)
}

#[inline(always)]
fn empty<T: BoxStep, L: Ledger, I: Item>(
    f: &Fabric<I>,
    port: &mut Port<I>,
    sender: u8,
    spare: Option<Box<Parcel<I>>>,
    steps: &mut Steps<L>,
) -> Box<Parcel<I>>
    requires owns { Owns f.now port.old }
    requires peer { sender < f.now.ranks }
    requires taking { Empties port.old sender (taken_by port.old sender) }
    requires told { sender ≡ T.peer }
    ensures owns { Owns f.now port.new × (port.new.rank ≡ port.old.rank)
        × (port.new.loose ≡ port.old.loose) }
    ensures parcel { Some result.value ≡ box_load sender (knows port.old) }
    ensures got { knows port.new
        ≡ with_got_box (Some result.value ∷ []) (with_emptying sender None (knows port.old)) }
    ensures taken { taken_by port.new
        ≡ update (taken_by port.old) sender (taken_by port.old sender + 1) }
    ensures others { (port.new.held ≡ port.old.held)
        × (unpassed_by port.new ≡ unpassed_by port.old) }
    ensures hands { port.new.hands + 1 ≡ port.old.hands }
    ensures holding { holding port.new ≡ holding port.old }
    ensures cost { steps.new ≡ steps.old + 1 }
{
    steps.tick();
    let slot = f.box_at(sender, port.rank, port.peer(sender).box_got);
    bring_slot(port, slot);
    let word = flag_word(f.ranks, slot);
    let parcel = empty_slot(&f.board, &mut port.seat, slot as usize, spare);
    f.board
        .shared
        .store::<Vacates<T>>(&mut port.seat, word as usize, 0);
    port.carried.remove(0);
    port.hands -= 1;
    count_unboxed(&mut port.peers, sender as usize);
    parcel
}

/// Takes the parcel that was found out of the port's next box of a rank, leaves a box of memory in its
/// place, if one is given, and stores 0 in the flag. The parcel is the one that the port awaited, and it
/// is passed on.
#[inline(always)]
pub fn empty_box<L: Ledger, I: Item>(
    f: &Fabric<I>,
    port: &mut Port<I>,
    sender: u8,
    spare: Option<Box<Parcel<I>>>,
    steps: &mut Steps<L>,
) -> Box<Parcel<I>>
    requires owns { Owns f.now port.old }
    requires peer { sender < f.now.ranks }
    requires taking { Empties port.old sender (taken_by port.old sender) }
    ensures owns { Owns f.now port.new × (port.new.rank ≡ port.old.rank)
        × (port.new.loose ≡ port.old.loose) }
    ensures parcel { (Some result.value ≡ box_load sender (knows port.old))
        × (result.value.from ≡ sender) × (result.value.seq ≡ taken_by port.old sender) }
    ensures got { knows port.new
        ≡ with_got_box (Some result.value ∷ []) (with_emptying sender None (knows port.old)) }
    ensures taken { taken_by port.new
        ≡ update (taken_by port.old) sender (taken_by port.old sender + 1) }
    ensures others { (port.new.held ≡ port.old.held)
        × (unpassed_by port.new ≡ unpassed_by port.old) }
    ensures hands { port.new.hands + 1 ≡ port.old.hands }
    ensures holding { holding port.new ≡ holding port.old }
    ensures cost { steps.new ≡ steps.old + 1 }
{
    empty::<Brand, L, I>(f, port, sender, spare, steps)
}
