//! The kinds of step on a word, each with what it tells the seat that makes it (`Plays`). There are
//! no others: a step of another kind would be a new one here.

ghost use Rattle.std.specs.Prelude.{ℕ};

use crate::seats::View;
use crate::table::slots::Slot;
use crate::table::table::Entry;
use atomic_table::Play;
use std::marker::{Brand, PhantomData};

/// Loads the head of an own queue.
pub struct LoadsHead<const B: bool>;

impl<I, const B: bool> Play<Slot<I>, View<Entry<I>>> for LoadsHead<B> {
    ghost use Rattle.nm_chain.specs.OwnQueues.{own};
    ghost use Rattle.nm_chain.specs.Plays.{loaded_head};

    ghost then = { loaded_head (own B) };
}

/// Stores 0 in the head of an own queue.
pub struct ClearsHead<const B: bool>;

impl<I, const B: bool> Play<Slot<I>, View<Entry<I>>> for ClearsHead<B> {
    ghost use Rattle.nm_chain.specs.OwnQueues.{own};
    ghost use Rattle.nm_chain.specs.Plays.{cleared_head};

    ghost then = { cleared_head (own B) };
}

/// Loads the link of the first cell of an own queue.
pub struct Passes<const B: bool>;

impl<I, const B: bool> Play<Slot<I>, View<Entry<I>>> for Passes<B> {
    ghost use Rattle.nm_chain.specs.OwnQueues.{own};
    ghost use Rattle.nm_chain.specs.Plays.{passed};

    ghost then = { passed (own B) };
}

/// Loads that link once more.
pub struct Reloads<const B: bool>;

impl<I, const B: bool> Play<Slot<I>, View<Entry<I>>> for Reloads<B> {
    ghost use Rattle.nm_chain.specs.OwnQueues.{own};
    ghost use Rattle.nm_chain.specs.Plays.{reloaded};

    ghost then = { reloaded (own B) };
}

/// Exchanges the tail of an own queue for 0 where it is the first cell.
pub struct Drains<const B: bool>;

impl<I, const B: bool> Play<Slot<I>, View<Entry<I>>> for Drains<B> {
    ghost use Rattle.nm_chain.specs.OwnQueues.{own};
    ghost use Rattle.nm_chain.specs.Plays.{drained};

    ghost then = { drained (own B) };
}

/// Stores 0 in the link of a cell in hand.
pub struct Clears;

impl<I> Play<Slot<I>, View<Entry<I>>> for Clears {
    ghost use Rattle.nm_chain.specs.Plays.{cleared};

    ghost then = { cleared };
}

/// Exchanges the tail of a queue for a cell in hand.
pub struct Swaps;

impl<I> Play<Slot<I>, View<Entry<I>>> for Swaps {
    ghost use Rattle.nm_chain.specs.Plays.{swapped};

    ghost then = { swapped };
}

/// Stores the head of a queue, or the link of the cell that was its tail.
pub struct Finishes;

impl<I> Play<Slot<I>, View<Entry<I>>> for Finishes {
    ghost use Rattle.nm_chain.specs.Plays.{finished};

    ghost then = { finished };
}

/// Loads the link of an own cell that no call has touched, to take its slot.
pub struct Picks;

impl<I> Play<Slot<I>, View<Entry<I>>> for Picks {
    ghost use Rattle.nm_chain.specs.Plays.{picked};

    ghost then = { picked };
}

/// What a step on the flag of a box is given by its caller: the other rank, and the number of the
/// awaited parcel.
pub trait BoxStep {
    ghost peer: { ℕ };

    ghost awaited: { ℕ };
}

impl BoxStep for Brand {
    ghost peer = { 0 };

    ghost awaited = { 0 };
}

/// Loads the flag of the next box for a rank.
pub struct LooksOut<T> {
    on: PhantomData<T>,
}

impl<I, T: BoxStep> Play<Slot<I>, View<Entry<I>>> for LooksOut<T> {
    ghost use Rattle.nm_chain.specs.Plays.{looked_out};

    ghost then = { looked_out T.peer };
}

/// Loads the flag of the next box of a rank.
pub struct LooksIn<T> {
    on: PhantomData<T>,
}

impl<I, T: BoxStep> Play<Slot<I>, View<Entry<I>>> for LooksIn<T> {
    ghost use Rattle.nm_chain.specs.Plays.{looked_in};

    ghost then = { looked_in T.peer T.awaited };
}

/// Stores the flag of the box that is filled.
pub struct Fills<T> {
    on: PhantomData<T>,
}

impl<I, T: BoxStep> Play<Slot<I>, View<Entry<I>>> for Fills<T> {
    ghost use Rattle.nm_chain.specs.Plays.{boxed};

    ghost then = { boxed T.peer };
}

/// Stores 0 in the flag of the box that is emptied.
pub struct Vacates<T> {
    on: PhantomData<T>,
}

impl<I, T: BoxStep> Play<Slot<I>, View<Entry<I>>> for Vacates<T> {
    ghost use Rattle.nm_chain.specs.Plays.{unboxed};

    ghost then = { unboxed T.peer };
}
