//! The slots, each for one piece. No call here makes a step on a word.

ghost use Rattle.std.specs.Prelude.{◌≡◌, ◌∷◌, Some, None, IsSome};
ghost use Rattle.atomic_table.specs.Table.{rest};
ghost use Rattle.nm_types.specs.declared.packets.Piece.{Piece};
ghost use Rattle.nm_copyring.specs.Rule.{Load};

use crate::table::{Board, Place};
use nm_types::Piece;
use std::marker::Model;
use std::mem::replace;

/// A slot of the table: a piece, or nothing. While it is empty it keeps the box that it was given for its
/// last piece, for whoever fills it next.
#[derive(Drop)]
pub struct Slot {
    full: bool,
    place: Option<Box<Piece>>,
}

impl Model for Slot {
    ghost use Rattle.std.specs.Prelude.{Option};
    ghost use Rattle.nm_types.specs.declared.packets.Piece.{Piece};
    ghost use Rattle.nm_chain.specs.Slots.{load_of};

    ghost Value = { Option Piece };

    ghost view = { λ s. load_of s.full s.place };
}

impl Slot {
    /// A slot with nothing.
    pub fn empty() -> Slot
        ensures { result ≡ None }
    {
        Slot {
            full: false,
            place: None,
        }
    }

    /// Puts a piece in. It answers the box that was kept, if there was one.
    pub fn fill(&mut self, piece: Box<Piece>) -> Option<Box<Piece>>
        ensures { self.new ≡ Some piece.value }
    {
        self.full = true;
        replace(&mut self.place, Some(piece))
    }

    /// Takes the piece out, and keeps this box, if there is one.
    pub fn take(&mut self, spare: Option<Box<Piece>>) -> Box<Piece>
        requires { IsSome self.old }
        ensures piece { self.old ≡ Some result.value }
        ensures empty { self.new ≡ None }
    {
        self.full = false;
        let Some(piece) = replace(&mut self.place, spare) else {
            unreachable!()
        };
        piece
    }
}

// Puts a piece into the slot that was taken last. It answers the box that was kept there.
pub(crate) fn fill_slot(
    board: &Board,
    seat: &mut Place,
    slot: usize,
    piece: Box<Piece>,
) -> Option<Box<Piece>>
    requires front { (seat.old.table_id ≡ board.now.shared.table_id)
        × ((old : Load) × (seat.old.me.1 ≡ (slot, old) ∷ rest seat.old.me.1)) }
    ensures seat { (seat.new.table_id ≡ seat.old.table_id) × (seat.new.id ≡ seat.old.id) }
    ensures filled { seat.new.me ≡ (seat.old.me.0, (slot, Some piece.value) ∷ rest seat.old.me.1) }
{
    seat.slot_mut(&board.shared, slot).fill(piece)
}

// Takes the piece out of the slot that was taken last, and leaves a box there.
pub(crate) fn empty_slot(
    board: &Board,
    seat: &mut Place,
    slot: usize,
    spare: Option<Box<Piece>>,
) -> Box<Piece>
    requires table { seat.old.table_id ≡ board.now.shared.table_id }
    requires front { (found : Piece) × (seat.old.me.1 ≡ (slot, Some found) ∷ rest seat.old.me.1) }
    ensures seat { (seat.new.table_id ≡ seat.old.table_id) × (seat.new.id ≡ seat.old.id) }
    ensures piece { seat.old.me.1 ≡ (slot, Some result.value) ∷ rest seat.old.me.1 }
    ensures emptied { seat.new.me ≡ (seat.old.me.0, (slot, None) ∷ rest seat.old.me.1) }
{
    seat.slot_mut(&board.shared, slot).take(spare)
}
