//! The table, and what a seat knows.

use crate::slots::Slot;
use atomic_table::{Seat, Table, TableRule};
use nm_chain::seats::View;
use nm_types::Piece;
use std::alloc::Global;
use std::collections::LinkedList;

/// What a rank is at work on, between the two steps of a call. No value of it is made.
pub enum Work {
    Idle,
    /// Its next place for this rank was found free.
    Filling(u64),
    /// Its next place of this rank was found full, with this piece.
    Emptying(u64, Piece),
}

/// What a rank found where it looked last, at a place that is still its own. No value of it is made.
pub enum Look {
    Fresh,
    /// Its next place for this rank is free.
    Free(u64),
    /// Its next place of this rank is full.
    Full(u64),
}

/// What a rank pushed to another one, and pulled from it. No value of it is made.
pub struct Lane {
    pub pushed: LinkedList<Piece>,
    pub pulled: LinkedList<Piece>,
    /// How often the next place for it was found full.
    pub full: u64,
    /// How often the next place of it was found empty.
    pub empty: u64,
}

/// What one rank knows. No value of it is made.
pub struct Entry {
    pub rank: u64,
    pub ranks: u64,
    /// One for each rank, its own among them.
    pub lanes: LinkedList<Lane>,
    pub work: Work,
    pub look: Look,
}

/// The rule of the rings' table (`Rule`), and the view of its first seat.
pub struct InPlaces;

impl TableRule<Slot, View<Entry>, u64> for InPlaces {
    ghost use Rattle.nm_copyring.specs.Rule.{Rule, first_view};

    ghost holds = { Rule };

    ghost first = { first_view };
}

/// The table that all ranks share.
pub type Board = Table<Slot, View<Entry>, u64, InPlaces, Global>;

/// A seat of it, which speaks for some of the ranks.
pub type Place = Seat<Slot, View<Entry>>;
