//! Loose cells: a port's own cells that stand in no queue, and that no call may touch before
//! `loose` gave them.

ghost use Rattle.std.specs.Prelude.{◌≡◌, ◌↔◌, ◌+◌, ◌/◌, ◌<◌, ◌≤◌, ℕ, None, IfSome, IfNone};
ghost use Rattle.nm_chain.specs.declared.table.table.Hand.TheVariants.{Held, Loose};
ghost use Rattle.nm_chain.specs.Rule.{hand};
ghost use Rattle.nm_chain.specs.Plays.{with_hand};
ghost use Rattle.nm_cells.specs.Ports.{Owns, SameTaken, knows, cells_of, IsLoose, Frees};

use crate::cell::Cell;
use crate::port::{Fabric, Port};
use crate::slots::carry;
use nm_chain::table::{Item, Picks, link_word};

/// The cells with numbers from `first` on and below `end`.
#[derive(Clone, Copy)]
pub struct LooseCells {
    pub first: u64,
    pub end: u64,
}

// Takes the slot of the port's next own cell, which no call has touched yet. It is loose from then
// on.
pub(crate) fn pick_up<I: Item>(f: &Fabric<I>, port: &mut Port<I>)
    requires owns { Owns f.now port.old }
    requires low { port.old.loose.end < cells_of f.now }
    requires own { port.old.loose.end / f.now.each ≡ port.old.rank }
    requires untouched { hand (knows port.old) port.old.loose.end ≡ Loose }
    ensures owns { Owns f.now port.new × (port.new.rank ≡ port.old.rank)
        × SameTaken port.old port.new }
    ensures picked { knows port.new ≡ with_hand port.old.loose.end Held (knows port.old) }
    ensures loose { (port.new.loose.first ≡ port.old.loose.first)
        × (port.new.loose.end ≡ port.old.loose.end + 1) }
    ensures hands { port.new.hands ≡ port.old.hands }
{
    let cell = port.loose.end;
    let word = link_word(f.ranks, cell);
    f.board.shared.load::<Picks>(&mut port.seat, word as usize);
    carry(&mut port.carried, cell);
    port.loose.end += 1;
}

impl<I: Item> Port<I> {
    /// Gives the port's lowest loose cell, which is empty and no longer loose, or `None` where the
    /// port has no loose cell. It makes no step on a word.
    pub fn loose(&mut self) -> Option<Cell>
        ensures none { result ≡ None ↔ ((c : ℕ) → ¬ IsLoose self.old c) }
        ensures some { IfSome result (Frees self.old self.new) }
        ensures left { IfNone result (self.new.loose ≡ self.old.loose) }
        ensures same { (self.new.seat ≡ self.old.seat) × (self.new.rank ≡ self.old.rank)
            × (self.new.hands ≡ self.old.hands) × (self.new.peers ≡ self.old.peers)
            × (self.new.held ≡ self.old.held) }
    {
        let LooseCells { first, end } = self.loose;
        if end <= first {
            return None;
        }
        self.loose.first += 1;
        Some(Cell {
            number: first,
            owner: u64::from(self.rank),
        })
    }
}
