//! The two moves of a queue.

ghost use Rattle.std.specs.Prelude.{◌≡◌, ◌+◌, ◌≤◌, true, false, IfOk, IfErr};
ghost use Rattle.nm_cells.specs.Ports.{Owns, holding, HasCell, MayJoin, IsOwn};
ghost use Rattle.nm_queue.specs.Moves.{Costs, Enqueues, FindsFirst, Misses, MissesHead, TakesFirst};
ghost use Rattle.nm_queue.specs.Moves.{finding, shadow_of};

use nm_cells::{
    Cell, Fabric, Port, Queue, clear_head, clear_link, drop_tail, load_head, load_link,
    reload_link, store_head, store_link, swap_tail,
};
use nm_chain::seats::Steps;
use nm_chain::table::Item;
use std::sync::ledger::Ledger;

/// Why there was no cell to take. A miss is no fault.
#[derive(Clone, Copy, Drop)]
pub enum Miss {
    /// The head was loaded as 0.
    HeadEmpty,
    /// The first cell isn't the last one, and its link was loaded as 0: an enqueue has exchanged
    /// the tail and has still to store the link. The cell stays first.
    LinkMissing,
}

/// Puts a cell in hand at the end of a queue, in three word steps. It can't be refused.
#[inline(always)]
pub fn enqueue<L: Ledger, I: Item>(
    f: &Fabric<I>,
    port: &mut Port<I>,
    q: Queue,
    cell: Cell,
    steps: &mut Steps<L>,
)
    requires owns { Owns f.now port.old }
    requires in_hand { HasCell f.now port.old cell }
    requires may { MayJoin f.now port.old q cell.number (holding port.old cell.number) }
    ensures enqueued { Enqueues q cell.number f.now port.old port.new }
    ensures bound { steps.new ≡ steps.old + 3 }
{
    clear_link(f, port, &cell, steps);
    let pending = swap_tail(f, port, q, cell, steps);
    if pending.is_first() {
        store_head(f, port, pending, steps);
    } else {
        store_link(f, port, pending, steps);
    }
}

// Makes the first cell of an own queue the shadow head, where there is none. It answers whether there is one
// then.
fn find_first<L: Ledger, I: Item>(
    f: &Fabric<I>,
    port: &mut Port<I>,
    q: Queue,
    steps: &mut Steps<L>,
) -> bool
    requires owns { Owns f.now port.old }
    requires own { IsOwn port.old q }
    ensures owns { Owns f.now port.new × (port.new.rank ≡ port.old.rank) }
    ensures found { result ≡ true → FindsFirst q port.old port.new
        × (steps.new ≡ steps.old + finding (shadow_of q port.old)) }
    ensures missed { result ≡ false → MissesHead q port.old port.new
        × (steps.new ≡ steps.old + 1) }
{
    if port.has_shadow(q) {
        return true;
    }
    if !load_head(f, port, q, steps) {
        return false;
    }
    clear_head(f, port, q, steps);
    true
}

/// Takes the first cell of an own queue, in at most five word steps.
///
/// Where there is no shadow head, two steps find it: the head is loaded and cleared. Then the last
/// cell is taken in two more steps, and another one in one, or in three where its link was stored
/// late.
#[inline(always)]
pub fn dequeue<L: Ledger, I: Item>(
    f: &Fabric<I>,
    port: &mut Port<I>,
    q: Queue,
    steps: &mut Steps<L>,
) -> Result<Cell, Miss>
    requires owns { Owns f.now port.old }
    requires own { IsOwn port.old q }
    ensures owns { Owns f.now port.new × (port.new.rank ≡ port.old.rank) }
    ensures took { IfOk result (TakesFirst q f.now port.old port.new) }
    ensures missed { IfErr result (λ why. Misses q why port.old port.new) }
    ensures cost { Costs result (shadow_of q port.old) (shadow_of q port.new) steps.old steps.new }
    ensures bound { steps.new ≤ steps.old + 5 }
{
    if !find_first(f, port, q, steps) {
        return Err(Miss::HeadEmpty);
    }
    if let Some(cell) = load_link(f, port, q, steps) {
        return Ok(cell);
    }
    if let Some(cell) = drop_tail(f, port, q, steps) {
        return Ok(cell);
    }
    match reload_link(f, port, q, steps) {
        Some(cell) => Ok(cell),
        None => Err(Miss::LinkMissing),
    }
}
