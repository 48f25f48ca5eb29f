//! Rings at the start.

ghost use Rattle.std.specs.Prelude.{◌≡◌, ℕ, suc, ◌-◌, ◌*◌, ◌<◌, ◌≤◌, [], IfOk, Some, None, length, replicate, slice_get};
ghost use Rattle.nm_chain.specs.Spoken.{view};
ghost use Rattle.nm_copyring.specs.declared.port.RingPort.{RingPort};
ghost use Rattle.nm_copyring.specs.Rule.{new_lane, newcomers};
ghost use Rattle.nm_copyring.specs.Counted.{tally};
ghost use Rattle.nm_copyring.specs.Ports.{IsNew};

use crate::port::{RingPort, Rings};
use crate::slots::Slot;
use crate::table::{Board, Place};
use crate::tallies::Tally;
use nm_chain::seats::GivesFirst;
use nm_types::{Memory, Shape};
use std::alloc::Global;

// Room for so many counts more, which no port uses: two ports count at the same time, and it keeps what one counts
// out of the lines of memory of the other.
const APART: usize = 4;

// Nothing was pushed to any of the ranks, and nothing pulled from them.
fn new_tallies(alloc: Global, ranks: u64) -> Result<Vec<Tally>, Memory>
    requires { ranks ≤ 64 }
    ensures { IfOk result (λ v. v.items ≡ replicate ranks (tally new_lane)) }
{
    let none = Tally {
        pushed: 0,
        pulled: 0,
        full: 0,
        empty: 0,
    };
    let mut tallies = vec![in alloc; none; ranks as usize]?;
    tallies.reserve_exact(APART)?;
    Ok(tallies)
}

// The port of the lowest rank that `rest` speaks for.
fn port_of(alloc: Global, r: &Rings, rest: &mut Place, rank: u8) -> Result<RingPort, Memory>
    requires table { (rest.old.table_id ≡ r.now.board.shared.table_id) × (rank < r.now.ranks) }
    requires lowest { rest.old.me
        ≡ (view (newcomers r.now.ranks rank (suc (r.now.ranks - suc rank))), []) }
    ensures port { IfOk result (λ p. IsNew r.now p rank) }
    ensures rest { IfOk result (λ _. (rest.new.table_id ≡ rest.old.table_id)
        × (rest.new.me ≡ (view (newcomers r.now.ranks (suc rank) (r.now.ranks - suc rank)), []))) }
{
    let tallies = new_tallies(alloc, r.ranks)?;
    let seat = r.board.shared.split_seat::<GivesFirst>(rest);
    Ok(RingPort {
        seat,
        rank,
        tallies,
    })
}

fn empty_flags(alloc: Global, ranks: u64) -> Result<Vec<u64>, Memory>
    requires { ranks ≤ 64 }
    ensures { IfOk result (λ v. v.items ≡ replicate (4 * (ranks * ranks)) 0) }
{
    let places = 4 * (ranks * ranks);
    Ok(vec![in alloc; 0; places as usize]?)
}

// So many slots, all empty.
fn empty_slots(alloc: Global, count: usize) -> Result<Vec<Slot>, Memory>
    ensures { IfOk result (λ v. v.items ≡ replicate count None) }
{
    let mut slots = Vec::with_capacity(alloc, count)?;
    for _place in 0..count {
        slots.push(Slot::empty())?;
    }
    Ok(slots)
}

// The rings, and the seat that speaks for all ranks.
fn whole(alloc: Global, ranks: u64) -> Result<(Rings, Place), Memory>
    requires { (0 < ranks) × (ranks ≤ 64) }
    ensures { IfOk result (λ t. (t.0.ranks ≡ ranks) × (t.1.table_id ≡ t.0.board.shared.table_id)
        × (t.1.me ≡ (view (newcomers ranks 0 ranks), []))) }
{
    let flags = empty_flags(alloc, ranks)?;
    let slots = empty_slots(alloc, flags.len())?;
    let Ok((board, rest)) = Board::new(alloc, flags.as_slice(), slots, &ranks) else {
        return Err(Memory);
    };
    Ok((Rings { board, ranks }, rest))
}

fn ports_of(alloc: Global, r: &Rings, mut rest: Place) -> Result<Vec<RingPort>, Memory>
    requires { (rest.table_id ≡ r.now.board.shared.table_id)
        × (rest.me ≡ (view (newcomers r.now.ranks 0 r.now.ranks), [])) }
    ensures count { IfOk result (λ v. length v.items ≡ r.now.ranks) }
    ensures ports { IfOk result
        (λ v. (k : ℕ) (p : RingPort) → slice_get v.items k ≡ Some p → IsNew r.now p k) }
{
    let mut ports = Vec::new(alloc);
    for rank in 0..r.ranks {
        let port = port_of(alloc, r, &mut rest, rank as u8)?;
        ports.push(port)?;
    }
    Ok(ports)
}

impl Rings {
    /// Rings whose places are all empty, with a port for each rank, in order.
    pub fn build(alloc: Global, shape: Shape) -> Result<(Rings, Vec<RingPort>), Memory>
        ensures rings { IfOk result (λ t. (t.0.ranks ≡ shape.ranks)
            × (length t.1.items ≡ shape.ranks)) }
        ensures ports { IfOk result
            (λ t. (k : ℕ) (p : RingPort) → slice_get t.1.items k ≡ Some p → IsNew t.0 p k) }
    {
        let (rings, rest) = whole(alloc, u64::from(shape.ranks()))?;
        let ports = ports_of(alloc, &rings, rest)?;
        Ok((rings, ports))
    }
}
