//! Pieces through the rings. A call makes at most two steps, each on the flag of one place.

ghost use Rattle.std.specs.Prelude.{◌≡◌, ◌+◌, true, false, IfErr, IfOk};
ghost use Rattle.nm_copyring.specs.Ports.{IsFree, IsFull};
ghost use Rattle.nm_copyring.specs.Calls.{FindsEmpty, FindsFree, FindsFull, FindsPiece};
ghost use Rattle.nm_copyring.specs.Calls.{IsNextFor, KeepsRingPort, Pulls, Pushes, Reaches};

use crate::counts::{count_empty, count_full, count_pulled, count_pushed};
use crate::port::{RingPort, Rings};
use crate::steps::{empty_next, fill_next, is_free, is_full};
use nm_chain::seats::Steps;
use nm_types::Piece;
use std::sync::ledger::Ledger;

/// Loads the flag of the next place for a rank, which may be the port's own, and answers whether a piece
/// can be pushed to it: the next `push` to it then can't fail. Where it can't, the place is counted as
/// full, as `push` counts it.
pub fn can_push<L: Ledger>(r: &Rings, port: &mut RingPort, to: u8, steps: &mut Steps<L>) -> bool
    requires owns { Reaches r.now port.old to }
    ensures free { result ≡ true → FindsFree to port.old port.new }
    ensures full { result ≡ false → FindsFull to port.old port.new }
    ensures keeps { KeepsRingPort r.now port.old port.new }
    ensures cost { steps.new ≡ steps.old + 1 }
{
    let number = port.pushed(to);
    let free = is_free(r, &mut port.seat, port.rank, to, number, steps);
    if !free {
        count_full(&mut port.tallies, to as usize);
    }
    free
}

/// Loads the flag of the next place of a rank, which may be the port's own, and answers whether a piece
/// can be pulled from it: the next `pull` from it then can't fail. Where it can't, the place is counted
/// as empty, as `pull` counts it.
pub fn can_pull<L: Ledger>(r: &Rings, port: &mut RingPort, sender: u8, steps: &mut Steps<L>) -> bool
    requires owns { Reaches r.now port.old sender }
    ensures full { result ≡ true → FindsPiece sender port.old port.new }
    ensures empty { result ≡ false → FindsEmpty sender port.old port.new }
    ensures keeps { KeepsRingPort r.now port.old port.new }
    ensures cost { steps.new ≡ steps.old + 1 }
{
    let number = port.pulled(sender);
    let full = is_full(r, &mut port.seat, port.rank, sender, number, steps);
    if !full {
        count_empty(&mut port.tallies, sender as usize);
    }
    full
}

/// Pushes a piece to a rank, which may be the port's own, and answers the box that its place kept, if
/// there was one. The piece is the next one by number. It comes back where the flag of its place was
/// loaded as 1: the piece of four numbers before is still there.
pub fn push<L: Ledger>(
    r: &Rings,
    port: &mut RingPort,
    to: u8,
    piece: Box<Piece>,
    steps: &mut Steps<L>,
) -> Result<Option<Box<Piece>>, Box<Piece>>
    requires ready { Reaches r.now port.old to × IsNextFor to piece.value port.old }
    ensures pushes { IfOk result (λ _. Pushes to piece.value port.old port.new) }
    ensures refused { IfErr result (λ back. (back ≡ piece) × FindsFull to port.old port.new
        × (¬ IsFree port.old to)) }
    ensures keeps { KeepsRingPort r.now port.old port.new }
    ensures cost { IfOk result (λ _. steps.new ≡ steps.old + 2)
        × IfErr result (λ _. steps.new ≡ steps.old + 1) }
{
    match fill_next(r, &mut port.seat, to, piece, steps) {
        Ok(spare) => {
            count_pushed(&mut port.tallies, to as usize);
            Ok(spare)
        }
        Err(back) => {
            count_full(&mut port.tallies, to as usize);
            Err(back)
        }
    }
}

/// Pulls the next piece by number of a rank, which may be the port's own, and leaves a box in its place,
/// if one is given. That comes back where there is no piece: the flag of its place was loaded as 0.
pub fn pull<L: Ledger>(
    r: &Rings,
    port: &mut RingPort,
    sender: u8,
    spare: Option<Box<Piece>>,
    steps: &mut Steps<L>,
) -> Result<Box<Piece>, Option<Box<Piece>>>
    requires owns { Reaches r.now port.old sender }
    ensures pulls { IfOk result (λ piece. Pulls sender piece.value port.old port.new) }
    ensures missed { IfErr result
        (λ _. FindsEmpty sender port.old port.new × (¬ IsFull port.old sender)) }
    ensures keeps { KeepsRingPort r.now port.old port.new }
    ensures cost { IfOk result (λ _. steps.new ≡ steps.old + 2)
        × IfErr result (λ _. steps.new ≡ steps.old + 1) }
{
    let number = port.pulled(sender);
    match empty_next(r, &mut port.seat, port.rank, sender, number, spare, steps) {
        Ok(piece) => {
            count_pulled(&mut port.tallies, sender as usize);
            Ok(piece)
        }
        Err(back) => {
            count_empty(&mut port.tallies, sender as usize);
            Err(back)
        }
    }
}
