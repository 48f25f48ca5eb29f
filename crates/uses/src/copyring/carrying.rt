//! A text that goes through a ring, byte by byte.

ghost use Rattle.std.specs.Prelude.{◌≡◌, ◌<◌, ◌++◌, ◌∷◌, [], if◌then◌else◌, IfOk, OnOk};
ghost use Rattle.nm_copyring.specs.Ports.{IsNew, Owns, pulled_from, pushed_to};
ghost use Rattle.uses.specs.Fronts.{IsFront, bytes_in};

use nm_chain::seats::Steps;
use nm_copyring::{RingPort, Rings, pull, push};
use nm_types::{Chunk, Memory, Piece, Shape};
use std::alloc::Global;
use std::marker::Brand;
use std::sync::ledger::{Blank, Ledger};

/// The rings of two ranks, and the port of each.
fn two_ranks(alloc: Global) -> Result<(Rings, RingPort, RingPort), Memory>
    ensures { IfOk result (λ t. (t.0.ranks ≡ 2) × IsNew t.0 t.1 0 × IsNew t.0 t.2 1) }
{
    let Ok(shape) = Shape::new(2, 1, 0) else {
        unreachable!()
    };
    let (rings, mut ports) = Rings::build(alloc, shape)?;
    let second = ports.remove(1);
    let first = ports.remove(0);
    Ok((rings, first, second))
}

/// Pushes a byte from rank 0 to rank 1, in a piece of its own. The answer is whether it went: its place
/// was free.
fn push_byte<L: Ledger>(
    alloc: Global,
    r: &Rings,
    port: &mut RingPort,
    byte: u8,
    steps: &mut Steps<L>,
) -> Result<bool, Memory>
    requires owns { Owns r.now port.old × (1 < r.now.ranks) × (port.old.rank ≡ 0) }
    ensures owns { Owns r.now port.new × (port.new.rank ≡ 0) }
    ensures went { IfOk result (λ went. bytes_in (pushed_to port.new 1)
        ≡ bytes_in (pushed_to port.old 1) ++ (if went then byte ∷ [] else [])) }
{
    if !port.has_room(1) {
        return Ok(false);
    }
    let piece = Piece {
        from: 0,
        number: port.pushed(1),
        n: 0,
        at: 0,
        bytes: Chunk::of(&[byte]),
    };
    let Ok(boxed) = Box::new(alloc, piece) else {
        return Err(Memory);
    };
    Ok(push(r, port, 1, boxed, steps).is_ok())
}

/// Pulls the next piece of rank 0, if there is one, and puts its bytes behind those that came.
fn pull_into<L: Ledger>(
    r: &Rings,
    port: &mut RingPort,
    came: &mut Vec<u8>,
    steps: &mut Steps<L>,
) -> Result<(), Memory>
    requires owns { Owns r.now port.old × (0 < r.now.ranks) × (port.old.rank ≡ 1) }
    requires all { came.old.items ≡ bytes_in (pulled_from port.old 0) }
    ensures owns { Owns r.now port.new × (port.new.rank ≡ 1) }
    ensures all { OnOk result (came.new.items ≡ bytes_in (pulled_from port.new 0)) }
{
    if let Ok(piece) = pull(r, port, 0, None, steps) {
        came.extend_from_slice(piece.bytes.as_slice())?;
    }
    Ok(())
}

/// Pushes the bytes of a text in turn, until a place is full, and pulls a piece after each.
fn push_and_pull<L: Ledger>(
    alloc: Global,
    r: &Rings,
    first: &mut RingPort,
    second: &mut RingPort,
    text: &[u8],
    came: &mut Vec<u8>,
    blank: Blank,
) -> Result<(), Memory>
    requires blank { (blank.name ≡ L.name) × (blank.parts ≡ L.parts) × (0 < L.parts) }
    requires first { IsNew r.now first.old 0 × (r.now.ranks ≡ 2) }
    requires second { IsNew r.now second.old 1 × (came.old.items ≡ []) }
    ensures first { Owns r.now first.new × (first.new.rank ≡ 0) }
    ensures second { Owns r.now second.new × (second.new.rank ≡ 1) }
    ensures sent { OnOk result (IsFront (bytes_in (pushed_to first.new 1)) text.now) }
    ensures came { OnOk result (came.new.items ≡ bytes_in (pulled_from second.new 0)) }
{
    let mut steps = Steps::<L>::new(blank);
    for byte in text {
        if !push_byte(alloc, r, first, *byte, &mut steps)? {
            break;
        }
        pull_into(r, second, came, &mut steps)?;
    }
    Ok(())
}

/// Closes the rings: what the second port pulled is a front of what the first one pushed.
fn close_both(alloc: Global, rings: Rings, first: RingPort, second: RingPort) -> Result<(), Memory>
    requires first { Owns rings first × (first.rank ≡ 0) × (rings.ranks ≡ 2) }
    requires second { Owns rings second × (second.rank ≡ 1) }
    ensures { OnOk result
        (IsFront (bytes_in (pulled_from second 0)) (bytes_in (pushed_to first 1))) }
{
    let mut ports = Vec::new(alloc);
    ports.push(first)?;
    ports.push(second)?;
    let _ = rings.close(ports);
    Ok(())
}

/// What came of a text that rank 0 pushed and rank 1 pulled: a front of it.
pub fn carry(alloc: Global, text: &[u8]) -> Result<Vec<u8>, Memory>
    ensures { IfOk result (λ came. IsFront came.items text.now) }
{
    let (rings, mut first, mut second) = two_ranks(alloc)?;
    let mut came = Vec::new(alloc);
    push_and_pull::<Brand>(
        alloc,
        &rings,
        &mut first,
        &mut second,
        text,
        &mut came,
        Blank::new(1),
    )?;
    close_both(alloc, rings, first, second)?;
    Ok(came)
}
