//! Worked calls on the rings of two ranks.

ghost use Rattle.std.specs.Prelude.{◌≡◌, ◌<◌, ◌^◌, IfOk};
ghost use Rattle.nm_copyring.specs.Ports.{IsNew, Owns};

use nm_chain::seats::Steps;
use nm_copyring::{RingAccount, RingPort, Rings, pull, push};
use nm_types::{Chunk, Memory, Piece, Shape};
use std::alloc::Global;
use std::marker::Brand;
use std::sync::ledger::{Blank, Ledger};
use std::test::Fail;

// The rings of two ranks, with their ports.
fn two_ranks(alloc: Global) -> Result<(Rings, RingPort, RingPort), Memory>
    ensures { IfOk result (λ t. (t.0.ranks ≡ 2) × IsNew t.0 t.1 0 × IsNew t.0 t.2 1) }
{
    let Ok(shape) = Shape::new(2, 1, 0) else {
        unreachable!()
    };
    let (rings, mut ports) = Rings::build(alloc, shape)?;
    let b = ports.remove(1);
    let a = ports.remove(0);
    Ok((rings, a, b))
}

fn close_two(alloc: Global, rings: Rings, a: RingPort, b: RingPort) -> Result<RingAccount, Memory>
    requires { (rings.ranks ≡ 2) × Owns rings a × (a.rank ≡ 0) × Owns rings b × (b.rank ≡ 1) }
{
    let mut ports = Vec::new(alloc);
    ports.push(a)?;
    ports.push(b)?;
    Ok(rings.close(ports))
}

// A piece whose bytes spell its number.
fn piece(from: u8, number: u64) -> Piece
    requires { number < 2 ^ 60 }
    ensures { (result.from ≡ from) × (result.number ≡ number) }
{
    Piece {
        from,
        number,
        n: 0,
        at: 0,
        bytes: Chunk::of(&number.to_le_bytes()),
    }
}

// Pushes the next piece to a rank, and gives the number of a piece that comes back.
fn push_next<L: Ledger>(
    alloc: Global,
    r: &Rings,
    port: &mut RingPort,
    to: u8,
    steps: &mut Steps<L>,
) -> Result<Option<u64>, Memory>
    requires { Owns r.now port.old × (to < r.now.ranks) }
    ensures { IfOk result (λ _. Owns r.now port.new × (port.new.rank ≡ port.old.rank)) }
{
    if !port.has_room(to) {
        return Ok(None);
    }
    let Ok(next) = Box::new(alloc, piece(port.rank(), port.pushed(to))) else {
        return Err(Memory);
    };
    match push(r, port, to, next, steps) {
        Ok(_) => Ok(None),
        Err(back) => Ok(Some(back.number)),
    }
}

// Pulls the next piece of a rank, whose bytes spell the number that it gives.
fn pull_next<L: Ledger>(
    r: &Rings,
    port: &mut RingPort,
    sender: u8,
    steps: &mut Steps<L>,
) -> Option<u64>
    requires { Owns r.now port.old × (sender < r.now.ranks) }
    ensures { Owns r.now port.new × (port.new.rank ≡ port.old.rank) }
{
    let Ok(piece) = pull(r, port, sender, None, steps) else {
        return None;
    };
    if piece.bytes.as_slice() == piece.number.to_le_bytes().as_slice() {
        Some(piece.number)
    } else {
        Some(u64::MAX)
    }
}

// Five pushes, a pull, a push, and five pulls.
fn calls<L: Ledger>(
    alloc: Global,
    r: &Rings,
    a: &mut RingPort,
    b: &mut RingPort,
    blank: Blank,
) -> Result<[Option<u64>; 12], Memory>
    requires blank { (blank.name ≡ L.name) × (blank.parts ≡ L.parts) × (0 < L.parts) }
    requires owns { (r.now.ranks ≡ 2) × Owns r.now a.old × Owns r.now b.old }
    ensures owns { IfOk result (λ _. Owns r.now a.new × (a.new.rank ≡ a.old.rank)) }
    ensures other_owns { IfOk result (λ _. Owns r.now b.new × (b.new.rank ≡ b.old.rank)) }
{
    let mut steps = Steps::<L>::new(blank);
    let mut answers = [None; 12];
    for k in 0..5 {
        answers[k] = push_next(alloc, r, a, 1, &mut steps)?;
    }
    answers[5] = pull_next(r, b, 0, &mut steps);
    answers[6] = push_next(alloc, r, a, 1, &mut steps)?;
    for k in 7..12 {
        answers[k] = pull_next(r, b, 0, &mut steps);
    }
    Ok(answers)
}

#[test]
fn a_fifth_piece_isnt_pushed(rt: HostRuntime) -> Result<(), Fail> {
    let (rings, mut a, mut b) = two_ranks(rt.alloc())?;
    let answers = calls::<Brand>(rt.alloc(), &rings, &mut a, &mut b, Blank::new(1))?;
    let pushed = (a.rank(), a.pushed(1), a.full(1));
    let pulled = (b.rank(), b.pulled(0), b.empty(0));
    let left = close_two(rt.alloc(), rings, a, b)?.left();
    let expected = [
        None,
        None,
        None,
        None,
        Some(4),
        Some(0),
        None,
        Some(1),
        Some(2),
        Some(3),
        Some(4),
        None,
    ];
    assert_eq!(rt; answers, expected);
    assert_eq!(rt; pushed, (0, 5, 1));
    assert_eq!(rt; pulled, (1, 5, 1));
    assert_eq!(rt; left, 0);
    Ok(())
}
