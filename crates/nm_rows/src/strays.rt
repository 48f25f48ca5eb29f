//! Packets that no rank would send, at a rank at which nothing happened.

ghost use Rattle.std.specs.Prelude.{◌≡◌, IfOk};

use nm_rank::Rank;
use nm_types::{MAX_STAMP, Memory, Packet, Payload, Shape, What};
use std::alloc::Global;
use std::test::Fail;

/// Rank 0 of two, at which nothing happened.
fn fresh(alloc: Global) -> Result<Rank, Memory>
    ensures { IfOk result (λ rank. rank.sizes.ranks ≡ 2) }
{
    let shape = Shape::new(2, 8, 1024).unwrap();
    Rank::new(alloc, shape, 0)
}

/// An eager message of so many bytes begins.
fn head(tag: u16, len: u32) -> What {
    What::Head { tag, ctx: 0, len }
}

/// A message of so many bytes is announced.
fn ask(len: u32) -> What {
    What::Ask {
        tag: 7,
        ctx: 0,
        len,
    }
}

/// Whether a rank at which nothing happened takes this packet of rank 1 as a stray, by which nothing
/// happens.
fn is_counted(rank: &mut Rank, packet: &Packet) -> Result<bool, Memory>
    requires ranks { rank.old.sizes.ranks ≡ 2 }
    requires packet { (packet.now.from ≡ 1) × (packet.now.seq ≡ 0) }
{
    if rank.is_worn() || rank.took(1) != 0 {
        return Ok(false);
    }
    rank.take_packet(packet)?;
    let is_taken = rank.strays() == 1 && rank.took(1) == 1;
    Ok(is_taken && rank.front_to().is_none() && rank.history().is_empty())
}

/// Whether a new rank 0 takes this packet of rank 1 as a stray, by which nothing happens.
fn is_stray(alloc: Global, what: What, size: usize, stamp: u64) -> Result<bool, Memory> {
    if size > 256 || stamp > MAX_STAMP {
        return Ok(false);
    }
    let bytes = [7; 256];
    let packet = Packet {
        from: 1,
        seq: 0,
        stamp,
        what,
        payload: Payload::of(&bytes[..size]),
    };
    let mut rank = fresh(alloc)?;
    is_counted(&mut rank, &packet)
}

#[test]
fn strays_are_counted_and_nothing_happens(rt: HostRuntime) -> Result<(), Fail> {
    let table = [
        (What::More { n: 0 }, 0, 1),
        (What::Clear { n: 0 }, 0, 1),
        (What::Withdraw { n: 0 }, 0, 1),
        (What::Withdrawn { n: 0, done: true }, 0, 1),
        (head(7, 257), 10, 1),
        (head(7, 1_025), 256, 1),
        (head(32_768, 0), 0, 1),
        (ask(1_048_577), 0, 1),
        (ask(5), 1, 1),
        (ask(5), 0, 4_611_686_018_427_387_903),
    ];
    for (what, size, stamp) in table {
        assert!(rt; is_stray(rt.alloc(), what, size, stamp)?, "at {what:?}");
    }
    Ok(())
}
