//! The ports of two ranks, packets of ten bytes, and how a fabric ends.

ghost use Rattle.std.specs.Prelude.{◌≡◌, ℕ, ◌<◌, IfOk, IfSome, Some, length, slice_get};
ghost use Rattle.nm_cells.specs.declared.port.Port.{Port};
ghost use Rattle.nm_types.specs.declared.packets.Packet.{Packet};
ghost use Rattle.nm_types.specs.declared.limits.TheConstants.{MAX_PACKETS};
ghost use Rattle.nm_cells.specs.Ports.{Owns, Begins};
ghost use Rattle.nm_cells.specs.ClosedLists.{ranks_of};

use nm_cells::{Closed, Fabric, Port};
use nm_chain::table::Parcel;
use nm_types::{Memory, Packet, Payload, What};
use std::alloc::Global;

/// The bytes of the packet with this number, of which each tells the packet and its own place.
pub fn bytes_of(number: u64) -> [u8; 10] {
    let mut bytes = [0; 10];
    for k in 0..10 {
        bytes[k] = ((number % 251 + k as u64) % 251) as u8;
    }
    bytes
}

/// A packet of ten bytes on its way, in a box of memory, or `None` for want of memory.
pub fn parcel(alloc: Global, from: u8, seq: u64) -> Option<Box<Parcel<Packet>>>
    requires { seq < MAX_PACKETS }
    ensures { IfSome result (λ parcel. (parcel.value.from ≡ from) × (parcel.value.seq ≡ seq)) }
{
    let item = Packet {
        from,
        seq,
        stamp: 0,
        what: What::More { n: 0 },
        payload: Payload::of(&bytes_of(seq)),
    };
    match Box::new(alloc, Parcel { from, seq, item }) {
        Ok(parcel) => Some(parcel),
        Err(_) => None,
    }
}

/// The ports of two ranks, whose cells are loose, or else in their free queues.
pub fn both(
    f: &Fabric<Packet>,
    mut ports: Vec<Port<Packet>>,
    loose: bool,
) -> (Port<Packet>, Port<Packet>)
    requires count { length ports.items ≡ 2 }
    requires new { (k : ℕ) (p : Port Packet) → slice_get ports.items k ≡ Some p → Begins loose f.now p k }
    ensures { Begins loose f.now result.0 0 × Begins loose f.now result.1 1 }
{
    let b = ports.remove(1);
    let a = ports.remove(0);
    (a, b)
}

/// Closes the fabric of two ranks.
pub fn closed(
    alloc: Global,
    fabric: Fabric<Packet>,
    a: Port<Packet>,
    b: Port<Packet>,
) -> Result<Closed<Packet>, Memory>
    requires first { Owns fabric a × (a.rank ≡ 0) × (a.hands ≡ 0) }
    requires second { Owns fabric b × (b.rank ≡ 1) × (b.hands ≡ 0) }
    requires two { fabric.ranks ≡ 2 }
    ensures { IfOk result (λ c. ranks_of c ≡ 2) }
{
    let mut ports = Vec::new(alloc);
    ports.push(a)?;
    ports.push(b)?;
    Ok(fabric.close(ports))
}
