//! All ranks of a world, at its start.

ghost use Rattle.std.specs.Prelude.{◌≡◌, ◌<◌, ◌++◌, ◌∷◌, [], ℕ, Some, IfOk, length, slice_get};
ghost use Rattle.std.specs.Arc.{arc_value};
ghost use Rattle.nm_types.specs.declared.packets.Packet.{Packet};
ghost use Rattle.nm_cells.specs.declared.port.Port.{Port};
ghost use Rattle.nm_cells.specs.Ports.{IsNew};
ghost use Rattle.nm_copyring.specs.declared.port.RingPort.{RingPort};
ghost use Rattle.nm_copyring.specs.Ports as ring_port;
ghost use Rattle.nm_handle.specs.Standing.{AreNew, IsNewAt};
ghost use Rattle.nm_handle.specs.Worlds.{AreRanksFrom, AreWorld, IsRankAt};

use crate::handles::Handle;
use crate::states::State;
use nm_calls::Calls;
use nm_copyring::{RingPort, Rings};
use nm_port::{Fabric, Port};
use nm_rank::journal::Erased;
use nm_types::{Memory, Packet, Shape};
use nm_world::Player;
use std::alloc::Global;
use std::sync::Arc;

/// What all ranks of a world share.
#[derive(Drop)]
pub struct Shared {
    pub(crate) fabric: Arc<Fabric<Packet>, Global>,
    pub(crate) rings: Arc<Rings, Global>,
}

// Puts one more at the end.
pub(crate) fn add<T: Drop>(list: &mut Vec<T>, x: T) -> Result<(), Memory>
    ensures { IfOk result (λ _. list.new.items ≡ list.old.items ++ x ∷ []) }
{
    match list.push(x) {
        Ok(()) => Ok(()),
        Err(_) => Err(Memory),
    }
}

// The rank of these ports.
fn handle_of(
    alloc: Global,
    shape: Shape,
    shared: &Shared,
    port: Port<Packet>,
    ring: RingPort,
) -> Result<Handle, Memory>
    requires rank { port.rank < shape.ranks }
    requires ranks { ((arc_value shared.now.fabric).ranks ≡ shape.ranks)
        × ((arc_value shared.now.rings).ranks ≡ shape.ranks) }
    requires cells { IsNew (arc_value shared.now.fabric) port port.rank }
    requires places { ring_port.IsNew (arc_value shared.now.rings) ring port.rank }
    ensures new { IfOk result (IsNewAt shape port.rank) }
    ensures own { IfOk result (IsRankAt shape (arc_value shared.now.fabric) (arc_value shared.now.rings)
        port.rank) }
{
    let source = Calls::new(shape.ranks());
    let player = Player::<Calls, Erased>::new(alloc, shape, port, ring, source)?;
    let fabric = Arc::try_clone(&shared.fabric)?;
    let rings = Arc::try_clone(&shared.rings)?;
    Ok(Handle {
        fabric,
        rings,
        player,
        shape,
        state: State::Open,
        live: 0,
    })
}

// A rank for each port.
fn handles_of(
    alloc: Global,
    shape: Shape,
    shared: &Shared,
    ports: Vec<Port<Packet>>,
    rings: Vec<RingPort>,
) -> Result<Vec<Handle>, Memory>
    requires many { (length ports.items ≡ shape.ranks) × (length rings.items ≡ shape.ranks) }
    requires ranks { ((arc_value shared.now.fabric).ranks ≡ shape.ranks)
        × ((arc_value shared.now.rings).ranks ≡ shape.ranks) }
    requires cells { (k : ℕ) (p : Port Packet) → slice_get ports.items k ≡ Some p →
        IsNew (arc_value shared.now.fabric) p k }
    requires places { (k : ℕ) (p : RingPort) → slice_get rings.items k ≡ Some p →
        ring_port.IsNew (arc_value shared.now.rings) p k }
    ensures new { IfOk result (λ v. AreNew shape 0 v.items) }
    ensures each { IfOk result (λ v. AreRanksFrom shape (arc_value shared.now.fabric)
        (arc_value shared.now.rings) 0 v.items) }
    ensures many { IfOk result (λ v. length v.items ≡ shape.ranks) }
{
    let mut handles = Vec::new(alloc);
    let mut rings = rings.into_iter();
    for port in ports {
        let Some(ring) = rings.next() else {
            unreachable!()
        };
        let handle = handle_of(alloc, shape, shared, port, ring)?;
        add(&mut handles, handle)?;
    }
    Ok(handles)
}

/// The ranks of a world of this shape, by their numbers.
pub fn world(alloc: Global, shape: Shape) -> Result<Vec<Handle>, Memory>
    ensures new { IfOk result (λ v. AreNew shape 0 v.items) }
    ensures one { IfOk result (λ v. AreWorld shape v.items) }
{
    let (fabric, ports) = Fabric::<Packet>::build(alloc, shape)?;
    let (rings, ring_ports) = Rings::build(alloc, shape)?;
    let fabric = Arc::new(alloc, fabric)?;
    let rings = Arc::new(alloc, rings)?;
    let shared = Shared { fabric, rings };
    let handles = handles_of(alloc, shape, &shared, ports, ring_ports)?;
    Ok(handles)
}
