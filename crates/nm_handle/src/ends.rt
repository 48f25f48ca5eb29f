//! The end of a world, once all of its ranks are back in one hand.

ghost use Rattle.std.specs.Prelude.{◌≡◌, ◌⊎◌, ◌<◌, ◌*◌, ◌∷◌, [], List, length, map, IfErr, IfOk};
ghost use Rattle.std.specs.Arc.{arc_value};
ghost use Rattle.std.specs.List.{AllByRecursion};
ghost use Rattle.nm_types.specs.declared.packets.Packet.{Packet};
ghost use Rattle.nm_types.specs.Sizes.{Sizes};
ghost use Rattle.nm_cells.specs.declared.port.Fabric.{Fabric};
ghost use Rattle.nm_copyring.specs.declared.port.Rings.{Rings};
ghost use Rattle.nm_process.specs.Playing.{AllInRange};
ghost use Rattle.nm_world.specs.Players.{PlayerInvariant};
ghost use Rattle.nm_world.specs.Runs.{InPlace};
ghost use Rattle.nm_calls.specs.Calling.{ahead, gave, shown};
ghost use Rattle.nm_world.specs.Actors.{did, seat_of};
ghost use Rattle.nm_handle.specs.Ends.{AreClosed, HaveRun, IsRestless, IsWhy, KeepsOpen};
ghost use Rattle.nm_handle.specs.declared.ends.Unended.TheVariants as unended;
ghost use Rattle.nm_handle.specs.declared.states.State.TheVariants as state_is;
ghost use Rattle.nm_handle.specs.Standing.{HasTurned, Stands, process_of};
ghost use Rattle.nm_handle.specs.Worlds.{AreRanksFrom, AreWorld};

use crate::handles::Handle;
use crate::states::State;
use crate::worlds::{Shared, add};
use nm_calls::{Calls, Fault};
use nm_rank::journal::Erased;
use nm_types::{Account, Memory, Shape};
use nm_world::{Player, Rested, Ways, are_at_rest, close_at_rest};
use std::alloc::Global;
use std::sync::Arc;

/// Why a world does not come to its end.
#[derive(Clone, Copy)]
pub enum Unended {
    /// A rank has failed.
    Failed,
    /// A rank can still move, or something is under way.
    Moves,
    /// Somebody else has a share in what the ranks share.
    Shared,
    /// Memory was refused.
    Memory,
}

impl From<Memory> for Unended {
    ghost use Rattle.std.specs.Prelude.{◌≡◌};
    ghost use Rattle.nm_handle.specs.declared.ends.Unended.TheVariants as unended;

    ghost from_gives = { λ _ e. e ≡ unended.Memory };

    fn from(_memory: Memory) -> Unended {
        Unended::Memory
    }
}

/// What is left of a world: whether no rank waits, the account of the cells, and what the closed ways between
/// ranks keep.
#[derive(Drop)]
pub struct Ended {
    pub done: bool,
    pub cells: Account,
    pub ways: Ways,
}

// A turn of a rank: whether it did anything.
fn turn(handle: &mut Handle) -> Result<bool, Unended>
    requires stands { Stands handle.old }
    ensures kept { Stands handle.new }
    ensures turned { IfOk result (λ _. HasTurned handle.old handle.new) }
    ensures moved { IfOk result (λ moved.
        moved ≡ did (arc_value handle.old.fabric).ranks handle.old.player.actor handle.new.player.actor) }
    ensures why { IfErr result (IsRestless handle.old handle.new) }
{
    match handle.progress() {
        Ok(moved) => Ok(moved),
        Err(Fault::Failed) => Err(Unended::Failed),
        Err(_) => Err(Unended::Memory),
    }
}

// Finds that a rank after a turn is at this place of the world that shares this.
fn check_place(handle: &Handle, place: usize, shared: &Shared) -> Result<(), Unended>
    ensures placed { IfOk result (λ _. (process_of handle.now).rank.me ≡ place) }
    ensures err { IfErr result (λ e. (e ≡ unended.Shared) ⊎ (e ≡ unended.Memory)) }
{
    let here = handle.me() as usize == place && handle.is_in(shared)?;
    if here { Ok(()) } else { Err(Unended::Shared) }
}

/// Makes a turn of the rank that is to be at this place of the world that shares this, and finds that it did nothing.
///
/// That it is of this world no clause says. It is asked for by what is shared, so long as nobody else takes or gives
/// back a share.
pub fn rest(handle: &mut Handle, place: usize, shared: &Shared) -> Result<(), Unended>
    requires stands { Stands handle.old }
    ensures kept { Stands handle.new }
    ensures turned { IfOk result (λ _. HasTurned handle.old handle.new) }
    ensures placed { IfOk result (λ _. (seat_of handle.new.player.actor).rank ≡ place) }
    ensures why { IfErr result (IsRestless handle.old handle.new) }
{
    let moved = turn(handle)?;
    if moved {
        Err(Unended::Moves)
    } else {
        check_place(handle, place, shared)
    }
}

// What the ranks of a world share.
fn shared_of(handles: &[Handle]) -> Result<Shared, Memory>
    requires some { 0 < length handles.now }
    ensures same { IfOk result (λ s. (shape : Sizes) (f : Fabric Packet) (r : Rings) →
        AreRanksFrom shape f r 0 handles.now → (arc_value s.fabric ≡ f) × (arc_value s.rings ≡ r)) }
{
    let shared = handles[0].share()?;
    Ok(shared)
}

// The player of a rank that has not failed.
fn player_of(handle: Handle) -> Result<Player<Calls, Erased>, Unended>
    requires stands { Stands handle }
    ensures same { IfOk result (λ x. x ≡ handle.player) }
    ensures stands { IfOk result (PlayerInvariant shown gave (arc_value handle.fabric) (arc_value handle.rings)) }
    ensures range { IfOk result (λ x. AllInRange x.source.ranks (ahead x.source)) }
    ensures failed { IfErr result (λ e. (e ≡ unended.Failed) × (handle.state ≡ state_is.Failed)) }
{
    let (player, state) = handle.into_player();
    // no step: that the calls are in range
    player.source.ranks();
    match state {
        State::Open => Ok(player),
        State::Closed => Ok(player),
        State::Failed => Err(Unended::Failed),
    }
}

// The players of ranks of which none has failed.
fn players_of(
    alloc: Global,
    shape: Shape,
    shared: &Shared,
    handles: Vec<Handle>,
) -> Result<Vec<Player<Calls, Erased>>, Unended>
    requires each { AreRanksFrom shape (arc_value shared.now.fabric) (arc_value shared.now.rings) 0
        handles.items }
    requires stands { AllByRecursion Stands handles.items }
    ensures place { IfOk result (λ v.
        InPlace shown gave shape (arc_value shared.now.fabric) (arc_value shared.now.rings) 0 v.items) }
    ensures range { IfOk result (λ v.
        AllByRecursion (λ x. AllInRange x.source.ranks (ahead x.source)) v.items) }
    ensures same { IfOk result (λ v. v.items ≡ map (λ h. h.player) handles.items) }
    ensures why { IfErr result (IsWhy handles.items) }
{
    let mut players = Vec::new(alloc);
    for handle in handles {
        let player = player_of(handle)?;
        add(&mut players, player)?;
    }
    Ok(players)
}

// What only one handle is left of.
fn sole<T: Drop>(shared: Arc<T, Global>) -> Result<T, Unended>
    ensures ok { IfOk result (λ x. x ≡ arc_value shared) }
    ensures err { IfErr result (λ e. e ≡ unended.Shared) }
{
    match Arc::try_unwrap(shared) {
        Ok(value) => Ok(value),
        Err(_) => Err(Unended::Shared),
    }
}

// Closes what players share that are in their places, if they are at rest.
fn close(
    alloc: Global,
    shape: Shape,
    shared: Shared,
    players: Vec<Player<Calls, Erased>>,
) -> Result<Rested<Calls, Erased>, Unended>
    requires many { length players.items ≡ shape.ranks }
    requires sizes { ((arc_value shared.fabric).ranks ≡ shape.ranks)
        × ((arc_value shared.rings).ranks ≡ shape.ranks) × ((arc_value shared.fabric).each ≡ shape.cells) }
    requires place { InPlace shown gave shape (arc_value shared.fabric) (arc_value shared.rings) 0
        players.items }
    ensures closed { IfOk result (AreClosed shape players.items) }
    ensures why { IfErr result (KeepsOpen players.items) }
{
    let Shared { fabric, rings } = shared;
    let rests = are_at_rest(players.as_slice(), &fabric);
    if !rests {
        return Err(Unended::Moves);
    }
    let fabric = sole(fabric)?;
    let rings = sole(rings)?;
    let rested = close_at_rest(alloc, shape, fabric, rings, players)?;
    Ok(rested)
}

/// Ends a world of which all ranks are given back and are at rest: none can move, and nothing is under way. A world
/// that is not is lost: so its ranks make turns before, until no turn moves anything.
///
/// Whatever the threads that drove the ranks called, in whichever order, the calls of the ranks and their answers
/// are those of a lawful run, what went from rank to rank is what it calls for, and all cells are home.
pub fn end(alloc: Global, shape: Shape, handles: Vec<Handle>) -> Result<Ended, Unended>
    requires world { AreWorld shape handles.items }
    requires stands { AllByRecursion Stands handles.items }
    ensures run { IfOk result (λ x. HaveRun shape handles.items x.done x.cells x.ways.cells x.ways.rings) }
    ensures all { IfOk result (λ x. x.cells.total ≡ shape.ranks * shape.cells) }
    ensures home { IfOk result (λ x. x.cells.home ≡ x.cells.total) }
    ensures why { IfErr result (IsWhy handles.items) }
{
    // no step: that there is a rank
    shape.ranks();
    let shared = shared_of(handles.as_slice())?;
    let players = players_of(alloc, shape, &shared, handles)?;
    let rested = close(alloc, shape, shared, players)?;
    let Rested {
        sources: _,
        ranks: _,
        pairs: _,
        cells,
        done,
        ways,
        kept: _,
    } = rested;
    Ok(Ended { done, cells, ways })
}
