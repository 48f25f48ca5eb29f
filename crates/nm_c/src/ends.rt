//! The end of a world that threads of C drove.

ghost use Rattle.std.specs.Prelude.{◌≡◌, ◌≢◌, IfErr, IfOk, length};
ghost use Rattle.std.specs.List.{All, AllZip};
ghost use Rattle.nm_handle.specs.Ends.{IsRestless};
ghost use Rattle.nm_handle.specs.Standing.{HasTurned, Stands};
ghost use Rattle.nm_handle.specs.Worlds.{AreInOrder, AreOfOneWorld, AreWorld};
ghost use Rattle.nm_handle.specs.declared.ends.Unended.TheVariants as unended;
ghost use Rattle.nm_handle.specs.declared.states.State.TheVariants as state_is;
ghost use Rattle.nm_world.specs.Actors.{seat_of};
ghost use Rattle.nm_c.specs.Ranks.{handles_in};
ghost use Rattle.nm_c.specs.Whole.{AreClosed, HasEnded, HasRun, IsUnended, code_of_end};

use crate::Rank;
use crate::codes::Code;
use nm_handle::laws::all_in_order_are_a_world;
use nm_handle::{Handle, Shared, Unended, end, rest, world};
use nm_types::{Memory, Shape};
use std::alloc::Global;
use std::mem::swap;

/// The code of an end, or of why there is none.
pub(crate) fn code_of(ended: Result<bool, Unended>) -> Code
    ensures { result ≡ code_of_end ended }
{
    match ended {
        Ok(true) => Code::Done,
        Ok(false) => Code::Pending,
        Err(Unended::Failed) => Code::Failed,
        Err(Unended::Moves) => Code::Moved,
        Err(Unended::Shared) => Code::BadWorld,
        Err(Unended::Memory) => Code::Memory,
    }
}

// The shape of a rank's world, and a share in what its ranks share.
fn home_of(rank: &mut Rank) -> Result<(Shape, Shared), Memory>
    ensures same { rank.new ≡ rank.old }
    ensures shape { IfOk result (λ x. x.0 ≡ rank.old.value.shape) }
{
    let handle = rank.handle();
    let shared = handle.share()?;
    Ok((handle.shape(), shared))
}

// A turn of the rank that is to be at this place: that it did nothing.
fn rest_at(rank: &mut Rank, place: usize, shared: &Shared) -> Result<(), Unended>
    requires stands { Stands rank.old.value }
    ensures kept { Stands rank.new.value }
    ensures turned { IfOk result (λ _. HasTurned rank.old.value rank.new.value) }
    ensures placed { IfOk result (λ _. (seat_of rank.new.value.player.actor).rank ≡ place) }
    ensures why { IfErr result (IsRestless rank.old.value rank.new.value) }
{
    rest(rank.handle(), place, shared)
}

// A turn of each rank, in order: that none did anything.
fn rest_all(ranks: &mut [Rank], shared: &Shared) -> Result<(), Unended>
    requires stands { All Stands (handles_in ranks.old) }
    ensures kept { All Stands (handles_in ranks.new) }
    ensures turned { IfOk result (λ _. AllZip HasTurned (handles_in ranks.old) (handles_in ranks.new)) }
    ensures order { IfOk result (λ _. AreInOrder 0 (handles_in ranks.new)) }
    ensures why { IfErr result (IsUnended (handles_in ranks.old) (handles_in ranks.new)) }
{
    for (place, rank) in ranks.iter_mut().enumerate() {
        rest_at(rank, place, shared)?;
    }
    Ok(())
}

// Finds that all ranks of a world are here, in order, and at rest.
fn settle(ranks: &mut [Rank]) -> Result<Shape, Unended>
    requires stands { All Stands (handles_in ranks.old) }
    ensures kept { All Stands (handles_in ranks.new) }
    ensures turned { IfOk result (λ _. AllZip HasTurned (handles_in ranks.old) (handles_in ranks.new)) }
    ensures many { IfOk result (λ shape. length ranks.new ≡ shape.ranks) }
    ensures world { IfOk result (λ shape. AreOfOneWorld (handles_in ranks.old) →
        AreWorld shape (handles_in ranks.new)) }
    ensures why { IfErr result (IsUnended (handles_in ranks.old) (handles_in ranks.new)) }
{
    if ranks.is_empty() {
        return Err(Unended::Shared);
    }
    let (shape, shared) = home_of(&mut ranks[0])?;
    if ranks.len() != shape.ranks() as usize {
        return Err(Unended::Shared);
    }
    rest_all(ranks, &shared)?;
    // no step: that they are a world
    all_in_order_are_a_world();
    Ok(shape)
}

// Takes the handle of a rank, and leaves this one there, closed.
fn take(rank: &mut Rank, other: &mut Handle)
    requires opened { other.old.state ≡ state_is.Open }
    requires stands { Stands other.old }
    ensures taken { other.new ≡ rank.old.value }
    ensures closed { rank.new.value.state ≡ state_is.Closed }
    ensures kept { Stands rank.new.value }
{
    match other.close() {
        Ok(()) => swap(rank.handle(), other),
        Err(_) => unreachable!(),
    }
}

// Takes the handles of ranks, and leaves these in their places, closed: so C's ranks stay ranks.
fn take_all(ranks: &mut [Rank], handles: &mut [Handle])
    requires many { length handles.old ≡ length ranks.old }
    requires stands { All Stands (handles_in ranks.old) }
    requires opened { All (λ h. h.state ≡ state_is.Open) handles.old }
    requires others { All Stands handles.old }
    ensures taken { handles.new ≡ handles_in ranks.old }
    ensures closed { AreClosed (handles_in ranks.new) }
    ensures kept { All Stands (handles_in ranks.new) }
{
    for k in 0..handles.len() {
        take(&mut ranks[k], &mut handles[k]);
    }
}

// The least world of as many ranks.
fn least_of(shape: Shape) -> Shape
    ensures { result.ranks ≡ shape.ranks }
{
    match Shape::new(shape.ranks(), 1, 0) {
        Ok(least) => least,
        Err(_) => shape,
    }
}

// Takes the handles of all ranks of a world, and leaves those of another one in their places, closed.
fn handles_of(alloc: Global, shape: Shape, ranks: &mut [Rank]) -> Result<Vec<Handle>, Memory>
    requires many { length ranks.old ≡ shape.ranks }
    requires stands { All Stands (handles_in ranks.old) }
    ensures taken { IfOk result (λ v. v.items ≡ handles_in ranks.old) }
    ensures closed { IfOk result (λ _. AreClosed (handles_in ranks.new)) }
    ensures kept { All Stands (handles_in ranks.new) }
{
    let mut handles = world(alloc, least_of(shape))?;
    take_all(ranks, handles.as_mut_slice());
    Ok(handles)
}

// Ends a world of which all handles are here, and that was found at rest.
fn end_of(alloc: Global, shape: Shape, handles: Vec<Handle>) -> Result<bool, Unended>
    requires world { AreWorld shape handles.items }
    requires stands { All Stands handles.items }
    ensures run { IfOk result (HasRun shape handles.items) }
    ensures why { IfErr result (λ e. (e ≢ unended.Failed) × (e ≢ unended.Moves)) }
{
    match end(alloc, shape, handles) {
        Ok(ended) => Ok(ended.done),
        Err(Unended::Memory) => Err(Unended::Memory),
        Err(_) => Err(Unended::Shared),
    }
}

/// Makes a turn of each rank of a world, and ends the world if none did anything: whether no rank waits. Then C's
/// ranks are closed ones of another world. Where it has not ended they stay what they are, but where memory is refused
/// or the ranks were not of one world.
pub(crate) fn end_all(alloc: Global, ranks: &mut [Rank]) -> Result<bool, Unended>
    requires stands { All Stands (handles_in ranks.old) }
    requires world { AreOfOneWorld (handles_in ranks.old) }
    ensures kept { All Stands (handles_in ranks.new) }
    ensures ended { IfOk result (HasEnded (handles_in ranks.old) (handles_in ranks.new)) }
    ensures why { IfErr result (IsUnended (handles_in ranks.old) (handles_in ranks.new)) }
{
    let shape = settle(ranks)?;
    let handles = handles_of(alloc, shape, ranks)?;
    let done = end_of(alloc, shape, handles)?;
    Ok(done)
}
