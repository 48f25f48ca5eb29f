//! Laws of what actors do, and of the end of a run. Each is the contract of a function that does nothing.

ghost use Rattle.std.specs.Prelude.{◌≡◌, ◌↔◌, ℕ, true, List, length, map};
ghost use Rattle.nm_types.specs.Commands.{Numbered};
ghost use Rattle.nm_types.specs.Sizes.{Sizes};
ghost use Rattle.nm_types.specs.declared.packets.Packet.{Packet};
ghost use Rattle.nm_history.specs.Quiescence.{Ended};
ghost use Rattle.nm_channels.specs.Finished.{AreInRange};
ghost use Rattle.nm_cells.specs.declared.closed.Closed.{Closed};
ghost use Rattle.nm_cells.specs.declared.port.Fabric.{Fabric};
ghost use Rattle.nm_copyring.specs.declared.close.RingAccount.{RingAccount};
ghost use Rattle.nm_copyring.specs.declared.port.Rings.{Rings};
ghost use Rattle.nm_world.specs.declared.actors.Actor.{Actor};
ghost use Rattle.nm_world.specs.declared.players.Player.{Player};
ghost use Rattle.nm_world.specs.Actors.{ActorInvariant, Grew, Grows, did};
ghost use Rattle.nm_world.specs.Players.{AllPlayOn, SomeGrew, did_any};
ghost use Rattle.nm_world.specs.Rest.{Each, EndsAt, HasRun, IsAllTaken, IsClosed, IsRingClosed};
ghost use Rattle.nm_world.specs.Rest.{IsStill};

use nm_global::laws::rest::ranks_at_rest_make_a_run;
use nm_global::outgoing::laws::leaves::all_left;
use nm_global::standing::laws::stands::a_process_is_a_rank;
use nm_port::carried::laws::a_close_carries;
use nm_process::Source;
use nm_rank::journal::Recorder;
use nm_types::Packet;

/// An actor that stands at these commands and is still is at its end, or waits for what can't come.
pub fn a_still_actor_ends<H: Recorder>()
    ensures { (commands : List Numbered) (last : ℕ) (a : Actor H) → ActorInvariant commands last a →
        IsStill commands a.process → EndsAt a.process.rank.sizes commands a.port.rank a }
{}

/// Where all actors are at rest and all was taken, their histories are a run of these commands by rank, which
/// are in range, and the closed ports carried what these call for.
pub fn actors_at_rest_make_a_run<H: Recorder>()
    ensures { (shape : Sizes) (commands : ℕ → List Numbered) (actors : List (Actor H))
        (c : Closed Packet) (q : RingAccount) → AreInRange shape.ranks commands →
        length actors ≡ shape.ranks → Each (λ i a. EndsAt shape (commands i) i a) actors →
        IsClosed shape.ranks (map (λ a. a.port) actors) c →
        IsRingClosed shape.ranks (map (λ a. a.ring) actors) q → IsAllTaken actors →
        (ends : List Ended) × HasRun shape commands actors c q ends }
{
    a_close_carries::<Packet, Packet>();
    all_left();
    ranks_at_rest_make_a_run();
    a_process_is_a_rank();
}

/// An actor that went on did something exactly where something grew: its history, or what its ports
/// sent, passed on, pushed or pulled. So it is with many players.
pub fn what_was_done_grew<S: Source, H: Recorder>()
    ensures one { (n : ℕ) (a b : Actor H) → Grows a b → (did n a b ≡ true) ↔ Grew n a b }
    ensures any { (n : ℕ) (f : Fabric Packet) (r : Rings) (old new : List (Player S H)) →
        AllPlayOn S.shows S.gives f r old new → (did_any n old new ≡ true) ↔ SomeGrew n old new }
{}
