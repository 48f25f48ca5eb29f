//! A rank with its ports and what gives it its commands.

ghost use Rattle.nm_types.specs.declared.packets.Packet.{Packet};
ghost use Rattle.std.specs.Prelude.{◌≡◌, ◌+◌, ◌*◌, ◌<◌, ◌≤◌, ◌↔◌, ℕ, true, false, [], List, IfOk};
ghost use Rattle.nm_types.specs.Commands.{Numbered};
ghost use Rattle.nm_cells.specs.declared.port.Fabric.{Fabric};
ghost use Rattle.nm_cells.specs.Ports.{IsNew};
ghost use Rattle.nm_copyring.specs.declared.port.Rings.{Rings};
ghost use Rattle.nm_copyring.specs.Ports as ring_port;
ghost use Rattle.nm_rank.specs.Ranks.{IsFresh};
ghost use Rattle.nm_process.specs.Sources.{GivesSome};
ghost use Rattle.nm_process.specs.Steps.{goes_on, looks_on};
ghost use Rattle.nm_world.specs.Actors.{Environment, Grew, did, seat_of};
ghost use Rattle.nm_world.specs.Idle.{IsStuck, Moves, Rests};
ghost use Rattle.nm_world.specs.Looks.{LookedAround, PolledBefore, PolledUnlessWorn, RanNext};
ghost use Rattle.nm_world.specs.Looks.{looks_next};
ghost use Rattle.nm_world.specs.Players.{IsAtWork, PlayerInvariant, PlaysOn, WasTold};
ghost use Rattle.nm_world.specs.Rest.{CanMove, IsStill};

use crate::Actor;
use crate::actors::TURN;
use crate::places::{Listens, Silence};
use nm_chain::seats::Steps;
use nm_copyring::{RingPort, Rings};
use nm_global::standing::laws::runs::a_command_runs;
use nm_history::History;
use nm_outside::Gate;
use nm_port::{Fabric, Port};
use nm_process::{Source, Step, looks};
use nm_rank::journal::Recorder;
use nm_types::{Memory, Packet, Shape};
use std::alloc::Global;
use std::sync::ledger::Ledger;

/// A rank with its ports and what gives it its commands. What records its history is a parameter.
#[derive(Drop)]
pub struct Player<S, H: Recorder = History> {
    pub actor: Actor<H>,
    pub source: S,
}

impl<S: Source, H: Recorder> Player<S, H> {
    /// The player of a port's rank, of which no command ran, in a run of these sizes.
    ///
    /// With ports as `Fabric::build` and `Rings::build` give them for one rank, it can make turns.
    pub fn new(
        alloc: Global,
        shape: Shape,
        port: Port<Packet>,
        ring: RingPort,
        source: S,
    ) -> Result<Self, Memory>
        requires rank { port.rank < shape.ranks }
        requires begins { ((S.shows source).at ≡ 0) × ((S.shows source).ranks ≡ shape.ranks) }
        requires told { WasTold (S.shows source) [] }
        requires gives { GivesSome (S.gives source) }
        ensures stands { IfOk result (λ x. (f : Fabric Packet) (r : Rings) →
            (f.ranks ≡ shape.ranks) × (r.ranks ≡ shape.ranks) →
            IsNew f port port.rank → ring_port.IsNew r ring port.rank →
            PlayerInvariant S.shows S.gives f r x) }
        ensures seat { IfOk result (λ x.
            seat_of x.actor ≡ record { rank = port.rank; sizes = shape }) }
        ensures same { IfOk result (λ x. (x.actor.port ≡ port) × (x.actor.ring ≡ ring)
            × (x.source ≡ source)) }
        ensures begins { IfOk result (λ x. (x.actor.process.rank.me ≡ port.rank)
            × (x.actor.process.rank.events ≡ []) × (x.actor.process.at ≡ 0)) }
    {
        let actor = Actor::new(alloc, shape, port, ring, source.count())?;
        Ok(Player { actor, source })
    }

    /// What happened at its rank, oldest first.
    pub fn history(&self) -> &H
        ensures { H.events result.now ≡ self.now.actor.process.rank.events }
    {
        self.actor.history()
    }

    // Runs the next command, if there is one that can go on.
    pub(crate) fn run_next(&mut self) -> Result<bool, Memory>
        ghost here: { Environment }
        requires stands { PlayerInvariant S.shows S.gives here.fabric here.rings self.old }
        ensures kept { IfOk result (λ _.
            PlaysOn S.shows S.gives here.fabric here.rings self.old self.new) }
        ensures moved { IfOk result (λ moved.
            moved ≡ did here.fabric.ranks self.old.actor self.new.actor) }
        ensures ran { IfOk result (λ ran. ran ≡ true → IsFresh self.old.actor.process.rank) }
        ensures next { IfOk result (λ ran. ran ≡ true → (commands : List Numbered) (last : ℕ) →
            S.gives self.new.source commands last →
            RanNext commands self.old.actor.process self.new.actor.process) }
        ensures still { IfOk result (λ ran. ran ≡ false → self.new ≡ self.old) }
        ensures stuck { IfOk result (λ ran. ran ≡ false → IsFresh self.old.actor.process.rank →
            IsStuck S.gives self.old) }
    {
        // no step: that the history keeps its rules, and the law of a command that runs
        self.actor.process.rank().history();
        a_command_runs();
        let Some((line, command)) = self.source.next() else {
            return Ok(false);
        };
        match self.actor.process.run(command, line)? {
            Step::Ran => {
                let Some(answer) = self.actor.process.last_answer() else {
                    unreachable!()
                };
                self.source.pass(answer)?;
                self.actor.places.count(0);
                Ok(true)
            }
            Step::Waits => Ok(false),
        }
    }

    // Whether there is a next command and it looks at what came.
    fn next_looks(&self) -> bool
        ensures { (commands : List Numbered) → IsAtWork S.shows S.gives self.now commands →
            result ≡ looks_on commands self.now.actor.process }
    {
        match self.source.next() {
            Some((_, command)) => looks(Some(command)),
            None => false,
        }
    }

    // Takes the next packet that came, where the next command looks at what came.
    pub(crate) fn look<L: Ledger>(
        &mut self,
        f: &Fabric<Packet>,
        steps: &mut Steps<L>,
    ) -> Result<bool, Memory>
        ghost here: { Environment }
        requires stands { PlayerInvariant S.shows S.gives f.now here.rings self.old }
        ensures source { self.new.source ≡ self.old.source }
        ensures moves { IfOk result (λ moved.
            Moves (record here { fabric = f.now }) moved self.old.actor self.new.actor) }
        ensures polled { IfOk result (λ _. (commands : List Numbered) (last : ℕ) →
            S.gives self.old.source commands last →
            PolledUnlessWorn self.old.actor.process.rank.sizes.ranks
            (looks_next commands self.old.actor.process) self.old.actor self.new.actor) }
        ensures bound { steps.new ≤ steps.old + (f.now.ranks + 10) }
    {
        if !self.next_looks() {
            return Ok(false);
        }
        self.actor.take_next(f, steps)
    }

    // Runs up to so many commands. It answers whether any ran, or anything was taken before one.
    pub(crate) fn run_all<L: Ledger>(
        &mut self,
        f: &Fabric<Packet>,
        steps: &mut Steps<L>,
    ) -> Result<bool, Memory>
        ghost here: { Environment }
        requires fabric { f.now ≡ here.fabric }
        requires stands { PlayerInvariant S.shows S.gives here.fabric here.rings self.old }
        ensures kept { IfOk result (λ _.
            PlaysOn S.shows S.gives here.fabric here.rings self.old self.new) }
        ensures moved { IfOk result (λ moved.
            moved ≡ did here.fabric.ranks self.old.actor self.new.actor) }
        ensures still { IfOk result (λ moved. moved ≡ false →
            self.new.actor.process ≡ self.old.actor.process) }
        ensures stuck { IfOk result (λ moved. moved ≡ false →
            IsFresh self.old.actor.process.rank → IsStuck S.gives self.old) }
        ensures polled { IfOk result (λ _. (commands : List Numbered) (last : ℕ) →
            S.gives self.new.source commands last →
            PolledBefore commands self.old.actor self.new.actor) }
        ensures worn { IfOk result (λ _. ¬ IsFresh self.old.actor.process.rank →
            self.new.actor ≡ self.old.actor) }
        ensures bound { steps.new ≤ steps.old + 64 * (f.now.ranks + 10) }
    {
        let mut took = false;
        for ran in 0..TURN {
            let looked = self.look(f, steps)?;
            took = took | looked;
            if !self.run_next()? {
                return Ok(took | (ran > 0));
            }
        }
        Ok(true)
    }

    // Whether there is a next command and it can go on.
    fn can_run(&self) -> bool
        ensures { (commands : List Numbered) → IsAtWork S.shows S.gives self.now commands →
            result ≡ goes_on commands self.now.actor.process }
    {
        let Some((_, command)) = self.source.next() else {
            return false;
        };
        self.actor.process.can_go_on(command)
    }

    /// Whether the player can move: its rank is worn, or something is left to send, or there is a
    /// command left that can go on.
    pub fn can_move(&self) -> bool
        ensures exactly { (commands : List Numbered) → IsAtWork S.shows S.gives self.now commands →
            (result ≡ true) ↔ CanMove commands self.now.actor.process }
        ensures still { result ≡ false →
            (commands : List Numbered) → IsAtWork S.shows S.gives self.now commands →
            IsStill commands self.now.actor.process }
    {
        let rank = self.actor.process.rank();
        // no step: it tells that the history keeps its rules
        rank.history();
        if rank.is_worn() {
            return true;
        }
        if rank.front_to().is_some() {
            return true;
        }
        if rank.has_piece() {
            return true;
        }
        self.can_run()
    }

    /// One turn: what is to be sent and pushed, what came, and commands, up to 64 of each kind, and
    /// of pieces up to 4 of each rank. It answers whether anything was sent, taken or run.
    ///
    /// Before each test, probe, await and matched probe (MPI 3.1, 3.7.3 and 3.8) it polls once. It
    /// moves nothing only where the rank is worn or nothing could move. It rings no bell.
    ///
    /// It takes at most 140 word steps for each rank, and 2,048: 64 sends of 9 and 64 pushes of 3, the
    /// look beforehand among them, 64 polls and one before each of 64 commands, each of as many as there
    /// are ranks and 10, and of each rank 4 pulls of 3.
    pub fn turn<G: Gate, L: Ledger>(
        &mut self,
        f: &Fabric<Packet>,
        r: &Rings,
        gate: &G,
        steps: &mut Steps<L>,
    ) -> Result<bool, Memory>
        requires stands { PlayerInvariant S.shows S.gives f.now r.now self.old }
        ensures kept { IfOk result (λ _. PlaysOn S.shows S.gives f.now r.now self.old self.new) }
        ensures moved { IfOk result (λ moved.
            moved ≡ did f.now.ranks self.old.actor self.new.actor) }
        ensures grew { IfOk result (λ moved.
            (moved ≡ true) ↔ Grew f.now.ranks self.old.actor self.new.actor) }
        ensures idle { IfOk result (λ moved. moved ≡ false →
            IsFresh self.old.actor.process.rank → Rests S.gives self.old self.new) }
        ensures looked { IfOk result (λ _. (commands : List Numbered) (last : ℕ) →
            S.gives self.new.source commands last →
            LookedAround commands self.old.actor self.new.actor) }
        ensures bound { steps.new ≤ steps.old + (140 * f.now.ranks + 2048) }
    {
        gate.turn(self.actor.process.me());
        self.move_all(f, r, &Silence, steps)
    }

    /// What a turn sends, pushes, takes, pulls and runs. It answers whether that is anything. Bells ring
    /// once, for the ranks that something was sent or pushed to, or was taken or pulled from in the turn
    /// before.
    pub(crate) fn move_all<B: Listens, L: Ledger>(
        &mut self,
        f: &Fabric<Packet>,
        r: &Rings,
        bells: &B,
        steps: &mut Steps<L>,
    ) -> Result<bool, Memory>
        ghost here: { Environment }
        requires here { here ≡ record { fabric = f.now; rings = r.now } }
        requires stands { PlayerInvariant S.shows S.gives f.now r.now self.old }
        ensures kept { IfOk result (λ _. PlaysOn S.shows S.gives f.now r.now self.old self.new) }
        ensures moved { IfOk result (λ moved.
            moved ≡ did f.now.ranks self.old.actor self.new.actor) }
        ensures idle { IfOk result (λ moved. moved ≡ false →
            IsFresh self.old.actor.process.rank → Rests S.gives self.old self.new) }
        ensures looked { IfOk result (λ _. (commands : List Numbered) (last : ℕ) →
            S.gives self.new.source commands last →
            LookedAround commands self.old.actor self.new.actor) }
        ensures bound { steps.new ≤ steps.old + (140 * f.now.ranks + 2048) }
    {
        let own = self.actor.port.rank();
        let sent = self.actor.send_all(f, steps)?;
        let pushed = self.actor.push_all(r, steps)?;
        self.actor.places.tell(own, bells);
        let took = self.actor.take_all(f, steps)?;
        let pulled = self.actor.pull_all(f, r, steps)?;
        let ran = self.run_all(f, steps)?;
        Ok(sent | pushed | took | pulled | ran)
    }
}
