//! A rank that its caller drives.

ghost use Rattle.std.specs.Prelude.{◌≡◌, option_map};
ghost use Rattle.nm_handle.specs.Live.{live_after as live_after_lem, live_by as live_by_lem};
ghost use Rattle.nm_handle.specs.Live.{live_called as live_called_lem, live_turned as live_turned_lem};

use crate::states::State;
use crate::steps::{put, run, turn};
use crate::worlds::Shared;
use nm_calls::{Calls, Fault, check_range};
use nm_copyring::Rings;
use nm_port::Fabric;
use nm_process::Step;
use nm_rank::journal::Erased;
use nm_types::{Answer, Command, Memory, Packet, Shape};
use nm_world::Player;
use std::alloc::Global;
use std::sync::Arc;

/// A rank of a world: what its caller has of it. One thread has it at a time.
pub struct Handle {
    pub(crate) fabric: Arc<Fabric<Packet>, Global>,
    pub(crate) rings: Arc<Rings, Global>,
    pub(crate) player: Player<Calls, Erased>,
    pub(crate) shape: Shape,
    pub(crate) state: State,
    // how many requests are live
    pub(crate) live: u32,
}

impl Drop for Handle {
    fn drop(self) {
        let Handle {
            fabric: _,
            rings: _,
            player: _,
            shape: _,
            state: _,
            live: _,
        } = self;
    }
}

// How many requests are live after an answer, where so many were before.
fn live_by(answer: &Answer, live: u32) -> u32
    ensures { result ≡ live_by_lem answer.now live }
{
    match answer {
        Answer::Started => live.saturating_add(1),
        Answer::Sent => live.saturating_sub(1),
        Answer::Got { .. } => live.saturating_sub(1),
        Answer::Cut { .. } => live.saturating_sub(1),
        Answer::Cancelled => live.saturating_sub(1),
        Answer::Busy => live,
        Answer::Null => live,
        Answer::No => live,
        Answer::Nothing => live,
        Answer::Seen(_) => live,
        Answer::Done => live,
        Answer::Late => live,
        Answer::Asked => live,
    }
}

// So it is where a command ran.
fn live_after(answer: Option<&Answer>, live: u32) -> u32
    ensures { result ≡ live_after_lem (option_map (λ a. a.now) answer.entry) live }
{
    match answer {
        Some(answer) => live_by(answer, live),
        None => live,
    }
}

// So it is after a call that came to this.
fn live_called(step: Step, answer: Option<&Answer>, live: u32) -> u32
    ensures { result ≡ live_called_lem step (option_map (λ a. a.now) answer.entry) live }
{
    match step {
        Step::Ran => live_after(answer, live),
        Step::Waits => live,
    }
}

// So it is after a turn, before and after which a command was ahead, or none was.
fn live_turned(waited: bool, waits: bool, answer: Option<&Answer>, live: u32) -> u32
    ensures { result ≡ live_turned_lem waited waits (option_map (λ a. a.now) answer.entry) live }
{
    match (waited, waits) {
        (true, false) => live_after(answer, live),
        (true, true) => live,
        (false, _) => live,
    }
}

impl Handle {
    ghost use Rattle.std.specs.Prelude.{◌≡◌, ◌≢◌, ◌+◌, ◌<◌, ◌≤◌, ◌⊎◌, true, None, Some, IfErr, IfOk, IsSome, OnErr, is_some, length, option_map};
    ghost use Rattle.std.specs.Arc.{arc_value};
    ghost use Rattle.nm_types.specs.Limits.{is_in_range};
    ghost use Rattle.nm_rank.specs.Ranks.{IsFresh};
    ghost use Rattle.nm_calls.specs.Calling.{gave, shown};
    ghost use Rattle.nm_calls.specs.declared.faults.Fault.TheVariants as fault;
    ghost use Rattle.nm_process.specs.LastAnswer.{last_answer};
    ghost use Rattle.nm_world.specs.Actors.{did};
    ghost use Rattle.nm_world.specs.Players.{PlayerInvariant};
    ghost use Rattle.nm_handle.specs.Live.{has_to_send as has_to_send_lem};
    ghost use Rattle.nm_handle.specs.Standing.{HasCalled, HasGiven, HasTurned, IsCause, Stands, calls_of, process_of};
    ghost use Rattle.nm_handle.specs.declared.states.State.TheVariants as state_is;

    /// The number of its rank.
    pub fn me(&self) -> u8
        ensures { result ≡ (process_of self.now).rank.me }
    {
        self.player.actor.process.me()
    }

    /// How many ranks its world has.
    pub fn ranks(&self) -> u8
        ensures { result ≡ (calls_of self.now).ranks }
    {
        self.player.source.ranks()
    }

    /// The shape of its world.
    pub fn shape(&self) -> Shape
        ensures { result ≡ self.now.shape }
    {
        self.shape
    }

    /// One share more in what the ranks of its world share.
    pub fn share(&self) -> Result<Shared, Memory>
        ensures { IfOk result (λ s. (arc_value s.fabric ≡ arc_value self.now.fabric)
            × (arc_value s.rings ≡ arc_value self.now.rings)) }
    {
        let fabric = Arc::try_clone(&self.fabric)?;
        let rings = Arc::try_clone(&self.rings)?;
        Ok(Shared { fabric, rings })
    }

    // Whether this is shared in its world: then one share more of its own is one more there. No clause counts them.
    pub(crate) fn is_in(&self, shared: &Shared) -> Result<bool, Memory> {
        let before = Arc::strong_count(&shared.fabric);
        let _own = Arc::try_clone(&self.fabric)?;
        Ok(Arc::strong_count(&shared.fabric) > before)
    }

    /// Whether it takes calls.
    pub fn state(&self) -> State
        ensures { result ≡ self.now.state }
    {
        self.state
    }

    /// How many of its requests are live: one more where a call started one, one less where its result was given.
    pub fn live(&self) -> u32
        ensures { result ≡ self.now.live }
    {
        self.live
    }

    /// Whether packets or bytes of its messages are still to be sent.
    pub fn has_to_send(&self) -> bool
        ensures { result ≡ has_to_send_lem self.now }
    {
        let rank = self.player.actor.process.rank();
        rank.front_to().is_some() || rank.has_piece()
    }

    /// Whether a command that was given has still to run.
    pub fn waits(&self) -> bool
        ensures { result ≡ is_some (calls_of self.now).next }
    {
        self.player.source.waits()
    }

    /// The answer of its last call, if nothing happened since.
    pub fn answer(&self) -> Option<&Answer>
        ensures { option_map (λ a. a.now) result ≡ last_answer (process_of self.now).rank.events }
    {
        self.player.actor.process.last_answer()
    }

    // That it takes calls.
    fn check_open(&self) -> Result<(), Fault>
        ensures ok { IfOk result (λ _. self.now.state ≡ state_is.Open) }
        ensures err { IfErr result (λ e.
            ((e ≡ fault.Closed) × (self.now.state ≡ state_is.Closed))
            ⊎ ((e ≡ fault.Failed) × (self.now.state ≡ state_is.Failed))) }
    {
        match self.state {
            State::Open => Ok(()),
            State::Closed => Err(Fault::Closed),
            State::Failed => Err(Fault::Failed),
        }
    }

    // That no command that was given has still to run.
    fn check_idle(&self) -> Result<(), Fault>
        ensures ok { IfOk result (λ _. (calls_of self.now).next ≡ None) }
        ensures err { IfErr result (λ e. (e ≡ fault.Waits) × IsSome (calls_of self.now).next) }
    {
        if self.waits() {
            Err(Fault::Waits)
        } else {
            Ok(())
        }
    }

    // The line of the next call.
    fn line(&self) -> Result<u64, Fault>
        ensures ok { IfOk result (λ line. (line ≡ (calls_of self.now).at + 2)
            × ((calls_of self.now).at < 18446744073709551610)) }
        ensures err { IfErr result (λ e. (e ≡ fault.Worn)
            × ((¬ IsFresh (process_of self.now).rank) ⊎ (18446744073709551610 ≤ (calls_of self.now).at))) }
    {
        if self.player.actor.process.rank().is_worn() {
            return Err(Fault::Worn);
        }
        match self.player.source.line() {
            Some(line) => Ok(line),
            None => Err(Fault::Worn),
        }
    }

    /// Runs a command at once, if it can go on: only a wait and an await can be unable to.
    ///
    /// Where memory is refused the rank has failed. No other rank notices but by messages that do not come.
    pub fn call(&mut self, command: &Command) -> Result<Step, Fault>
        requires stands { Stands self.old }
        ensures kept { Stands self.new }
        ensures ran { IfOk result (HasCalled command.now self.old self.new) }
        ensures cause { IfErr result (IsCause self.old command.now) }
        ensures refused { IfErr result (λ e. e ≢ fault.Memory → self.new ≡ self.old) }
    {
        self.check_open()?;
        self.check_idle()?;
        check_range(self.player.source.ranks(), command)?;
        let line = self.line()?;
        self.run(command, line)
    }

    /// Gives a command that turns run as soon as it can go on, as MPI's blocking calls do. Till then no other one is
    /// taken.
    pub fn give(&mut self, command: Command) -> Result<(), Fault>
        requires stands { Stands self.old }
        ensures kept { Stands self.new }
        ensures given { IfOk result (λ _. HasGiven command self.old self.new) }
        ensures cause { IfErr result (IsCause self.old command) }
        ensures refused { OnErr result (self.new ≡ self.old) }
    {
        self.check_open()?;
        self.check_idle()?;
        check_range(self.player.source.ranks(), &command)?;
        self.line()?;
        put(&mut self.player, &self.fabric, &self.rings, command);
        Ok(())
    }

    // Runs a command that is in range at its line.
    fn run(&mut self, command: &Command, line: u64) -> Result<Step, Fault>
        requires opened { self.old.state ≡ state_is.Open }
        requires stands { PlayerInvariant shown gave (arc_value self.old.fabric) (arc_value self.old.rings)
            self.old.player }
        requires in_range { is_in_range (calls_of self.old).ranks command.now ≡ true }
        requires line { (line ≡ (calls_of self.old).at + 2) × ((calls_of self.old).at < 18446744073709551610) }
        requires idle { (calls_of self.old).next ≡ None }
        ensures kept { Stands self.new }
        ensures ran { IfOk result (HasCalled command.now self.old self.new) }
        ensures err { IfErr result (λ e. e ≡ fault.Memory) }
    {
        self.state = State::Failed;
        let step = run(&mut self.player, &self.fabric, &self.rings, command, line)?;
        self.state = State::Open;
        let live = live_called(step, self.answer(), self.live);
        self.live = live;
        Ok(step)
    }

    /// A turn of its rank, whether it is open or closed: it sends and pushes what there is, and takes what came. It
    /// answers whether that was anything.
    pub fn progress(&mut self) -> Result<bool, Fault>
        requires stands { Stands self.old }
        ensures kept { Stands self.new }
        ensures turned { IfOk result (λ _. HasTurned self.old self.new) }
        ensures moved { IfOk result (λ moved.
            moved ≡ did (arc_value self.old.fabric).ranks self.old.player.actor self.new.player.actor) }
        ensures cause { IfErr result (λ e. (e ≡ fault.Memory)
            ⊎ ((e ≡ fault.Failed) × (self.old.state ≡ state_is.Failed) × (self.new ≡ self.old))) }
    {
        match self.state {
            State::Failed => Err(Fault::Failed),
            state => self.turn(state),
        }
    }

    // A turn of a rank that has not failed.
    fn turn(&mut self, state: State) -> Result<bool, Fault>
        requires state { (state ≡ self.old.state) × (state ≢ state_is.Failed) }
        requires stands { Stands self.old }
        ensures kept { Stands self.new }
        ensures turned { IfOk result (λ _. HasTurned self.old self.new) }
        ensures moved { IfOk result (λ moved.
            moved ≡ did (arc_value self.old.fabric).ranks self.old.player.actor self.new.player.actor) }
        ensures err { IfErr result (λ e. e ≡ fault.Memory) }
    {
        let waited = self.player.source.waits();
        self.state = State::Failed;
        let moved = turn(&mut self.player, &self.fabric, &self.rings)?;
        self.state = state;
        let waits = self.player.source.waits();
        let live = live_turned(waited, waits, self.answer(), self.live);
        self.live = live;
        Ok(moved)
    }

    /// Takes no call from now on. It can still make turns.
    pub fn close(&mut self) -> Result<(), Fault>
        requires stands { Stands self.old }
        ensures kept { Stands self.new }
        ensures ok { IfOk result (λ _. (self.old.state ≡ state_is.Open)
            × (self.new ≡ record self.old { state = state_is.Closed })) }
        ensures err { OnErr result (self.new ≡ self.old) }
        ensures cause { IfErr result (λ e.
            ((e ≡ fault.Closed) × (self.old.state ≡ state_is.Closed))
            ⊎ ((e ≡ fault.Failed) × (self.old.state ≡ state_is.Failed))) }
    {
        match self.state {
            State::Open => {
                self.state = State::Closed;
                Ok(())
            }
            State::Closed => Err(Fault::Closed),
            State::Failed => Err(Fault::Failed),
        }
    }

    /// Its player, and whether it takes calls.
    pub(crate) fn into_player(self) -> (Player<Calls, Erased>, State)
        ensures { (result.0 ≡ self.player) × (result.1 ≡ self.state) }
    {
        let Handle {
            fabric: _,
            rings: _,
            player,
            shape: _,
            state,
            live: _,
        } = self;
        (player, state)
    }
}
