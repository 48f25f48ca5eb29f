//! A process: a rank that runs commands, and the names of its requests and messages.

ghost use Rattle.std.specs.Prelude.{◌≡◌, ◌+◌, ◌<◌, ℕ, true, false, IfOk, IsSome, OnOk, List};
ghost use Rattle.std.specs.Option.{option_map_or};
ghost use Rattle.nm_types.specs.Commands.{Numbered};
ghost use Rattle.nm_types.specs.Limits.{is_in_range};
ghost use Rattle.nm_types.specs.Sizes.{Sizes};
ghost use Rattle.nm_history.specs.Completion.{is_complete};
ghost use Rattle.nm_rank.specs.New.{IsNew};
ghost use Rattle.nm_rank.specs.Ranks.{IsFresh};
ghost use Rattle.nm_process.specs.LastAnswer.{last_answer};
ghost use Rattle.nm_process.specs.Names.{named};
ghost use Rattle.nm_process.specs.Starts.{HasTried};
ghost use Rattle.nm_process.specs.Steps.{HasStepped, can_go_on_by};
ghost use Rattle.nm_process.specs.Work.{IsNext, IsWorking};
ghost use Rattle.nm_process.specs.declared.steps.Step.TheVariants as step_is;

use crate::names::RequestNames;
use crate::{Handle, Step};
use indexmap::IndexMap;
use nm_history::History;
use nm_rank::journal::Recorder;
use nm_rank::{NoSuch, Rank, State};
use nm_types::{Command, Memory, Shape};
use std::alloc::Global;
use std::marker::Model;

/// A process of a run. What records its history is a parameter of it.
pub struct Process<H: Recorder = History> {
    pub(crate) me: u8,
    pub(crate) rank: Rank<H>,
    // by name, also of requests that have ended
    pub(crate) requests: RequestNames,
    // by name of a handle
    pub(crate) handles: IndexMap<u16, Handle>,
    // how many commands ran
    at: u64,
}

impl<H: Recorder> Drop for Process<H> {
    fn drop(self) {
        let Process {
            me: _,
            rank: _,
            requests: _,
            handles: _,
            at: _,
        } = self;
    }
}

/// What a process kept beside its history: nothing that can be used.
pub struct Leavings {
    rank: nm_rank::Leavings,
    requests: RequestNames,
    handles: IndexMap<u16, Handle>,
}

impl Drop for Leavings {
    fn drop(self) {
        let Leavings {
            rank: _,
            requests: _,
            handles: _,
        } = self;
    }
}

impl Model for Leavings {
    ghost Value = { Unit {0} };

    ghost view = { λ left. tt };
}

impl<H: Recorder> Model for Process<H> {
    ghost use Rattle.std.specs.Prelude.{◌≡◌};
    ghost use Rattle.nm_process.specs.Names.{AreHeld, AreGiven};
    ghost use Rattle.nm_process.specs.Processes.{ProcessView};

    ghost Value = { ProcessView };

    ghost view = { λ p.
        record {
          rank = p.rank;
          at = p.at;
          names = p.requests;
          handles = p.handles.entries;
        } };

    ghost invariant = { λ p.
        AreGiven p.rank.requests p.requests
        × AreHeld p.rank.events p.handles.entries
        × (p.me ≡ p.rank.me) };
}

impl<H: Recorder> Process<H> {
    /// What happened, oldest first, and what the process kept beside it, when it is used no more.
    pub fn into_parts(self) -> (H, Leavings)
        ensures events { H.events result.0 ≡ self.rank.events }
    {
        let Process {
            me: _,
            rank,
            requests,
            handles,
            at: _,
        } = self;
        let (history, rank) = rank.into_parts();
        let left = Leavings {
            rank,
            requests,
            handles,
        };
        (history, left)
    }

    /// A process of which no command ran, in a run of these sizes. It has room for as many names and
    /// requests as if every other of so many commands started one, and for three events of each command.
    pub fn new(alloc: Global, shape: Shape, me: u8, commands: usize) -> Result<Self, Memory>
        requires rank { me < shape.ranks }
        ensures new { IfOk result (λ p. IsNew shape me p.rank) }
        ensures at { IfOk result (λ p. p.at ≡ 0) }
        ensures begins { IfOk result (λ p. (commands : List Numbered) (bound : ℕ) →
            IsWorking shape commands bound p) }
    {
        let names = commands / 2;
        let requests = RequestNames::with_capacity(alloc, names)?;
        let events = commands.saturating_mul(3);
        Ok(Process {
            me,
            rank: Rank::with_capacity(alloc, shape, me, events, names + 1)?,
            requests,
            handles: IndexMap::new(alloc),
            at: 0,
        })
    }

    /// The number of its rank.
    pub fn me(&self) -> u8
        ensures { result ≡ self.now.rank.me }
    {
        self.me
    }

    /// How many commands ran.
    pub fn at(&self) -> u64
        ensures { result ≡ self.now.at }
    {
        self.at
    }

    /// Whether a command can go on: only a wait and an await can be unable to.
    pub fn can_go_on(&self, command: &Command) -> bool
        ensures { result ≡ can_go_on_by self.now command.now }
    {
        match command {
            Command::Wait { q } => self.is_ready(*q),
            Command::Await { from, tag, ctx } => self.rank.probe(*from, *tag, *ctx).is_some(),
            _ => true,
        }
    }

    // Whether the request of this name is complete, or there is none.
    fn is_ready(&self, q: u16) -> bool
        ensures { result
            ≡ option_map_or (is_complete self.now.rank.events) (named self.now q) true }
    {
        let Some(request) = self.requests.get(q) else {
            return true;
        };
        match self.rank.test(request) {
            Ok(State::Ready) => true,
            Ok(State::Pending) => false,
            Err(NoSuch) => true,
        }
    }

    /// Runs a command at its line, if it can go on. A rank that is worn runs none.
    ///
    /// Whatever commands the process is at work on, it is still if this is the next of them.
    pub fn run(&mut self, command: &Command, line: u64) -> Result<Step, Memory>
        requires in_range { is_in_range self.old.rank.sizes.ranks command.now ≡ true }
        requires counted { self.old.at < line }
        ensures stepped { IfOk result (HasStepped command.now line self.old self.new) }
        ensures fresh { IfOk result (λ step. step ≡ step_is.Ran → IsFresh self.old.rank) }
        ensures same { OnOk result ((self.new.rank.me ≡ self.old.rank.me)
            × (self.new.rank.sizes ≡ self.old.rank.sizes)) }
        ensures waits { IfOk result (λ step. step ≡ step_is.Waits → IsFresh self.old.rank →
            can_go_on_by self.old command.now ≡ false) }
        ensures answered { IfOk result (λ step. step ≡ step_is.Ran →
            IsSome (last_answer self.new.rank.events)) }
        ensures work { IfOk result (λ step. step ≡ step_is.Ran →
            (shape : Sizes) (commands : List Numbered) (bound : ℕ) →
            IsWorking shape commands bound self.old →
            IsNext commands self.old.at bound line command.now →
            IsWorking shape commands (line + 1) self.new) }
    {
        if self.rank.is_worn() {
            return Ok(Step::Waits);
        }
        let step = self.run_command(command, line)?;
        if let Step::Waits = step {
            return Ok(Step::Waits);
        }
        self.at += 1;
        // no step: it tells that the history keeps its rules
        self.rank.history();
        Ok(step)
    }

    // Runs the command of a line.
    fn run_command(&mut self, command: &Command, line: u64) -> Result<Step, Memory>
        requires fresh { IsFresh self.old.rank }
        requires in_range { is_in_range self.old.rank.sizes.ranks command.now ≡ true }
        ensures places { self.new.at ≡ self.old.at }
        ensures tried { IfOk result (HasTried self.old self.new command.now line) }
    {
        match command {
            Command::Send {
                q,
                to,
                tag,
                ctx,
                body,
                sync,
            } => self.send(*q, *to, *tag, *ctx, body, *sync, line),
            Command::Recv {
                q,
                from,
                tag,
                ctx,
                cap,
            } => self.receive(*q, *from, *tag, *ctx, *cap, line),
            Command::Wait { q } => self.wait(*q, line),
            Command::Test { q } => self.test(*q, line),
            Command::Probe { from, tag, ctx } => self.probe(*from, *tag, *ctx, line),
            Command::Await { from, tag, ctx } => self.await_message(*from, *tag, *ctx, line),
            Command::Cancel { q } => self.cancel(*q, line),
            Command::Mprobe { m, from, tag, ctx } => self.claim(*m, *from, *tag, *ctx, line),
            Command::Mrecv { q, m, cap } => self.receive_claimed(*q, *m, *cap, line),
        }
    }
}
