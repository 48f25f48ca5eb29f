//! What each command does.

ghost use Rattle.std.specs.Prelude.{◌≡◌, ◌≢◌, ◌<◌, ◌≤◌, ◌⊎◌, ℕ, None, Some, Err, is_some, nat_eq, IfOk};
ghost use Rattle.std.specs.Prelude.{OnErr, OnOk, if◌then◌else◌, option_map};
ghost use Rattle.std.specs.Map.{lookup};
ghost use Rattle.nm_types.specs.declared.limits.TheConstants.{MAX_BODY, MAX_STAMP, MAX_TAG};
ghost use Rattle.nm_types.specs.Bodies.{body_len};
ghost use Rattle.nm_history.specs.Answers.{seen as seen_lem};
ghost use Rattle.nm_history.specs.Matching.{first_message, matched_pairs};
ghost use Rattle.nm_rank.specs.Ranks.{IsFresh};
ghost use Rattle.nm_rank.specs.Sends.{next_send};
ghost use Rattle.nm_rank.specs.Steps.{StartsSend};
ghost use Rattle.nm_process.specs.declared.steps.Step.TheVariants as step_is;
ghost use Rattle.nm_rank.specs.declared.answers.FinishFault.TheVariants as finish_fault;
ghost use Rattle.nm_process.specs.Names.{IsOlder, named};
ghost use Rattle.nm_process.specs.Starts.{Ends, HasAnswered, HasCancelled, HasProbed};
ghost use Rattle.nm_process.specs.Starts.{HasTriedAwait};
ghost use Rattle.nm_process.specs.Starts.{HasTriedMprobe, HasTriedMrecv, HasTriedReceive};
ghost use Rattle.nm_process.specs.Starts.{HasTriedSend, HasTriedTest, HasTriedWait, IsNull};
ghost use Rattle.nm_process.specs.Starts.{IsPending, StandsStill, answer_for as answer_for_lem};

use crate::{Handle, Process, Step};
use indexmap::IndexMap;
use nm_rank::journal::Recorder;
use nm_rank::{CancelFault, Cancelled, FinishFault, Rank, Req};
use nm_types::{Answer, Arrival, Body, Memory, Peer, Seen, TagPick};

/// What a probe shows of a message.
fn seen(a: &Arrival) -> Answer
    ensures { result ≡ seen_lem a.now }
{
    Answer::Seen(Seen {
        from: a.env.from,
        tag: a.env.tag,
        len: a.env.len,
    })
}

/// How a cancel is answered.
fn answer_for(cancelled: Cancelled) -> Answer
    ensures { result ≡ answer_for_lem cancelled }
{
    match cancelled {
        Cancelled::Done => Answer::Done,
        Cancelled::Late => Answer::Late,
        Cancelled::Asked => Answer::Asked,
    }
}

/// The message of this handle, if it has one.
fn message_of_handle(handles: &IndexMap<u16, Handle>, m: u16) -> Option<Handle>
    ensures { result ≡ lookup (nat_eq m) handles.now.entries }
{
    handles.get(&m).copied()
}

/// Starts a send of an equal body.
fn send_copy<H: Recorder>(
    rank: &mut Rank<H>,
    to: u8,
    tag: u16,
    ctx: u8,
    body: &Body,
    sync: bool,
    line: u64,
) -> Result<Req, Memory>
    requires to { to < rank.old.sizes.ranks }
    requires tag { tag ≤ MAX_TAG }
    requires short { body_len body.now ≤ MAX_BODY }
    requires fresh { IsFresh rank.old }
    ensures starts { IfOk result (λ r. StartsSend
        (next_send rank.old to tag ctx body.now sync line) body.now r rank.old rank.new) }
    ensures err { OnErr result (rank.new ≡ rank.old) }
{
    let body = body.copy()?;
    rank.isend(to, tag, ctx, body, sync, line)
}

impl<H: Recorder> Process<H> {
    // Starts a send, if its name is free.
    pub(crate) fn send(
        &mut self,
        q: u16,
        to: u8,
        tag: u16,
        ctx: u8,
        body: &Body,
        sync: bool,
        line: u64,
    ) -> Result<Step, Memory>
        requires to { to < self.old.rank.sizes.ranks }
        requires tag { tag ≤ MAX_TAG }
        requires short { body_len body.now ≤ MAX_BODY }
        requires fresh { IsFresh self.old.rank }
        ensures places { StandsStill self.old self.new }
        ensures ran { IfOk result (λ step. step ≡ step_is.Ran) }
        ensures tried { OnOk result
            (HasTriedSend self.old self.new q to tag ctx body.now sync line) }
    {
        if self.is_taken(q) {
            return self.answer(line, Answer::Busy);
        }
        let request = send_copy(&mut self.rank, to, tag, ctx, body, sync, line)?;
        self.name(q, request)?;
        self.answer(line, Answer::Started)
    }

    // Starts a receive, if its name is free.
    pub(crate) fn receive(
        &mut self,
        q: u16,
        from: Peer,
        tag: TagPick,
        ctx: u8,
        cap: u32,
        line: u64,
    ) -> Result<Step, Memory>
        requires fresh { IsFresh self.old.rank }
        ensures places { StandsStill self.old self.new }
        ensures ran { IfOk result (λ step. step ≡ step_is.Ran) }
        ensures tried { OnOk result
            (HasTriedReceive self.old self.new q from tag ctx cap line) }
    {
        if self.is_taken(q) {
            return self.answer(line, Answer::Busy);
        }
        let request = self.rank.irecv(from, tag, ctx, cap, line)?;
        self.name(q, request)?;
        self.answer(line, Answer::Started)
    }

    // Gives the result of the request of this name, which then ends, if it is complete.
    pub(crate) fn wait(&mut self, q: u16, line: u64) -> Result<Step, Memory>
        requires fresh { IsFresh self.old.rank }
        ensures places { StandsStill self.old self.new }
        ensures tried { IfOk result (HasTriedWait self.old self.new q line) }
    {
        match self.end(q) {
            Ok(answer) => self.answer(line, answer),
            Err(FinishFault::NoSuch) => self.answer(line, Answer::Null),
            Err(FinishFault::NotComplete) => Ok(Step::Waits),
        }
    }

    // Gives that result, or answers that there is none yet.
    pub(crate) fn test(&mut self, q: u16, line: u64) -> Result<Step, Memory>
        requires fresh { IsFresh self.old.rank }
        ensures places { StandsStill self.old self.new }
        ensures ran { IfOk result (λ step. step ≡ step_is.Ran) }
        ensures tried { OnOk result (HasTriedTest self.old self.new q line) }
    {
        match self.end(q) {
            Ok(answer) => self.answer(line, answer),
            Err(FinishFault::NoSuch) => self.answer(line, Answer::Null),
            Err(FinishFault::NotComplete) => self.answer(line, Answer::No),
        }
    }

    // The first message that a receive would take, if there is one.
    fn shown(&mut self, from: Peer, tag: TagPick, ctx: u8) -> Option<Seen>
        ensures shown { let h = self.old.rank.events in result
            ≡ option_map (λ a. record { from = a.env.from; tag = a.env.tag; len = a.env.len })
            (first_message h (matched_pairs h) from tag ctx) }
        ensures same { self.new ≡ self.old }
    {
        self.rank.prepare(from, tag);
        self.rank.probe(from, tag, ctx)
    }

    // Shows the first message that a receive would take, if there is one.
    pub(crate) fn probe(
        &mut self,
        from: Peer,
        tag: TagPick,
        ctx: u8,
        line: u64,
    ) -> Result<Step, Memory>
        requires fresh { IsFresh self.old.rank }
        ensures places { StandsStill self.old self.new }
        ensures ran { IfOk result (λ step. step ≡ step_is.Ran) }
        ensures tried { OnOk result (HasProbed self.old self.new from tag ctx line) }
    {
        match self.shown(from, tag, ctx) {
            Some(seen) => self.answer(line, Answer::Seen(seen)),
            None => self.answer(line, Answer::Nothing),
        }
    }

    // Shows that message once there is one.
    pub(crate) fn await_message(
        &mut self,
        from: Peer,
        tag: TagPick,
        ctx: u8,
        line: u64,
    ) -> Result<Step, Memory>
        requires fresh { IsFresh self.old.rank }
        ensures places { StandsStill self.old self.new }
        ensures tried { IfOk result (HasTriedAwait self.old self.new from tag ctx line) }
    {
        match self.shown(from, tag, ctx) {
            Some(seen) => self.answer(line, Answer::Seen(seen)),
            None => Ok(Step::Waits),
        }
    }

    // Cancels the request of this name.
    pub(crate) fn cancel(&mut self, q: u16, line: u64) -> Result<Step, Memory>
        requires fresh { IsFresh self.old.rank }
        ensures places { StandsStill self.old self.new }
        ensures ran { IfOk result (λ step. step ≡ step_is.Ran) }
        ensures tried { OnOk result
            (IsNull self.old self.new q line ⊎ HasCancelled self.old self.new q line) }
    {
        let Some(request) = self.requests.get(q) else {
            return self.answer(line, Answer::Null);
        };
        match self.rank.cancel(request) {
            Ok(cancelled) => self.answer(line, answer_for(cancelled)),
            Err(CancelFault::NoSuch) => self.answer(line, Answer::Null),
            Err(CancelFault::Memory) => Err(Memory),
        }
    }

    // Claims the first message that a receive would take under a handle, if that is free.
    pub(crate) fn claim(
        &mut self,
        m: u16,
        from: Peer,
        tag: TagPick,
        ctx: u8,
        line: u64,
    ) -> Result<Step, Memory>
        requires fresh { IsFresh self.old.rank }
        ensures places { StandsStill self.old self.new }
        ensures ran { IfOk result (λ step. step ≡ step_is.Ran) }
        ensures tried { OnOk result (HasTriedMprobe self.old self.new m from tag ctx line) }
    {
        if self.handles.contains_key(&m) {
            return self.answer(line, Answer::Busy);
        }
        let Some(message) = self.rank.improbe(from, tag, ctx, line)? else {
            return self.answer(line, Answer::Nothing);
        };
        let handle = Handle {
            from: message.env.from,
            n: message.n,
        };
        self.handles.insert(m, handle)?;
        self.answer(line, seen(&message))
    }

    // Starts the receive of the message of a handle, if its name is free.
    pub(crate) fn receive_claimed(
        &mut self,
        q: u16,
        m: u16,
        cap: u32,
        line: u64,
    ) -> Result<Step, Memory>
        requires fresh { IsFresh self.old.rank }
        ensures places { StandsStill self.old self.new }
        ensures ran { IfOk result (λ step. step ≡ step_is.Ran) }
        ensures tried { OnOk result (HasTriedMrecv self.old self.new q m cap line) }
    {
        if self.is_taken(q) {
            return self.answer(line, Answer::Busy);
        }
        let Some(handle) = message_of_handle(&self.handles, m) else {
            return self.answer(line, Answer::Null);
        };
        let request = self.rank.imrecv(handle.from, handle.n, cap, line)?;
        self.handles.swap_remove(&m);
        self.name(q, request)?;
        self.answer(line, Answer::Started)
    }

    // Records the answer of a line's command.
    #[inline(always)]
    fn answer(&mut self, line: u64, answer: Answer) -> Result<Step, Memory>
        requires in_time { self.old.rank.clock < MAX_STAMP }
        ensures places { StandsStill self.old self.new }
        ensures ran { IfOk result (λ step. step ≡ step_is.Ran) }
        ensures answered { OnOk result (HasAnswered self.old self.new line answer) }
    {
        self.rank.ran(line, answer)?;
        Ok(Step::Ran)
    }

    // Gives a name to a request that was started.
    #[inline(always)]
    fn name(&mut self, q: u16, request: Req) -> Result<(), Memory>
        requires older { IsOlder self.old.rank.requests request }
        requires unnamed { (k : ℕ) → lookup (nat_eq k) self.old.names ≢ Some request }
        ensures places { StandsStill self.old self.new }
        ensures same { (self.new.rank ≡ self.old.rank) × (self.new.handles ≡ self.old.handles) }
        ensures named { OnOk result ((k : ℕ) → lookup (nat_eq k) self.new.names
            ≡ (if nat_eq q k then Some request else lookup (nat_eq k) self.old.names)) }
    {
        self.requests.insert(q, request)?;
        Ok(())
    }

    // Whether the name stands for a request that has not ended.
    #[inline(always)]
    fn is_taken(&self, q: u16) -> bool
        ensures { result ≡ is_some (named self.now q) }
    {
        match self.requests.get(q) {
            Some(request) => self.rank.test(request).is_ok(),
            None => false,
        }
    }

    // The result of the request of this name, which then ends, if it is complete.
    #[inline(always)]
    fn end(&mut self, q: u16) -> Result<Answer, FinishFault>
        ensures ends { IfOk result (Ends self.old self.new q) }
        ensures null { result ≡ Err finish_fault.NoSuch → named self.old q ≡ None }
        ensures pending { result ≡ Err finish_fault.NotComplete → IsPending self.old q }
        ensures still { OnErr result (self.new ≡ self.old) }
        ensures places { StandsStill self.old self.new }
    {
        let Some(request) = self.requests.get(q) else {
            return Err(FinishFault::NoSuch);
        };
        self.rank.finish(request)
    }
}
