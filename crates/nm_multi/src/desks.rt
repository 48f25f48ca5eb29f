//! The one rank of a shape, beside the log of all calls made on it.

ghost use Rattle.std.specs.Prelude.{◌≡◌, ◌≤◌, ◌⊎◌, true, false, [], IfOk, OnErr, OnOk};
ghost use Rattle.nm_rank.specs.Ranks.{IsFresh};
ghost use Rattle.nm_multi.specs.declared.calls.Call.TheVariants.{Cancel, Finish, Irecv, Isend, Test};
ghost use Rattle.nm_multi.specs.Acts.{Acts, GoesOn, IsReplay, Makes};
ghost use Rattle.nm_multi.specs.Calls.{IsInRange};
ghost use Rattle.nm_multi.specs.Moves.{IsAlone};

use crate::laws::{a_desk_begins, calls_go_on};
use crate::moving::pump;
use crate::{Call, CallLog, Entry, Reply};
use nm_rank::{CancelFault, FinishFault, Rank, Req};
use nm_types::{Body, Memory, Peer, Shape, TagPick};
use std::alloc::Global;
use std::marker::Model;

/// The reply to a send with this tag and this body.
fn send(rank: &mut Rank, tag: u16, body: &Body) -> Result<Reply, Memory>
    requires one { rank.old.sizes.ranks ≡ 1 }
    requires in_range { IsInRange (Isend tag body.now) }
    requires fresh { IsFresh rank.old }
    ensures acts { IfOk result (λ reply. GoesOn (Isend tag body.now) reply rank.old rank.new) }
    ensures err { OnErr result (rank.new ≡ rank.old) }
{
    let body = body.copy()?;
    Ok(Reply::Started(rank.isend(0, tag, 0, body, false, 0)?))
}

/// The reply to a receive with this tag and this capacity.
fn receive(rank: &mut Rank, tag: u16, cap: u32) -> Result<Reply, Memory>
    requires fresh { IsFresh rank.old }
    ensures acts { IfOk result (λ reply. GoesOn (Irecv tag cap) reply rank.old rank.new) }
    ensures err { OnErr result (rank.new ≡ rank.old) }
{
    let r = rank.irecv(Peer::One(0), TagPick::One(tag), 0, cap, 0)?;
    Ok(Reply::Started(r))
}

/// The reply to a finish of a request.
fn finish(rank: &mut Rank, r: Req) -> Reply
    ensures { GoesOn (Finish r) result rank.old rank.new }
{
    match rank.finish(r) {
        Ok(answer) => Reply::Ended(answer),
        Err(FinishFault::NoSuch) => Reply::NoSuch,
        Err(FinishFault::NotComplete) => Reply::NotComplete,
    }
}

/// The reply to a cancel of a request.
fn cancel(rank: &mut Rank, r: Req) -> Result<Reply, Memory>
    requires fresh { IsFresh rank.old }
    ensures acts { IfOk result (λ reply. GoesOn (Cancel r) reply rank.old rank.new) }
    ensures err { OnErr result (rank.new ≡ rank.old) }
{
    match rank.cancel(r) {
        Ok(cancelled) => Ok(Reply::Undone(cancelled)),
        Err(CancelFault::NoSuch) => Ok(Reply::NoSuch),
        Err(CancelFault::Memory) => Err(Memory),
    }
}

/// The reply to a test of a request.
fn test(rank: &Rank, r: Req) -> Reply
    ensures { GoesOn (Test r) result rank.now rank.now }
{
    match rank.test(r) {
        Ok(state) => Reply::Is(state),
        Err(_) => Reply::NoSuch,
    }
}

/// What a call replies, or want of memory, by which the rank is as it was.
fn reply_to(rank: &mut Rank, call: &Call) -> Result<Reply, Memory>
    requires alone { IsAlone rank.old }
    requires in_range { IsInRange call.now }
    ensures acts { IfOk result (λ reply. Acts call.now reply rank.old rank.new) }
    ensures alone { IsAlone rank.new }
    ensures err { OnErr result (rank.new ≡ rank.old) }
{
    if rank.is_worn() {
        return Ok(Reply::Worn);
    }
    match call {
        Call::Isend { tag, body } => send(rank, *tag, body),
        Call::Irecv { tag, cap } => receive(rank, *tag, *cap),
        Call::Pump => pump(rank),
        Call::Test { r } => Ok(test(rank, *r)),
        Call::Finish { r } => Ok(finish(rank, *r)),
        Call::Cancel { r } => cancel(rank, *r),
    }
}

/// The one rank of a shape, beside the log of all calls made on it.
pub struct Desk {
    rank: Rank,
    log: CallLog,
}

impl Drop for Desk {
    fn drop(self) {
        let Desk { rank: _, log: _ } = self;
    }
}

impl Model for Desk {
    ghost use Rattle.nm_multi.specs.Acts.{AreReplayed, DeskView};

    ghost Value = { DeskView };

    ghost view = { λ d. record { rank = d.rank; log = d.log.entries } };

    ghost invariant = { λ d. AreReplayed d.rank d.log.entries };
}

impl Desk {
    /// A desk at which no call was made.
    pub fn new(alloc: Global, shape: Shape) -> Result<Desk, Memory>
        requires one { shape.ranks ≡ 1 }
        ensures empty { IfOk result (λ d. d.log ≡ []) }
        ensures shape { IfOk result (λ d. d.rank.sizes ≡ shape) }
    {
        // no step: the law of a new rank
        a_desk_begins();
        let rank = Rank::new(alloc, shape, 0)?;
        let log = CallLog::new(alloc);
        Ok(Desk { rank, log })
    }

    /// Makes a call, and puts it into the log with the rank's reply.
    pub fn make(&mut self, who: u8, call: Call) -> Result<(), Memory>
        requires in_range { IsInRange call }
        ensures made { OnOk result (Makes false who call self.old self.new) }
        ensures err { OnErr result ((self.new ≡ self.old) ⊎ Makes true who call self.old self.new) }
    {
        // no step: the law of all calls
        calls_go_on();
        self.log.reserve()?;
        // no step: it tells that the history keeps its rules
        self.rank.history();
        let reply = reply_to(&mut self.rank, &call)?;
        let is_short = matches!(&reply, Reply::Short(_));
        self.log.add(Entry { who, call, reply });
        if is_short { Err(Memory) } else { Ok(()) }
    }

    /// The calls that were made.
    pub fn log(&self) -> &CallLog
        ensures log { result.now.entries ≡ self.now.log }
        ensures replay { IsReplay self.now.rank.sizes self.now.log self.now.rank }
    {
        &self.log
    }

    /// The calls that were made, when the desk is used no more.
    pub fn into_log(self) -> CallLog
        ensures log { result.entries ≡ self.log }
        ensures replay { IsReplay self.rank.sizes self.log self.rank }
    {
        let Desk { rank: _, log } = self;
        log
    }
}
