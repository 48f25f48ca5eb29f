//! Sends and receives, and matched probes.

ghost use Rattle.std.specs.Prelude.{◌≡◌, ◌+◌, ◌<◌, ◌≤◌, ℕ, ◌++◌, None, length, if◌then◌else◌, IfOk, IfSome, IsTrue};
ghost use Rattle.std.specs.Prelude.{MatchOption, OnErr};
ghost use Rattle.nm_types.specs.declared.limits.TheConstants.{MAX_BODY, MAX_EAGER, MAX_PACKETS, MAX_STAMP, MAX_TAG};
ghost use Rattle.nm_types.specs.Bodies.{body_len};
ghost use Rattle.nm_history.specs.Matching.{first_message, is_claimed as is_claimed_lem, matched_pairs};
ghost use Rattle.nm_history.specs.RankRun.{how_of};
ghost use Rattle.nm_history.specs.Sends.{is_ask};
ghost use Rattle.nm_history.specs.Clock.{stamped};
ghost use Rattle.nm_sending.specs.Outboxes.{put_to};
ghost use Rattle.nm_sending.specs.Sent.{Puts};
ghost use Rattle.nm_receiving.specs.Receipts.{taken_events};
ghost use Rattle.nm_rank.specs.Calls.{clearance_of};
ghost use Rattle.nm_rank.specs.Ranks.{IsFresh};
ghost use Rattle.nm_rank.specs.Sends.{next_send};
ghost use Rattle.nm_rank.specs.Steps.{Claims, StartsMatched, StartsReceive, StartsSend};

use crate::Rank;
use crate::journal::{Journal, Recorder};
use crate::room::make_room;
use crate::stays::sides_stay;
use nm_history::Happened;
use nm_request::{Kind, Req};
use nm_sending::Sending;
use nm_types::{Arrival, Body, How, Memory, Peer, Post, TagPick, What};

/// How a message of this length is sent.
fn mode(eager: u16, sync: bool, len: u32) -> How
    ensures value { result ≡ how_of eager sync len }
    ensures short { len ≤ MAX_BODY → eager ≤ MAX_EAGER →
        len ≤ (if is_ask result then MAX_BODY else MAX_EAGER) }
{
    if sync || len > u32::from(eager) {
        How::Ask
    } else {
        How::Eager
    }
}

/// What follows where a receive took this message: one that was sent by asking is cleared, and is
/// here where it has no bytes.
#[inline(always)]
fn follow<H: Recorder>(journal: &mut Journal<H>, sending: &mut Sending, taken: Option<Arrival>)
    requires sender { IfSome taken (λ a. a.env.from < length sending.old.outbox.popped) }
    requires few { (to : ℕ) → to < length sending.old.outbox.popped →
        put_to sending.old.outbox to < MAX_PACKETS }
    requires letter { 0 < sending.old.outbox.spare }
    requires event { 0 < journal.old.spare }
    requires in_time { journal.old.clock < MAX_STAMP }
    ensures events { journal.new.events
        ≡ journal.old.events ++ stamped journal.old.clock (taken_events taken) }
    ensures clock { journal.new.clock ≡ journal.old.clock + length (taken_events taken) }
    ensures room { journal.old.spare ≤ journal.new.spare + length (taken_events taken) }
    ensures puts { (called : ℕ) → called ≤ journal.new.clock → Puts (clearance_of called taken)
        None journal.new.clock sending.old.outbox sending.new.outbox }
    ensures same { sending.new ≡ record sending.old { outbox = sending.new.outbox } }
{
    let Some(a) = taken else { return };
    let How::Ask = a.env.how else { return };
    if a.env.len == 0 {
        journal.add(Happened::Whole {
            from: a.env.from,
            n: a.n,
        });
    }
    sending.answer(a.env.from, journal.clock(), What::Clear { n: a.n });
}

impl<H: Recorder> Rank<H> {
    /// Starts a send of the command of a line (MPI 3.1, section 3.4; with `sync`, in synchronous
    /// mode), and answers its request. A message that is longer than the eager limit, or
    /// synchronous, is sent by asking.
    pub fn isend(
        &mut self,
        to: u8,
        tag: u16,
        ctx: u8,
        body: Body,
        sync: bool,
        line: u64,
    ) -> Result<Req, Memory>
        requires to { to < self.old.sizes.ranks }
        requires tag { tag ≤ MAX_TAG }
        requires short { body_len body ≤ MAX_BODY }
        requires fresh { IsFresh self.old }
        ensures starts { IfOk result (λ r. StartsSend
            (next_send self.old to tag ctx body sync line) body r self.old self.new) }
        ensures err { OnErr result (self.new ≡ self.old) }
    {
        let len = body.len();
        let how = mode(self.shape.eager(), sync, len);
        sides_stay();
        make_room(&mut self.journal, &mut self.sending, &mut self.requests)?;
        let stamp = self.journal.clock() + 1;
        let n = self.sending.send(to, tag, ctx, body, how, stamp)?;
        self.journal.add(Happened::Send {
            to,
            n,
            tag,
            ctx,
            len,
            how,
            line,
        });
        Ok(self.requests.add(Kind::Send { to, n }).unwrap())
    }

    /// Starts a receive of at most `cap` bytes for the command of a line (section 3.2.4), and
    /// answers its request. It takes the oldest free message that it selects, or waits for one.
    pub fn irecv(
        &mut self,
        from: Peer,
        tag: TagPick,
        ctx: u8,
        cap: u32,
        line: u64,
    ) -> Result<Req, Memory>
        requires fresh { IsFresh self.old }
        ensures starts { IfOk result
            (λ r. StartsReceive from tag ctx cap line r self.old self.new) }
        ensures err { OnErr result (self.new ≡ self.old) }
    {
        sides_stay();
        make_room(&mut self.journal, &mut self.sending, &mut self.requests)?;
        let started = self.receiving.post(from, tag, ctx, cap)?;
        let number = started.number;
        let post = Post {
            number,
            from,
            tag,
            ctx,
            cap,
        };
        self.journal.add(Happened::Post { post, line });
        follow(&mut self.journal, &mut self.sending, started.taken);
        Ok(self.requests.add(Kind::Receive { number }).unwrap())
    }

    /// A matched probe for the command of a line (section 3.8.2): the message that `probe` shows,
    /// which only a receive of it can take then.
    pub fn improbe(
        &mut self,
        from: Peer,
        tag: TagPick,
        ctx: u8,
        line: u64,
    ) -> Result<Option<Arrival>, Memory>
        requires fresh { IsFresh self.old }
        ensures oldest { let h = self.old.events in
            IfOk result (λ found. found ≡ first_message h (matched_pairs h) from tag ctx) }
        ensures claims { IfOk result (λ found. MatchOption found (self.new ≡ self.old)
            (λ a. Claims a line self.old self.new)) }
        ensures err { OnErr result (self.new ≡ self.old) }
    {
        sides_stay();
        make_room(&mut self.journal, &mut self.sending, &mut self.requests)?;
        let found = self.receiving.claim(from, tag, ctx)?;
        if let Some(a) = found {
            let from = a.env.from;
            self.journal.add(Happened::Claim { from, n: a.n, line });
        }
        Ok(found)
    }

    /// Whether a message was claimed and not received yet.
    pub fn is_claimed(&self, from: u8, n: u64) -> bool
        ensures { let h = self.now.events in result ≡ is_claimed_lem h (matched_pairs h) from n }
    {
        self.receiving.is_claimed(from, n)
    }

    /// Starts the receive of a claimed message for the command of a line (section 3.8.3), and
    /// answers its request.
    pub fn imrecv(&mut self, from: u8, n: u64, cap: u32, line: u64) -> Result<Req, Memory>
        requires claimed { let h = self.old.events in
            IsTrue (is_claimed_lem h (matched_pairs h) from n) }
        requires fresh { IsFresh self.old }
        ensures starts { IfOk result (λ r. StartsMatched from n cap line r self.old self.new) }
        ensures err { OnErr result (self.new ≡ self.old) }
    {
        sides_stay();
        make_room(&mut self.journal, &mut self.sending, &mut self.requests)?;
        let started = self.receiving.take_claimed(from, n, cap)?;
        let number = started.number;
        self.journal.add(Happened::Match {
            number,
            from,
            n,
            cap,
            line,
        });
        follow(&mut self.journal, &mut self.sending, started.taken);
        Ok(self.requests.add(Kind::Receive { number }).unwrap())
    }
}
