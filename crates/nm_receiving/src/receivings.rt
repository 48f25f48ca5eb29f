//! The receiving side of a rank.

ghost use Rattle.std.specs.Prelude.{◌≡◌, ◌↔◌, ℕ, ◌+◌, ◌^◌, ◌<◌, ◌≤◌, true, false, not, [], ◌∷◌, ◌++◌, List};
ghost use Rattle.std.specs.Prelude.{IfOk, IsSome, IsTrue, MatchOption, OnErr, OnOk};
ghost use Rattle.std.specs.Prelude.{length, map, nat_lt};
ghost use Rattle.std.specs.List.{list_any, slice_get};
ghost use Rattle.std.specs.Option.{option_map_or};
ghost use Rattle.nm_types.specs.declared.limits.TheConstants.{MAX_PACKETS};
ghost use Rattle.nm_types.specs.declared.packets.What.TheVariants as what;
ghost use Rattle.nm_history.specs.declared.events.Event.{Event};
ghost use Rattle.nm_history.specs.declared.events.Happened.TheVariants as event;
ghost use Rattle.nm_history.specs.Completion.{is_complete as is_complete_lem};
ghost use Rattle.nm_history.specs.Completion.Request.{Receiving as ReceivingRequest};
ghost use Rattle.nm_history.specs.Happens.{happened, is_arrival};
ghost use Rattle.nm_history.specs.Matching.{first_message, is_claimed as is_claimed_lem};
ghost use Rattle.nm_history.specs.Matching.{is_free_message, is_of_receive, matched_pairs};
ghost use Rattle.nm_history.specs.Sends.{message_of};
ghost use Rattle.nm_history.specs.Effects.{happenings};
ghost use Rattle.nm_history.specs.Known.{Known, learned};
ghost use Rattle.nm_history.specs.Pieces.{due_pieces};
ghost use Rattle.nm_eager.specs.Streams.{missing};
ghost use Rattle.nm_receiving.specs.Calls.{DrawsPiece, FinishesReceive, IsLiveOf, MayBeTakenIn, StartsOne};
ghost use Rattle.nm_receiving.specs.Calls.{ReceivedNothing, TakesMessagePacket};
ghost use Rattle.nm_receiving.specs.StreamViews.{is_done_at_once};
ghost use Rattle.nm_receiving.specs.Receipts.{drawn_from, receipt_of, receipts_from};
ghost use Rattle.nm_receiving.specs.Receipts.{stream_of};
ghost use Rattle.nm_receiving.specs.Receives.{first_live};
ghost use Rattle.nm_receiving.specs.Rows.{settled_front};
ghost use Rattle.nm_receiving.specs.Received.{AreReceived, PreservesSender, IsOwed, Preserves, MayBeTaken};

use crate::bytes::{grant_taken, is_here, reserve_from, shown, take_bytes};
use crate::claims::Claims;
use crate::receipts::{Receipt, Receipts, Receive};
use crate::receives::{Receives, give};
use crate::streams::{arrival, pieces};
use crate::telling::packets_tell;
use nm_eager::Joiner;
use nm_rndv::Grants;
use nm_types::{Answer, Arrival, How, Memory, Packet, Peer, Piece, Post, Shape, TagPick, What};
use std::alloc::Global;
use std::marker::Model;

/// What a receive that was started is: its number, and the message that it took, if it took one.
#[derive(Clone, Copy)]
pub struct Started {
    pub number: u64,
    pub taken: Option<Arrival>,
}

/// What a piece did: whether it continued its message, and whether the message is whole with it.
#[derive(Clone, Copy)]
pub struct Drawn {
    pub continued: bool,
    pub whole: bool,
}

/// The receiving side of a rank: the messages that come to it, and its receives.
pub struct Receiving {
    matcher: Claims,
    joiner: Joiner,
    grants: Grants,
    receipts: Receipts,
    receives: Receives,
    // by sender, how many pieces continued
    drawn: Vec<u64>,
}

impl Drop for Receiving {
    fn drop(self) {
        let Receiving {
            matcher: _,
            joiner: _,
            grants: _,
            receipts: _,
            receives: _,
            drawn: _,
        } = self;
    }
}

impl Model for Receiving {
    ghost use Rattle.nm_receiving.specs.Receipts.{ReceivingView};

    ghost Value = { ReceivingView };

    ghost use Rattle.nm_receiving.specs.Kept.{ReceivingInvariant};
    ghost use Rattle.nm_receiving.specs.Seen.{seen};

    ghost view = { seen };

    ghost invariant = { λ a. ReceivingInvariant (seen a) };
}

impl Receiving {
    /// Nothing came and nothing was received, in a run of these sizes.
    pub fn new(alloc: Global, shape: Shape) -> Result<Receiving, Memory>
        ensures { IfOk result (ReceivedNothing shape) }
    {
        Receiving::with_capacity(alloc, shape, 0)
    }

    /// The same, with room for what is kept of so many receives by their numbers.
    pub fn with_capacity(alloc: Global, shape: Shape, receives: usize) -> Result<Receiving, Memory>
        ensures { IfOk result (ReceivedNothing shape) }
    {
        let ranks = shape.ranks();
        Ok(Receiving {
            joiner: Joiner::new(alloc, shape)?,
            grants: Grants::new(alloc, ranks)?,
            receipts: Receipts::new(alloc, ranks)?,
            drawn: vec![in alloc; 0; ranks as usize]?,
            receives: Receives::with_capacity(alloc, receives)?,
            matcher: Claims::new(alloc),
        })
    }

    /// How many receives are in memory: those from the first on whose result was not given.
    pub fn held_receives(&self) -> usize
        ensures { first_live self.now.receives ≤ 2 ^ 62
            → first_live self.now.receives + result ≡ length self.now.receives }
    {
        self.receives.held()
    }

    /// How many messages of a rank are in memory: those from the first on that was neither sent by asking nor is
    /// whole.
    pub fn held_messages(&self, from: u8) -> usize
        requires { from < self.now.sizes.ranks }
        ensures { settled_front (receipts_from self.now from) + result
            ≡ length (receipts_from self.now from) }
    {
        self.receipts.held(from)
    }

    /// How many messages came from a rank: the number of the next one.
    pub fn came(&self, from: u8) -> u64
        requires { from < self.now.sizes.ranks }
        ensures { result ≡ length (receipts_from self.now from) }
    {
        self.receipts.count(from)
    }

    /// Posts a receive, and answers its number and the message that it takes: the oldest free one that
    /// it selects (MPI 3.1, sections 3.2.4 and 3.5).
    pub fn post(&mut self, from: Peer, tag: TagPick, ctx: u8, cap: u32) -> Result<Started, Memory>
        ensures taken { IfOk result (λ s. (h : List Event) → AreReceived self.old h →
            s.taken ≡ first_message h (matched_pairs h) from tag ctx) }
        ensures started { IfOk result (λ s. StartsOne cap (event.Post
            (record { number = s.number; from = from; tag = tag; ctx = ctx; cap = cap }))
            s self.old self.new) }
        ensures err { OnErr result (self.new ≡ self.old) }
    {
        self.receives.reserve()?;
        reserve_from(&mut self.grants, from, self.drawn.len())?;
        let number = self.receives.count();
        let taken = self.matcher.post(Post {
            number,
            from,
            tag,
            ctx,
            cap,
        })?;
        self.receives.push(Receive::new(cap, taken));
        grant_taken(&mut self.grants, &mut self.receipts, &taken);
        Ok(Started { number, taken })
    }

    /// The receive of a claimed message (MPI 3.1, section 3.8.3).
    pub fn take_claimed(&mut self, from: u8, n: u64, cap: u32) -> Result<Started, Memory>
        requires { MayBeTaken self.old from n }
        ensures taken { IfOk result (λ s. (h : List Event) → AreReceived self.old h →
            s.taken ≡ message_of h from n) }
        ensures some { IfOk result (λ s. IsSome s.taken) }
        ensures started { IfOk result (λ s.
            StartsOne cap (event.Match s.number from n cap) s self.old self.new) }
        ensures err { OnErr result (self.new ≡ self.old) }
    {
        prove!(self.matcher.is_claimed(from, n));
        self.receives.reserve()?;
        let arrival = self.matcher.claimed(from, n);
        self.grants.reserve_for(arrival.env.from)?;
        let number = self.receives.count();
        let taken = Some(arrival);
        self.matcher.take_claimed(number, from, n)?;
        self.receives.push(Receive::new(cap, taken));
        grant_taken(&mut self.grants, &mut self.receipts, &taken);
        Ok(Started { number, taken })
    }

    /// The message that `probe` shows, which is claimed then (MPI 3.1, section 3.8.2).
    pub fn claim(&mut self, from: Peer, tag: TagPick, ctx: u8) -> Result<Option<Arrival>, Memory>
        ensures oldest { IfOk result (λ t. (h : List Event) → AreReceived self.old h →
            t ≡ first_message h (matched_pairs h) from tag ctx) }
        ensures kept { IfOk result (λ t. MatchOption t (self.new ≡ self.old)
            (λ a. (line : ℕ) →
            Preserves self.old self.new (event.Claim a.env.from a.n line ∷ []))) }
        ensures same { self.new ≡ record self.old { deeds = self.new.deeds } }
        ensures err { OnErr result (self.new ≡ self.old) }
    {
        self.matcher.claim(from, tag, ctx)
    }

    /// Whether a message is claimed and not yet received.
    pub fn is_claimed(&self, from: u8, n: u64) -> bool
        ensures { (h : List Event) → AreReceived self.now h →
            result ≡ is_claimed_lem h (matched_pairs h) from n }
    {
        self.matcher.is_claimed(from, n)
    }

    /// Prepares for probes of this source and this tag, so that where many messages wait a wildcard
    /// looks one up.
    pub fn prepare(&mut self, from: Peer, tag: TagPick)
        ensures { self.new ≡ self.old }
    {
        self.matcher.prepare(from, tag);
    }

    /// The oldest free message that a receive would take (MPI 3.1, section 3.8.1).
    pub fn probe(&self, from: Peer, tag: TagPick, ctx: u8) -> Option<Arrival>
        ensures { (h : List Event) → AreReceived self.now h →
            result ≡ first_message h (matched_pairs h) from tag ctx }
    {
        self.matcher.probe(from, tag, ctx)
    }

    /// Cancels a receive (MPI 3.1, section 3.8.4). The answer is `false` where it is paired.
    pub fn cancel(&mut self, number: u64) -> bool
        requires { number < length self.old.receives }
        ensures late { (h : List Event) → AreReceived self.old h →
            result ≡ not (list_any (is_of_receive number) (matched_pairs h)) }
        ensures kept { Preserves self.old self.new (event.Cancel number result ∷ []) }
        ensures same { self.new
            ≡ record self.old { deeds = self.new.deeds; receives = self.new.receives } }
        ensures ended { map (λ r. r.ended) self.new.receives
            ≡ map (λ r. r.ended) self.old.receives }
    {
        let done = self.matcher.cancel(number);
        if done {
            self.receives.cancel(number);
        }
        done
    }

    /// Withdraws a message for its sender's recall. The answer is `false` where it is not free.
    pub fn withdraw(&mut self, from: u8, n: u64) -> bool
        requires sender { from < self.old.sizes.ranks }
        requires came { n < length (receipts_from self.old from) }
        ensures value { (h : List Event) → AreReceived self.old h →
            result ≡ is_free_message h (matched_pairs h) from n }
        ensures kept { (h events : List Event) →
            happenings events ≡ event.Withdraw from n result ∷ [] →
            AreReceived self.old h → AreReceived self.new (h ++ events) }
        ensures arrived { (h : List Event) → AreReceived self.old h →
            IsTrue (happened (is_arrival from n) h) }
        ensures same { self.new ≡ record self.old { deeds = self.new.deeds } }
    {
        self.matcher.withdraw(from, n)
    }

    /// Takes a packet of a message, which continues its stream: a message begins, goes on, or is
    /// announced. The answer is whether a receive takes an announced message at once.
    pub fn take(&mut self, p: &Packet) -> Result<bool, Memory>
        requires continues { MayBeTakenIn self.old p.now }
        ensures at_once { IfOk result (λ done. (h : List Event) → AreReceived self.old h →
            done ≡ is_done_at_once h p.now.from p.now.what) }
        ensures took { OnOk result (TakesMessagePacket p.now self.old self.new) }
        ensures known { OnOk result ((known : Known) →
            known.count ≡ (stream_of self.old p.now.from).count →
            known.missing ≡ missing (stream_of self.old p.now.from) →
            PreservesSender self.new p.now.from
            (learned known p.now.what (length p.now.payload))) }
        ensures err { OnErr result (self.new ≡ self.old) }
    {
        packets_tell(&self.joiner, p);
        match p.what {
            What::Head { tag, ctx, len } => {
                self.begin(p, tag, ctx, len)?;
                Ok(false)
            }
            What::More { n } => {
                self.go_on(p, n)?;
                Ok(false)
            }
            What::Ask { tag, ctx, len } => self.announce(p, tag, ctx, len),
            _ => Ok(false),
        }
    }

    /// An eager message begins.
    fn begin(&mut self, p: &Packet, tag: u16, ctx: u8, len: u32) -> Result<(), Memory>
        requires head { p.now.what ≡ what.Head tag ctx len }
        requires continues { MayBeTakenIn self.old p.now }
        ensures took { OnOk result (TakesMessagePacket p.now self.old self.new) }
        ensures err { OnErr result (self.new ≡ self.old) }
    {
        prove!(self.joiner.missing(p.from) == 0);
        let n = self.receipts.count(p.from);
        let arrival = arrival(n, p.from, tag, ctx, len, How::Eager);
        self.receipts.reserve(p.from)?;
        self.joiner.reserve(p)?;
        let taker = self.matcher.arrive(arrival)?;
        self.joiner.add(p).unwrap();
        let whole = len as usize == p.payload.as_slice().len();
        self.receipts.push(p.from, Receipt { arrival, whole });
        give(&mut self.receives, taker, arrival);
        Ok(())
    }

    /// The eager message `n` goes on.
    fn go_on(&mut self, p: &Packet, n: u64) -> Result<(), Memory>
        requires more { p.now.what ≡ what.More n }
        requires continues { MayBeTakenIn self.old p.now }
        ensures took { OnOk result (TakesMessagePacket p.now self.old self.new) }
        ensures err { OnErr result (self.new ≡ self.old) }
    {
        let last = self.joiner.missing(p.from) as usize == p.payload.as_slice().len();
        self.joiner.add(p)?;
        self.receipts.make_whole_if(last, p.from, n);
        Ok(())
    }

    /// A message is announced. The answer is whether a receive takes it at once.
    fn announce(&mut self, p: &Packet, tag: u16, ctx: u8, len: u32) -> Result<bool, Memory>
        requires ask { p.now.what ≡ what.Ask tag ctx len }
        requires continues { MayBeTakenIn self.old p.now }
        ensures at_once { IfOk result (λ done. (h : List Event) → AreReceived self.old h →
            done ≡ is_done_at_once h p.now.from p.now.what) }
        ensures took { OnOk result (TakesMessagePacket p.now self.old self.new) }
        ensures err { OnErr result (self.new ≡ self.old) }
    {
        let n = self.receipts.count(p.from);
        let arrival = arrival(n, p.from, tag, ctx, len, How::Ask);
        self.receipts.reserve(p.from)?;
        self.grants.reserve_for(p.from)?;
        let taker = self.matcher.arrive(arrival)?;
        self.joiner.skip(p.from);
        self.receipts.push(
            p.from,
            Receipt {
                arrival,
                whole: false,
            },
        );
        give(&mut self.receives, taker, arrival);
        let taken = taker.is_some().then_some(arrival);
        grant_taken(&mut self.grants, &mut self.receipts, &taken);
        Ok(taker.is_some())
    }

    /// Whether a piece of a rank is due. One is exactly where a message of that rank is owed: one
    /// that was sent by asking, that a receive took, and that is not whole.
    pub fn is_due(&self, from: u8) -> bool
        requires { from < self.now.sizes.ranks }
        ensures value { (h : List Event) → AreReceived self.now h →
            result ≡ nat_lt (drawn_from self.now from) (length (due_pieces h from)) }
        ensures owed { (h : List Event) → AreReceived self.now h →
            (result ≡ true) ↔ ((n : ℕ) × IsOwed h from n) }
    {
        self.grants.is_due(from)
    }

    /// Whether a piece of any rank is due.
    pub fn is_any_due(&self) -> bool
        ensures { (h : List Event) → AreReceived self.now h →
            (result ≡ false) ↔ ((from : ℕ) → from < self.now.sizes.ranks →
            length (due_pieces h from) ≤ drawn_from self.now from) }
    {
        self.grants.is_any_due()
    }

    /// Takes a piece. One that is not the next one that is due changes nothing.
    pub fn draw(&mut self, p: &Piece) -> Result<Drawn, Memory>
        requires sender { p.now.from < self.old.sizes.ranks }
        requires few { drawn_from self.old p.now.from < MAX_PACKETS }
        ensures drew { IfOk result (λ d. DrawsPiece p.now d self.old self.new) }
        ensures err { OnErr result (self.new ≡ self.old) }
    {
        if !self.grants.fits(p) {
            return Ok(Drawn {
                continued: false,
                whole: false,
            });
        }
        let joined = self.grants.piece(p)?;
        let whole = pieces::is_whole(joined);
        self.receipts.make_whole_if(whole, p.from, p.n);
        self.drawn[p.from as usize] += 1;
        Ok(Drawn {
            continued: true,
            whole,
        })
    }

    /// Whether the receive is complete (MPI 3.1, section 3.7.3).
    pub fn is_complete(&self, number: u64) -> bool
        ensures { (h : List Event) → AreReceived self.now h →
            result ≡ is_complete_lem h (ReceivingRequest number) }
    {
        match self.receives.live(number) {
            Some(receive) => receive.cancelled || self.has_message(&receive),
            None => number < self.receives.count(),
        }
    }

    /// Whether the receive took a message that is here whole.
    fn has_message(&self, receive: &Receive) -> bool
        requires { IsLiveOf self.now receive.now }
        ensures { result
            ≡ option_map_or
            (λ a. option_map_or (λ r. r.whole) (receipt_of self.now a.env.from a.n) false)
            receive.now.taken false }
    {
        match receive.taken {
            Some(a) => is_here(&self.grants, &self.receipts, &a),
            None => false,
        }
    }

    /// What the receive ended with, if it is complete. The bytes that it shows are gone then.
    #[inline(always)]
    pub fn finish(&mut self, number: u64) -> Option<Answer>
        requires known { number < length self.old.receives }
        requires live { option_map_or (λ r. r.ended) (slice_get self.old.receives number) false
            ≡ false }
        ensures { FinishesReceive number result self.old self.new }
    {
        let receive = self.receives.live(number).unwrap();
        if receive.cancelled {
            self.receives.end(number);
            return Some(Answer::Cancelled);
        }
        let a = receive.taken?;
        if !is_here(&self.grants, &self.receipts, &a) {
            return None;
        }
        let bytes = take_bytes(&mut self.joiner, &mut self.grants, &a);
        self.receives.end(number);
        Some(shown(&a, receive.cap, bytes))
    }
}
