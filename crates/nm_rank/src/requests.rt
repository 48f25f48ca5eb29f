//! What became of requests, probes, cancels, and the answers of commands.

ghost use Rattle.std.specs.Prelude.{◌≡◌, ◌++◌, ◌+◌, ◌<◌, ◌≤◌, ◌↔◌, ℕ, false, Some, None, Ok, Err, List, []};
ghost use Rattle.std.specs.Prelude.{if◌then◌else◌, length, option_map, IfOk, IfSome};
ghost use Rattle.std.specs.Prelude.{OnErr, OnOk};
ghost use Rattle.nm_history.specs.declared.events.Happened.{Happened};
ghost use Rattle.nm_history.specs.Completion.{is_complete};
ghost use Rattle.nm_history.specs.Matching.{first_message, matched_pairs};
ghost use Rattle.nm_history.specs.declared.events.Event.{Event};
ghost use Rattle.nm_history.specs.Clock.{stamped};
ghost use Rattle.nm_history.specs.Effects.{happenings};
ghost use Rattle.nm_history.specs.Rules.{AreRight};
ghost use Rattle.nm_request.specs.declared.Kind.TheVariants as kind;
ghost use Rattle.nm_request.specs.Requests.{kind_of};
ghost use Rattle.nm_types.specs.declared.limits.TheConstants.{MAX_PACKETS, MAX_STAMP};
ghost use Rattle.nm_sending.specs.Calls.{SameButRoom};
ghost use Rattle.nm_sending.specs.Outboxes.{put_to};
ghost use Rattle.nm_sending.specs.Sent.{AreSent, Puts};
ghost use Rattle.nm_receiving.specs.Received.{AreReceived};
ghost use Rattle.nm_rank.specs.declared.answers.CancelFault.TheVariants as cancel_fault;
ghost use Rattle.nm_rank.specs.declared.answers.FinishFault.TheVariants as finish_fault;
ghost use Rattle.nm_rank.specs.declared.answers.State.TheVariants as state;
ghost use Rattle.nm_rank.specs.Fields.{endings};
ghost use Rattle.nm_rank.specs.Ranks.{IsFresh, request_of};
ghost use Rattle.nm_rank.specs.Requests.{cancel_events, cancel_answer, offers_cancelled};
ghost use Rattle.nm_rank.specs.Requests.{Finishes, WasSent, withdrawal_of};
ghost use Rattle.nm_rank.specs.Steps.{Cancels, Records};

use crate::journal::{Journal, Recorder};
use crate::room::make_room;
use crate::stays::sides_stay;
use crate::{CancelFault, Cancelled, FinishFault, Rank, State};
use nm_history::Happened;
use nm_receiving::Receiving;
use nm_request::{Kind, NoSuch, Req};
use nm_sending::Sending;
use nm_types::{Answer, Memory, Peer, Seen, TagPick};

/// Cancels a receive, where it is unpaired.
fn cancel_receive<H: Recorder>(
    journal: &mut Journal<H>,
    receiving: &mut Receiving,
    number: u64,
) -> Cancelled
    requires known { number < length receiving.old.receives }
    requires room { 0 < journal.old.spare }
    requires in_time { journal.old.clock < MAX_STAMP }
    ensures answer { (h : List Event) → AreReceived receiving.old h →
        result ≡ cancel_answer h (kind.Receive number) }
    ensures events { (h : List Event) → AreReceived receiving.old h → journal.new.events
        ≡ journal.old.events
        ++ stamped journal.old.clock (cancel_events h (kind.Receive number)) }
    ensures clock { journal.new.clock ≡ journal.old.clock + 1 }
    ensures room { journal.old.spare ≤ journal.new.spare + 1 }
    ensures kept { (h events : List Event) → AreReceived receiving.old h →
        AreRight receiving.old.sizes.ranks [] h →
        happenings events ≡ cancel_events h (kind.Receive number) →
        AreReceived receiving.new (h ++ events) × AreRight receiving.old.sizes.ranks h events }
    ensures same { (receiving.new
        ≡ record receiving.old { deeds = receiving.new.deeds; receives = receiving.new.receives })
        × (endings receiving.new ≡ endings receiving.old) }
{
    let done = receiving.cancel(number);
    journal.add(Happened::Cancel { number, done });
    if done {
        Cancelled::Done
    } else {
        Cancelled::Late
    }
}

/// Asks the receiver of a send to withdraw it, the first time.
fn recall<H: Recorder>(
    journal: &mut Journal<H>,
    sending: &mut Sending,
    to: u8,
    n: u64,
) -> Result<(), Memory>
    requires to { to < length sending.old.outbox.popped }
    requires few { put_to sending.old.outbox to < MAX_PACKETS }
    requires room { 0 < journal.old.spare }
    requires in_time { journal.old.clock < MAX_STAMP }
    requires sent { WasSent sending.old to n }
    ensures events { OnOk result ((h : List Event) → AreSent sending.old h → journal.new.events
        ≡ journal.old.events ++ stamped journal.old.clock (cancel_events h (kind.Send to n))) }
    ensures clock { OnOk result ((h : List Event) → AreSent sending.old h → journal.new.clock
        ≡ journal.old.clock + length (cancel_events h (kind.Send to n))) }
    ensures room { journal.old.spare ≤ journal.new.spare + 1 }
    ensures kept { OnOk result ((h events : List Event) →
        happenings events ≡ cancel_events h (kind.Send to n) → AreSent sending.old h →
        AreSent sending.new (h ++ events) × ((ranks : ℕ) → AreRight ranks h events)) }
    ensures puts { OnOk result ((h : List Event) (called : ℕ) → AreSent sending.old h →
        called ≤ journal.new.clock → Puts (withdrawal_of h called to n) None journal.new.clock
        sending.old.outbox sending.new.outbox) }
    ensures staying { OnOk result (sending.new.staying ≡ sending.old.staying) }
    ensures offers { OnOk result ((h : List Event) → AreSent sending.old h → sending.new.offers
        ≡ offers_cancelled h (kind.Send to n) sending.old.offers) }
    ensures pushed { OnOk result (sending.new.pushed ≡ sending.old.pushed) }
    ensures same { OnErr result (journal.new ≡ journal.old) }
    ensures err { OnErr result (SameButRoom sending.old sending.new) }
{
    if sending.was_recalled(to, n) {
        return Ok(());
    }
    let stamp = journal.clock() + 1;
    sending.recall(to, n, stamp)?;
    journal.add(Happened::Recall { to, n });
    Ok(())
}

impl<H: Recorder> Rank<H> {
    /// Whether a request is complete (MPI 3.1, section 3.7.3).
    pub fn test(&self, r: Req) -> Result<State, NoSuch>
        ensures no_such { (kind_of self.now.requests r ≡ None) ↔ (result ≡ Err (record {})) }
        ensures state { IfSome (kind_of self.now.requests r) (λ k. result
            ≡ Ok (if is_complete self.now.events (request_of k) then state.Ready else state.Pending)) }
    {
        let is_complete = match self.requests.get(r)? {
            Kind::Send { to, n } => self.sending.is_complete(to, n),
            Kind::Receive { number } => self.receiving.is_complete(number),
        };
        Ok(if is_complete {
            State::Ready
        } else {
            State::Pending
        })
    }

    /// The result of a complete request, which is live no more then.
    #[inline(always)]
    pub fn finish(&mut self, r: Req) -> Result<Answer, FinishFault>
        ensures no_such { (kind_of self.old.requests r ≡ None)
            ↔ (result ≡ Err finish_fault.NoSuch) }
        ensures not_complete { IfSome (kind_of self.old.requests r)
            (λ k. (is_complete self.old.events (request_of k) ≡ false)
            ↔ (result ≡ Err finish_fault.NotComplete)) }
        ensures finishes { IfOk result (λ answer. Finishes r answer self.old self.new) }
        ensures err { OnErr result (self.new ≡ self.old) }
    {
        let Ok(kind) = self.requests.get(r) else {
            return Err(FinishFault::NoSuch);
        };
        match kind {
            Kind::Send { to, n } => {
                let Some(answer) = self.sending.ending(to, n) else {
                    return Err(FinishFault::NotComplete);
                };
                let _ = self.requests.free(r);
                Ok(answer)
            }
            Kind::Receive { number } => {
                let Some(answer) = self.receiving.finish(number) else {
                    return Err(FinishFault::NotComplete);
                };
                let _ = self.requests.free(r);
                Ok(answer)
            }
        }
    }

    /// Prepares for probes of this source and this tag, so that where many messages wait a wildcard
    /// looks one up.
    pub fn prepare(&mut self, from: Peer, tag: TagPick)
        ensures { self.new ≡ self.old }
    {
        self.receiving.prepare(from, tag);
    }

    /// The oldest free message that a receive with this source, tag and context would take (section
    /// 3.8.1).
    pub fn probe(&self, from: Peer, tag: TagPick, ctx: u8) -> Option<Seen>
        ensures { let h = self.now.events in result
            ≡ option_map (λ a. record { from = a.env.from; tag = a.env.tag; len = a.env.len })
            (first_message h (matched_pairs h) from tag ctx) }
    {
        let a = self.receiving.probe(from, tag, ctx)?;
        Some(Seen {
            from: a.env.from,
            tag: a.env.tag,
            len: a.env.len,
        })
    }

    /// Cancels a request (section 3.8.4). A receive is cancelled where it is unpaired. The receiver
    /// of a send is asked to withdraw it, the first time.
    pub fn cancel(&mut self, r: Req) -> Result<Cancelled, CancelFault>
        requires fresh { IsFresh self.old }
        ensures no_such { (kind_of self.old.requests r ≡ None)
            ↔ (result ≡ Err cancel_fault.NoSuch) }
        ensures cancels { IfOk result (λ answer. Cancels r answer self.old self.new) }
        ensures err { OnErr result (self.new ≡ self.old) }
    {
        let Ok(kind) = self.requests.get(r) else {
            return Err(CancelFault::NoSuch);
        };
        sides_stay();
        make_room(&mut self.journal, &mut self.sending, &mut self.requests)?;
        match kind {
            Kind::Receive { number } => {
                Ok(cancel_receive(&mut self.journal, &mut self.receiving, number))
            }
            Kind::Send { to, n } => {
                recall(&mut self.journal, &mut self.sending, to, n)?;
                Ok(Cancelled::Asked)
            }
        }
    }

    /// Records the answer of a line's command. The rank may have become worn by that command.
    #[inline(always)]
    pub fn ran(&mut self, line: u64, answer: Answer) -> Result<(), Memory>
        requires in_time { self.old.clock < MAX_STAMP }
        ensures records { OnOk result (Records line answer self.old self.new) }
        ensures err { OnErr result (self.new ≡ self.old) }
    {
        sides_stay();
        self.journal.reserve(self.sending.staying() as usize + 2)?;
        self.journal.add(Happened::Ran { line, answer });
        Ok(())
    }
}
