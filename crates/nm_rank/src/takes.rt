//! Packets and pieces that come.

ghost use Rattle.std.specs.Prelude.{◌≡◌, ◌+◌, ◌<◌, ◌≤◌, ℕ, true, None, List, ◌++◌, length, max};
ghost use Rattle.std.specs.Prelude.{option_map, option_to_list};
ghost use Rattle.std.specs.Prelude.{IfOk, OnErr, OnOk};
ghost use Rattle.nm_types.specs.declared.limits.TheConstants.{MAX_PACKETS, MAX_STAMP};
ghost use Rattle.nm_history.specs.declared.events.Event.{Event};
ghost use Rattle.nm_history.specs.declared.events.Happened.TheVariants as event;
ghost use Rattle.nm_history.specs.Sends.{Sent};
ghost use Rattle.nm_history.specs.Clock.{stamped};
ghost use Rattle.nm_history.specs.Effects.{packet_events, whole_if};
ghost use Rattle.nm_history.specs.Agreement.{Agrees};
ghost use Rattle.nm_history.specs.Known.{Known};
ghost use Rattle.nm_sending.specs.Outboxes.{put_to};
ghost use Rattle.nm_receiving.specs.StreamViews.{is_awaited as is_awaited_lem, is_done_at_once};
ghost use Rattle.nm_sending.specs.Departures.{cleared_to};
ghost use Rattle.nm_sending.specs.Sent.{AreSent, Puts};
ghost use Rattle.nm_receiving.specs.Made.{all_made};
ghost use Rattle.nm_receiving.specs.Receipts.{stream_of};
ghost use Rattle.nm_receiving.specs.Received.{AreReceived};
ghost use Rattle.nm_rank.specs.Calls.{TakesPacket, TakesPiece, strays_after as strays_after_lem, taken_of};
ghost use Rattle.nm_rank.specs.Ranks.{IsFresh, count_of};
ghost use Rattle.nm_rank.specs.Takes.{MayBeAccepted, Accepts, reply_of};

use crate::Rank;
use crate::journal::{Journal, Recorder};
use crate::room::make_room;
use crate::stays::sides_stay;
use nm_history::Happened;
use nm_receiving::Receiving;
use nm_receiving::streams::{Made, Stream};
use nm_sending::Sending;
use nm_types::{Arrival, Memory, Packet, Piece, What};

/// Records that a message arrived, if one did.
fn note_arrival<H: Recorder>(journal: &mut Journal<H>, arrival: Option<Arrival>)
    requires room { 0 < journal.old.spare }
    requires in_time { journal.old.clock < MAX_STAMP }
    ensures events { journal.new.events ≡ journal.old.events
        ++ stamped journal.old.clock (option_to_list (option_map event.Arrive arrival)) }
    ensures clock { journal.new.clock
        ≡ journal.old.clock + length (option_to_list (option_map event.Arrive arrival)) }
    ensures room { journal.old.spare
        ≤ journal.new.spare + length (option_to_list (option_map event.Arrive arrival)) }
{
    if let Some(a) = arrival {
        journal.add(Happened::Arrive { a });
    }
}

/// Records that message `n` of a rank is here whole, if it is.
fn note_whole<H: Recorder>(journal: &mut Journal<H>, whole: bool, from: u8, n: u64)
    requires room { 0 < journal.old.spare }
    requires in_time { journal.old.clock < MAX_STAMP }
    ensures events { journal.new.events
        ≡ journal.old.events ++ stamped journal.old.clock (whole_if whole from n) }
    ensures clock { journal.new.clock ≡ journal.old.clock + length (whole_if whole from n) }
    ensures room { journal.old.spare ≤ journal.new.spare + length (whole_if whole from n) }
{
    if whole {
        journal.add(Happened::Whole { from, n });
    }
}

/// Records what a packet of a message made happen.
fn note_message<H: Recorder>(journal: &mut Journal<H>, from: u8, made: Made)
    requires room { 2 ≤ journal.old.spare }
    requires in_time { journal.old.clock + 2 ≤ MAX_STAMP }
    ensures events { journal.new.events
        ≡ journal.old.events ++ stamped journal.old.clock (all_made from made) }
    ensures clock { journal.new.clock ≡ journal.old.clock + length (all_made from made) }
    ensures room { journal.old.spare ≤ journal.new.spare + 2 }
{
    note_arrival(journal, made.arrival);
    note_whole(journal, made.whole, from, made.n);
}

/// Records what a packet makes happen that continues its stream, before it is learned, at a rank where
/// what it asks for is done at once or is not.
fn note_events<H: Recorder>(
    journal: &mut Journal<H>,
    stream: &Stream,
    p: &Packet,
    done_at_once: bool,
)
    requires room { 2 ≤ journal.old.spare }
    requires in_time { journal.old.clock + 2 ≤ MAX_STAMP }
    ensures events { (h : List Event) → done_at_once ≡ is_done_at_once h p.now.from p.now.what
        → journal.new.events ≡ journal.old.events ++ stamped journal.old.clock
        (packet_events stream.now.known h p.now.from p.now.what (length p.now.payload)) }
    ensures clock { (h : List Event) → done_at_once ≡ is_done_at_once h p.now.from p.now.what
        → journal.new.clock ≡ journal.old.clock + length
        (packet_events stream.now.known h p.now.from p.now.what (length p.now.payload)) }
    ensures room { journal.old.spare ≤ journal.new.spare + 2 }
{
    let from = p.from;
    match p.what {
        What::Head { .. } | What::More { .. } | What::Ask { .. } => {
            note_message(journal, from, stream.events(p, done_at_once));
        }
        What::Clear { n } if done_at_once => journal.add(Happened::Out { to: from, n }),
        What::Clear { .. } => {}
        What::Withdraw { n } => journal.add(Happened::Withdraw {
            from,
            n,
            done: done_at_once,
        }),
        What::Withdrawn { n, done } => journal.add(Happened::Undone { to: from, n, done }),
    }
}

/// Sets the clock forward to a packet's stamp, and records what the packet makes happen.
fn note_packet<H: Recorder>(
    journal: &mut Journal<H>,
    stream: &Stream,
    p: &Packet,
    done_at_once: bool,
)
    requires room { 2 ≤ journal.old.spare }
    requires in_time { journal.old.clock + 2 ≤ MAX_STAMP }
    requires early { p.now.stamp + 2 ≤ MAX_STAMP }
    ensures events { (h : List Event) → done_at_once ≡ is_done_at_once h p.now.from p.now.what
        → journal.new.events ≡ journal.old.events ++ stamped (max journal.old.clock p.now.stamp)
        (packet_events stream.now.known h p.now.from p.now.what (length p.now.payload)) }
    ensures clock { (h : List Event) → done_at_once ≡ is_done_at_once h p.now.from p.now.what
        → journal.new.clock ≡ max journal.old.clock p.now.stamp + length
        (packet_events stream.now.known h p.now.from p.now.what (length p.now.payload)) }
    ensures room { journal.old.spare ≤ journal.new.spare + 2 }
{
    journal.raise(p.stamp);
    note_events(journal, stream, p, done_at_once);
}

/// Whether this rank awaits a packet: it clears a message that waits for that, or answers a recall that has no
/// answer.
fn is_awaited(sending: &Sending, p: &Packet) -> bool
    requires { p.now.from < length sending.now.outbox.popped }
    ensures { (h : List Event) (known : Known) → AreSent sending.now h → Agrees p.now.from h known
        → known.cleared ≡ cleared_to sending.now p.now.from
        → result ≡ is_awaited_lem known h p.now.from p.now.what }
{
    match p.what {
        What::Clear { n } => sending.is_waiting(p.from, n),
        What::Withdrawn { n, .. } => sending.awaits_answer(p.from, n),
        What::Head { .. } | What::More { .. } | What::Ask { .. } | What::Withdraw { .. } => false,
    }
}

/// What a packet that continues its stream does to the messages sent and received. The answer is
/// whether what it asks for is done at once.
fn accept(sending: &mut Sending, receiving: &mut Receiving, p: &Packet) -> Result<bool, Memory>
    requires may { MayBeAccepted sending.old receiving.old p.now }
    ensures at_once { IfOk result (λ done. (h : List Event) → AreSent sending.old h →
        AreReceived receiving.old h → done ≡ is_done_at_once h p.now.from p.now.what) }
    ensures accepts { OnOk result (Accepts p.now sending.old sending.new receiving.old receiving.new) }
    ensures same { OnErr result (sending.new ≡ sending.old) }
    ensures err { OnErr result (receiving.new ≡ receiving.old) }
{
    sides_stay();
    match p.what {
        What::Head { .. } | What::More { .. } | What::Ask { .. } => receiving.take(p),
        What::Clear { n } => Ok(sending.clear(p.from, n)),
        What::Withdraw { n } => Ok(receiving.withdraw(p.from, n)),
        What::Withdrawn { n, done } => {
            sending.undo(p.from, n, done);
            Ok(false)
        }
    }
}

/// Puts the answer to a packet: the clearance of an announced message that a receive takes at once,
/// or the answer to a withdrawal. `n` is the number of the announced message.
fn reply(sending: &mut Sending, p: &Packet, n: u64, done_at_once: bool, stamp: u64)
    requires sender { p.now.from < length sending.old.outbox.popped }
    requires few { put_to sending.old.outbox p.now.from < MAX_PACKETS }
    requires room { 0 < sending.old.outbox.spare }
    requires in_time { stamp ≤ MAX_STAMP }
    ensures puts { (called : ℕ) → called ≤ stamp →
        Puts (reply_of n p.now.from p.now.what done_at_once called) None stamp
        sending.old.outbox sending.new.outbox }
    ensures same { sending.new ≡ record sending.old { outbox = sending.new.outbox } }
{
    match p.what {
        What::Ask { .. } if done_at_once => sending.answer(p.from, stamp, What::Clear { n }),
        What::Withdraw { n } => {
            let done = done_at_once;
            sending.answer(p.from, stamp, What::Withdrawn { n, done });
        }
        What::Head { .. }
        | What::More { .. }
        | What::Ask { .. }
        | What::Clear { .. }
        | What::Withdrawn { .. } => {}
    }
}

impl<H: Recorder> Rank<H> {
    /// Takes the next packet of a rank, or leaves everything as it was. The clock is set forward to
    /// its stamp first. One that does not continue its stream is counted as a stray: beside the clock
    /// and the counts nothing changes.
    pub fn take_packet(&mut self, p: &Packet) -> Result<(), Memory>
        requires sender { p.now.from < self.old.sizes.ranks }
        requires number { p.now.seq ≡ count_of self.old.took p.now.from }
        requires fresh { IsFresh self.old }
        ensures taken { OnOk result (TakesPacket p.now self.old self.new) }
        ensures err { OnErr result (self.new ≡ self.old) }
    {
        let awaited = is_awaited(&self.sending, p);
        let eager = self.shape.eager();
        if self.streams[p.from as usize].continues(eager, p, awaited) {
            self.take_next(p)?;
        } else {
            self.journal.raise(p.stamp);
            self.strays = strays_after(false, self.strays);
            self.took[p.from as usize] = p.seq + 1;
        }
        Ok(())
    }

    /// Takes a packet that continues its stream, or leaves everything as it was.
    fn take_next(&mut self, p: &Packet) -> Result<(), Memory>
        requires sender { p.now.from < self.old.sizes.ranks }
        requires number { p.now.seq ≡ count_of self.old.took p.now.from }
        requires fresh { IsFresh self.old }
        requires continues { (taken_of self.old p.now).continued ≡ true }
        ensures taken { OnOk result (TakesPacket p.now self.old self.new) }
        ensures err { OnErr result (self.new ≡ self.old) }
    {
        make_room(&mut self.journal, &mut self.sending, &mut self.requests)?;
        let stream = &mut self.streams[p.from as usize];
        let n = stream.count();
        stream.reserve(p.what)?;
        let done_at_once = accept(&mut self.sending, &mut self.receiving, p)?;
        note_packet(&mut self.journal, stream, p, done_at_once);
        stream.learn(p);
        reply(&mut self.sending, p, n, done_at_once, self.journal.clock());
        self.took[p.from as usize] = p.seq + 1;
        Ok(())
    }

    /// Takes the next piece of a rank, or leaves everything as it was. One that is not the next one
    /// due is counted as a stray: beside the counts nothing changes.
    pub fn take_piece(&mut self, p: &Piece) -> Result<(), Memory>
        requires sender { p.now.from < self.old.sizes.ranks }
        requires number { p.now.number ≡ count_of self.old.pulled p.now.from }
        requires fresh { IsFresh self.old }
        ensures taken { OnOk result (TakesPiece p.now self.old self.new) }
        ensures err { OnErr result (self.new ≡ self.old) }
    {
        sides_stay();
        make_room(&mut self.journal, &mut self.sending, &mut self.requests)?;
        let drawn = self.receiving.draw(p)?;
        note_whole(&mut self.journal, drawn.whole, p.from, p.n);
        self.strays = strays_after(drawn.continued, self.strays);
        self.pulled[p.from as usize] = p.number + 1;
        Ok(())
    }
}

/// The count of strays after what continued or did not.
fn strays_after(continued: bool, strays: u64) -> u64
    ensures { result ≡ strays_after_lem continued strays }
{
    if continued {
        strays
    } else {
        strays.saturating_add(1)
    }
}
