//! The sending side of a rank.

ghost use Rattle.std.specs.Prelude.{◌≡◌, ◌+◌, ◌-◌, ◌<◌, ◌≤◌, ◌↔◌, ◌&&◌, ◌||◌, ℕ, true, false, not, None};
ghost use Rattle.std.specs.Prelude.{List, [], if◌then◌else◌, length, min, slice_get, IfOk, IfSome};
ghost use Rattle.std.specs.Prelude.{IsSome, IsSomeAnd, IsNone, MatchOption, OnOk, OnErr, option_map};
ghost use Rattle.std.specs.List.{AllByRecursion};
ghost use Rattle.nm_types.specs.declared.limits.TheConstants.{MAX_BODY, MAX_EAGER, MAX_PACKETS};
ghost use Rattle.nm_types.specs.declared.limits.TheConstants.{MAX_STAMP};
ghost use Rattle.nm_types.specs.Bodies.{body_len};
ghost use Rattle.nm_history.specs.declared.events.Event.{Event};
ghost use Rattle.nm_history.specs.Completion.{is_complete as is_complete_lem, result_of};
ghost use Rattle.nm_history.specs.Completion.Request.{Sending as SendingRequest};
ghost use Rattle.nm_history.specs.Continues.{has};
ghost use Rattle.nm_history.specs.Delivery.{is_asked};
ghost use Rattle.nm_history.specs.Happens.{happened, is_recall, is_undone};
ghost use Rattle.nm_history.specs.Sends.{sends, is_ask};
ghost use Rattle.nm_history.specs.Rest.{EagerHaveLeft};
ghost use Rattle.nm_rndv.specs.Offers.{AllOut, next_offered, offered};
ghost use Rattle.nm_sending.specs.Letters.{packets_for};
ghost use Rattle.nm_sending.specs.Outboxes.{popped_to, put_to};
ghost use Rattle.nm_sending.specs.declared.TheConstants.{MAX_MESSAGES};
ghost use Rattle.nm_sending.specs.Calls.{AnswersRecall, ClearsMessage, HasRoomFor, PopsFirstPacket};
ghost use Rattle.nm_sending.specs.Calls.{PopsNextPiece, RecallsMessage, SameButRoom, SendsMessage};
ghost use Rattle.nm_sending.specs.Calls.{SentNothing, sent_as};
ghost use Rattle.nm_sending.specs.Departures.{cleared_to, departures_to, pushed_to};
ghost use Rattle.nm_sending.specs.Rows.{gone};
ghost use Rattle.nm_sending.specs.Sent.{AreSent, MayBeAnswered, MayBeCleared, MayBeRecalled};
ghost use Rattle.nm_sending.specs.Sent.{Puts, only_to};

use crate::MAX_MESSAGES;
use crate::outbox::Outbox;
use crate::putting::{Heading, put_bare, put_message};
use crate::tables::Table;
use nm_rndv::Offers;
use nm_types::{Answer, Body, How, MAX_PACKETS, Memory, Packet, Piece, What};
use std::alloc::Global;
use std::marker::Model;

/// The messages that a rank sent, to all ranks.
pub struct Sending {
    me: u8,
    ranks: u8,
    outbox: Outbox,
    offers: Offers,
    departures: Table,
    // by destination
    pushed: Vec<u64>,
    // how many messages have not left
    staying: u64,
}

impl Drop for Sending {
    fn drop(self) {
        let Sending {
            me: _,
            ranks: _,
            outbox: _,
            offers: _,
            departures: _,
            pushed: _,
            staying: _,
        } = self;
    }
}

impl Model for Sending {
    ghost use Rattle.nm_sending.specs.Departures.{SendingView};
    ghost use Rattle.nm_sending.specs.Tables.{TablesAgree};

    ghost Value = { SendingView };

    ghost view = { λ s.
        record {
          outbox = s.outbox;
          offers = s.offers;
          departures = s.departures.rows;
          pushed = s.pushed.items;
          staying = s.staying;
        } };

    ghost invariant = { λ s.
        TablesAgree s.me s.ranks
        (record {
          outbox = s.outbox;
          offers = s.offers;
          departures = s.departures.rows;
          pushed = s.pushed.items;
          staying = s.staying;
        }) };
}

impl Sending {
    /// Nothing was sent, at one of so many ranks.
    pub fn new(alloc: Global, ranks: u8, me: u8) -> Result<Sending, Memory>
        ensures { IfOk result (SentNothing ranks me) }
    {
        Sending::with_capacity(alloc, ranks, me, 0)
    }

    /// The same, with room for so many messages or packets without bytes, but at first for 64 at most.
    pub fn with_capacity(
        alloc: Global,
        ranks: u8,
        me: u8,
        messages: usize,
    ) -> Result<Sending, Memory>
        ensures nothing { IfOk result (SentNothing ranks me) }
        ensures room { IfOk result (λ s. min messages 64 ≤ s.outbox.spare) }
    {
        // the notes of a few messages stay near, where those of all go round
        let notes = messages.min(64);
        Ok(Sending {
            me,
            ranks,
            outbox: Outbox::with_capacity(alloc, ranks, me, notes)?,
            offers: Offers::new(alloc, ranks)?,
            departures: Table::new(alloc, ranks)?,
            pushed: vec![in alloc; 0; ranks as usize]?,
            staying: 0,
        })
    }

    /// How many messages were sent to a rank: the number of the next one.
    pub fn sent(&self, to: u8) -> u64
        requires { to < length self.now.outbox.popped }
        ensures { result ≡ length (departures_to self.now to) }
    {
        self.departures.count(to)
    }

    /// How many messages to a rank are in memory: those from the first on that may still leave. One that was sent by
    /// asking and was withdrawn never does.
    pub fn held(&self, to: u8) -> usize
        requires { to < length self.now.outbox.popped }
        ensures { gone (departures_to self.now to) + result ≡ length (departures_to self.now to) }
    {
        self.departures.held(to)
    }

    /// How many packets to a rank there are to send.
    pub fn waiting_for(&self, to: u8) -> u64
        requires { to < length self.now.outbox.popped }
        ensures many { result ≡ length (packets_for to self.now.outbox.letters) }
        ensures in_range { AllByRecursion (λ l. l.to < length self.now.outbox.popped)
            self.now.outbox.letters }
    {
        self.outbox.waiting_for(to)
    }

    /// How many packets to a rank were popped.
    pub fn popped(&self, to: u8) -> u64
        requires { to < length self.now.outbox.popped }
        ensures { result ≡ popped_to self.now.outbox to }
    {
        self.outbox.popped(to)
    }

    /// How many pieces to a rank were pushed.
    pub fn pushed(&self, to: u8) -> u64
        requires { to < length self.now.outbox.popped }
        ensures { result ≡ pushed_to self.now to }
    {
        self.pushed[to as usize]
    }

    /// How many messages have not left.
    pub fn staying(&self) -> u64
        ensures { result ≡ self.now.staying }
    {
        self.staying
    }

    /// Whether so many messages were sent to this rank, or so many packets put for it, that no more
    /// can be.
    fn is_full(&self, to: u8) -> bool
        requires { to < length self.now.outbox.popped }
        ensures { (result ≡ false) ↔ ((length (departures_to self.now to) < MAX_MESSAGES)
            × (put_to self.now.outbox to < MAX_PACKETS - 32)) }
    {
        self.departures.count(to) >= MAX_MESSAGES || self.outbox.next_number(to) >= MAX_PACKETS - 32
    }

    /// Whether so many messages were sent to a rank, or so many packets put for it, that no more
    /// can be.
    pub fn is_worn(&self) -> bool
        ensures { (result ≡ false) ↔ ((to : ℕ) → to < length self.now.outbox.popped →
            (length (departures_to self.now to) < MAX_MESSAGES)
            × (put_to self.now.outbox to < MAX_PACKETS - 32)) }
    {
        if self.departures.most() < MAX_MESSAGES && self.outbox.most() < MAX_PACKETS - 32 {
            return false;
        }
        for to in 0..self.ranks {
            if self.is_full(to) {
                return true;
            }
        }
        false
    }

    /// Sends the next message to a rank, with this stamp on its packets, and answers its number.
    pub fn send(
        &mut self,
        to: u8,
        tag: u16,
        ctx: u8,
        body: Body,
        how: How,
        stamp: u64,
    ) -> Result<u64, Memory>
        requires to { to < length self.old.outbox.popped }
        requires room { HasRoomFor self.old to }
        requires short { body_len body ≤ (if is_ask how then MAX_BODY else MAX_EAGER) }
        requires in_time { stamp ≤ MAX_STAMP }
        ensures sent { IfOk result (λ n. (line : ℕ) → SendsMessage
            (sent_as to tag ctx body how stamp n line) body self.old self.new) }
        ensures err { OnErr result (SameButRoom self.old self.new) }
    {
        let n = self.departures.count(to);
        let len = body.len();
        let heading = Heading {
            to,
            n,
            tag,
            ctx,
            how,
        };
        self.departures.reserve(to)?;
        put_message(&mut self.outbox, &mut self.offers, heading, body, stamp)?;
        self.departures.push(to, how, len);
        self.staying += 1;
        Ok(n)
    }

    /// Makes room for so many messages or packets without bytes more.
    pub fn reserve(&mut self, notes: usize) -> Result<(), Memory>
        ensures same { SameButRoom self.old self.new }
        ensures kept { self.old.outbox.spare ≤ self.new.outbox.spare }
        ensures ok { OnOk result (notes ≤ self.new.outbox.spare) }
    {
        self.outbox.reserve(notes)
    }

    /// Puts a packet without bytes: a clearance, or the answer to a recall. There is room for it.
    pub fn answer(&mut self, to: u8, stamp: u64, what: What)
        requires to { to < length self.old.outbox.popped }
        requires few { put_to self.old.outbox to < MAX_PACKETS }
        requires room { 0 < self.old.outbox.spare }
        requires in_time { stamp ≤ MAX_STAMP }
        ensures puts { (called : ℕ) → called ≤ stamp →
            Puts (only_to to called what) None stamp self.old.outbox self.new.outbox }
        ensures room { self.new.outbox.spare ≡ self.old.outbox.spare - 1 }
        ensures same { self.new ≡ record self.old { outbox = self.new.outbox } }
    {
        put_bare(&mut self.outbox, to, stamp, what);
    }

    /// Whether message `n` to a rank waits to be cleared: it was sent by asking, and was neither cleared nor
    /// withdrawn.
    pub fn is_waiting(&self, to: u8, n: u64) -> bool
        requires { to < length self.now.outbox.popped }
        ensures { (h : List Event) → AreSent self.now h →
            result ≡ (is_asked (sends h to) n && not (has (cleared_to self.now to) n)
            && not (happened (is_undone to n true) h)) }
    {
        self.offers.is_asked(to, n)
    }

    /// Whether message `n` to a rank was recalled.
    pub fn was_recalled(&self, to: u8, n: u64) -> bool
        requires { to < length self.now.outbox.popped }
        ensures { (h : List Event) → AreSent self.now h → result ≡ happened (is_recall to n) h }
    {
        self.departures
            .get(to, n)
            .is_some_and(|departure| departure.recalled)
    }

    /// Whether message `n` to a rank was recalled, and the answer to that has not come back.
    pub fn awaits_answer(&self, to: u8, n: u64) -> bool
        requires { to < length self.now.outbox.popped }
        ensures { (h : List Event) → AreSent self.now h →
            result ≡ (happened (is_recall to n) h && not (happened (is_undone to n true) h
            || happened (is_undone to n false) h)) }
    {
        self.offers.is_recalled(to, n)
    }

    /// Whether the send is complete (MPI 3.1, section 3.7.3).
    pub fn is_complete(&self, to: u8, n: u64) -> bool
        requires { to < length self.now.outbox.popped }
        ensures { (h : List Event) → AreSent self.now h →
            result ≡ is_complete_lem h (SendingRequest to n) }
    {
        match self.departures.get(to, n) {
            Some(departure) => departure.is_complete(),
            None => false,
        }
    }

    /// What the send ended with, if it is complete.
    pub fn ending(&self, to: u8, n: u64) -> Option<Answer>
        requires { to < length self.now.outbox.popped }
        ensures { (h : List Event) → AreSent self.now h →
            result ≡ result_of h (SendingRequest to n) }
    {
        self.departures.get(to, n)?.ending()
    }

    /// Asks the receiver to withdraw a message (MPI 3.1, section 3.8.4), by a packet with this
    /// stamp. It may be asked once.
    pub fn recall(&mut self, to: u8, n: u64, stamp: u64) -> Result<(), Memory>
        requires to { to < length self.old.outbox.popped }
        requires may { MayBeRecalled self.old to n }
        requires few { put_to self.old.outbox to < MAX_PACKETS }
        requires in_time { stamp ≤ MAX_STAMP }
        ensures recalled { OnOk result (RecallsMessage to n stamp self.old self.new) }
        ensures err { OnErr result (SameButRoom self.old self.new) }
    {
        self.departures.reserve_recall(to)?;
        self.outbox.reserve(1)?;
        self.offers.withdraw(to, n)?;
        put_bare(&mut self.outbox, to, stamp, What::Withdraw { n });
        self.departures.recall(to, n);
        Ok(())
    }

    /// A receiver cleared a message. The answer is whether it has left by that, as it has where it
    /// is empty.
    pub fn clear(&mut self, to: u8, n: u64) -> bool
        requires to { to < length self.old.outbox.popped }
        requires may { MayBeCleared self.old to n }
        ensures { ClearsMessage to n result self.old self.new }
    {
        let is_out = self.offers.cleared(to, n);
        if is_out {
            self.departures.leave(to, n);
            self.staying -= 1;
        }
        is_out
    }

    /// A receiver answered a recall: the message was withdrawn, or it was too late.
    pub fn undo(&mut self, to: u8, n: u64, done: bool)
        requires to { to < length self.old.outbox.popped }
        requires may { MayBeAnswered self.old to n done }
        ensures { AnswersRecall to n done self.old self.new }
    {
        self.offers.withdrawn(to, n, done);
        self.departures.answer(to, n, done);
    }

    /// The rank that the first packet goes to, without the packet, if there is one. Where there is none,
    /// each eager message has left.
    pub fn front_to(&self) -> Option<u8>
        ensures first { MatchOption (slice_get self.now.outbox.letters 0) (result ≡ None)
            (λ letter. IsSomeAnd result (λ to. to ≡ letter.to)) }
        ensures to { IfSome result (λ to. to < length self.now.outbox.popped) }
        ensures left { IsNone result → (h : List Event) → AreSent self.now h → EagerHaveLeft h }
    {
        self.outbox.front_to()
    }

    /// Makes it the first packet to be sent, if there is one, and answers the rank that this goes to.
    /// Where there is none, each eager message has left.
    pub fn fill_front(&self, into: &mut Packet) -> Option<u8>
        ensures first { MatchOption (slice_get self.now.outbox.letters 0) (result ≡ None)
            (λ letter. IsSomeAnd result (λ to. (to ≡ letter.to) × (into.new ≡ letter.packet))) }
        ensures to { IfSome result (λ to. to < length self.now.outbox.popped) }
        ensures from { IfSome result (λ to. into.new.from ≡ self.now.outbox.me) }
        ensures number { IfSome result (λ to. into.new.seq ≡ popped_to self.now.outbox to) }
        ensures left { IsNone result → (h : List Event) → AreSent self.now h → EagerHaveLeft h }
        ensures same { IsNone result → into.new ≡ into.old }
    {
        self.outbox.fill_front(into)
    }

    /// Takes the first packet away. Where it was the last one of an eager message, that one has
    /// left.
    pub fn pop_front(&mut self) -> Option<(u8, u64)>
        requires { 0 < length self.old.outbox.letters }
        ensures { PopsFirstPacket result self.old self.new }
    {
        let (to, n) = self.outbox.pop_front()?;
        self.departures.leave(to, n);
        self.staying -= 1;
        Some((to, n))
    }

    /// The destination of the next piece to be pushed, without the piece, if there is one.
    pub fn piece_to(&self) -> Option<u8>
        ensures to { result ≡ option_map (λ o. o.to) (next_offered self.now.offers) }
        ensures in_range { IfSome result (λ to. to < length self.now.outbox.popped) }
        ensures none { IsNone result ↔ AllOut self.now.offers }
    {
        self.offers.piece_to()
    }

    /// Makes it the next piece to be pushed, if there is one, and says where that goes.
    pub fn next_piece(&self, into: &mut Piece) -> Option<u8>
        ensures next { option_map (λ to. offered (to, into.new)) result
            ≡ next_offered self.now.offers }
        ensures to { IfSome result (λ to. to < length self.now.outbox.popped) }
        ensures from { IfSome result (λ to. into.new.from ≡ self.now.outbox.me) }
        ensures number { IfSome result (λ to. into.new.number ≡ pushed_to self.now to) }
        ensures none { IsNone result ↔ AllOut self.now.offers }
        ensures same { IsNone result → into.new ≡ into.old }
    {
        let to = self.offers.next_piece(into)?;
        into.from = self.me;
        into.number = self.pushed[to as usize];
        Some(to)
    }

    /// Counts the next piece as pushed. Where it was its message's last one, that one has left.
    pub fn pop_piece(&mut self) -> Option<(u8, u64)>
        requires { IsSome (next_offered self.old.offers) }
        ensures { PopsNextPiece result self.old self.new }
    {
        let (to, _) = self.offers.front().unwrap();
        self.pushed[to as usize] += 1;
        let (to, n) = self.offers.pop_piece()?;
        self.departures.leave(to, n);
        self.staying -= 1;
        Some((to, n))
    }
}
