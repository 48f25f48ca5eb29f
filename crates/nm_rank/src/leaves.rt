//! Packets and pieces that leave.

ghost use Rattle.std.specs.Prelude.{◌≡◌, ◌<◌, ◌≤◌, ◌↔◌, ℕ, true, false, None, Some, length, slice_get};
ghost use Rattle.std.specs.Prelude.{nat_lt, option_map, IfSome, IfNone, IsNone, IsSome, IsSomeAnd, MatchOption};
ghost use Rattle.nm_history.specs.Clearance.{pushed_out, to_push};
ghost use Rattle.nm_history.specs.Pieces.{due_pieces};
ghost use Rattle.nm_history.specs.Rest.{EagerHaveLeft};
ghost use Rattle.std.specs.List.{AllByRecursion};
ghost use Rattle.nm_sending.specs.Letters.{packets_for};
ghost use Rattle.nm_sending.specs.Outboxes.{popped_to};
ghost use Rattle.nm_rndv.specs.Offers.{AllOut, next_offered, offered};
ghost use Rattle.nm_sending.specs.Departures.{pushed_to};
ghost use Rattle.nm_receiving.specs.Receipts.{drawn_from};
ghost use Rattle.nm_rank.specs.Pops.{PopsPacket, PopsPiece};
ghost use Rattle.nm_rank.specs.Ranks.{IsFresh, known_from};

use crate::Rank;
use crate::journal::Recorder;
use crate::stays::sides_stay;
use nm_history::Happened;
use nm_types::{Packet, Piece};

impl<H: Recorder> Rank<H> {
    /// How many packets to a rank there are to send.
    pub fn waiting_for(&self, to: u8) -> u64
        requires to { to < self.now.sizes.ranks }
        ensures many { result ≡ length (packets_for to self.now.sending.outbox.letters) }
        ensures in_range { AllByRecursion (λ l. l.to < self.now.sizes.ranks)
            self.now.sending.outbox.letters }
    {
        self.sending.waiting_for(to)
    }

    /// The rank that the first packet goes to, without the packet, if there is one. Where there is none,
    /// each eager message has left.
    pub fn front_to(&self) -> Option<u8>
        ensures first { MatchOption (slice_get self.now.sending.outbox.letters 0) (result ≡ None)
            (λ letter. IsSomeAnd result (λ to. to ≡ letter.to)) }
        ensures in_range { IfSome result (λ to. to < self.now.sizes.ranks) }
        ensures left { IfNone result (EagerHaveLeft self.now.events) }
    {
        let to = self.sending.front_to()?;
        Some(to)
    }

    /// Makes it the first packet to be sent, if there is one, and answers the rank that this goes to.
    /// Where there is none, each eager message has left.
    pub fn fill_front(&self, into: &mut Packet) -> Option<u8>
        ensures first { MatchOption (slice_get self.now.sending.outbox.letters 0) (result ≡ None)
            (λ letter. IsSomeAnd result (λ to. (to ≡ letter.to) × (into.new ≡ letter.packet))) }
        ensures own { IfSome result (λ to. (to < self.now.sizes.ranks)
            × (into.new.from ≡ self.now.me)
            × (into.new.seq ≡ popped_to self.now.sending.outbox to)) }
        ensures left { IfNone result (EagerHaveLeft self.now.events) }
        ensures same { IfNone result (into.new ≡ into.old) }
    {
        let to = self.sending.fill_front(into)?;
        Some(to)
    }

    /// Takes the first packet away. Where it was the last one of an eager message, that one has
    /// left.
    pub fn pop_front(&mut self)
        requires first { 0 < length self.old.sending.outbox.letters }
        requires fresh { IsFresh self.old }
        ensures { PopsPacket self.old self.new }
    {
        sides_stay();
        if let Some((to, n)) = self.sending.pop_front() {
            self.journal.add(Happened::Out { to, n });
        }
    }

    /// The rank that the next piece goes to, without the piece, if there is one: that of
    /// `front_piece`.
    pub fn piece_to(&self) -> Option<u8>
        ensures to { result ≡ option_map (λ o. o.to) (next_offered self.now.sending.offers) }
        ensures in_range { IfSome result (λ to. to < self.now.sizes.ranks) }
    {
        self.sending.piece_to()
    }

    /// Whether there is a piece to be pushed: a message was cleared and has not left.
    pub fn has_piece(&self) -> bool
        ensures some { result ≡ true → IsSome (next_offered self.now.sending.offers) }
        ensures none { result ≡ false → next_offered self.now.sending.offers ≡ None }
        ensures out { (result ≡ false) ↔ AllOut self.now.sending.offers }
        ensures left { (result ≡ false) ↔ ((to : ℕ) → to < self.now.sizes.ranks →
            pushed_out self.now.events to
            ≡ to_push self.now.events (known_from self.now.known to) to) }
    {
        self.sending.piece_to().is_some()
    }

    /// Makes it the next piece to be pushed, if there is one, and answers the rank that this goes to:
    /// the next one of the first message that was cleared and has not left. There is none exactly
    /// where each cleared message has left.
    pub fn front_piece(&self, into: &mut Piece) -> Option<u8>
        ensures next { option_map (λ to. offered (to, into.new)) result
            ≡ next_offered self.now.sending.offers }
        ensures own { IfSome result (λ to. (to < self.now.sizes.ranks)
            × (into.new.from ≡ self.now.me)
            × (into.new.number ≡ pushed_to self.now.sending to)) }
        ensures none { IsNone result ↔ AllOut self.now.sending.offers }
        ensures left { IsNone result ↔ ((to : ℕ) → to < self.now.sizes.ranks →
            pushed_out self.now.events to
            ≡ to_push self.now.events (known_from self.now.known to) to) }
    {
        self.sending.next_piece(into)
    }

    /// Counts the next piece as pushed. Where it was its message's last one, that one has left: the
    /// next one in the order of the clearances.
    pub fn pop_piece(&mut self)
        requires next { IsSome (next_offered self.old.sending.offers) }
        requires fresh { IsFresh self.old }
        ensures { PopsPiece self.old self.new }
    {
        sides_stay();
        if let Some((to, n)) = self.sending.pop_piece() {
            self.journal.add(Happened::Out { to, n });
        }
    }

    /// Whether a message of any rank was cleared and is not whole.
    pub fn is_any_piece_due(&self) -> bool
        ensures none { result ≡ false → (from : ℕ) → from < self.now.sizes.ranks →
            length (due_pieces self.now.events from) ≤ drawn_from self.now.receiving from }
        ensures some { ((from : ℕ) → from < self.now.sizes.ranks →
            length (due_pieces self.now.events from) ≤ drawn_from self.now.receiving from) →
            result ≡ false }
    {
        self.receiving.is_any_due()
    }

    /// Whether a message of a rank was cleared and is not whole.
    pub fn is_piece_due(&self, from: u8) -> bool
        requires { from < self.now.sizes.ranks }
        ensures { result ≡ nat_lt (drawn_from self.now.receiving from)
            (length (due_pieces self.now.events from)) }
    {
        self.receiving.is_due(from)
    }
}
