//! The sender's side: what was asked of all destinations.

ghost use Rattle.std.specs.Prelude.{◌≡◌, ◌+◌, ◌<◌, ◌≤◌, ◌↔◌, true, false, None, Some, length};
ghost use Rattle.std.specs.Prelude.{slice_get, IsNone, IsSome, IfSome, IsTrue, IfOk, OnOk, OnErr};
ghost use Rattle.std.specs.Prelude.{count_by};
ghost use Rattle.std.specs.Map.{values_of};
ghost use Rattle.std.specs.List.{position_or_len};
ghost use Rattle.std.specs.Option.{option_map, option_map_or, option_and_then};
ghost use Rattle.nm_types.specs.Bodies.{body_len};
ghost use Rattle.nm_types.specs.declared.limits.TheConstants.{MAX_BODY};
ghost use Rattle.nm_rndv.specs.Offers.{no_offers, destined, state_of, recall_in, leaves};
ghost use Rattle.nm_rndv.specs.Offers.{cleared_at, has_body, is_unanswered};
ghost use Rattle.nm_rndv.specs.Offers.{is_asked as is_asked_lem, is_recalled as is_recalled_lem};
ghost use Rattle.nm_rndv.specs.Offers.{asked_len, with_destined, with_asked, with_clearance};
ghost use Rattle.nm_rndv.specs.Offers.{with_popped, with_recall, with_answer, offered};
ghost use Rattle.nm_rndv.specs.Offers.{first_leaving as first_leaving_lem, next_offered};
ghost use Rattle.nm_rndv.specs.Offers.{out_by_piece, AllOut};

use crate::cuts::LongBody;
use crate::destinations::Destination;
use nm_kept::Kept;
use nm_types::{Body, Memory, Piece};
use std::alloc::Global;
use std::marker::Model;

/// The messages that a sender has asked to be cleared, for all destinations, and its recalls.
pub struct Offers {
    destinations: Vec<Destination>,
    // Every message that was cleared. Those before the first that is not out are let go, so that no
    // look-up walks over them.
    order: Kept<(u8, u64)>,
    // How many places of the order are kept free: one for each message that waits.
    reserved: usize,
}

impl Drop for Offers {
    fn drop(self) {
        let Offers {
            destinations: _,
            order: _,
            reserved: _,
        } = self;
    }
}

impl Model for Offers {
    ghost use Rattle.nm_rndv.specs.Kept.{OffersInvariant};
    ghost use Rattle.nm_rndv.specs.Offers.{Offering};

    ghost Value = { Offering };

    ghost view = { λ a. record { destinations = a.destinations.items; order = a.order.items } };

    ghost invariant = { λ a. OffersInvariant a.destinations.items a.order.items a.order.forgotten
        a.reserved a.order.places };
}

/// The first message of the order in memory.
#[inline(always)]
fn first_in(order: &Kept<(u8, u64)>) -> Option<(u8, u64)>
    ensures { result ≡ slice_get order.now.items order.now.forgotten }
{
    order.first().copied()
}

/// Whether the first message of the order in memory was cleared and is not out.
#[inline(always)]
fn first_leaves(destinations: &[Destination], order: &Kept<(u8, u64)>) -> bool
    ensures { result ≡ option_map_or (leaves destinations.now)
        (slice_get order.now.items order.now.forgotten) false }
{
    match first_in(order) {
        Some((to, n)) => match destinations.get(to as usize) {
            Some(destination) => destination.is_leaving(n),
            None => false,
        },
        None => false,
    }
}

/// Lets go the messages at the front of the order up to the first that leaves. None of those that were
/// let go before leaves.
#[inline(always)]
fn let_go(destinations: &[Destination], order: &mut Kept<(u8, u64)>)
    requires { order.old.forgotten ≤ position_or_len (leaves destinations.now) order.old.items }
    ensures same { order.new.items ≡ order.old.items }
    ensures first { order.new.forgotten
        ≡ position_or_len (leaves destinations.now) order.old.items }
    ensures room { order.old.places ≤ order.new.places }
{
    for _gone in 0..order.held() {
        if first_leaves(destinations, order) {
            return;
        }
        order.forget_first();
    }
}

impl Offers {
    /// Nothing was asked of any of so many ranks.
    pub fn new(alloc: Global, ranks: u8) -> Result<Offers, Memory>
        ensures { IfOk result (λ offers. offers ≡ no_offers ranks) }
    {
        let mut destinations = Vec::new(alloc);
        for _rank in 0..ranks {
            destinations.push(Destination::new(alloc))?;
        }
        Ok(Offers {
            destinations,
            order: Kept::new(alloc),
            reserved: 0,
        })
    }

    /// Notes that a destination was asked to clear message `n`, and keeps the message's body.
    ///
    /// It takes the memory that later calls for this message need, but for its recall.
    pub fn ask(&mut self, to: u8, n: u64, body: Body) -> Result<(), Memory>
        requires in_range { to < length self.old.destinations }
        requires is_new { state_of self.old to n ≡ None }
        requires short { body_len body ≤ MAX_BODY }
        ensures ok { OnOk result
            (self.new ≡ with_destined self.old to (with_asked (destined self.old to) n body)) }
        ensures err { OnErr result (self.new ≡ self.old) }
    {
        self.order.places_are_few();
        let reserved = self.reserved + 1;
        self.order.reserve(reserved)?;
        self.destinations[to as usize].ask(n, LongBody::new(body))?;
        self.reserved = reserved;
        Ok(())
    }

    /// Whether the message was asked, was not cleared, and was not withdrawn.
    pub fn is_asked(&self, to: u8, n: u64) -> bool
        requires { to < length self.now.destinations }
        ensures { result ≡ is_asked_lem self.now to n }
    {
        self.destinations[to as usize].is_asked(n)
    }

    /// Whether the message was cleared and is not out.
    pub fn is_leaving(&self, to: u8, n: u64) -> bool
        requires { to < length self.now.destinations }
        ensures { result ≡ leaves self.now.destinations (to, n) }
    {
        self.destinations[to as usize].is_leaving(n)
    }

    /// How many messages to a destination are in memory: those that wait or leave.
    pub fn held(&self, to: u8) -> usize
        requires { to < length self.now.destinations }
        ensures { result ≡ count_by has_body (values_of (destined self.now to).asked) }
    {
        self.destinations[to as usize].held()
    }

    /// How many recalls from a destination are in memory: those that were not answered.
    pub fn held_recalls(&self, to: u8) -> usize
        requires { to < length self.now.destinations }
        ensures { result ≡ count_by is_unanswered (values_of (destined self.now to).recalls) }
    {
        self.destinations[to as usize].held_recalls()
    }

    /// How many places of the order of clearance are in memory: those from the first message on that is
    /// not out.
    pub fn held_order(&self) -> usize
        ensures { position_or_len (leaves self.now.destinations) self.now.order + result
            ≡ length self.now.order }
    {
        self.order.held()
    }

    /// Clears a message, which goes to the end of the order of clearance. The answer is whether it
    /// is out at once, as it is where its body is empty.
    pub fn cleared(&mut self, to: u8, n: u64) -> bool
        requires in_range { to < length self.old.destinations }
        requires asked { is_asked_lem self.old to n ≡ true }
        ensures cleared { self.new ≡ with_clearance self.old to n }
        ensures empty { IsTrue result ↔ (asked_len self.old to n ≡ 0) }
    {
        let destination = &mut self.destinations[to as usize];
        let is_out = destination.clear(n);
        self.order.push_reserved((to, n));
        self.reserved -= 1;
        let_go(&self.destinations, &mut self.order);
        is_out
    }

    /// The destination and number of the message that the next piece is of: the first one in the order
    /// of clearance that is not out.
    pub fn front(&self) -> Option<(u8, u64)>
        ensures first { result ≡ first_leaving_lem self.now }
        ensures in_range { IfSome result (λ m. m.0 < length self.now.destinations) }
        ensures leaves { IfSome result (λ m. leaves self.now.destinations m ≡ true) }
        ensures none { IsNone result → AllOut self.now }
    {
        first_in(&self.order)
    }

    /// The destination of the next piece, without the piece, if there is one.
    pub fn piece_to(&self) -> Option<u8>
        ensures to { result ≡ option_map (λ o. o.to) (next_offered self.now) }
        ensures in_range { IfSome result (λ to. to < length self.now.destinations) }
        ensures none { IsNone result ↔ AllOut self.now }
    {
        Some(self.front()?.0)
    }

    /// Makes it the next piece in the order of clearance, if there is one, and says where that goes.
    /// Its sender and its number become 0: they are its caller's to set.
    pub fn next_piece(&self, into: &mut Piece) -> Option<u8>
        ensures next { option_map (λ to. offered (to, into.new)) result ≡ next_offered self.now }
        ensures blank { IfSome result (λ to. (into.new.from ≡ 0) × (into.new.number ≡ 0)) }
        ensures none { IsNone result ↔ AllOut self.now }
        ensures same { IsNone result → into.new ≡ into.old }
    {
        let (to, n) = self.front()?;
        let left = self.destinations[to as usize].leaving(n)?;
        left.fill_piece(n, into);
        Some(to)
    }

    /// Counts the next piece as sent. The answer names its message where it was the last one.
    pub fn pop_piece(&mut self) -> Option<(u8, u64)>
        requires { IsSome (next_offered self.old) }
        ensures popped { IfSome (first_leaving_lem self.old)
            (λ m. self.new ≡ with_popped self.old m) }
        ensures last { result
            ≡ option_and_then (out_by_piece self.old) (first_leaving_lem self.old) }
    {
        let (to, n) = self.front().unwrap();
        let destination = &mut self.destinations[to as usize];
        let is_out = destination.pop(n);
        let_go(&self.destinations, &mut self.order);
        is_out.then_some((to, n))
    }

    /// Notes that message `n` was recalled, whether it was sent at once or asked for.
    pub fn withdraw(&mut self, to: u8, n: u64) -> Result<(), Memory>
        requires in_range { to < length self.old.destinations }
        requires is_new { recall_in (destined self.old to) n ≡ None }
        ensures ok { OnOk result
            (self.new ≡ with_destined self.old to (with_recall (destined self.old to) n)) }
        ensures err { OnErr result (self.new ≡ self.old) }
    {
        self.destinations[to as usize].recall(n)
    }

    /// Whether the message was recalled, and the recall was not answered.
    pub fn is_recalled(&self, to: u8, n: u64) -> bool
        requires { to < length self.now.destinations }
        ensures { result ≡ is_recalled_lem self.now to n }
    {
        self.destinations[to as usize].is_recalled(n)
    }

    /// Notes the answer of a recall. Where it was done, an asked message is withdrawn.
    pub fn withdrawn(&mut self, to: u8, n: u64, done: bool)
        requires in_range { to < length self.old.destinations }
        requires recalled { is_recalled_lem self.old to n ≡ true }
        requires uncleared { done ≡ true → cleared_at self.old.destinations (to, n) ≡ false }
        ensures { self.new ≡ with_destined self.old to (with_answer (destined self.old to) n done) }
    {
        let is_withdrawn = self.destinations[to as usize].answer(n, done);
        self.reserved -= usize::from(is_withdrawn);
    }
}
