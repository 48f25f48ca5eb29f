//! The state of a rank: what it did, and what matching has of it.

ghost use Rattle.std.specs.Prelude.{◌≡◌, ◌≤◌, IfOk, OnOk, find, length};
ghost use Rattle.std.specs.Prelude.{nat_lt, position, unwrap_or};
ghost use Rattle.std.specs.List.{list_any};
ghost use Rattle.nm_history.specs.Matching.{is_of_message, is_of_receive};
ghost use Rattle.nm_match.specs.Deeds.{is_message};
ghost use Rattle.nm_lookups.specs.Queues.{without_message as without_message_lem};
ghost use Rattle.nm_outcomes.specs.Parts.{with_part};
ghost use Rattle.nm_outcomes.specs.RankStates.{arrived_at, arrived_by, first_spot, free_lem};
ghost use Rattle.nm_outcomes.specs.RankStates.{is_behind as is_behind_lem, is_cancel_by, is_claim_by};
ghost use Rattle.nm_outcomes.specs.RankStates.{is_closed_at, is_that, message_of_spot, posted_at};
ghost use Rattle.nm_outcomes.specs.RankStates.{receive_of_spot, settled_at, spot_after, taken_at};
ghost use Rattle.nm_outcomes.specs.RankStates.{with_arrival, with_pair, withdrawn_at, without_number};

use crate::spots::deeds::{Deed, Message, Part, Receive};
use nm_history::plain::{Pair, selects};
use nm_types::{Arrival, Memory};
use std::alloc::Global;
use std::marker::Model;

/// A rank at some moment.
pub struct Rank {
    /// What it did, oldest first.
    deeds: Vec<Deed>,
    /// The open receives and the free messages, oldest first.
    receives: Vec<Receive>,
    free: Vec<Arrival>,
    /// The receives with their messages, by number.
    pairs: Vec<Pair>,
    /// The messages that came, by sender and number, and those of them that were withdrawn.
    came: Vec<Arrival>,
    withdrawn: Vec<Message>,
}

impl Drop for Rank {
    fn drop(self) {
        let Rank {
            deeds: _,
            receives: _,
            free: _,
            pairs: _,
            came: _,
            withdrawn: _,
        } = self;
    }
}

impl Model for Rank {
    ghost use Rattle.nm_outcomes.specs.RankStates.{Spot};

    ghost Value = { Spot };

    ghost view = { λ a. record {
      deeds = a.deeds.items;
      receives = a.receives.items;
      free = a.free.items;
      pairs = a.pairs.items;
      came = a.came.items;
      withdrawn = a.withdrawn.items;
    } };
}

impl Rank {
    /// A rank that did nothing.
    pub fn new(alloc: Global) -> Rank
        ensures { result ≡ first_spot }
    {
        Rank {
            deeds: Vec::new(alloc),
            receives: Vec::new(alloc),
            free: Vec::new(alloc),
            pairs: Vec::new(alloc),
            came: Vec::new(alloc),
            withdrawn: Vec::new(alloc),
        }
    }

    /// An equal one.
    pub fn copy(&self) -> Result<Rank, Memory>
        ensures { IfOk result (λ copy. copy ≡ self.now) }
    {
        Ok(Rank {
            deeds: self.deeds.clone()?,
            receives: self.receives.clone()?,
            free: self.free.clone()?,
            pairs: self.pairs.clone()?,
            came: self.came.clone()?,
            withdrawn: self.withdrawn.clone()?,
        })
    }

    /// Puts a part behind those of its kind.
    pub fn put(&mut self, part: Part) -> Result<(), Memory>
        ensures { OnOk result (self.new ≡ with_part self.old part) }
    {
        match part {
            Part::Did(deed) => self.deeds.push(deed)?,
            Part::Open(receive) => self.receives.push(receive)?,
            Part::Free(arrival) => self.free.push(arrival)?,
            Part::Paired(pair) => self.pairs.push(pair)?,
            Part::Came(arrival) => self.came.push(arrival)?,
            Part::Gone(message) => self.withdrawn.push(message)?,
        }
        Ok(())
    }

    /// What it did, oldest first.
    pub fn deeds(&self) -> &[Deed]
        ensures { result.now ≡ self.now.deeds }
    {
        self.deeds.as_slice()
    }

    /// The open receives, oldest first.
    pub fn receives(&self) -> &[Receive]
        ensures { result.now ≡ self.now.receives }
    {
        self.receives.as_slice()
    }

    /// The free messages, oldest first.
    pub fn free(&self) -> &[Arrival]
        ensures { result.now ≡ self.now.free }
    {
        self.free.as_slice()
    }

    /// The receives with their messages.
    pub fn pairs(&self) -> &[Pair]
        ensures { result.now ≡ self.now.pairs }
    {
        self.pairs.as_slice()
    }

    /// The messages that came.
    pub fn came(&self) -> &[Arrival]
        ensures { result.now ≡ self.now.came }
    {
        self.came.as_slice()
    }

    /// The messages that were withdrawn.
    pub fn withdrawn(&self) -> &[Message]
        ensures { result.now ≡ self.now.withdrawn }
    {
        self.withdrawn.as_slice()
    }

    /// Puts a pair at the place of its number.
    #[tactic(auto, using(crate::proofs::ListLemmas::insert_placed))]
    fn pair(&mut self, pair: Pair) -> Result<(), Memory>
        ensures { OnOk result (self.new ≡ record self.old { pairs = with_pair pair self.old.pairs }) }
    {
        if self.is_paired(pair.number) {
            self.pairs.push(pair)?;
        } else {
            let place = place_of_number(&self.pairs, pair.number);
            self.pairs.insert(place, pair)?;
        }
        Ok(())
    }

    /// Takes a message out of the free ones.
    fn without_message(&mut self, from: u8, n: u64)
        ensures { self.new ≡ record self.old { free = without_message_lem from n self.old.free } }
    {
        keep_others(&mut self.free, from, n);
    }

    /// Takes a receive out of the open ones.
    fn without_receive(&mut self, number: u64)
        ensures { self.new ≡ record self.old { receives = without_number number self.old.receives } }
    {
        keep_receives(&mut self.receives, number);
    }

    /// The oldest free message that a receive selects.
    pub fn message_for(&self, r: &Receive) -> Option<Arrival>
        ensures { result ≡ message_of_spot self.now r.now }
    {
        self.free
            .iter()
            .copied()
            .find(|a| selects(r.from, r.tag, r.ctx, &a.env))
    }

    /// The oldest open receive that selects a message.
    pub fn receive_for(&self, a: &Arrival) -> Option<Receive>
        ensures { result ≡ receive_of_spot self.now a.now }
    {
        self.receives
            .iter()
            .copied()
            .find(|r| selects(r.from, r.tag, r.ctx, &a.env))
    }

    /// Posts a receive, which took this message or none.
    fn post(&mut self, receive: Receive, taken: Option<Arrival>) -> Result<(), Memory>
        ensures { OnOk result (self.new ≡ posted_at self.old receive taken) }
    {
        match taken {
            Some(arrival) => {
                self.without_message(arrival.env.from, arrival.n);
                self.pair(Pair {
                    number: receive.number,
                    cap: receive.cap,
                    arrival,
                })
            }
            None => {
                if !self.is_closed(receive.number) {
                    self.receives.push(receive)?;
                }
                Ok(())
            }
        }
    }

    /// The message of a rank with a number, of those that came.
    pub fn message(&self, from: u8, n: u64) -> Option<Arrival>
        ensures { result ≡ find (is_message from n) self.now.came }
    {
        self.came
            .iter()
            .copied()
            .find(|a| a.env.from == from && a.n == n)
    }

    /// Pairs a receive with a message that was claimed.
    fn take(&mut self, number: u64, cap: u32, from: u8, n: u64) -> Result<(), Memory>
        ensures { OnOk result
            (self.new ≡ taken_at self.old number cap from n (find (is_message from n) self.old.came)) }
    {
        let taken = self.message(from, n);
        self.without_message(from, n);
        match taken {
            Some(arrival) => self.pair(Pair {
                number,
                cap,
                arrival,
            }),
            None => Ok(()),
        }
    }

    /// What a deed does to the queues.
    fn settle(&mut self, deed: &Deed) -> Result<(), Memory>
        ensures { OnOk result (self.new ≡ settled_at self.old deed.now) }
    {
        match deed {
            Deed::Post { receive, .. } => self.post(*receive, self.message_for(receive)),
            Deed::Match {
                number,
                from,
                n,
                cap,
                ..
            } => self.take(*number, *cap, *from, *n),
            Deed::Cancel { number, done } => {
                if *done {
                    self.without_receive(*number);
                }
                Ok(())
            }
            Deed::Claim { from, n, .. } => {
                self.without_message(*from, *n);
                Ok(())
            }
            _ => Ok(()),
        }
    }

    /// Does a deed.
    pub fn act(&mut self, deed: Deed) -> Result<(), Memory>
        ensures { OnOk result (self.new ≡ spot_after self.old deed) }
    {
        self.settle(&deed)?;
        self.deeds.push(deed)?;
        Ok(())
    }

    /// Gives a message that came to a receive, or to none.
    fn give(&mut self, a: Arrival, to: Option<Receive>) -> Result<(), Memory>
        ensures { OnOk result (self.new ≡ arrived_by self.old a to) }
    {
        match to {
            Some(receive) => {
                self.without_receive(receive.number);
                self.pair(Pair {
                    number: receive.number,
                    cap: receive.cap,
                    arrival: a,
                })
            }
            None => {
                if self.is_free(a.env.from, a.n) {
                    self.free.push(a)?;
                }
                Ok(())
            }
        }
    }

    /// Puts a message at its place among those that came.
    #[tactic(auto, using(crate::proofs::ListLemmas::insert_placed))]
    fn note(&mut self, a: Arrival) -> Result<(), Memory>
        ensures { OnOk result (self.new ≡ record self.old { came = with_arrival a self.old.came }) }
    {
        if self.has(a.env.from, a.n) {
            self.came.push(a)?;
        } else {
            let place = place_of_arrival(&self.came, &a);
            self.came.insert(place, a)?;
        }
        Ok(())
    }

    /// Takes a message that arrives.
    pub fn arrive(&mut self, a: Arrival) -> Result<(), Memory>
        ensures { OnOk result (self.new ≡ arrived_at self.old a) }
    {
        let to = self.receive_for(&a);
        self.give(a, to)?;
        self.note(a)
    }

    /// Withdraws a free message.
    #[tactic(auto, using(crate::proofs::ListLemmas::insert_placed))]
    pub fn withdraw(&mut self, from: u8, n: u64) -> Result<(), Memory>
        ensures { OnOk result (self.new ≡ withdrawn_at self.old from n) }
    {
        self.without_message(from, n);
        let place = place_of_message(&self.withdrawn, from, n);
        self.withdrawn.insert(place, Message { rank: from, n })?;
        Ok(())
    }

    /// Whether a message is in no pair, and was neither claimed nor withdrawn.
    pub fn is_free(&self, from: u8, n: u64) -> bool
        ensures { result ≡ free_lem self.now from n }
    {
        !(self.is_taken(from, n) || self.is_claimed(from, n) || self.is_withdrawn(from, n))
    }

    /// Whether a receive is paired or was cancelled.
    fn is_closed(&self, number: u64) -> bool
        ensures { result ≡ is_closed_at self.now number }
    {
        self.is_paired(number) || self.is_off(number)
    }

    /// Whether a receive is paired.
    pub fn is_paired(&self, number: u64) -> bool
        ensures { result ≡ list_any (is_of_receive number) self.now.pairs }
    {
        self.pairs.iter().any(|p| p.number == number)
    }

    /// Whether a receive was cancelled.
    pub fn is_off(&self, number: u64) -> bool
        ensures { result ≡ list_any (is_cancel_by number) self.now.deeds }
    {
        self.deeds.iter().any(|d| is_cancel_of(number, d))
    }

    /// Whether a receive has a message.
    pub fn is_taken(&self, from: u8, n: u64) -> bool
        ensures { result ≡ list_any (is_of_message from n) self.now.pairs }
    {
        self.pairs
            .iter()
            .any(|p| p.arrival.env.from == from && p.arrival.n == n)
    }

    /// Whether a message was claimed.
    fn is_claimed(&self, from: u8, n: u64) -> bool
        ensures { result ≡ list_any (is_claim_by from n) self.now.deeds }
    {
        self.deeds.iter().any(|d| is_claim_of(from, n, d))
    }

    /// Whether a message came.
    pub fn has(&self, from: u8, n: u64) -> bool
        ensures { result ≡ list_any (is_message from n) self.now.came }
    {
        self.came.iter().any(|a| a.env.from == from && a.n == n)
    }

    /// Whether a message was withdrawn.
    pub fn is_withdrawn(&self, from: u8, n: u64) -> bool
        ensures { result ≡ list_any (is_that from n) self.now.withdrawn }
    {
        self.withdrawn.iter().any(|m| m.rank == from && m.n == n)
    }
}

/// One message stands behind another one: by sender, and then by number.
fn is_behind(from: u8, n: u64, rank: u8, m: u64) -> bool
    ensures { result ≡ is_behind_lem from n rank m }
{
    from < rank || (rank == from && n < m)
}

/// Leaves all but one message.
fn keep_others(free: &mut Vec<Arrival>, from: u8, n: u64)
    ensures { free.new.items ≡ without_message_lem from n free.old.items }
{
    free.retain(|a| !(a.env.from == from && a.n == n));
}

/// Leaves all but one receive.
fn keep_receives(receives: &mut Vec<Receive>, number: u64)
    ensures { receives.new.items ≡ without_number number receives.old.items }
{
    receives.retain(|r| !(number == r.number));
}

/// The first pair behind a number.
fn pair_behind(pairs: &[Pair], number: u64) -> Option<usize>
    ensures { result ≡ position (λ p. nat_lt number p.number) pairs.now }
{
    pairs.iter().position(|p| number < p.number)
}

/// The place of the first pair behind a number.
fn place_of_number(pairs: &[Pair], number: u64) -> usize
    ensures value { result
        ≡ unwrap_or (position (λ p. nat_lt number p.number) pairs.now) (length pairs.now) }
    ensures within { result ≤ length pairs.now }
{
    match pair_behind(pairs, number) {
        Some(place) => place,
        None => pairs.len(),
    }
}

/// The first message behind one.
fn arrival_behind(came: &[Arrival], from: u8, n: u64) -> Option<usize>
    ensures { result ≡ position (λ b. is_behind_lem from n b.env.from b.n) came.now }
{
    came.iter()
        .position(|b| is_behind(from, n, b.env.from, b.n))
}

/// The place of the first message behind one.
fn place_of_arrival(came: &[Arrival], a: &Arrival) -> usize
    ensures value { result ≡ unwrap_or
        (position (λ b. is_behind_lem a.now.env.from a.now.n b.env.from b.n) came.now)
        (length came.now) }
    ensures within { result ≤ length came.now }
{
    match arrival_behind(came, a.env.from, a.n) {
        Some(place) => place,
        None => came.len(),
    }
}

/// The first withdrawn message behind one.
fn message_behind(withdrawn: &[Message], from: u8, n: u64) -> Option<usize>
    ensures { result ≡ position (λ m. is_behind_lem from n m.rank m.n) withdrawn.now }
{
    withdrawn
        .iter()
        .position(|m| is_behind(from, n, m.rank, m.n))
}

/// The place of the first withdrawn message behind one.
fn place_of_message(withdrawn: &[Message], from: u8, n: u64) -> usize
    ensures value { result ≡ unwrap_or (position (λ m. is_behind_lem from n m.rank m.n) withdrawn.now)
        (length withdrawn.now) }
    ensures within { result ≤ length withdrawn.now }
{
    match message_behind(withdrawn, from, n) {
        Some(place) => place,
        None => withdrawn.len(),
    }
}

/// A deed cancels a receive.
fn is_cancel_of(number: u64, deed: &Deed) -> bool
    ensures { result ≡ is_cancel_by number deed.now }
{
    match deed {
        Deed::Cancel { number: k, done } => *k == number && *done,
        _ => false,
    }
}

/// A deed claims a message.
fn is_claim_of(from: u8, n: u64, deed: &Deed) -> bool
    ensures { result ≡ is_claim_by from n deed.now }
{
    match deed {
        Deed::Claim { from: f, n: m, .. } => *f == from && *m == n,
        _ => false,
    }
}
