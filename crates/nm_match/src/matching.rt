//! The matcher: the posted receive queue and the unexpected message queue of one rank.

ghost use Rattle.std.specs.Prelude.{◌≡◌, ◌+◌, ◌≤◌, ◌++◌, ◌&&◌, false, if◌then◌else◌, not, [], ◌∷◌, IfOk};
ghost use Rattle.std.specs.Prelude.{IsSome, IsTrue, MatchOption, OnErr, OnOk, length, option_map};
ghost use Rattle.std.specs.List.{list_any};
ghost use Rattle.nm_history.specs.Happens.{happened, is_cancel};
ghost use Rattle.nm_history.specs.Matching.{first_message, first_receive, is_free_message};
ghost use Rattle.nm_history.specs.Matching.{is_claimed as is_claimed_lem, is_of_receive};
ghost use Rattle.nm_history.specs.Matching.{matched_pairs};
ghost use Rattle.nm_history.specs.Sends.{message_of};
ghost use Rattle.nm_match.specs.declared.deeds.Deed.TheVariants as deed;
ghost use Rattle.nm_match.specs.Deeds.{history_of, is_known_message, is_known_receive};
ghost use Rattle.nm_match.specs.Early.{early_messages, early_receives};

use crate::deeds::Deed;
use crate::names::{Message, message_id, receive_id};
use crate::posted::Posted;
use crate::seen::Seen;
use crate::unexpected::Unexpected;
use nm_ghost::Trace;
use nm_types::{Arrival, Memory, Peer, Post, TagPick};
use std::alloc::Global;
use std::marker::Model;

/// The matching of one rank: its posted receive queue and its unexpected message queue.
///
/// A receive selects a message where the contexts are equal, and the source and the tag are equal
/// or any (MPI 3.1, section 3.2.4). Of the messages that a receive selects it takes the one that
/// came first, and a message goes to the receive that was posted first of those that select it
/// (section 3.5). A receive is open until it is paired or cancelled. A message is free until it
/// is paired, claimed or withdrawn.
///
/// Receives are known by their numbers, and messages by their sender and their place among the
/// messages of that sender. What waits is found by source, tag and context, and has an order
/// number, which grows with age: an arrival looks at the four rings of receives that can select
/// it, a source and a tag that are named at one bucket of messages, and a wildcard at the first
/// message of each bucket, or, where these are many, at one bucket of those that it selects. Receives
/// that name the same are a ring: what is kept of each is found by
/// its number, and tells the ones before and behind it. Of messages a map tells which bucket each is in,
/// and under which order number. What is cancelled or claimed is told there, too: so `cancel`,
/// `withdraw`, `is_claimed` and `take_claimed` walk nothing.
///
/// What is paired, withdrawn or received takes no place. Which numbers are taken is known by the
/// next of each, as long as they come in order, counted from 0, and a number that is before its
/// time takes a place until those before it came. A cancelled receive takes a place for good, since
/// `cancel` tells it from a paired one.
pub struct Matcher {
    done: Trace<Deed>,
    posted: Posted,
    unexpected: Unexpected,
    receives: Seen,
    messages: Seen,
    /// The order number of the next receive that waits.
    order: u128,
    /// The order number of the next message that waits.
    next: u128,
}

impl Drop for Matcher {
    fn drop(self) {
        let Matcher {
            done: _,
            posted: _,
            unexpected: _,
            receives: _,
            messages: _,
            order: _,
            next: _,
        } = self;
    }
}

impl Model for Matcher {
    ghost use Rattle.std.specs.Prelude.{List};
    ghost use Rattle.nm_match.specs.declared.deeds.Deed.{Deed};
    ghost use Rattle.nm_match.specs.Held.{AreHeld};

    ghost Value = { List Deed };

    ghost view = { λ m. m.done.items };

    ghost invariant = { λ m. AreHeld m.done.items m.order m.next m.posted m.unexpected
        m.receives m.messages };
}

impl Matcher {
    /// The matcher of a rank where no receive was posted and no message came.
    pub fn new(alloc: Global) -> Self
        ensures { result ≡ [] }
    {
        Matcher {
            done: Trace::new(),
            posted: Posted::new(alloc),
            unexpected: Unexpected::new(alloc),
            receives: Seen::new(alloc),
            messages: Seen::new(alloc),
            order: 0,
            next: 0,
        }
    }

    /// Posts a receive whose number is new, and answers the message that it takes: the oldest
    /// free one that it selects. Where there is none it joins the posted receive queue.
    pub fn post(&mut self, p: Post) -> Result<Option<Arrival>, Memory>
        requires is_new { is_known_receive (history_of self.old) p.number ≡ false }
        ensures oldest { let h = history_of self.old in IfOk result
            (λ taken. taken ≡ first_message h (matched_pairs h) p.from p.tag p.ctx) }
        ensures ok { OnOk result (self.new ≡ self.old ++ deed.Post p ∷ []) }
        ensures err { OnErr result (self.new ≡ self.old) }
    {
        let id = receive_id(p.number);
        self.receives.make_room(id)?;
        match self.unexpected.take_oldest(p.from, p.tag, p.ctx) {
            Some(a) => {
                self.receives.add(id);
                self.done = self.done.then(&Deed::Post(p));
                Ok(Some(a))
            }
            None => {
                self.posted.put(self.order as u64, p)?;
                self.order += 1;
                self.receives.add(id);
                self.done = self.done.then(&Deed::Post(p));
                Ok(None)
            }
        }
    }

    /// Brings a message that is new, and answers the number of the receive that takes it: the
    /// oldest open one that selects it. Where there is none it joins the unexpected message
    /// queue.
    pub fn arrive(&mut self, a: Arrival) -> Result<Option<u64>, Memory>
        requires is_new { is_known_message (history_of self.old) a.env.from a.n ≡ false }
        ensures oldest { let h = history_of self.old in IfOk result
            (λ taken. taken
            ≡ option_map (λ p. p.number) (first_receive h (matched_pairs h) a.env)) }
        ensures ok { OnOk result (self.new ≡ self.old ++ deed.Arrive a ∷ []) }
        ensures err { OnErr result (self.new ≡ self.old) }
    {
        let id = message_id(a.env.from, a.n);
        self.messages.make_room(id)?;
        match self.posted.take_oldest(&a.env) {
            Some(p) => {
                self.messages.add(id);
                self.done = self.done.then(&Deed::Arrive(a));
                Ok(Some(p.number))
            }
            None => {
                self.unexpected.put(self.next, a)?;
                self.next += 1;
                self.messages.add(id);
                self.done = self.done.then(&Deed::Arrive(a));
                Ok(None)
            }
        }
    }

    /// Cancels a known receive (MPI 3.1, section 3.8.4), and answers `false` where it came too
    /// late: exactly where the receive is paired, posted or of a claimed message. A cancelled
    /// receive never pairs. A second cancel of it answers `true` again, and is no deed.
    pub fn cancel(&mut self, post: u64) -> bool
        requires known { IsTrue (is_known_receive (history_of self.old) post) }
        ensures late { result
            ≡ not (list_any (is_of_receive post) (matched_pairs (history_of self.old))) }
        ensures deeds { self.new
            ≡ (if result && not (happened (is_cancel post) (history_of self.old))
            then self.old ++ deed.Cancel post ∷ [] else self.old) }
    {
        if self.posted.cancel(post) {
            self.done = self.done.then(&Deed::Cancel { number: post });
            true
        } else {
            self.posted.is_cancelled(post)
        }
    }

    /// Withdraws a message that came, for its sender's cancel (MPI 3.1, section 3.8.4), and
    /// answers `false` where it came too late: exactly where the message is paired, claimed or
    /// withdrawn before.
    pub fn withdraw(&mut self, from: u8, n: u64) -> bool
        requires known { IsTrue (is_known_message (history_of self.old) from n) }
        ensures late { let h = history_of self.old in
            result ≡ is_free_message h (matched_pairs h) from n }
        ensures deeds { self.new
            ≡ (if result then self.old ++ deed.Withdraw from n ∷ [] else self.old) }
    {
        let was_free = self.unexpected.withdraw(Message { rank: from, n });
        if was_free {
            self.done = self.done.then(&Deed::Withdraw { from, n });
        }
        was_free
    }

    /// Prepares for probes of this source and this tag. Where one of them is a wildcard and messages of
    /// many names wait, these stand under each wildcard, too, from here on until none waits, so that
    /// `probe` looks one up where it would go through all. That is no deed, and where memory is refused
    /// nothing is done. `post` and `claim` do so by themselves.
    pub fn prepare(&mut self, from: Peer, tag: TagPick)
        ensures { self.new ≡ self.old }
    {
        if from == Peer::Any || tag == TagPick::Any {
            self.unexpected.index();
        }
    }

    /// The oldest free message that a receive with this source, tag and context would take (MPI
    /// 3.1, section 3.8.1). It changes nothing.
    pub fn probe(&self, from: Peer, tag: TagPick, ctx: u8) -> Option<Arrival>
        ensures oldest { let h = history_of self.now in
            result ≡ first_message h (matched_pairs h) from tag ctx }
    {
        self.unexpected.oldest(from, tag, ctx)
    }

    /// A matched probe (MPI 3.1, section 3.8.2): answers the message that `probe` would, and
    /// claims it. From then on only `take_claimed` can receive it.
    pub fn claim(&mut self, from: Peer, tag: TagPick, ctx: u8) -> Result<Option<Arrival>, Memory>
        ensures oldest { let h = history_of self.old in
            IfOk result (λ taken. taken ≡ first_message h (matched_pairs h) from tag ctx) }
        ensures ok { IfOk result (λ taken. MatchOption taken (self.new ≡ self.old)
            (λ a. self.new ≡ self.old ++ deed.Claim a.env.from a.n ∷ [])) }
        ensures err { OnErr result (self.new ≡ self.old) }
    {
        match self.unexpected.claim_oldest(from, tag, ctx) {
            Some(a) => {
                self.done = self.done.then(&Deed::Claim {
                    from: a.env.from,
                    n: a.n,
                });
                Ok(Some(a))
            }
            None => Ok(None),
        }
    }

    /// Whether a message is claimed and not yet received.
    pub fn is_claimed(&self, from: u8, n: u64) -> bool
        ensures value { let h = history_of self.now in
            result ≡ is_claimed_lem h (matched_pairs h) from n }
        ensures came { IsTrue result → IsSome (message_of (history_of self.now) from n) }
    {
        self.unexpected.is_claimed(Message { rank: from, n })
    }

    /// The matched receive of a claimed message (MPI 3.1, section 3.8.3), under a new number.
    /// Posted and matched receives are numbered together.
    pub fn take_claimed(&mut self, number: u64, from: u8, n: u64) -> Result<(), Memory>
        requires claimed { let h = history_of self.old in
            IsTrue (is_claimed_lem h (matched_pairs h) from n) }
        requires is_new { is_known_receive (history_of self.old) number ≡ false }
        ensures ok { OnOk result (self.new ≡ self.old ++ deed.Match number from n ∷ []) }
        ensures err { OnErr result (self.new ≡ self.old) }
    {
        let id = receive_id(number);
        self.receives.make_room(id)?;
        self.unexpected.take_claimed(Message { rank: from, n });
        self.receives.add(id);
        self.done = self.done.then(&Deed::Match { number, from, n });
        Ok(())
    }

    /// How many numbers of receives and messages are in memory: at most those that came before their
    /// time. Where numbers come in order there is none.
    pub fn held_numbers(&self) -> usize
        ensures { let h = history_of self.now in
            result ≤ length (early_receives h) + length (early_messages h) }
    {
        self.receives.held() + self.messages.held()
    }

    /// Whether a receive of this number was posted, or took a claimed message.
    pub fn knows_post(&self, post: u64) -> bool
        ensures { result ≡ is_known_receive (history_of self.now) post }
    {
        self.receives.contains(receive_id(post))
    }

    /// Whether message `n` of a rank came.
    pub fn knows_arrival(&self, from: u8, n: u64) -> bool
        ensures { result ≡ is_known_message (history_of self.now) from n }
    {
        self.messages.contains(Message { rank: from, n })
    }
}
