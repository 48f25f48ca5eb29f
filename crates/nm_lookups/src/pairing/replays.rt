//! A history, replayed one event after another.

ghost use Rattle.std.specs.Prelude.{◌≡◌, ℕ, ◌==◌, [], false, true, IfOk, List, None, OnOk};
ghost use Rattle.indexmap.specs.IndexSet.{Updates};
ghost use Rattle.nm_history.specs.Matching.{pair_of_claimed};
ghost use Rattle.nm_history.specs.declared.events.Event as event;
ghost use Rattle.nm_history.specs.declared.events.Happened.TheVariants as happened;
ghost use Rattle.nm_match.specs.Deeds.{is_known_message, is_known_receive};
ghost use Rattle.nm_match.specs.Names.{same_message};
ghost use Rattle.nm_lookups.specs.Queues.{IsFirstOfItsKind, HasQueues, free_messages, is_posted, open_receives};
ghost use Rattle.nm_lookups.specs.Queues.{without_message, without_receive};
ghost use Rattle.nm_lookups.specs.Replays.{HasSameQueues, HasSameReceives, HasSameTables};
ghost use Rattle.nm_lookups.specs.Replays.{Replays, IsNextReplay};

use crate::firsts::Message;
use crate::pairing::queues::{arrive, cancel, post, take};
use indexmap::{IndexMap, IndexSet};
use nm_history::Happened;
use nm_history::plain::Pair;
use nm_match::Matcher;
use nm_types::{Arrival, Memory, Post};
use std::alloc::Global;

/// What is known of the events so far: the two queues, the receives and the messages by their
/// numbers, and which of them take no part in matching any more, come or not.
pub(crate) struct Replay {
    pub matcher: Matcher,
    pub posts: IndexMap<u64, Post>,
    pub messages: IndexMap<Message, Arrival>,
    pub closed: IndexSet<u64>,
    pub gone: IndexSet<Message>,
}

impl Drop for Replay {
    fn drop(self) {
        let Replay {
            matcher: _,
            posts: _,
            messages: _,
            closed: _,
            gone: _,
        } = self;
    }
}

impl Replay {
    /// Of no event.
    pub fn new(alloc: Global) -> Replay
        ensures { Replays [] result }
    {
        Replay {
            matcher: Matcher::new(alloc),
            posts: IndexMap::new(alloc),
            messages: IndexMap::new(alloc),
            closed: IndexSet::new(alloc),
            gone: IndexSet::new(alloc),
        }
    }

    /// The two queues.
    pub fn into_matcher(self) -> Matcher
        ensures { result ≡ self.matcher }
    {
        let Replay {
            matcher,
            posts: _,
            messages: _,
            closed: _,
            gone: _,
        } = self;
        matcher
    }

    // A receive and a message are paired.
    fn pair(&mut self, number: u64, cap: u32, arrival: Arrival) -> Result<Pair, Memory>
        ensures pair { IfOk result (λ pair. pair ≡ pair_of_claimed number cap arrival) }
        ensures closed { OnOk result (Updates ◌==◌ self.old.closed self.new.closed number true) }
        ensures gone { OnOk result (Updates same_message self.old.gone self.new.gone
            (record { rank = arrival.env.from; n = arrival.n }) true) }
        ensures others { OnOk result (HasSameQueues self.old self.new) }
    {
        self.closed.insert(number)?;
        self.gone.insert(Message {
            rank: arrival.env.from,
            n: arrival.n,
        })?;
        Ok(Pair {
            number,
            cap,
            arrival,
        })
    }

    /// A receive is posted.
    fn post(&mut self, p: &Post) -> Result<Option<Pair>, Memory>
        requires is_new { (h : List event.Event) × Replays h self.old
            × (is_known_receive h p.now.number ≡ false) }
        ensures { (h : List event.Event) (stamp line : ℕ) → Replays h self.old →
            is_known_receive h p.now.number ≡ false →
            IfOk result (λ made. IsNextReplay h
            (record { stamp = stamp; what = happened.Post p.now line }) made self.new) }
    {
        let cancelled = self.closed.contains(&p.number);
        let taken = post(&mut self.matcher, *p, cancelled)?;
        self.posts.insert(p.number, *p)?;
        match taken {
            Some(a) => Ok(Some(self.pair(p.number, p.cap, a)?)),
            None => Ok(None),
        }
    }

    /// A message comes.
    fn arrive(&mut self, a: &Arrival) -> Result<Option<Pair>, Memory>
        requires is_new { (h : List event.Event) × Replays h self.old
            × (is_known_message h a.now.env.from a.now.n ≡ false) }
        ensures { (h : List event.Event) (stamp : ℕ) → Replays h self.old →
            is_known_message h a.now.env.from a.now.n ≡ false →
            IfOk result (λ made. IsNextReplay h
            (record { stamp = stamp; what = happened.Arrive a.now }) made self.new) }
    {
        let message = Message {
            rank: a.env.from,
            n: a.n,
        };
        let gone = self.gone.contains(&message);
        let taken = arrive(&mut self.matcher, *a, gone)?;
        self.messages.insert(message, *a)?;
        let Some(number) = taken else {
            return Ok(None);
        };
        let Some(p) = self.posts.get(&number).copied() else {
            return Ok(None);
        };
        Ok(Some(self.pair(number, p.cap, *a)?))
    }

    // An open receive is cancelled.
    fn cancel_open(&mut self, number: u64)
        requires known { (h : List event.Event) × Replays h self.old }
        ensures queues { (h : List event.Event) → Replays h self.old →
            HasQueues (without_receive number (open_receives h)) (free_messages h) (is_posted h)
            (is_known_message h) self.new.matcher }
        ensures others { HasSameTables self.old self.new }
    {
        if self.closed.contains(&number) {
            return;
        }
        if self.posts.contains_key(&number) {
            cancel(&mut self.matcher, number);
        }
    }

    /// A receive is cancelled.
    fn cancel(&mut self, number: u64) -> Result<(), Memory>
        requires known { (h : List event.Event) × Replays h self.old }
        ensures { (h : List event.Event) (stamp : ℕ) → Replays h self.old →
            OnOk result (IsNextReplay h
            (record { stamp = stamp; what = happened.Cancel number true }) None self.new) }
    {
        self.cancel_open(number);
        self.closed.insert(number)?;
        Ok(())
    }

    // A free message is taken out of matching.
    fn take_free(&mut self, message: Message)
        requires known { (h : List event.Event) × Replays h self.old }
        ensures queues { (h : List event.Event) → Replays h self.old →
            HasQueues (open_receives h) (without_message message.rank message.n (free_messages h))
            (is_posted h) (is_known_message h) self.new.matcher }
        ensures others { HasSameTables self.old self.new }
    {
        if self.gone.contains(&message) {
            return;
        }
        if self.messages.contains_key(&message) {
            take(&mut self.matcher, message.rank, message.n);
        }
    }

    // A message takes no part in matching any more.
    fn let_go(&mut self, message: Message) -> Result<(), Memory>
        requires known { (h : List event.Event) × Replays h self.old }
        ensures gone { OnOk result
            (Updates same_message self.old.gone self.new.gone message true) }
        ensures queues { (h : List event.Event) → Replays h self.old → OnOk result
            (HasQueues (open_receives h) (without_message message.rank message.n (free_messages h))
            (is_posted h) (is_known_message h) self.new.matcher) }
        ensures others { OnOk result (HasSameReceives self.old self.new) }
    {
        self.take_free(message);
        self.gone.insert(message)?;
        Ok(())
    }

    /// A message is claimed.
    fn claim(&mut self, from: u8, n: u64) -> Result<(), Memory>
        requires known { (h : List event.Event) × Replays h self.old }
        ensures { (h : List event.Event) (stamp line : ℕ) → Replays h self.old →
            OnOk result (IsNextReplay h
            (record { stamp = stamp; what = happened.Claim from n line }) None self.new) }
    {
        self.let_go(Message { rank: from, n })
    }

    /// A message is withdrawn.
    fn withdraw(&mut self, from: u8, n: u64) -> Result<(), Memory>
        requires known { (h : List event.Event) × Replays h self.old }
        ensures { (h : List event.Event) (stamp : ℕ) → Replays h self.old →
            OnOk result (IsNextReplay h
            (record { stamp = stamp; what = happened.Withdraw from n true }) None self.new) }
    {
        self.let_go(Message { rank: from, n })
    }

    /// A matched receive takes a message.
    fn receive(&mut self, number: u64, from: u8, n: u64, cap: u32) -> Result<Option<Pair>, Memory>
        requires is_new { (h : List event.Event) × Replays h self.old
            × (is_known_receive h number ≡ false) }
        ensures { (h : List event.Event) (stamp line : ℕ) → Replays h self.old →
            is_known_receive h number ≡ false →
            IfOk result (λ made. IsNextReplay h
            (record { stamp = stamp; what = happened.Match number from n cap line }) made
            self.new) }
    {
        let message = Message { rank: from, n };
        let Some(a) = self.messages.get(&message).copied() else {
            return Ok(None);
        };
        self.let_go(message)?;
        self.closed.insert(number)?;
        Ok(Some(Pair {
            number,
            cap,
            arrival: a,
        }))
    }

    /// One event more. The pair that it makes, if it makes one.
    pub fn take(&mut self, what: &Happened) -> Result<Option<Pair>, Memory>
        requires is_new { (h : List event.Event) × Replays h self.old × IsFirstOfItsKind h what.now }
        ensures { (h : List event.Event) (stamp : ℕ) → Replays h self.old → IsFirstOfItsKind h what.now →
            IfOk result (λ made. IsNextReplay h (record { stamp = stamp; what = what.now }) made
            self.new) }
    {
        match what {
            Happened::Post { post, .. } => self.post(post),
            Happened::Arrive { a } => self.arrive(a),
            Happened::Match {
                number,
                from,
                n,
                cap,
                ..
            } => self.receive(*number, *from, *n, *cap),
            Happened::Cancel { number, done } => {
                if *done {
                    self.cancel(*number)?;
                }
                Ok(None)
            }
            Happened::Withdraw { from, n, done } => {
                if *done {
                    self.withdraw(*from, *n)?;
                }
                Ok(None)
            }
            Happened::Claim { from, n, .. } => {
                self.claim(*from, *n)?;
                Ok(None)
            }
            _ => Ok(None),
        }
    }
}
