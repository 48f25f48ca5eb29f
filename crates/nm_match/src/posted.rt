//! The posted receive queue: the open receives, in rings by what they name.

ghost use Rattle.std.specs.Prelude.{◌≡◌, ℕ, ◌+◌, ◌++◌, [], ◌∷◌, ◌==◌, true, false, None};
ghost use Rattle.std.specs.Prelude.{AllPairs, IfOk, IfSome, IsTrue, List, MatchOption, OnErr, OnOk, Some};
ghost use Rattle.std.specs.Prelude.{find, is_some, option_map};
ghost use Rattle.std.specs.Option.{option_map_or};
ghost use Rattle.nm_types.specs.declared.messages.Post as post;
ghost use Rattle.nm_history.specs.Continues.{has};
ghost use Rattle.nm_history.specs.Selection.{matches};
ghost use Rattle.nm_match.specs.declared.picks.Picks as picks;
ghost use Rattle.nm_match.specs.Buckets.{AreBuckets, front_of, oldest_of};
ghost use Rattle.nm_match.specs.Fronts.{front_at, is_one};
ghost use Rattle.nm_match.specs.Names.{ArePosted, fronts_of};
ghost use Rattle.nm_match.specs.Picks.{picks_of_post, same_picks};
ghost use Rattle.nm_match.specs.Queues.{TwoReceives, without_first};
ghost use Rattle.nm_match.specs.Rings.{AreRings, HasLeft, waiting_at};
ghost use Rattle.nm_match.specs.Standings.{receive_at};

use crate::buckets::earlier;
use crate::fronts::Fronts;
use crate::picks::{Picks, is_named, of_post};
use crate::standings::Standings;
use nm_types::{Envelope, Memory, Peer, Post, TagPick};
use std::alloc::Global;

/// The receives that wait, and those that are cancelled.
pub struct Posted {
    /// The oldest of each ring of those that name a source and a tag.
    pub named: Fronts,
    /// The oldest of each ring of those that take any source or any tag.
    pub wild: Fronts,
    /// What is kept of each of them, by its number.
    pub standings: Standings,
}

impl Drop for Posted {
    fn drop(self) {
        let Posted {
            named: _,
            wild: _,
            standings: _,
        } = self;
    }
}

impl Posted {
    /// No receive was posted.
    pub(crate) fn new(alloc: Global) -> Self
        ensures none { (next : ℕ) → ArePosted [] [] next result }
    {
        Posted {
            named: Fronts::new(alloc),
            wild: Fronts::new(alloc),
            standings: Standings::new(alloc),
        }
    }

    /// The number of the oldest receive under a key.
    #[inline(always)]
    fn first(&self, key: Picks) -> Option<u64>
        ensures { result ≡ fronts_of self.now key }
    {
        if is_named(&key) {
            self.named.get(key)
        } else {
            self.wild.get(key)
        }
    }

    /// The oldest receive that names this source and this tag, in the context of a message.
    fn front(&self, from: Peer, tag: TagPick, env: &Envelope) -> Option<(u128, Post)>
        ensures { (under : picks.Picks → List (ℕ × post.Post)) →
            AreRings (fronts_of self.now) (receive_at self.now.standings) under →
            result ≡ front_of under from tag env.now }
    {
        let number = self.first(Picks {
            from,
            tag,
            ctx: env.ctx,
        })?;
        let (order, p) = self.standings.waiting(number)?;
        Some((u128::from(order), p))
    }

    /// The oldest receive that selects a message: the oldest under the four keys that select it.
    fn oldest(&self, env: &Envelope) -> Option<(u128, Post)>
        ensures { (under : picks.Picks → List (ℕ × post.Post)) →
            AreRings (fronts_of self.now) (receive_at self.now.standings) under →
            result ≡ oldest_of under env.now }
    {
        let from = Peer::One(env.from);
        let tag = TagPick::One(env.tag);
        let named = earlier(self.front(from, tag, env), self.front(Peer::Any, tag, env));
        let any_tag = earlier(
            self.front(from, TagPick::Any, env),
            self.front(Peer::Any, TagPick::Any, env),
        );
        earlier(named, any_tag)
    }

    /// Enters a receive that comes last under a key, and answers the number of the oldest.
    fn enter(&mut self, key: Picks, number: u64) -> Result<u64, Memory>
        ensures first { IfOk result (λ first.
            first ≡ option_map_or (λ n. n) (fronts_of self.old key) number) }
        ensures own { IfOk result (λ first. fronts_of self.new key ≡ Some first) }
        ensures others { (k : picks.Picks) → same_picks key k ≡ false →
            fronts_of self.new k ≡ fronts_of self.old k }
        ensures err { OnErr result (fronts_of self.new key ≡ fronts_of self.old key) }
        ensures standings { self.new.standings ≡ self.old.standings }
    {
        if is_named(&key) {
            self.named.enter(key, number)
        } else {
            self.wild.enter(key, number)
        }
    }

    /// Puts a receive last under its key.
    pub(crate) fn put(&mut self, order: u64, p: Post) -> Result<(), Memory>
        ensures ok { OnOk result ((posts : List post.Post) (cancelled : List ℕ) →
            AllPairs TwoReceives posts → ArePosted posts cancelled order self.old →
            find (λ q. q.number == p.number) posts ≡ None →
            ArePosted (posts ++ p ∷ []) cancelled (order + 1) self.new) }
        ensures err { OnErr result ((posts : List post.Post) (cancelled : List ℕ) (next : ℕ) →
            ArePosted posts cancelled next self.old → ArePosted posts cancelled next self.new) }
    {
        self.standings.make_room(p.number)?;
        let key = of_post(&p);
        let next = self.enter(key, p.number)?;
        self.standings.let_in(order, p, next);
        Ok(())
    }

    /// Takes the receive of this number, which waits under a key, out of its ring.
    fn leave(&mut self, key: Picks, number: u64)
        ensures { HasLeft key number (fronts_of self.old) (fronts_of self.new)
            (receive_at self.old.standings) (receive_at self.new.standings) }
    {
        let next = self.standings.shut_out(number);
        if is_named(&key) {
            self.named.pass(key, number, next);
        } else {
            self.wild.pass(key, number, next);
        }
    }

    /// Takes the oldest receive under the key that stands by itself out of its ring.
    #[inline(always)]
    fn take_one(&mut self, key: Picks) -> Option<Post>
        requires { is_one self.old.named.one key ≡ true }
        ensures oldest { result ≡ option_map (λ x. x.1)
            (waiting_at (receive_at self.old.standings) (front_at self.old.named key)) }
        ensures left { IfSome result (λ p. HasLeft key p.number (front_at self.old.named)
            (front_at self.new.named) (receive_at self.old.standings) (receive_at self.new.standings)) }
        ensures wild { self.new.wild ≡ self.old.wild }
        ensures none { result ≡ None → self.new ≡ self.old }
    {
        let number = self.named.first_of_one()?;
        let (_, p) = self.standings.waiting(number)?;
        let next = self.standings.shut_out(p.number);
        self.named.pass_one(p.number, next);
        Some(p)
    }

    /// Takes the oldest receive under another key out of its ring.
    fn take_other(&mut self, key: Picks) -> Option<Post>
        requires { is_one self.old.named.one key ≡ false }
        ensures oldest { result ≡ option_map (λ x. x.1)
            (waiting_at (receive_at self.old.standings) (front_at self.old.named key)) }
        ensures left { IfSome result (λ p. HasLeft key p.number (front_at self.old.named)
            (front_at self.new.named) (receive_at self.old.standings) (receive_at self.new.standings)) }
        ensures wild { self.new.wild ≡ self.old.wild }
        ensures none { result ≡ None → self.new ≡ self.old }
    {
        if self.named.is_empty() {
            return None;
        }
        let place = self.named.place(key)?;
        let (_, p) = self.standings.waiting(self.named.number(place))?;
        let next = self.standings.shut_out(p.number);
        self.named.pass_at(place, p.number, next);
        Some(p)
    }

    /// Takes the oldest receive of those that name this source and this tag out of its ring.
    fn take_named(&mut self, key: Picks) -> Option<Post>
        ensures oldest { result ≡ option_map (λ x. x.1)
            (waiting_at (receive_at self.old.standings) (front_at self.old.named key)) }
        ensures left { IfSome result (λ p. HasLeft key p.number (front_at self.old.named)
            (front_at self.new.named) (receive_at self.old.standings) (receive_at self.new.standings)) }
        ensures wild { self.new.wild ≡ self.old.wild }
        ensures none { result ≡ None → self.new ≡ self.old }
    {
        if self.named.is_one(&key) {
            return self.take_one(key);
        }
        self.take_other(key)
    }

    /// Takes the oldest receive that selects a message out of its ring. Where no receive takes any
    /// source or any tag, one ring can have it.
    fn take_waiting(&mut self, env: &Envelope) -> Option<Post>
        ensures oldest { (under : picks.Picks → List (ℕ × post.Post)) →
            AreRings (fronts_of self.old) (receive_at self.old.standings) under →
            result ≡ option_map (λ x. x.1) (oldest_of under env.now) }
        ensures left { (under : picks.Picks → List (ℕ × post.Post)) (queue : List (ℕ × post.Post))
            (next : ℕ) → AreBuckets picks_of_post queue next under →
            AreRings (fronts_of self.old) (receive_at self.old.standings) under →
            IfSome result (λ p. HasLeft (picks_of_post p) p.number (fronts_of self.old)
            (fronts_of self.new) (receive_at self.old.standings) (receive_at self.new.standings)) }
        ensures none { result ≡ None → self.new ≡ self.old }
    {
        if self.wild.is_empty() {
            return self.take_named(Picks {
                from: Peer::One(env.from),
                tag: TagPick::One(env.tag),
                ctx: env.ctx,
            });
        }
        let (_, p) = self.oldest(env)?;
        self.leave(of_post(&p), p.number);
        Some(p)
    }

    /// Takes the oldest receive that selects a message. The others keep their order.
    pub(crate) fn take_oldest(&mut self, env: &Envelope) -> Option<Post>
        ensures oldest { (posts : List post.Post) (cancelled : List ℕ) (next : ℕ) →
            ArePosted posts cancelled next self.old →
            result ≡ find (λ p. matches p.from p.tag p.ctx env.now) posts }
        ensures others { (posts : List post.Post) (cancelled : List ℕ) (next : ℕ) →
            AllPairs TwoReceives posts → ArePosted posts cancelled next self.old →
            MatchOption result (ArePosted posts cancelled next self.new)
            (λ p. has cancelled p.number ≡ false → ArePosted
            (without_first (λ q. matches q.from q.tag q.ctx env.now) posts) cancelled next
            self.new) }
    {
        let p = self.take_waiting(env)?;
        self.standings.remove(p.number);
        Some(p)
    }

    /// Cancels the receive of this number if it waits, and answers whether it did. The others keep
    /// their order.
    pub(crate) fn cancel(&mut self, number: u64) -> bool
        ensures found { (posts : List post.Post) (cancelled : List ℕ) (next : ℕ) →
            ArePosted posts cancelled next self.old →
            result ≡ is_some (find (λ p. p.number == number) posts) }
        ensures others { IsTrue result →
            (posts : List post.Post) (cancelled : List ℕ) (next : ℕ) → AllPairs TwoReceives posts →
            ArePosted posts cancelled next self.old →
            ArePosted (without_first (λ p. p.number == number) posts) (cancelled ++ number ∷ [])
            next self.new }
        ensures same { result ≡ false → self.new ≡ self.old }
    {
        match self.standings.waiting(number) {
            Some((_, p)) => {
                self.leave(of_post(&p), number);
                self.standings.cancel(number);
                true
            }
            None => false,
        }
    }

    /// Whether the receive of this number, which does not wait, is cancelled.
    pub(crate) fn is_cancelled(&self, number: u64) -> bool
        ensures { (posts : List post.Post) (cancelled : List ℕ) (next : ℕ) →
            ArePosted posts cancelled next self.now →
            find (λ p. p.number == number) posts ≡ None → result ≡ has cancelled number }
    {
        match self.standings.get(number) {
            Some(receive) => receive.is_cancelled(),
            None => false,
        }
    }
}
