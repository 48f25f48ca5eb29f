//! The unexpected message queue: the messages that no receive took yet, in buckets by what names
//! them; and the messages that are claimed.

ghost use Rattle.std.specs.Prelude.{◌≡◌, ℕ, ◌+◌, ◌++◌, [], ◌∷◌, false, None, AllPairs};
ghost use Rattle.std.specs.Prelude.{IfSome, IsTrue, List, MatchOption, OnErr, OnOk, Some, filter};
ghost use Rattle.std.specs.Prelude.{find, is_some, not, option_map};
ghost use Rattle.indexmap.specs.IndexMap.{get};
ghost use Rattle.nm_types.specs.declared.messages.Arrival as arrival;
ghost use Rattle.nm_history.specs.Selection.{matches};
ghost use Rattle.nm_match.specs.declared.names.Message as message;
ghost use Rattle.nm_match.specs.declared.names.Standing.TheVariants as standing;
ghost use Rattle.nm_match.specs.Deeds.{is_message};
ghost use Rattle.nm_match.specs.Names.{AreUnexpected, has_one, id_of_arrival, same_message};
ghost use Rattle.nm_match.specs.Queues.{TwoMessages, without_first};

use crate::names::{Message, Standing, id_of};
use crate::picks::{Picks, of_arrival};
use crate::waiting::Waiting;
use indexmap::IndexMap;
use nm_types::{Arrival, Memory, Peer, TagPick};
use std::alloc::Global;

/// The messages that wait, and those that are claimed.
pub struct Unexpected {
    pub waiting: Waiting,
    /// Where each of them stands.
    pub standings: IndexMap<Message, Standing>,
}

impl Drop for Unexpected {
    fn drop(self) {
        let Unexpected {
            waiting: _,
            standings: _,
        } = self;
    }
}

/// Sets aside a message, if it waits.
fn set_aside(standings: &mut IndexMap<Message, Standing>, id: Message)
    ensures own { get same_message standings.new id
        ≡ option_map (λ s. standing.Aside) (get same_message standings.old id) }
    ensures others { (i : message.Message) → same_message id i ≡ false →
        get same_message standings.new i ≡ get same_message standings.old i }
{
    if let Some(standing) = standings.get_mut(&id) {
        *standing = Standing::Aside;
    }
}

impl Unexpected {
    /// No message came.
    pub(crate) fn new(alloc: Global) -> Self
        ensures none { (next : ℕ) → AreUnexpected [] [] next result }
    {
        Unexpected {
            waiting: Waiting::new(alloc),
            standings: IndexMap::new(alloc),
        }
    }

    /// The oldest message that a receive or a probe selects.
    pub(crate) fn oldest(&self, from: Peer, tag: TagPick, ctx: u8) -> Option<Arrival>
        ensures { (arrivals claimed : List arrival.Arrival) (next : ℕ) →
            AreUnexpected arrivals claimed next self.now →
            result ≡ find (λ a. matches from tag ctx a.env) arrivals }
    {
        let (_, a) = self.waiting.oldest(Picks { from, tag, ctx })?;
        Some(a)
    }

    /// Puts a message that is new last.
    pub(crate) fn put(&mut self, order: u128, a: Arrival) -> Result<(), Memory>
        ensures ok { OnOk result ((arrivals claimed : List arrival.Arrival) →
            AreUnexpected arrivals claimed order self.old →
            find (is_message a.env.from a.n) arrivals ≡ None →
            AreUnexpected (arrivals ++ a ∷ []) claimed (order + 1) self.new) }
        ensures err { OnErr result ((arrivals claimed : List arrival.Arrival) (next : ℕ) →
            AreUnexpected arrivals claimed next self.old →
            AreUnexpected arrivals claimed next self.new) }
    {
        self.standings.reserve(1)?;
        let key = of_arrival(&a);
        self.waiting.put(order, a)?;
        self.standings
            .insert(id_of(&a), Standing::Waits { key, order })
            .unwrap();
        Ok(())
    }

    /// Takes the oldest message that a receive selects. The others keep their order.
    pub(crate) fn take_oldest(&mut self, from: Peer, tag: TagPick, ctx: u8) -> Option<Arrival>
        ensures oldest { (arrivals claimed : List arrival.Arrival) (next : ℕ) →
            AreUnexpected arrivals claimed next self.old →
            result ≡ find (λ a. matches from tag ctx a.env) arrivals }
        ensures others { (arrivals claimed : List arrival.Arrival) (next : ℕ) →
            AllPairs TwoMessages arrivals → AreUnexpected arrivals claimed next self.old →
            MatchOption result (AreUnexpected arrivals claimed next self.new)
            (λ a. has_one claimed (id_of_arrival a) ≡ false → AreUnexpected
            (without_first (λ a. matches from tag ctx a.env) arrivals) claimed next self.new) }
    {
        if self.waiting.is_empty() {
            return None;
        }
        let (_, a) = self.waiting.take_oldest(Picks { from, tag, ctx })?;
        let _ = self.standings.swap_remove(&id_of(&a));
        Some(a)
    }

    /// Keeps what waits by each wildcard, too, where that spares looks.
    pub(crate) fn index(&mut self)
        ensures { (arrivals claimed : List arrival.Arrival) (next : ℕ) →
            AreUnexpected arrivals claimed next self.old →
            AreUnexpected arrivals claimed next self.new }
    {
        self.waiting.index();
    }

    /// Claims the oldest message that a probe selects. The others keep their order.
    pub(crate) fn claim_oldest(&mut self, from: Peer, tag: TagPick, ctx: u8) -> Option<Arrival>
        ensures oldest { (arrivals claimed : List arrival.Arrival) (next : ℕ) →
            AreUnexpected arrivals claimed next self.old →
            result ≡ find (λ a. matches from tag ctx a.env) arrivals }
        ensures others { (arrivals claimed : List arrival.Arrival) (next : ℕ) →
            AllPairs TwoMessages arrivals → AreUnexpected arrivals claimed next self.old →
            MatchOption result (AreUnexpected arrivals claimed next self.new)
            (λ a. AreUnexpected (without_first (λ a. matches from tag ctx a.env) arrivals)
            (claimed ++ a ∷ []) next self.new) }
    {
        let (_, a) = self.waiting.take_oldest(Picks { from, tag, ctx })?;
        set_aside(&mut self.standings, id_of(&a));
        Some(a)
    }

    /// The key of the bucket where a message waits, and its order number there.
    fn place(&self, id: Message) -> Option<(Picks, u128)>
        ensures some { IfSome result (λ r.
            get same_message self.now.standings id ≡ Some (standing.Waits r.0 r.1)) }
        ensures none { result ≡ None → get same_message self.now.standings id
            ≡ option_map (λ s. standing.Aside) (get same_message self.now.standings id) }
    {
        match self.standings.get(&id)? {
            Standing::Waits { key, order } => Some((*key, *order)),
            Standing::Aside => None,
        }
    }

    /// Takes a message if it waits, and answers whether it did. The others keep their order.
    pub(crate) fn withdraw(&mut self, id: Message) -> bool
        ensures found { (arrivals claimed : List arrival.Arrival) (next : ℕ) →
            AreUnexpected arrivals claimed next self.old →
            result ≡ is_some (find (is_message id.rank id.n) arrivals) }
        ensures others { IsTrue result →
            (arrivals claimed : List arrival.Arrival) (next : ℕ) → AllPairs TwoMessages arrivals →
            AreUnexpected arrivals claimed next self.old → has_one claimed id ≡ false →
            AreUnexpected (without_first (is_message id.rank id.n) arrivals) claimed next self.new }
        ensures same { result ≡ false → self.new ≡ self.old }
    {
        match self.place(id) {
            Some((key, order)) => {
                self.waiting.take(key, order);
                let _ = self.standings.swap_remove(&id);
                true
            }
            None => false,
        }
    }

    /// Whether a message, which does not wait, is claimed.
    pub(crate) fn is_claimed(&self, id: Message) -> bool
        ensures none { (arrivals claimed : List arrival.Arrival) (next : ℕ) →
            AreUnexpected arrivals claimed next self.now →
            find (is_message id.rank id.n) arrivals ≡ None → result ≡ has_one claimed id }
        ensures some { (arrivals claimed : List arrival.Arrival) (next : ℕ) →
            AreUnexpected arrivals claimed next self.now →
            IsTrue (is_some (find (is_message id.rank id.n) arrivals)) → result ≡ false }
    {
        match self.standings.get(&id) {
            Some(standing) => standing.is_aside(),
            None => false,
        }
    }

    /// Lets a claimed message go.
    pub(crate) fn take_claimed(&mut self, id: Message)
        ensures left { (arrivals claimed : List arrival.Arrival) (next : ℕ) →
            AreUnexpected arrivals claimed next self.old →
            find (is_message id.rank id.n) arrivals ≡ None → AreUnexpected arrivals
            (filter (λ a. not (is_message id.rank id.n a)) claimed) next self.new }
    {
        let _ = self.standings.swap_remove(&id);
    }
}
