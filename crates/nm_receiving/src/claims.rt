//! The matcher of a rank, and the messages that are claimed.

ghost use Rattle.std.specs.Prelude.{◌≡◌, ◌++◌, ◌&&◌, ◌<◌, false, if◌then◌else◌, not, [], ◌∷◌, None, Some};
ghost use Rattle.std.specs.Prelude.{IfOk, IsSome, IsTrue, MatchOption, OnErr, OnOk, option_map};
ghost use Rattle.std.specs.List.{list_any};
ghost use Rattle.std.specs.Map.{lookup};
ghost use Rattle.indexmap.specs.IndexMap.{spare};
ghost use Rattle.nm_history.specs.Happens.{happened, is_cancel};
ghost use Rattle.nm_history.specs.Matching.{first_message, first_receive, is_free_message, matched_pairs};
ghost use Rattle.nm_history.specs.Matching.{is_claimed as is_claimed_lem, is_of_receive};
ghost use Rattle.nm_history.specs.Sends.{message_of};
ghost use Rattle.nm_match.specs.declared.deeds.Deed.TheVariants as deed;
ghost use Rattle.nm_match.specs.declared.names.Message as message;
ghost use Rattle.nm_match.specs.Deeds.{history_of, is_known_message, is_known_receive};
ghost use Rattle.nm_match.specs.Names.{id_of_arrival, same_message};

use indexmap::IndexMap;
use nm_match::{Matcher, Message};
use nm_types::{Arrival, Memory, Peer, Post, TagPick};
use std::alloc::Global;
use std::marker::Model;

/// The matcher of a rank, and each message that is claimed and not yet received. Its calls are the matcher's,
/// but for `claimed`.
pub(crate) struct Claims {
    matcher: Matcher,
    claimed: IndexMap<Message, Arrival>,
}

impl Drop for Claims {
    fn drop(self) {
        let Claims {
            matcher: _,
            claimed: _,
        } = self;
    }
}

impl Model for Claims {
    ghost use Rattle.std.specs.Prelude.{List};
    ghost use Rattle.nm_match.specs.declared.deeds.Deed.{Deed};
    ghost use Rattle.nm_receiving.specs.Claims.{AreNoted};

    ghost Value = { List Deed };

    ghost view = { λ c. c.matcher };

    ghost invariant = { λ c. AreNoted c.claimed.entries c.matcher };
}

/// The message of this name, where it is in memory.
fn find(claimed: &IndexMap<Message, Arrival>, id: Message) -> Option<Arrival>
    ensures { result ≡ lookup (same_message id) claimed.now.entries }
{
    claimed.get(&id).copied()
}

/// Notes a message. There is room for it.
fn note(claimed: &mut IndexMap<Message, Arrival>, a: Arrival)
    requires { 0 < spare claimed.old }
    ensures own { lookup (same_message (id_of_arrival a)) claimed.new.entries ≡ Some a }
    ensures others { (id : message.Message) → same_message (id_of_arrival a) id ≡ false →
        lookup (same_message id) claimed.new.entries
        ≡ lookup (same_message id) claimed.old.entries }
{
    let id = Message {
        rank: a.env.from,
        n: a.n,
    };
    claimed.insert(id, a).unwrap();
}

/// Lets go the message of this name.
fn forget(claimed: &mut IndexMap<Message, Arrival>, id: Message)
    ensures own { lookup (same_message id) claimed.new.entries ≡ None }
    ensures others { (other : message.Message) → same_message id other ≡ false →
        lookup (same_message other) claimed.new.entries
        ≡ lookup (same_message other) claimed.old.entries }
{
    let _ = claimed.swap_remove(&id);
}

impl Claims {
    /// No receive was posted and no message came.
    pub(crate) fn new(alloc: Global) -> Self
        ensures { result ≡ [] }
    {
        Claims {
            matcher: Matcher::new(alloc),
            claimed: IndexMap::new(alloc),
        }
    }

    /// Posts a receive, and answers the message that it takes.
    pub(crate) fn post(&mut self, p: Post) -> Result<Option<Arrival>, Memory>
        requires is_new { is_known_receive (history_of self.old) p.number ≡ false }
        ensures oldest { let h = history_of self.old in IfOk result
            (λ taken. taken ≡ first_message h (matched_pairs h) p.from p.tag p.ctx) }
        ensures ok { OnOk result (self.new ≡ self.old ++ deed.Post p ∷ []) }
        ensures err { OnErr result (self.new ≡ self.old) }
    {
        self.matcher.post(p)
    }

    /// Brings a message, and answers the number of the receive that takes it.
    pub(crate) fn arrive(&mut self, a: Arrival) -> Result<Option<u64>, Memory>
        requires is_new { is_known_message (history_of self.old) a.env.from a.n ≡ false }
        ensures oldest { let h = history_of self.old in IfOk result
            (λ taken. taken
            ≡ option_map (λ p. p.number) (first_receive h (matched_pairs h) a.env)) }
        ensures ok { OnOk result (self.new ≡ self.old ++ deed.Arrive a ∷ []) }
        ensures err { OnErr result (self.new ≡ self.old) }
    {
        self.matcher.arrive(a)
    }

    /// Cancels a receive, and answers `false` where it came too late.
    pub(crate) fn cancel(&mut self, post: u64) -> bool
        requires known { IsTrue (is_known_receive (history_of self.old) post) }
        ensures late { result
            ≡ not (list_any (is_of_receive post) (matched_pairs (history_of self.old))) }
        ensures deeds { self.new
            ≡ (if result && not (happened (is_cancel post) (history_of self.old))
            then self.old ++ deed.Cancel post ∷ [] else self.old) }
    {
        self.matcher.cancel(post)
    }

    /// Withdraws a message, and answers `false` where it came too late.
    pub(crate) fn withdraw(&mut self, from: u8, n: u64) -> bool
        requires known { IsTrue (is_known_message (history_of self.old) from n) }
        ensures late { let h = history_of self.old in
            result ≡ is_free_message h (matched_pairs h) from n }
        ensures deeds { self.new
            ≡ (if result then self.old ++ deed.Withdraw from n ∷ [] else self.old) }
    {
        self.matcher.withdraw(from, n)
    }

    /// Prepares for probes of this source and this tag.
    pub(crate) fn prepare(&mut self, from: Peer, tag: TagPick)
        ensures { self.new ≡ self.old }
    {
        self.matcher.prepare(from, tag);
    }

    /// The message that a receive with this source, tag and context would take.
    pub(crate) fn probe(&self, from: Peer, tag: TagPick, ctx: u8) -> Option<Arrival>
        ensures oldest { let h = history_of self.now in
            result ≡ first_message h (matched_pairs h) from tag ctx }
    {
        self.matcher.probe(from, tag, ctx)
    }

    /// Claims the message that `probe` would answer.
    pub(crate) fn claim(
        &mut self,
        from: Peer,
        tag: TagPick,
        ctx: u8,
    ) -> Result<Option<Arrival>, Memory>
        ensures oldest { let h = history_of self.old in
            IfOk result (λ taken. taken ≡ first_message h (matched_pairs h) from tag ctx) }
        ensures ok { IfOk result (λ taken. MatchOption taken (self.new ≡ self.old)
            (λ a. self.new ≡ self.old ++ deed.Claim a.env.from a.n ∷ [])) }
        ensures err { OnErr result (self.new ≡ self.old) }
    {
        self.claimed.reserve(1)?;
        let taken = self.matcher.claim(from, tag, ctx)?;
        match taken {
            Some(a) => {
                note(&mut self.claimed, a);
                Ok(Some(a))
            }
            None => Ok(None),
        }
    }

    /// Whether a message is claimed and not yet received.
    pub(crate) fn is_claimed(&self, from: u8, n: u64) -> bool
        ensures value { let h = history_of self.now in
            result ≡ is_claimed_lem h (matched_pairs h) from n }
        ensures came { IsTrue result → IsSome (message_of (history_of self.now) from n) }
    {
        self.matcher.is_claimed(from, n)
    }

    /// A message that is claimed and not yet received.
    pub(crate) fn claimed(&self, from: u8, n: u64) -> Arrival
        requires { let h = history_of self.now in IsTrue (is_claimed_lem h (matched_pairs h) from n) }
        ensures { message_of (history_of self.now) from n ≡ Some result }
    {
        find(&self.claimed, Message { rank: from, n }).unwrap()
    }

    /// The receive of a claimed message, under a new number.
    pub(crate) fn take_claimed(&mut self, number: u64, from: u8, n: u64) -> Result<(), Memory>
        requires claimed { let h = history_of self.old in
            IsTrue (is_claimed_lem h (matched_pairs h) from n) }
        requires is_new { is_known_receive (history_of self.old) number ≡ false }
        ensures ok { OnOk result (self.new ≡ self.old ++ deed.Match number from n ∷ []) }
        ensures err { OnErr result (self.new ≡ self.old) }
    {
        self.matcher.take_claimed(number, from, n)?;
        forget(&mut self.claimed, Message { rank: from, n });
        Ok(())
    }
}
