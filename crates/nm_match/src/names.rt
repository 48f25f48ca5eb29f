//! What receives and messages are known by, and where they stand.

ghost use Rattle.std.specs.Prelude.{◌≡◌, ◌<◌, ◌^◌, ◌+◌, ◌*◌};
ghost use Rattle.std.specs.Hash as fed;
ghost use Rattle.nm_match.specs.Rings.{is_cancelled as is_cancelled_lem, with_before, with_next};
ghost use Rattle.nm_match.specs.Names.{id_of_arrival, id_of_receive, is_aside as is_aside_lem};

use crate::picks::Picks;
use nm_types::{Arrival, Peer, TagPick};
use std::hash::{Hash, Hasher};

/// A message, by the other rank of it and its number among those of the two.
#[derive(Clone, Copy, Eq)]
pub struct Message {
    pub rank: u8,
    pub n: u64,
}

impl PartialEq for Message {
    ghost use Rattle.std.proofs.Common.{rules};
    ghost use Rattle.std.specs.Cmp.Rules.{comparing};
    ghost use Rattle.nm_match.specs.Names.{same_message};

    ghost eq = { λ a b. same_message a b };

    ghost laws = { Prim.search (comparing, rules) };

    fn eq(&self, other: &Message) -> bool {
        self.rank == other.rank && self.n == other.n
    }
}

impl Hash for Message {
    ghost use Rattle.nm_match.specs.SameKeys.{message_alike};

    ghost hash_input = { λ a. fed.u128 (a.rank + 256 * a.n) };

    ghost respects_eq = { message_alike.fed };

    fn hash<H: Hasher>(&self, state: &mut H) {
        state.write_u128(u128::from(self.rank) + 256 * u128::from(self.n));
    }
}

/// Where a receive or a message stands that is in no pair.
#[derive(Clone, Copy)]
pub enum Standing {
    /// It waits in the bucket of this key, under this order number.
    Waits { key: Picks, order: u128 },
    /// It waits no more: the receive is cancelled, the message is claimed.
    Aside,
}

impl Standing {
    /// Whether it waits no more.
    pub(crate) fn is_aside(&self) -> bool
        ensures { result ≡ is_aside_lem self.now }
    {
        matches!(self, Standing::Aside)
    }
}

/// What a message is known by.
pub(crate) fn id_of(a: &Arrival) -> Message
    ensures { result ≡ id_of_arrival a.now }
{
    Message {
        rank: a.env.from,
        n: a.n,
    }
}

/// Message `n` of a rank.
pub(crate) fn message_id(from: u8, n: u64) -> Message
    ensures id { result ≡ record { rank = from; n = n } }
    ensures small { (from < 2 ^ 8) × (n < 2 ^ 64) }
{
    Message { rank: from, n }
}

/// What a receive is known by: the receives of a rank are one group.
pub(crate) fn receive_id(number: u64) -> Message
    ensures id { result ≡ id_of_receive number }
    ensures small { number < 2 ^ 64 }
{
    Message { rank: 0, n: number }
}

/// What is kept of a receive that is in no pair.
///
/// Those that wait and name the same are a ring: each knows the numbers of the one before it and of the
/// one behind it, and the oldest is behind the newest.
#[derive(Clone, Copy)]
pub enum Receive {
    /// It waits, under this order number.
    Waits {
        ctx: u8,
        from: Peer,
        tag: TagPick,
        cap: u32,
        order: u64,
        before: u64,
        next: u64,
    },
    /// It was cancelled.
    Cancelled,
}

impl Receive {
    /// Whether it was cancelled.
    pub(crate) fn is_cancelled(&self) -> bool
        ensures { result ≡ is_cancelled_lem self.now }
    {
        matches!(self, Receive::Cancelled)
    }

    /// Puts another one behind it, if it waits.
    pub(crate) fn set_next(&mut self, number: u64)
        ensures { self.new ≡ with_next number self.old }
    {
        if let Receive::Waits { next, .. } = self {
            *next = number;
        }
    }

    /// Puts another one before it, if it waits.
    pub(crate) fn set_before(&mut self, number: u64)
        ensures { self.new ≡ with_before number self.old }
    {
        if let Receive::Waits { before, .. } = self {
            *before = number;
        }
    }
}
