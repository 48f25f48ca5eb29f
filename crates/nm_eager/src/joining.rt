//! The receiver's end.

ghost use Rattle.std.specs.Prelude.{◌≡◌, ◌≢◌, ◌<◌, ◌≤◌, ◌↔◌, ℕ, length, IsTrue, IsOk, IfOk, OnOk, OnErr};
ghost use Rattle.std.specs.Prelude.{IsSomeAnd};
ghost use Rattle.nm_types.specs.declared.limits.TheConstants.{MAX_PACKETS};
ghost use Rattle.nm_eager.specs.Streams.{nothing_came, missing, skipped, after, joined_by};
ghost use Rattle.nm_eager.specs.Streams.{continues as continues_lem};
ghost use Rattle.nm_eager.specs.Streams.{IsStream, message_of, IsWholeIn, since_first, without};
ghost use Rattle.nm_eager.specs.Joining.{stream_from, Fits, IsReadyFor, MakesRoom};
ghost use Rattle.nm_eager.specs.Joining.{ChangesStream};

use crate::continuing::{continues, is_eager};
use crate::senders::Sender;
use nm_types::{Bytes, Joined, Memory, Packet, Shape, What};
use std::alloc::Global;
use std::marker::Model;

/// The receiver's end of eager messages. It keeps bytes, and no packet.
pub struct Joiner {
    shape: Shape,
    senders: Vec<Sender>,
}

impl Drop for Joiner {
    fn drop(self) {
        let Joiner {
            shape: _,
            senders: _,
        } = self;
    }
}

impl Model for Joiner {
    ghost use Rattle.std.specs.Prelude.{◌≡◌, vec_len};
    ghost use Rattle.nm_eager.specs.Joining.{Joining};

    ghost Value = { Joining };

    ghost view = { λ a. record { sizes = a.shape; senders = a.senders.items } };

    ghost invariant = { λ a. vec_len a.senders ≡ a.shape.ranks };
}

impl Joiner {
    /// Nothing came.
    pub fn new(alloc: Global, shape: Shape) -> Result<Self, Memory>
        ensures shape { IfOk result (λ joiner. joiner.sizes ≡ shape) }
        ensures empty { IfOk result
            (λ joiner. (from : ℕ) → stream_from joiner from ≡ nothing_came) }
    {
        let mut senders = Vec::new(alloc);
        for _ in 0..shape.ranks() {
            senders.push(Sender::new(alloc))?;
        }
        Ok(Joiner { shape, senders })
    }

    /// Whether a packet belongs to an eager message of a rank of the run, and continues its stream.
    pub fn fits(&self, p: &Packet) -> bool
        ensures value { IsTrue result ↔ Fits self.now p.now }
    {
        p.from < self.shape.ranks() && is_eager(p.what) && self.continues(p)
    }

    /// Whether a packet of a rank of the run is one of a message, and continues its stream.
    fn continues(&self, p: &Packet) -> bool
        requires { p.now.from < self.now.sizes.ranks }
        ensures { result ≡ continues_lem self.now.sizes.eager
            (stream_from self.now p.now.from).count (missing (stream_from self.now p.now.from))
            p.now.what (length p.now.payload) }
    {
        let sender = &self.senders[p.from as usize];
        let size = p.payload.as_slice().len();
        continues(
            self.shape.eager(),
            sender.count(),
            sender.missing(),
            p.what,
            size,
        )
    }

    /// How many messages of a sender were counted.
    pub fn count(&self, from: u8) -> u64
        requires sender { from < self.now.sizes.ranks }
        ensures { result ≡ (stream_from self.now from).count }
    {
        self.senders[from as usize].count()
    }

    /// How many bytes the unfinished eager message of a sender lacks; 0 where there is none.
    pub fn missing(&self, from: u8) -> u32
        requires sender { from < self.now.sizes.ranks }
        ensures value { result ≡ missing (stream_from self.now from) }
        ensures stream { IsStream (stream_from self.now from) }
    {
        self.senders[from as usize].missing()
    }

    /// How many places for messages of a sender are in memory: at most as many as messages were counted
    /// since the first one that wasn't taken, and none where all were.
    pub fn held(&self, from: u8) -> u64
        requires sender { from < self.now.sizes.ranks }
        ensures { result ≤ since_first (stream_from self.now from) }
    {
        self.senders[from as usize].held()
    }

    /// Counts a message that was sent by asking, so that eager ones have their numbers.
    pub fn skip(&mut self, from: u8)
        requires sender { from < self.old.sizes.ranks }
        requires closed { missing (stream_from self.old from) ≡ 0 }
        requires limit { (stream_from self.old from).count < MAX_PACKETS }
        ensures step { ChangesStream self.old self.new from (skipped (stream_from self.old from)) }
    {
        self.senders[from as usize].skip();
    }

    /// Makes the joiner ready for a packet. It stays so up to the next `add`, `skip` or `take`.
    #[inline(always)]
    pub fn reserve(&mut self, p: &Packet) -> Result<(), Memory>
        requires fits { Fits self.old p.now }
        ensures ok { OnOk result (IsReadyFor self.new p.now) }
        ensures succeeds { IsReadyFor self.old p.now → IsOk result }
        ensures same { MakesRoom self.old self.new p.now.from }
    {
        if let What::Head { len, .. } = p.what {
            self.senders[p.from as usize].reserve(len)?;
        }
        Ok(())
    }

    /// Joins a packet to its message. It takes no memory where the joiner is ready for the packet.
    #[inline(always)]
    pub fn add(&mut self, p: &Packet) -> Result<Joined, Memory>
        requires fits { Fits self.old p.now }
        requires limit { (stream_from self.old p.now.from).count < MAX_PACKETS }
        ensures step { OnOk result (ChangesStream self.old self.new p.now.from
            (after (stream_from self.old p.now.from) p.now.what p.now.payload)) }
        ensures joined { IfOk result (λ joined.
            joined ≡ joined_by p.now.what (missing (stream_from self.new p.now.from))) }
        ensures succeeds { IsReadyFor self.old p.now → IsOk result }
        ensures err { OnErr result (MakesRoom self.old self.new p.now.from) }
    {
        self.reserve(p)?;
        let joined = self.senders[p.from as usize].add(&p.what, p.payload.as_slice());
        Ok(joined)
    }

    /// Whether message n of a sender is whole and wasn't taken.
    pub fn is_whole(&self, from: u8, n: u64) -> bool
        requires sender { from < self.now.sizes.ranks }
        ensures value { IsTrue result ↔ IsWholeIn (stream_from self.now from) n }
    {
        self.senders[from as usize].is_whole(n)
    }

    /// Takes a whole message away. A message that was withdrawn is discarded so, too.
    pub fn take(&mut self, from: u8, n: u64) -> Bytes
        requires sender { from < self.old.sizes.ranks }
        requires whole { IsWholeIn (stream_from self.old from) n }
        ensures bytes { IsSomeAnd (message_of (stream_from self.old from) n)
            (λ m. result ≡ m.bytes) }
        ensures others { ChangesStream self.old self.new from
            (without (stream_from self.old from) n) }
    {
        self.senders[from as usize].take(n)
    }
}
