//! The core of one rank.

ghost use Rattle.std.specs.Prelude.{◌≡◌, ◌<◌, ◌↔◌, false, [], map, replicate, IfOk};
ghost use Rattle.nm_types.specs.declared.limits.TheConstants.{MAX_STAMP};
ghost use Rattle.nm_history.specs.Known.{nothing_known};
ghost use Rattle.nm_history.specs.Rest.{EmptyAreHere};
ghost use Rattle.nm_history.specs.Rules.{AreRight};
ghost use Rattle.nm_sending.specs.Outboxes.{popped_to};
ghost use Rattle.nm_sending.specs.Departures.{pushed_to};
ghost use Rattle.nm_rank.specs.Journals.{IsJournal};
ghost use Rattle.nm_rank.specs.New.{IsNew};
ghost use Rattle.nm_rank.specs.Ranks.{IsFresh, count_of};

use crate::journal::{Journal, Recorder};
use nm_history::History;
use nm_receiving::Receiving;
use nm_receiving::streams::Stream;
use nm_request::Requests;
use nm_sending::Sending;
use nm_types::{MAX_STAMP, Memory, Shape};
use std::alloc::Global;
use std::marker::Model;

/// The clock from which on a rank does nothing more.
const WORN: u64 = MAX_STAMP - 15;

/// The core of one rank: everything that it does, without a thread and without a shared word.
pub struct Rank<H: Recorder = History> {
    pub(crate) me: u8,
    pub(crate) shape: Shape,
    pub(crate) journal: Journal<H>,
    pub(crate) requests: Requests,
    pub(crate) sending: Sending,
    pub(crate) receiving: Receiving,
    // by rank
    pub(crate) streams: Vec<Stream>,
    pub(crate) took: Vec<u64>,
    pub(crate) pulled: Vec<u64>,
    pub(crate) strays: u64,
}

/// What a rank kept beside its history: nothing that can be used.
pub struct Leavings {
    requests: Requests,
    sending: Sending,
    receiving: Receiving,
    streams: Vec<Stream>,
}

impl Drop for Leavings {
    fn drop(self) {
        let Leavings {
            requests: _,
            sending: _,
            receiving: _,
            streams: _,
        } = self;
    }
}

impl Model for Leavings {
    ghost Value = { Unit {0} };

    ghost view = { λ left. tt };
}

impl<H: Recorder> Drop for Rank<H> {
    fn drop(self) {
        let Rank {
            me: _,
            shape: _,
            journal: _,
            requests: _,
            sending: _,
            receiving: _,
            streams: _,
            took: _,
            pulled: _,
            strays: _,
        } = self;
    }
}

impl<H: Recorder> Model for Rank<H> {
    ghost use Rattle.std.specs.Prelude.{map};
    ghost use Rattle.nm_rank.specs.Ranks.{RankView, seen};
    ghost use Rattle.nm_rank.specs.Fields.{AreFields};

    ghost Value = { RankView };

    ghost view = { λ r.
        seen r.me r.shape r.journal r.sending r.receiving (map (λ s. s.known) r.streams.items)
        r.requests r.took.items r.pulled.items r.strays };

    ghost invariant = { λ r.
        AreFields r.me r.shape r.journal r.sending r.receiving (map (λ s. s.known) r.streams.items)
        r.requests r.took.items r.pulled.items };
}

/// For each rank, that none were counted.
fn zeros(alloc: Global, ranks: u8) -> Result<Vec<u64>, Memory>
    ensures { IfOk result (λ counts. counts.items ≡ replicate ranks 0) }
{
    Ok(vec![in alloc; 0; ranks as usize]?)
}

/// For each rank, that nothing came of it.
fn new_streams(alloc: Global, ranks: u8) -> Result<Vec<Stream>, Memory>
    ensures { IfOk result (λ streams. map (λ s. s.known) streams.items ≡ replicate ranks nothing_known) }
{
    let mut streams = Vec::new(alloc);
    for _rank in 0..ranks {
        streams.push(Stream::new(alloc))?;
    }
    Ok(streams)
}

impl<H: Recorder> Rank<H> {
    /// A rank at which nothing happened, in a run of these sizes.
    pub fn new(alloc: Global, shape: Shape, me: u8) -> Result<Self, Memory>
        requires { me < shape.ranks }
        ensures { IfOk result (IsNew shape me) }
    {
        Self::with_capacity(alloc, shape, me, 0, 0)
    }

    /// The same, with room for so many events, and for so many requests, of sends one half and of
    /// receives the other.
    pub fn with_capacity(
        alloc: Global,
        shape: Shape,
        me: u8,
        events: usize,
        requests: usize,
    ) -> Result<Self, Memory>
        requires { me < shape.ranks }
        ensures { IfOk result (IsNew shape me) }
    {
        let mut journal = Journal::new(alloc);
        journal.reserve(events)?;
        let ranks = shape.ranks();
        let took = zeros(alloc, ranks)?;
        let pulled = zeros(alloc, ranks)?;
        let streams = new_streams(alloc, ranks)?;
        let sending = Sending::with_capacity(alloc, ranks, me, requests / 2)?;
        let receiving = Receiving::with_capacity(alloc, shape, requests / 2)?;
        Ok(Rank {
            me,
            shape,
            journal,
            requests: Requests::with_capacity(alloc, requests)?,
            sending,
            receiving,
            streams,
            took,
            pulled,
            strays: 0,
        })
    }

    /// Whether the rank can go on no more: its clock, its requests, or its messages or packets to a
    /// rank are at their limits.
    pub fn is_worn(&self) -> bool
        ensures { (result ≡ false) ↔ IsFresh self.now }
    {
        self.journal.clock() >= WORN || self.requests.is_worn() || self.sending.is_worn()
    }

    /// What happened, oldest first. A message that has no bytes, was sent by asking and was taken by a
    /// receive is here.
    pub fn history(&self) -> &H
        ensures events { H.events result.now ≡ self.now.events }
        ensures right { AreRight self.now.sizes.ranks [] self.now.events }
        ensures stamped { IsJournal self.now.events self.now.clock }
        ensures empty { EmptyAreHere self.now.events }
    {
        self.journal.history()
    }

    /// What happened, oldest first, and what the rank kept beside it, when it is used no more.
    pub fn into_parts(self) -> (H, Leavings)
        ensures events { H.events result.0 ≡ self.events }
    {
        let Rank {
            me: _,
            shape: _,
            journal,
            requests,
            sending,
            receiving,
            streams,
            took: _,
            pulled: _,
            strays: _,
        } = self;
        let left = Leavings {
            requests,
            sending,
            receiving,
            streams,
        };
        (journal.into_history(), left)
    }

    /// What happened, oldest first, when the rank is used no more.
    pub fn into_history(self) -> H
        ensures events { H.events result ≡ self.events }
    {
        let (history, _) = self.into_parts();
        history
    }

    /// How many packets to a rank have left.
    pub fn popped(&self, to: u8) -> u64
        requires { to < self.now.sizes.ranks }
        ensures { result ≡ popped_to self.now.sending.outbox to }
    {
        self.sending.popped(to)
    }

    /// How many packets of a rank were taken.
    pub fn took(&self, from: u8) -> u64
        requires { from < self.now.sizes.ranks }
        ensures { result ≡ count_of self.now.took from }
    {
        self.took[from as usize]
    }

    /// How many pieces to a rank have left.
    pub fn pushed(&self, to: u8) -> u64
        requires { to < self.now.sizes.ranks }
        ensures { result ≡ pushed_to self.now.sending to }
    {
        self.sending.pushed(to)
    }

    /// How many pieces of a rank were taken.
    pub fn pulled(&self, from: u8) -> u64
        requires { from < self.now.sizes.ranks }
        ensures { result ≡ count_of self.now.pulled from }
    {
        self.pulled[from as usize]
    }

    /// How many packets and pieces did not continue their stream. The count stands still at the
    /// last number of 64 bits.
    pub fn strays(&self) -> u64
        ensures { result ≡ self.now.strays }
    {
        self.strays
    }
}
