//! Calls on the one rank, what they reply, and the log of them.

ghost use Rattle.std.specs.Prelude.{◌≡◌, ◌-◌, ◌<◌, ◌≤◌, ◌↔◌, [], ◌∷◌, ◌++◌, length, IsNone};
ghost use Rattle.std.specs.Prelude.{OnErr, OnOk, option_copied, slice_get};

use nm_rank::{Cancelled, Req, State};
use nm_types::{Answer, Body, Memory};
use std::alloc::Global;
use std::marker::Model;

/// A call on the rank. The peer and the context of a start are 0, and a send is a standard one.
#[derive(Drop)]
pub enum Call {
    /// Starts a send.
    Isend { tag: u16, body: Body },
    /// Starts a receive.
    Irecv { tag: u16, cap: u32 },
    /// Moves the packets that the rank has for itself.
    Pump,
    /// Asks whether the request is complete.
    Test { r: Req },
    /// Takes the result of the request.
    Finish { r: Req },
    /// Cancels the request.
    Cancel { r: Req },
}

/// What a call replies.
#[derive(Drop)]
pub enum Reply {
    /// The request that was started.
    Started(Req),
    /// So many packets were moved.
    Moved(u64),
    /// So many packets were moved before memory was wanting.
    Short(u64),
    /// Whether the request is complete.
    Is(State),
    /// The result of the request.
    Ended(Answer),
    /// What the cancel came to.
    Undone(Cancelled),
    /// The request isn't live.
    NoSuch,
    /// The request is not complete.
    NotComplete,
    /// The rank can go on no more.
    Worn,
}

/// A call that was made, with the number of the one who made it, and its reply.
#[derive(Drop)]
pub struct Entry {
    pub who: u8,
    pub call: Call,
    pub reply: Reply,
}

/// The calls that were made, oldest first.
#[derive(Drop)]
pub struct CallLog {
    items: Vec<Entry>,
}

impl Model for CallLog {
    ghost use Rattle.std.specs.Prelude.{◌-◌, vec_capacity, vec_len};
    ghost use Rattle.nm_multi.specs.Calls.{Logged};

    ghost Value = { Logged };

    ghost view = { λ a.
        record { entries = a.items.items; spare = vec_capacity a.items - vec_len a.items } };
}

impl CallLog {
    /// No call was made.
    pub(crate) fn new(alloc: Global) -> CallLog
        ensures { result.entries ≡ [] }
    {
        CallLog {
            items: Vec::new(alloc),
        }
    }

    /// Makes room for one more entry.
    pub(crate) fn reserve(&mut self) -> Result<(), Memory>
        ensures entries { self.new.entries ≡ self.old.entries }
        ensures ok { OnOk result (0 < self.new.spare) }
    {
        self.items.reserve(1)?;
        Ok(())
    }

    /// Puts an entry at the end, for which there is room.
    pub(crate) fn add(&mut self, entry: Entry)
        requires room { 0 < self.old.spare }
        ensures { self.new.entries ≡ self.old.entries ++ entry ∷ [] }
    {
        self.items.push(entry).unwrap();
    }

    /// How many entries there are.
    pub fn len(&self) -> usize
        ensures { result ≡ length self.now.entries }
    {
        self.items.len()
    }

    /// The entry at place k, from 0; `None` where there are at most k.
    pub fn get(&self, k: usize) -> Option<&Entry>
        ensures value { option_copied result ≡ slice_get self.now.entries k }
        ensures none { IsNone result ↔ (length self.now.entries ≤ k) }
    {
        self.items.get(k)
    }

    pub(crate) fn as_slice(&self) -> &[Entry]
        ensures { result.now ≡ self.now.entries }
    {
        self.items.as_slice()
    }
}
