//! The live requests of a rank (MPI 3.1, section 3.7).
//!
//! A request has a key, under which it is kept, and a turn, which counts the requests that were added before
//! it. Keys are used again, turns are not, so a request that was freed is unknown for ever.
//!
//! # What a contract sees
//! A map from requests to kinds, the number of requests added so far, and the number of requests for which
//! there is room.
//! # What is proved
//! - `add` gives a request that was never given before, and changes no other (clause `ok`).
//! - `get` and `free` answer `NoSuch` exactly if the request isn't live (clause `kind`).
//! - Want of memory leaves everything as it was, and is never reported if there is room.
//! # What is only tested
//! That `add`, `reserve` and `with_capacity` succeed with ample memory (`nm_rows`).
#![tactic(auto)]

ghost use Rattle.std.specs.Prelude.{◌≡◌, ◌<◌, ◌≤◌, ◌↔◌, ◌^◌, None, IsOk, IfOk, OnOk, OnErr, IsTrue};
ghost use Rattle.std.specs.Option.{ok_or};
ghost use Rattle.nm_request.specs.declared.Req.{Req};
ghost use Rattle.nm_request.specs.declared.TheConstants.{MAX_REQUESTS};
ghost use Rattle.nm_request.specs.Requests.{kind_of, AllAreOlder, SameRequests};
ghost use Rattle.nm_request.specs.Requests.{AddsRequest, FreesRequest};

use nm_types::Memory;
use slab::Slab;
use std::alloc::Global;
use std::marker::Model;

/// How many requests can be added to a `Requests` in all.
pub const MAX_REQUESTS: u64 = 4611686018427387904;

/// The number of requests that can be added in all.
pub fn limit()
    ensures { MAX_REQUESTS ≡ 2 ^ 62 }
{}

/// A request: the key under which it is kept, and how many requests were added before it.
#[derive(Clone, Copy)]
pub struct Req {
    pub key: usize,
    pub turn: u64,
}

/// What a request stands for.
#[derive(Clone, Copy, Debug, PartialEq)]
pub enum Kind {
    /// The send of message `n` to rank `to`.
    Send { to: u8, n: u64 },
    /// The receive with this number.
    Receive { number: u64 },
}

/// The request isn't live.
#[derive(Clone, Copy, Debug, PartialEq)]
pub struct NoSuch;

/// The live requests of a rank.
pub struct Requests {
    live: Slab<(u64, Kind)>,
    added: u64,
}

impl Drop for Requests {
    fn drop(self) {
        let Requests { live: _, added: _ } = self;
    }
}

impl Model for Requests {
    ghost use Rattle.std.specs.Prelude.{◌-◌, ◌≤◌};
    ghost use Rattle.slab.specs.Slab.{slab_len};
    ghost use Rattle.nm_request.specs.Requests.{Live, AllAreOlder};
    ghost use Rattle.nm_request.specs.declared.TheConstants.{MAX_REQUESTS};

    ghost Value = { Live };

    ghost view = { λ a. record {
      slots = a.live.slots;
      added = a.added;
      spare = a.live.capacity - slab_len a.live;
    } };

    ghost invariant = { λ a. (a.added ≤ MAX_REQUESTS)
        × AllAreOlder (record { slots = a.live.slots; added = a.added; spare = 0 }) };
}

impl Requests {
    /// No request.
    pub fn new(alloc: Global) -> Self
        ensures none { (r : Req) → kind_of result r ≡ None }
        ensures counted { result.added ≡ 0 }
    {
        Requests {
            live: Slab::new(alloc),
            added: 0,
        }
    }

    /// No request, with room for so many.
    pub fn with_capacity(alloc: Global, requests: usize) -> Result<Self, Memory>
        ensures none { IfOk result (λ live. (r : Req) → kind_of live r ≡ None) }
        ensures counted { IfOk result (λ live. live.added ≡ 0) }
        ensures room { IfOk result (λ live. requests ≤ live.spare) }
    {
        Ok(Requests {
            live: Slab::with_capacity(alloc, requests)?,
            added: 0,
        })
    }

    /// Whether no request can be added any more.
    pub fn is_worn(&self) -> bool
        ensures value { IsTrue result ↔ (self.now.added ≡ MAX_REQUESTS) }
        ensures limit { self.now.added ≤ MAX_REQUESTS }
        ensures older { AllAreOlder self.now }
    {
        self.added == MAX_REQUESTS
    }

    /// Makes room for one request more.
    pub fn reserve(&mut self) -> Result<(), Memory>
        ensures ok { OnOk result (0 < self.new.spare) }
        ensures succeeds { 0 < self.old.spare → IsOk result }
        ensures same { SameRequests self.old self.new }
        ensures older { AllAreOlder self.new }
    {
        self.live.reserve(1)?;
        Ok(())
    }

    /// Adds a request. It takes no memory where there is room.
    #[inline(always)]
    pub fn add(&mut self, kind: Kind) -> Result<Req, Memory>
        requires in_range { self.old.added < MAX_REQUESTS }
        ensures ok { IfOk result (λ r. AddsRequest self.old self.new r kind) }
        ensures succeeds { 0 < self.old.spare → IsOk result }
        ensures err { OnErr result (SameRequests self.old self.new) }
        ensures older { AllAreOlder self.new }
    {
        self.reserve()?;
        let turn = self.added;
        let key = self.live.insert_reserved((turn, kind));
        self.added += 1;
        Ok(Req { key, turn })
    }

    /// What a live request stands for.
    pub fn get(&self, r: Req) -> Result<Kind, NoSuch>
        ensures kind { result ≡ ok_or (kind_of self.now r) (record {}) }
        ensures older { AllAreOlder self.now }
    {
        match self.live.get(r.key) {
            Some((turn, kind)) if *turn == r.turn => Ok(*kind),
            _ => Err(NoSuch),
        }
    }

    /// Takes a live request away.
    pub fn free(&mut self, r: Req) -> Result<Kind, NoSuch>
        ensures kind { result ≡ ok_or (kind_of self.old r) (record {}) }
        ensures ok { OnOk result (FreesRequest self.old self.new r) }
        ensures err { OnErr result (self.new ≡ self.old) }
        ensures older { AllAreOlder self.new }
    {
        let kind = self.get(r)?;
        self.live.try_remove(r.key);
        Ok(kind)
    }
}
