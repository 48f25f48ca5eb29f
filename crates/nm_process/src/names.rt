//! The requests of a process by their names (MPI has handles; a script has names of 16 bits): a sparse set,
//! by pages (Briggs and Torczon, "An efficient representation for sparse sets", 1993). A name that came is
//! known by this: where its place says that it stands, it stands. So the places of other names may be any.

ghost use Rattle.std.specs.Prelude.{◌≡◌, ℕ, [], None, Some, IfNone, IfOk, IfSome, OnErr, OnOk};
ghost use Rattle.std.specs.Prelude.{if◌then◌else◌, nat_eq, option_map, slice_get};
ghost use Rattle.std.specs.Map.{lookup};

use crate::pages::Pages;
use nm_rank::Req;
use nm_types::Memory;
use std::alloc::Global;
use std::marker::Model;

/// Each name that came, and the request that it was last given.
pub(crate) struct RequestNames {
    // in the order in which they came
    entries: Vec<(u16, Req)>,
    // where each of them stands there
    places: Pages,
}

impl Drop for RequestNames {
    fn drop(self) {
        let RequestNames {
            entries: _,
            places: _,
        } = self;
    }
}

impl Model for RequestNames {
    ghost use Rattle.std.specs.Prelude.{ℕ, List};
    ghost use Rattle.nm_request.specs.declared.Req.{Req};
    ghost use Rattle.nm_process.specs.Sparse.{StandAt, place_of_name};

    ghost Value = { List (ℕ × Req) };

    ghost view = { λ a. a.entries.items };

    ghost invariant = { λ a. StandAt (place_of_name a.places) a.entries.items };
}

impl RequestNames {
    /// No name came. There is room for so many.
    pub(crate) fn with_capacity(alloc: Global, capacity: usize) -> Result<Self, Memory>
        ensures { IfOk result (λ names. names ≡ []) }
    {
        Ok(RequestNames {
            entries: Vec::with_capacity(alloc, capacity)?,
            places: Pages::new(alloc),
        })
    }

    // Where a name stands, if it came.
    fn find(&self, q: u16) -> Option<usize>
        ensures some { IfSome result (λ p. option_map (λ e. e.0) (slice_get self.now p) ≡ Some q) }
        ensures none { IfNone result (lookup (nat_eq q) self.now ≡ None) }
    {
        let place = usize::from(self.places.get(q));
        match self.entries.get(place) {
            Some((name, _)) if *name == q => Some(place),
            _ => None,
        }
    }

    /// The request that a name was last given.
    pub(crate) fn get(&self, q: u16) -> Option<Req>
        ensures { result ≡ lookup (nat_eq q) self.now }
    {
        let place = self.find(q)?;
        Some(self.entries[place].1)
    }

    /// Gives a name a request.
    #[inline(always)]
    pub(crate) fn insert(&mut self, q: u16, request: Req) -> Result<(), Memory>
        ensures ok { OnOk result ((k : ℕ) → lookup (nat_eq k) self.new
            ≡ (if nat_eq q k then Some request else lookup (nat_eq k) self.old)) }
        ensures err { OnErr result (self.new ≡ self.old) }
    {
        match self.find(q) {
            Some(place) => {
                self.entries[place] = (q, request);
                Ok(())
            }
            None => self.add(q, request),
        }
    }

    // Gives a name its first request.
    #[inline(always)]
    fn add(&mut self, q: u16, request: Req) -> Result<(), Memory>
        requires new { lookup (nat_eq q) self.old ≡ None }
        ensures ok { OnOk result ((k : ℕ) → lookup (nat_eq k) self.new
            ≡ (if nat_eq q k then Some request else lookup (nat_eq k) self.old)) }
        ensures err { OnErr result (self.new ≡ self.old) }
    {
        // it fits: no name stands twice
        self.places.set(q, self.entries.len() as u16)?;
        self.entries.push((q, request))?;
        Ok(())
    }
}
