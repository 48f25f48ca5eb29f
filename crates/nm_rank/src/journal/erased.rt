//! Events of which memory keeps the last one alone.

ghost use Rattle.std.specs.Prelude.{◌^◌};

use crate::journal::Recorder;
use nm_ghost::Latest;
use nm_history::Event;
use nm_types::Memory;
use std::alloc::Global;

/// A history that exists in proofs alone: contracts know all its events, and memory keeps the last one.
#[derive(Drop)]
pub struct Erased {
    all: Latest<Event>,
}

impl Recorder for Erased {
    ghost events = { λ h. h.all };

    // it takes no memory, so there is room for as many as a call may ask for
    ghost spare = { λ _. 2 ^ 64 };

    fn empty(_alloc: Global) -> Erased {
        Erased { all: Latest::new() }
    }

    fn make_room(&mut self, _extra: usize) -> Result<(), Memory> {
        Ok(())
    }

    #[inline(always)]
    fn put(&mut self, e: Event) {
        self.all.push(e);
    }

    fn last(&self) -> Option<&Event> {
        self.all.last()
    }
}
