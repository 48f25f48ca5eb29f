//! Why bytes are refused.

use nm_types::Memory;
use std::alloc::{AllocError, AllocFailed};

/// Why no record was read.
#[derive(Clone, Copy)]
pub enum TraceFault {
    /// The lines up to this one, counted from 1, begin no trace; or it is the line behind the last,
    /// where the text ends too soon.
    Bad { line: u32 },
    /// Want of memory. It says nothing of the bytes.
    Memory,
}

impl From<AllocError> for TraceFault {
    ghost use Rattle.std.specs.Prelude.{◌≡◌};
    ghost use Rattle.nm_trace.specs.declared.faults.TraceFault.TheVariants as fault;

    ghost from_gives = { λ _ e. e ≡ fault.Memory };

    fn from(_e: AllocError) -> TraceFault {
        TraceFault::Memory
    }
}

impl<T: Drop> From<AllocFailed<T>> for TraceFault {
    ghost use Rattle.std.specs.Prelude.{◌≡◌};
    ghost use Rattle.nm_trace.specs.declared.faults.TraceFault.TheVariants as fault;

    ghost from_gives = { λ _ e. e ≡ fault.Memory };

    fn from(_e: AllocFailed<T>) -> TraceFault {
        TraceFault::Memory
    }
}

impl From<Memory> for TraceFault {
    ghost use Rattle.std.specs.Prelude.{◌≡◌};
    ghost use Rattle.nm_trace.specs.declared.faults.TraceFault.TheVariants as fault;

    ghost from_gives = { λ _ e. e ≡ fault.Memory };

    fn from(_e: Memory) -> TraceFault {
        TraceFault::Memory
    }
}
