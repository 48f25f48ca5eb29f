//! How a text is said, and with which status.

ghost use Rattle.std.specs.Prelude.{◌≡◌, ◌⊎◌, IfOk};
ghost use Rattle.nm_outside.specs.Told.{Rose};
ghost use Rattle.nm_shell.specs.Done.{IsSaid};

use nm_outside::{Sink, write_all};
use std::alloc::{AllocError, Global};

/// The status where the sink failed.
const SINK_FAILED: u8 = 5;

/// The status for want of memory.
pub const WANT_OF_MEMORY: u8 = 6;

/// The bytes of a text.
pub fn line(alloc: Global, text: &str) -> Result<Vec<u8>, AllocError>
    ensures { IfOk result (λ bytes. bytes.items ≡ text.now) }
{
    Vec::from_slice(alloc, text.as_bytes())
}

/// Writes what is due to the sink, and answers its status, or 5 where the sink failed.
pub fn deliver<K: Sink>(sink: &mut K, due: &[u8], status: u8) -> u8
    ensures said { IsSaid due.now status result (K.taken sink.old) (K.taken sink.new)
        (Rose (K.faults sink.old) (K.faults sink.new)) }
    ensures quiet { (result ≡ 5) ⊎ (K.faults sink.new ≡ K.faults sink.old) }
{
    match write_all(sink, due) {
        Ok(()) => status,
        Err(_) => SINK_FAILED,
    }
}
