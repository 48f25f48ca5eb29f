//! Reading to the end, or to a limit.

ghost use Rattle.std.specs.Prelude.{◌≡◌, ◌≢◌, ◌≤◌, length, take, IfOk, IfSome};
ghost use Rattle.nm_outside.specs.Told.{Rose, ReadSoFar, LosesAtMost};

use crate::{Failed, Source};
use std::alloc::{AllocError, Global};

/// Why reading stopped before the end.
#[derive(Clone, Copy, Debug, PartialEq)]
pub enum Unread {
    /// Want of memory.
    Memory,
    /// A read failed.
    Failed,
}

impl From<AllocError> for Unread {
    ghost use Rattle.std.specs.Prelude.{◌≡◌};
    ghost use Rattle.nm_outside.specs.declared.reading.Unread.TheVariants.{Memory};

    ghost from_gives = { λ _ e. e ≡ Memory };

    fn from(_e: AllocError) -> Unread {
        Unread::Memory
    }
}

impl From<Failed> for Unread {
    ghost use Rattle.std.specs.Prelude.{◌≡◌};
    ghost use Rattle.nm_outside.specs.declared.reading.Unread.TheVariants.{Failed};

    ghost from_gives = { λ _ e. e ≡ Failed };

    fn from(_e: Failed) -> Unread {
        Unread::Failed
    }
}

/// The most bytes that one read is asked for.
const BUFFER: usize = 4096;

/// Reads to the end, to a failure, or until `limit` bytes were taken, and gives what was read.
///
/// Each read is handed a buffer of 4,096 bytes, or of what remains to the limit where this is
/// smaller.
pub fn read_up_to<S: Source>(alloc: Global, source: &mut S, limit: usize) -> Result<Vec<u8>, Unread>
    ensures bytes { IfOk result
        (λ read. IfSome (S.left source.old) (λ bytes. read.items ≡ take limit bytes)) }
    ensures within { IfOk result (λ read. length read.items ≤ limit) }
    ensures rest { IfOk result
        (λ read. ReadSoFar (S.left source.old) (S.left source.new) read.items) }
    ensures taken { LosesAtMost limit (S.left source.old) (S.left source.new) }
    ensures later { S.faults source.old ≤ S.faults source.new }
    ensures quiet { result ≢ Err Unread.Failed → S.faults source.new ≡ S.faults source.old }
    ensures cause { result ≡ Err Unread.Failed
        → Rose (S.faults source.old) (S.faults source.new) }
{
    let mut read = Vec::new(alloc);
    let mut buffer = [0u8; BUFFER];
    while read.len() < limit {
        let room = BUFFER.min(limit - read.len());
        let count = source.read(&mut buffer[..room])?;
        if count == 0 {
            return Ok(read);
        }
        read.extend_from_slice(&buffer[..count])?;
    }
    Ok(read)
}
