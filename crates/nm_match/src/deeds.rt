//! What a matcher has done so far, one deed at a time.

use nm_types::{Arrival, Post};

/// A deed of a matcher. Cancels and withdrawals that came too late are none.
#[derive(Clone, Copy)]
pub enum Deed {
    /// A receive was posted.
    Post(Post),
    /// A message arrived.
    Arrive(Arrival),
    /// A posted receive was cancelled.
    Cancel { number: u64 },
    /// Message `n` of a rank was withdrawn by its sender.
    Withdraw { from: u8, n: u64 },
    /// A matched probe took message `n` of a rank out of matching.
    Claim { from: u8, n: u64 },
    /// A matched receive took message `n` of a rank, which was claimed.
    Match { number: u64, from: u8, n: u64 },
}
