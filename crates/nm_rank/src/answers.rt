//! What the calls of a rank answer.

ghost use Rattle.std.specs.Prelude.{◌≡◌};
ghost use Rattle.nm_rank.specs.declared.answers.CancelFault.TheVariants as fault;

use nm_types::Memory;

/// Whether a request is complete.
#[derive(Clone, Copy)]
pub enum State {
    Pending,
    Ready,
}

/// Why a request has no result.
#[derive(Clone, Copy)]
pub enum FinishFault {
    /// The request isn't live.
    NoSuch,
    /// It is not complete.
    NotComplete,
}

/// What a cancel came to.
#[derive(Clone, Copy, Debug, PartialEq)]
pub enum Cancelled {
    /// The receive is cancelled.
    Done,
    /// The receive is paired.
    Late,
    /// The receiver of the send is asked to withdraw it.
    Asked,
}

/// Why nothing was cancelled.
#[derive(Clone, Copy)]
pub enum CancelFault {
    /// The request isn't live.
    NoSuch,
    Memory,
}

impl From<Memory> for CancelFault {
    ghost from_gives = { λ _ e. e ≡ fault.Memory };

    fn from(_memory: Memory) -> CancelFault {
        CancelFault::Memory
    }
}
