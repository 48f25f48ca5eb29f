//! What an export answers: the numbers of `include/nemesis.h`.

ghost use Rattle.std.specs.Prelude.{◌≡◌, Some, option_map};
ghost use Rattle.nm_c.specs.Codes.{code_said, number_of, number_said};

use nm_calls::Fault;
use nm_types::{Answer, Memory};

/// What a call of C answers.
#[derive(Clone, Copy)]
pub(crate) enum Code {
    Done = 0,
    Pending = 1,
    Sent = 2,
    Received = 3,
    Cut = 4,
    Cancelled = 5,
    Seen = 6,
    Nothing = 7,
    Withdrawn = 8,
    Late = 9,
    Asked = 10,
    Moved = 11,
    Idle = 12,
    Busy = 100,
    NoSuch = 101,
    BadName = 102,
    BadRank = 103,
    BadTag = 104,
    BadContext = 105,
    BadLength = 106,
    BadWorld = 107,
    Short = 108,
    Memory = 109,
    Failed = 110,
    Closed = 111,
    Worn = 112,
    Waits = 113,
}

impl Code {
    /// Its number.
    pub(crate) fn number(self) -> u32
        ensures { result ≡ number_of self }
    {
        self as u32
    }
}

impl From<Fault> for Code {
    ghost use Rattle.std.specs.Prelude.{◌≡◌};
    ghost use Rattle.nm_c.specs.Codes.{code_of_fault};

    ghost from_gives = { λ fault e. e ≡ code_of_fault fault };

    fn from(fault: Fault) -> Code {
        match fault {
            Fault::Name => Code::BadName,
            Fault::Rank => Code::BadRank,
            Fault::Tag => Code::BadTag,
            Fault::Context => Code::BadContext,
            Fault::Length => Code::BadLength,
            Fault::Waits => Code::Waits,
            Fault::Closed => Code::Closed,
            Fault::Worn => Code::Worn,
            Fault::Memory => Code::Memory,
            Fault::Failed => Code::Failed,
        }
    }
}

impl From<Memory> for Code {
    ghost use Rattle.std.specs.Prelude.{◌≡◌};
    ghost use Rattle.nm_c.specs.declared.codes.Code.TheVariants as code;

    ghost from_gives = { λ _ e. e ≡ code.Memory };

    fn from(_memory: Memory) -> Code {
        Code::Memory
    }
}

/// The code of an answer.
pub(crate) fn code_of(answer: &Answer) -> Code
    ensures { result ≡ code_said (Some answer.now) }
{
    match answer {
        Answer::Started => Code::Done,
        Answer::Busy => Code::Busy,
        Answer::Null => Code::NoSuch,
        Answer::No => Code::Pending,
        Answer::Nothing => Code::Nothing,
        Answer::Sent => Code::Sent,
        Answer::Got { .. } => Code::Received,
        Answer::Cut { .. } => Code::Cut,
        Answer::Cancelled => Code::Cancelled,
        Answer::Seen(_) => Code::Seen,
        Answer::Done => Code::Withdrawn,
        Answer::Late => Code::Late,
        Answer::Asked => Code::Asked,
    }
}

/// The code of what a command came to, where one that waits has no answer.
pub(crate) fn said(answer: Option<&Answer>) -> Code
    ensures { result ≡ code_said (option_map (λ a. a.now) answer.entry) }
{
    match answer {
        Some(answer) => code_of(answer),
        None => Code::Pending,
    }
}

/// The number of what a call came to.
pub(crate) fn number(called: Result<Code, Code>) -> u32
    ensures { result ≡ number_said called }
{
    match called {
        Ok(code) => code.number(),
        Err(code) => code.number(),
    }
}
