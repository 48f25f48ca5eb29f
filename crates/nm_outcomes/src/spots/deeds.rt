//! What a rank does, as a state keeps it.

ghost use Rattle.std.specs.Prelude.{◌≡◌};
ghost use Rattle.nm_outcomes.specs.Deeds.{post_of_lem};

use nm_history::plain::Pair;
pub use nm_match::Message;
use nm_types::{Arrival, How, Peer, Post, Seen, TagPick};

/// The answer of a command.
#[derive(Clone, Copy, PartialEq)]
pub enum Reply {
    Started,
    Busy,
    Null,
    No,
    Nothing,
    Sent,
    /// The bytes are those that the line of the message's sender sends.
    Got { from: u8, tag: u16, line: u64 },
    Cut { from: u8, tag: u16, len: u32 },
    Cancelled,
    Seen(Seen),
    Done,
    Late,
    Asked,
}

/// A receive that was posted.
#[derive(Clone, Copy, PartialEq)]
pub struct Receive {
    pub number: u64,
    pub from: Peer,
    pub tag: TagPick,
    pub ctx: u8,
    pub cap: u32,
}

impl Receive {
    /// The receive as matching has it.
    pub fn post(&self) -> Post
        ensures { result ≡ post_of_lem self.now }
    {
        Post {
            number: self.number,
            from: self.from,
            tag: self.tag,
            ctx: self.ctx,
            cap: self.cap,
        }
    }
}

/// What a rank does by its commands.
#[derive(Clone, Copy, PartialEq)]
pub enum Deed {
    Send {
        to: u8,
        n: u64,
        tag: u16,
        ctx: u8,
        len: u32,
        how: How,
        line: u64,
    },
    Post {
        receive: Receive,
        line: u64,
    },
    Match {
        number: u64,
        from: u8,
        n: u64,
        cap: u32,
        line: u64,
    },
    Cancel {
        number: u64,
        done: bool,
    },
    Recall {
        to: u8,
        n: u64,
    },
    Claim {
        from: u8,
        n: u64,
        line: u64,
    },
    Ran {
        line: u64,
        reply: Reply,
    },
}

/// A part of a rank's state: of what it did, of its open receives, of its free messages, of its receives with their
/// messages, of the messages that came, and of those that were withdrawn.
#[derive(Clone, Copy, PartialEq)]
pub enum Part {
    Did(Deed),
    Open(Receive),
    Free(Arrival),
    Paired(Pair),
    Came(Arrival),
    Gone(Message),
}
