//! Messages, requests and handles, as a state has them. Lines stand at their places in the script, from 0.

use nm_types::{Peer, TagPick};

/// What a receive or a probe selects.
#[derive(Clone, Copy, PartialEq)]
pub struct Pattern {
    pub from: Peer,
    pub tag: TagPick,
    pub ctx: u8,
}

/// A message of the line at a place.
#[derive(Clone, Copy, PartialEq)]
pub struct Message {
    pub place: usize,
    pub from: u8,
    pub to: u8,
    pub tag: u16,
    pub ctx: u8,
    pub len: usize,
}

/// How a request stands.
#[derive(Clone, Copy, PartialEq)]
pub enum Standing {
    /// A send, standard or synchronous.
    Send { sync: bool },
    /// .. which its sender wants to cancel.
    Recalled { sync: bool },
    /// .. which was cancelled.
    Withdrawn,
    /// A receive that has no message.
    Open { pattern: Pattern, cap: u32 },
    /// .. which its receiver wants to cancel.
    Marked { pattern: Pattern, cap: u32 },
    /// .. which was cancelled.
    Off,
    /// A receive that has its message.
    Taken { cap: u32, message: Message },
}

/// A live request: its name, and the place of the line that started it.
#[derive(Clone, Copy, PartialEq)]
pub struct Request {
    pub q: u16,
    pub place: usize,
    pub standing: Standing,
}

/// A live handle, with the message that a matched probe took.
#[derive(Clone, Copy, PartialEq)]
pub struct Claim {
    pub m: u16,
    pub message: Message,
}

/// What a command does, where it goes on.
#[derive(Clone, Copy)]
pub enum Act {
    /// Nothing but its answer.
    Pass,
    Send {
        q: u16,
        sync: bool,
        message: Message,
    },
    Post {
        q: u16,
        pattern: Pattern,
        cap: u32,
    },
    /// The request of a name ends.
    End {
        q: u16,
    },
    /// The request that a line started stands otherwise.
    Mark {
        place: usize,
        standing: Standing,
    },
    Claim {
        m: u16,
        message: Message,
    },
    /// Receives the message of a handle.
    Receive {
        q: u16,
        m: u16,
        cap: u32,
        message: Message,
    },
}
