//! What an event says of a message.

ghost use Rattle.std.specs.Prelude.{◌≡◌};
ghost use Rattle.nm_listed.specs.Marks.{mark_of as mark_of_lem, said_by as said_by_lem};

use nm_history::Happened;

/// What an event may say of a message.
#[derive(Clone, Copy, PartialEq, Eq, Hash)]
pub(crate) enum Mark {
    Whole { from: u8, n: u64 },
    Out { to: u8, n: u64 },
    Recalled { to: u8, n: u64 },
    Withdrawn { from: u8, n: u64, done: bool },
    Undone { to: u8, n: u64, done: bool },
}

/// What an event says of a message, if it says such a thing.
fn mark_of(what: &Happened) -> Option<Mark>
    ensures { result ≡ mark_of_lem what.now }
{
    match what {
        Happened::Whole { from, n } => Some(Mark::Whole { from: *from, n: *n }),
        Happened::Out { to, n } => Some(Mark::Out { to: *to, n: *n }),
        Happened::Recall { to, n } => Some(Mark::Recalled { to: *to, n: *n }),
        Happened::Withdraw { from, n, done } => Some(Mark::Withdrawn {
            from: *from,
            n: *n,
            done: *done,
        }),
        Happened::Undone { to, n, done } => Some(Mark::Undone {
            to: *to,
            n: *n,
            done: *done,
        }),
        _ => None,
    }
}

/// What an event of a rank says of a message.
#[derive(Clone, Copy, PartialEq, Eq, Hash)]
pub(crate) struct Said {
    pub rank: u8,
    pub mark: Mark,
}

/// What an event of a rank says of a message, if it says such a thing.
pub(crate) fn said_by(rank: u8, what: &Happened) -> Option<Said>
    ensures { result ≡ said_by_lem rank what.now }
{
    match mark_of(what) {
        Some(mark) => Some(Said { rank, mark }),
        None => None,
    }
}
