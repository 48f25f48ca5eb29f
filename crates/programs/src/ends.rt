//! Runs that come to another end: ranks that wait for one that is at its end, a call that is out of range, and a
//! program that is refused memory. The ranks of a run differ, so they are variants of one `enum`.

ghost use Rattle.std.specs.Prelude.{◌≡◌, length, IfOk};

use nm_programs::Program;
use nm_programs::bodies::generated;
use nm_programs::calls::{probe_blocking, send};
use nm_types::{Answer, Command, Memory, Peer, TagPick};
use std::alloc::Global;

/// A rank, by what it does.
#[derive(Clone, Copy)]
pub enum Rank {
    /// It is at its end at once.
    Ends,
    /// It waits for a message of rank 0.
    Waits,
    /// It sends to a rank that is not there.
    Strays,
    /// It is refused memory.
    Refused,
}

impl Program for Rank {
    ghost says = { λ p answer command q. Unit {0} };

    fn next(&mut self, _answer: Option<&Answer>) -> Result<Option<Command>, Memory> {
        match self {
            Rank::Ends => Ok(None),
            Rank::Waits => Ok(Some(probe_blocking(Peer::One(0), TagPick::Any))),
            Rank::Strays => Ok(Some(send(0, 9, 0, generated(8)))),
            Rank::Refused => Err(Memory),
        }
    }
}

/// Rank 0, which is at its end at once, and this one.
pub fn beside(alloc: Global, other: Rank) -> Result<Vec<Rank>, Memory>
    ensures { IfOk result (λ v. length v.items ≡ 2) }
{
    let mut ranks = Vec::new(alloc);
    ranks.push(Rank::Ends)?;
    ranks.push(other)?;
    Ok(ranks)
}
