//! The count of packets that is called for, and the one that stands there.

ghost use Rattle.std.specs.Prelude.{◌≡◌, ◌<◌, ◌≤◌, IfOk, List, MatchOption, length, slice_get};
ghost use Rattle.nm_types.specs.declared.scripts.Line as script_line;
ghost use Rattle.nm_report.specs.Ends.{ends_of};
ghost use Rattle.nm_check.specs.Tabled.{AreTabled};
ghost use Rattle.nm_breaks.specs.Miscounts.{AreCounted, IsFirstCounted};
ghost use Rattle.nm_breaks.specs.Places.{events_in};

use nm_check::rest::counts::{counts_due, first_miscount};
use nm_check_rank::paired::tables::Tables;
use nm_report::{PairCount, RankAccount};
use nm_types::Memory;
use std::alloc::Global;

/// The count of packets that is called for at a place, if one is, and the one that stands there, if
/// one does.
#[derive(Clone, Copy)]
pub struct Miscount {
    pub at: usize,
    pub called: Option<PairCount>,
    pub found: Option<PairCount>,
}

/// The count at a place, if there are so many.
fn count_at(counts: &[PairCount], at: usize) -> Option<PairCount>
    ensures { result ≡ slice_get counts.now at }
{
    counts.get(at).copied()
}

/// The first count of packets that is not the one called for, if one is not.
pub(crate) fn first_counted(
    alloc: Global,
    ranks: &[RankAccount],
    pairs: &[PairCount],
    tables: &[Tables],
) -> Result<Option<Miscount>, Memory>
    requires few { length ranks.now < 256 }
    requires short { events_in (ends_of ranks.now) ≤ 67108864 }
    requires tabled { AreTabled (ends_of ranks.now) tables.now }
    ensures { (lines : List script_line.Line) → IfOk result (λ told.
        MatchOption told (AreCounted lines (ends_of ranks.now) pairs.now)
        (IsFirstCounted lines (ends_of ranks.now) pairs.now)) }
{
    let due = counts_due(alloc, ranks, tables)?;
    let called = due.as_slice();
    match first_miscount(pairs, called) {
        Some(at) => {
            let called = count_at(called, at);
            let found = count_at(pairs, at);
            Ok(Some(Miscount { at, called, found }))
        }
        None => Ok(None),
    }
}
