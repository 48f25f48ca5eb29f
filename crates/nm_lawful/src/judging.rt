//! Whether a report is lawful and, if not, from which answer on.

ghost use Rattle.std.specs.Prelude.{◌≡◌, ◌≤◌, IfOk, None, length, take};
ghost use Rattle.nm_lawful.specs.Lawful.{IsLawful, MayTell};
ghost use Rattle.nm_lawful.specs.Moves.{report_lem};
ghost use Rattle.nm_lawful.specs.Searches.{JudgedSays, SearchSays, halved_lem, is_too_many_lem};

use crate::moves::{Report, Said};
use crate::searches::{Found, search};
use nm_types::{Line, Memory};
use std::alloc::Global;

/// What is said of a report.
#[derive(Clone, Copy)]
pub enum Judged {
    /// A run that comes to rest tells it.
    Lawful,
    /// No run does. One can have told the answers before this one in time, and none those up to it.
    Unlawful(u32),
    /// All answers can be told, and the ranks below this one can rest as is said, but it can't with them.
    NoRest(usize),
    /// There are more states than the limit.
    TooMany,
}

/// A script, what is told of it, of each rank at the place of which line it waits in the end, and up to how many
/// states are looked at.
#[derive(Clone, Copy)]
pub struct Case<'a> {
    pub lines: &'a [Line],
    pub told: &'a [Option<Said>],
    pub waits: &'a [Option<usize>],
    pub ranks: u8,
    pub limit: u32,
}

/// Whether the answers that count can be told.
fn tell(alloc: Global, case: Case, until: Option<u32>) -> Result<Found, Memory>
    ensures { IfOk result (SearchSays case.entry.lines.now (report_lem case.entry.told.now case.entry.waits.now) case.entry.ranks until
        case.entry.limit) }
{
    let report = Report {
        lines: case.lines,
        told: case.told,
        waits: case.waits,
        until,
    };
    search(alloc, report, case.ranks, case.limit)
}

/// Whether a search gave up.
fn is_too_many(found: Found) -> bool
    ensures { result ≡ is_too_many_lem found }
{
    matches!(found, Found::TooMany)
}

/// The bounds that a search at a moment between them leaves.
fn halved(found: Found, low: u32, middle: u32, high: u32) -> (u32, u32)
    ensures { result ≡ halved_lem found low middle high }
{
    match found {
        Found::End => (middle, high),
        Found::NoEnd => (low, middle),
        Found::TooMany => (low, middle),
    }
}

/// The first answer in time up to which no run can have told them.
fn first_unlawful(alloc: Global, case: Case, count: u32) -> Result<Judged, Memory>
    requires unlawful { IsLawful case.lines.now (report_lem case.told.now case.waits.now) case.ranks → ⊥ }
    requires untold { MayTell case.lines.now (report_lem case.told.now case.waits.now) case.ranks count → ⊥ }
    ensures { IfOk result (JudgedSays case.entry.lines.now (report_lem case.entry.told.now case.entry.waits.now) case.entry.ranks count
        case.entry.limit) }
{
    let mut low = 0;
    let mut high = count;
    while high - low > 1 {
        let middle = low + (high - low) / 2;
        let found = tell(alloc, case, Some(middle))?;
        let many = is_too_many(found);
        if many {
            return Ok(Judged::TooMany);
        }
        let bounds = halved(found, low, middle, high);
        low = bounds.0;
        high = bounds.1;
    }
    Ok(Judged::Unlawful(low))
}

/// Whether all can be told where it is compared how the first ranks rest.
fn rest(alloc: Global, case: Case, ranks: usize) -> Result<Found, Memory>
    requires { ranks ≤ length case.waits.now }
    ensures { IfOk result (SearchSays case.entry.lines.now (report_lem case.entry.told.now
        (take ranks case.entry.waits.now)) case.entry.ranks None case.entry.limit) }
{
    let report = Report {
        lines: case.lines,
        told: case.told,
        waits: &case.waits[..ranks],
        until: None,
    };
    search(alloc, report, case.ranks, case.limit)
}

/// The first rank that can't rest as is said, with those below it.
fn first_restless(alloc: Global, case: Case, count: u32) -> Result<Judged, Memory>
    requires unlawful { IsLawful case.lines.now (report_lem case.told.now case.waits.now) case.ranks → ⊥ }
    requires told { MayTell case.lines.now (report_lem case.told.now case.waits.now) case.ranks count }
    ensures { IfOk result (JudgedSays case.entry.lines.now (report_lem case.entry.told.now case.entry.waits.now) case.entry.ranks count
        case.entry.limit) }
{
    let ranks = case.waits.len();
    for i in 0..ranks {
        let found = rest(alloc, case, i + 1)?;
        match found {
            Found::End => {}
            Found::NoEnd => return Ok(Judged::NoRest(i)),
            Found::TooMany => return Ok(Judged::TooMany),
        }
    }
    Ok(Judged::NoRest(ranks))
}

/// What no run that comes to rest tells.
fn unlawful(alloc: Global, case: Case, count: u32) -> Result<Judged, Memory>
    requires { IsLawful case.lines.now (report_lem case.told.now case.waits.now) case.ranks → ⊥ }
    ensures { IfOk result (JudgedSays case.entry.lines.now (report_lem case.entry.told.now case.entry.waits.now) case.entry.ranks count
        case.entry.limit) }
{
    let found = tell(alloc, case, Some(count))?;
    match found {
        Found::End => first_restless(alloc, case, count),
        Found::NoEnd => first_unlawful(alloc, case, count),
        Found::TooMany => Ok(Judged::TooMany),
    }
}

/// Whether a report is lawful, whose answers are so many, numbered in the order of time from 0.
pub fn judge(alloc: Global, case: Case, count: u32) -> Result<Judged, Memory>
    ensures { IfOk result (JudgedSays case.entry.lines.now (report_lem case.entry.told.now case.entry.waits.now) case.entry.ranks count
        case.entry.limit) }
{
    let found = tell(alloc, case, None)?;
    match found {
        Found::End => Ok(Judged::Lawful),
        Found::NoEnd => unlawful(alloc, case, count),
        Found::TooMany => Ok(Judged::TooMany),
    }
}
