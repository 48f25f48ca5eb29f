//! The text of an end of the search, and the trace of a run that has this report.

ghost use Rattle.std.specs.Prelude.{◌≡◌, ℕ, IfOk, List, is_none, map};
ghost use Rattle.std.specs.List.{list_all};
ghost use Rattle.nm_report.specs.Told.{told_of_rank};
ghost use Rattle.nm_report.specs.Cells.{all_home as all_home_lem};
ghost use Rattle.nm_explored.specs.Ends.{told_at_end};
ghost use Rattle.nm_listed.specs.Ends.{IsEndWay};
ghost use Rattle.nm_listed.specs.Finding.{text_of_told};
ghost use Rattle.nm_listed.specs.Tracing.{IsReportByWay, IsTraceWith};

use crate::retold::retold;
use nm_explored::End;
use nm_explored::choices::moves::Turn;
use nm_report::laws::reports_say_what_was_told;
use nm_report::{Accounts, Pairs, RankAccount, RunRecord, report, trace};
use nm_types::{Account, Memory, Script, Shape};
use std::alloc::Global;
use std::mem;

/// No rank waits.
pub(crate) fn are_done(accounts: &[RankAccount]) -> bool
    ensures { result ≡ list_all (λ account. is_none account.waits) accounts.now }
{
    accounts.iter().all(|account| account.waits.is_none())
}

/// The account of a run whose cells are all with their owners.
pub(crate) fn all_home(shape: Shape) -> Account
    ensures { result ≡ all_home_lem shape }
{
    let total = u32::from(shape.ranks()) * u32::from(shape.cells());
    Account { total, home: total }
}

/// The report of what the ranks told.
pub(crate) fn text_of(alloc: Global, shape: Shape, told: Accounts) -> Result<Vec<u8>, Memory>
    ensures { IfOk result (λ text.
        text.items ≡ text_of_told shape (map told_of_rank told)) }
{
    reports_say_what_was_told();
    let done = are_done(told.as_slice());
    let run = RunRecord {
        shape,
        ranks: told,
        pairs: Pairs::new(alloc),
        cells: all_home(shape),
        done,
    };
    report(alloc, &run)
}

/// The trace of the record of a way of moves to rest: that of a run which has the report of what is told there.
pub(crate) fn trace_by(
    alloc: Global,
    script: &Script,
    shape: Shape,
    path: &[Turn],
) -> Result<Vec<u8>, Memory>
    requires equal { shape.ranks ≡ script.now.ranks }
    requires way { IsEndWay shape script.now.lines path.now }
    ensures { (text : List ℕ) → IsReportByWay shape script.now.lines text path.now →
        IfOk result (λ trace. IsTraceWith shape script.now.lines text trace.items) }
{
    reports_say_what_was_told();
    let run = retold(alloc, script, shape, path)?;
    trace(alloc, &run)
}

/// The report of an end.
pub(crate) fn end_text(alloc: Global, shape: Shape, end: End) -> Result<Vec<u8>, Memory>
    ensures { IfOk result (λ text. text.items ≡ text_of_told shape (told_at_end end)) }
{
    let mut end = end;
    let told = mem::replace(&mut end.told, Accounts::new(alloc));
    text_of(alloc, shape, told)
}
