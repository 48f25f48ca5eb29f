//! The summary of a flood.

ghost use Rattle.std.specs.Prelude.{◌≡◌, [], ◌∷◌, ◌++◌, IfOk, OnOk, map, string_bytes};
ghost use Rattle.nm_report.specs.Layout.{◌⧺◌};
ghost use Rattle.nm_report.specs.Told.{told_of, told_of_rank};
ghost use Rattle.nm_report.specs.Summary.{CountsFit, got_bytes, got_count, got_line, sent_count};
ghost use Rattle.nm_report.specs.Summary.{sent_line, summary_text};
ghost use Rattle.nm_report.specs.Totals.{Added, CanAdd, answers_in};

use crate::reports::push_end;
use crate::{RankAccount, RunRecord};
use nm_history::Totals;
use nm_types::Memory;
use std::alloc::{AllocError, Global};

/// Adds what the answers of a rank add up to.
fn add_account(totals: &mut Totals, account: &RankAccount)
    requires { CanAdd (answers_in account.now) totals.old }
    ensures { Added (answers_in account.now) totals.old totals.new }
{
    let own = account.history.totals();
    totals.sent += own.sent;
    totals.got += own.got;
    totals.bytes += own.bytes;
}

/// What the answers of these ranks add up to.
fn totals_of(ranks: &[RankAccount]) -> Totals
    requires { CountsFit (map told_of_rank ranks.now) }
    ensures sent { result.sent ≡ sent_count (map told_of_rank ranks.now) }
    ensures got { result.got ≡ got_count (map told_of_rank ranks.now) }
    ensures bytes { result.bytes ≡ got_bytes (map told_of_rank ranks.now) }
{
    let mut totals = Totals {
        sent: 0,
        got: 0,
        bytes: 0,
    };
    for account in ranks {
        add_account(&mut totals, account);
    }
    totals
}

/// Writes the lines of the totals.
fn push_totals(out: &mut String, totals: Totals) -> Result<(), AllocError>
    ensures ok { OnOk result (string_bytes out.new
        ≡ string_bytes out.old ++ (sent_line totals.sent ⧺ got_line totals.got totals.bytes)) }
{
    write!(out, "sent {}\n", totals.sent)?;
    write!(out, "got {} bytes {}\n", totals.got, totals.bytes)
}

/// The summary of a flood with this key and so many messages, each line ended by a line feed.
///
/// The first line is `flood KEY RANKS MESSAGES`. Then come `sent A`, with the number of sends that
/// are complete, and `got B bytes C`, with the number of receives that have their message and of
/// the bytes of all these messages. The last two lines are those of a report. The text depends on
/// the two numbers, and on what the record's ranks told, their number, the cells and the end.
///
/// It answers `Memory` only for want of memory.
pub fn summary(alloc: Global, run: &RunRecord, key: u16, messages: u16) -> Result<Vec<u8>, Memory>
    requires { CountsFit (told_of run.now) }
    ensures { IfOk result (λ text. text.items ≡ summary_text key messages run.now) }
{
    let totals = totals_of(run.ranks.as_slice());
    let mut out = String::new(alloc);
    write!(out, "flood {key} {} {messages}\n", run.shape.ranks())?;
    push_totals(&mut out, totals)?;
    push_end(&mut out, run)?;
    Ok(out.into_bytes())
}
