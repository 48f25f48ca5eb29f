//! Whether each rank of a record runs its own commands.

ghost use Rattle.std.specs.Prelude.{◌<◌, IfOk, length};
ghost use Rattle.nm_report.specs.Ends.{ends_of};
ghost use Rattle.nm_check.specs.Ranked.{IsRanked};

use nm_check_rank::clauses::OwnClause;
use nm_check_rank::paired::breaches::Breach;
use nm_check_rank::paired::judging::{Judged, judge_rank};
use nm_check_rank::paired::tables::Tables;
use nm_report::RankAccount;
use nm_types::{Line, Memory, Shape};
use std::alloc::Global;

/// All ranks run their own commands, and what is looked up of them; or the first rule that is
/// broken, and where its rank breaks one first.
#[derive(Drop)]
pub enum Ranked {
    Run(Vec<Tables>),
    Breaks {
        clause: OwnClause,
        rank: u8,
        first: Breach,
    },
}

/// Whether each rank runs its own commands.
pub fn judge_ranks(
    alloc: Global,
    shape: Shape,
    lines: &[Line],
    ranks: &[RankAccount],
) -> Result<Ranked, Memory>
    requires { length ranks.now < 256 }
    ensures { IfOk result (IsRanked shape lines.now (ends_of ranks.now)) }
{
    let mut tables = Vec::new(alloc);
    for (i, rank) in ranks.iter().enumerate() {
        let events = rank.history.as_slice();
        match judge_rank(alloc, shape, i as u8, lines, rank.at, events)? {
            Judged::Runs(own) => tables.push(own)?,
            Judged::Breaks { clause, first } => {
                let rank = i as u8;
                return Ok(Ranked::Breaks {
                    clause,
                    rank,
                    first,
                });
            }
        }
    }
    Ok(Ranked::Run(tables))
}
