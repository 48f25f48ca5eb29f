//! The report of a record that is made by hand.

ghost use Rattle.std.specs.Prelude.{◌≡◌, IfOk};
ghost use Rattle.uses.specs.Standing.{standing_text};

use nm_history::History;
use nm_report::{Accounts, Pairs, RankAccount, RunRecord, report};
use nm_types::{Account, Memory, Shape};
use std::alloc::Global;

/// The report of a record of one rank that waits at this line: it ran no command, nothing happened, and
/// its eight cells are home.
pub fn stands_at(alloc: Global, shape: Shape, line: u64) -> Result<Vec<u8>, Memory>
    ensures { IfOk result (λ text. text.items ≡ standing_text line) }
{
    let mut ranks = Accounts::new(alloc);
    ranks.push(RankAccount {
        history: History::from_vec(Vec::new(alloc)),
        at: 0,
        waits: Some(line),
    })?;
    let run = RunRecord {
        shape,
        ranks,
        pairs: Pairs::new(alloc),
        cells: Account { total: 8, home: 8 },
        done: false,
    };
    report(alloc, &run)
}
