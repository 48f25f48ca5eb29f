//! The record of one rank that ran one command.

ghost use Rattle.std.specs.Prelude.{◌≡◌, IfOk, length};

use nm_history::{Event, Happened, History};
use nm_report::{Accounts, Pairs, RankAccount, RunRecord};
use nm_types::{Account, Answer, Memory, Shape};
use std::alloc::Global;

/// The account of a rank whose command of line 2 had this answer, at stamp 1.
fn one_account(alloc: Global, answer: Answer) -> Result<RankAccount, Memory> {
    let mut events = Vec::new(alloc);
    events.push(Event {
        stamp: 1,
        what: Happened::Ran { line: 2, answer },
    })?;
    Ok(RankAccount {
        history: History::from_vec(events),
        at: 1,
        waits: None,
    })
}

/// The record of one rank, whose only command had this answer: it is done, and its cells are home.
pub fn one_answer(alloc: Global, answer: Answer) -> Result<RunRecord, Memory>
    ensures { IfOk result (λ run. (run.shape.ranks ≡ 1) × (length run.ranks ≡ 1)) }
{
    let Ok(shape) = Shape::new(1, 8, 1024) else {
        unreachable!()
    };
    let mut ranks = Accounts::new(alloc);
    ranks.push(one_account(alloc, answer)?)?;
    Ok(RunRecord {
        shape,
        ranks,
        pairs: Pairs::new(alloc),
        cells: Account { total: 8, home: 8 },
        done: true,
    })
}
