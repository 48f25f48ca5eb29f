//! Determinate scripts: the one report of a plain script.
//!
//! A script is plain if each receive names its source and its tag, and every other command is a send or a
//! wait. So the script alone says which send a receive takes, and a wait depends on one other command. In the
//! plain run the lowest rank that can go on runs its next command, until there is none.
//!
//! # What a contract sees
//! `specs/Plain.antt` has the plain run: how many commands of each rank run; `specs/Names.antt` which starts
//! of a rank are accepted, and `specs/Channels.antt` which receive takes which send. `specs/PlainText.antt`
//! has its answers and its report, and `specs/Agree.antt` the law. `PlainRun` has public fields. The tables
//! that `plain` keeps are in `specs/Held.antt`, `specs/Ways.antt` and `specs/Planned.antt`.
//! # What is proved
//! - Each lawful run of a plain script, in any order of its ranks and packets, has the answers and blocked
//!   lines of the plain run, is done if that is, and has its report.
//! - `first_free` gives the line of the first command that is not plain.
//! - `plain` gives the report of the plain run, and whether every rank comes to its end, unless memory runs
//!   out.
//! # What is only tested
//! That `plain` succeeds with ample memory, and how long it takes: each line looks at each rank at most once.
#![tactic(auto)]

ghost use Rattle.nm_sure.specs.Agree.{PlainRunsAgree, PlainRunsTell};

mod names;
mod partners;
mod ranks;
mod records;
mod runs;
mod scripts;

use nm_history::laws::rank_run_begins;
use nm_report::laws::reports_say_what_was_told;
use nm_types::laws::{bodies_have_their_length, commands_stand_at_their_lines};
pub use records::{PlainRun, plain};
pub use scripts::first_free;

/// All runs of a plain script have the report of its plain run: they tell the same answers and
/// waiting lines, and each is done where the plain run is.
pub fn plain_runs_agree()
    ensures text { PlainRunsAgree }
    ensures told { PlainRunsTell }
{
    bodies_have_their_length();
    commands_stand_at_their_lines();
    rank_run_begins();
    reports_say_what_was_told();
}
