//! What a process at its place is.

ghost use Rattle.std.specs.Prelude.{ℕ, List, []};
ghost use Rattle.nm_types.specs.Commands.{Numbered};
ghost use Rattle.nm_types.specs.Sizes.{Sizes};
ghost use Rattle.nm_history.specs.Rules.{AreRight};
ghost use Rattle.nm_rank.specs.Journals.{IsJournal};
ghost use Rattle.nm_rank.specs.New.{IsNew};
ghost use Rattle.nm_process.specs.Processes.{ProcessView};
ghost use Rattle.nm_process.specs.Work.{IsWorking};
ghost use Rattle.nm_global.specs.Ranks.{RankInvariant};
ghost use Rattle.nm_global.specs.ProcessInvariant.{ProcessInvariant, GhostHistory, no_past, rank_of};

use crate::laws::starts::new_ranks_stand;
use nm_process::laws::a_process_runs;

/// A process at its start (`Process::new`).
pub fn a_process_begins()
    ensures { (shape : Sizes) (commands : List Numbered) (bound i : ℕ) (v : ProcessView) →
        IsWorking shape commands bound v → IsNew shape i v.rank →
        ProcessInvariant shape commands bound i v no_past }
{
    new_ranks_stand();
}

/// A process at its place is a rank at its place, by what its history shows (`Rank::history`).
pub fn a_process_is_a_rank()
    ensures { (shape : Sizes) (commands : List Numbered) (bound i : ℕ) (v : ProcessView)
        (past : GhostHistory) → ProcessInvariant shape commands bound i v past →
        AreRight shape.ranks [] v.rank.events → IsJournal v.rank.events v.rank.clock →
        RankInvariant shape commands i (rank_of v past) }
{
    a_process_runs();
}
