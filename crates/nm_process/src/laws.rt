//! Laws of the definitions. Each is the contract of a function that does nothing.

ghost use Rattle.std.specs.Prelude.{ℕ, List, []};
ghost use Rattle.nm_types.specs.Commands.{Numbered};
ghost use Rattle.nm_types.specs.Sizes.{Sizes};
ghost use Rattle.nm_history.specs.RankRun.{IsRankRun};
ghost use Rattle.nm_history.specs.Rules.{AreRight};
ghost use Rattle.nm_rank.specs.Journals.{IsJournal};
ghost use Rattle.nm_process.specs.Processes.{ProcessView};
ghost use Rattle.nm_process.specs.Work.{IsWorking};

/// The history of a process at work is a run of these commands, where it keeps the rules that commands
/// play no part in, and its stamps rise.
pub fn a_process_runs()
    ensures { (shape : Sizes) (commands : List Numbered) (bound : ℕ) (v : ProcessView) →
        IsWorking shape commands bound v →
        AreRight shape.ranks [] v.rank.events → IsJournal v.rank.events v.rank.clock →
        IsRankRun shape commands v.at v.rank.events }
{}
