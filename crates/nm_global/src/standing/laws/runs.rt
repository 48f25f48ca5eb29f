//! A command that runs.

ghost use Rattle.std.specs.Prelude.{◌≡◌, ℕ, true, List, []};
ghost use Rattle.nm_types.specs.declared.scripts.Command.{Command};
ghost use Rattle.nm_types.specs.Commands.{Numbered};
ghost use Rattle.nm_types.specs.Limits.{is_in_range};
ghost use Rattle.nm_types.specs.Sizes.{Sizes};
ghost use Rattle.nm_history.specs.Rules.{AreRight};
ghost use Rattle.nm_process.specs.Processes.{ProcessView};
ghost use Rattle.nm_process.specs.Steps.{HasRun};
ghost use Rattle.nm_process.specs.Work.{IsNext};
ghost use Rattle.nm_global.specs.ProcessInvariant.{GoesOn, ProcessInvariant, GhostHistory};

use crate::laws::steps::a_step_keeps_its_place;
use crate::log::laws::results::{a_result_is_given, a_result_may_be_recorded};

/// `Process::run`, where it ran the next command, which is in range, whatever gave it.
pub fn a_command_runs()
    ensures { (shape : Sizes) (commands : List Numbered) (bound line i : ℕ) (x : Command)
        (a b : ProcessView) (past : GhostHistory) → is_in_range a.rank.sizes.ranks x ≡ true →
        AreRight a.rank.sizes.ranks [] a.rank.events →
        ProcessInvariant shape commands bound i a past → IsNext commands a.at bound line x →
        HasRun x line a b → GoesOn shape commands i b.rank past }
{
    a_step_keeps_its_place();
    a_result_may_be_recorded();
    a_result_is_given();
}
