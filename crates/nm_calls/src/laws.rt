//! Laws of calls. Each is the contract of a function that does nothing.

ghost use Rattle.std.specs.Prelude.{◌≡◌, ◌+◌, ◌++◌, ◌∷◌, [], ℕ, List, length};
ghost use Rattle.nm_types.specs.declared.scripts.Command.{Command};
ghost use Rattle.nm_types.specs.Sizes.{Sizes};
ghost use Rattle.nm_process.specs.Playing.{all_numbered};
ghost use Rattle.nm_process.specs.Processes.{ProcessView};
ghost use Rattle.nm_process.specs.Work.{IsNext};
ghost use Rattle.nm_global.specs.ProcessInvariant.{GhostHistory, ProcessInvariant};

/// A process that stands at its place in a run, where its commands are those of so many calls, all of which ran, stands
/// so, too, where one call more is to come.
pub fn a_call_to_come_changes_nothing()
    ensures { (shape : Sizes) (given : List Command) (x : Command) (i : ℕ) (v : ProcessView)
        (past : GhostHistory) → v.at ≡ length given →
        ProcessInvariant shape (all_numbered 2 given) (length given + 2) i v past →
        ProcessInvariant shape (all_numbered 2 (given ++ x ∷ [])) (length given + 2) i v past }
{}

/// It is the next one, at the next line.
pub fn a_call_to_come_is_next()
    ensures { (given : List Command) (x : Command) →
        IsNext (all_numbered 2 (given ++ x ∷ [])) (length given) (length given + 2) (length given + 2) x }
{}
