//! What gives a rank its commands.

ghost use Rattle.std.specs.Prelude.{◌≡◌, ◌+◌, ◌<◌, ◌++◌, ℕ, None, true, List};
ghost use Rattle.std.specs.Prelude.{[], ◌∷◌, IfSome, IsSome, MatchOption, OnOk, option_map, slice_get};
ghost use Rattle.nm_types.specs.Commands.{Numbered};
ghost use Rattle.nm_types.specs.Limits.{is_in_range};
ghost use Rattle.nm_process.specs.Sources.{GivesSome, PassedOn, SourceView};
ghost use Rattle.nm_process.specs.Work.{IsNext};

use nm_types::{Answer, Command, Memory};

/// What gives a rank its commands, one after another, each with a line of its own. The lines rise.
pub trait Source: Drop {
    // What it was at first, as far as contracts tell.
    ghost Begun: { Type 0 };

    // What contracts see of it.
    ghost shows: { Self → SourceView Begun };

    // It may give these commands in all, and none of those that ran has a line past this one.
    ghost gives: { Self → List Numbered → ℕ → Type 0 };

    /// About how many commands it gives, for which memory is asked for ahead.
    fn count(&self) -> usize;

    /// The line of its next command and that command, if there is one.
    fn next(&self) -> Option<(u64, &Command)>
        ensures shown { option_map (λ c. c.1.now) result ≡ (shows self.now).next }
        ensures counted { IfSome result (λ c. (shows self.now).at < c.0) }
        ensures in_range { IfSome result (λ c. is_in_range (shows self.now).ranks c.1.now ≡ true) }
        ensures next { (commands : List Numbered) (last : ℕ) → gives self.now commands last →
            MatchOption result (slice_get commands (shows self.now).at ≡ None)
            (λ c. IsNext commands (shows self.now).at (last + 1) c.0 c.1.now) };

    /// Goes on to the command after the next one, which ran and was answered so.
    fn pass(&mut self, answer: &Answer) -> Result<(), Memory>
        requires next { IsSome (shows self.old).next }
        ensures counted { OnOk result (((shows self.new).at ≡ (shows self.old).at + 1)
            × ((shows self.new).ranks ≡ (shows self.old).ranks)) }
        ensures some { OnOk result (GivesSome (gives self.new)) }
        ensures gives { OnOk result ((commands : List Numbered) (last : ℕ) →
            gives self.new commands last →
            PassedOn (gives self.old) commands (shows self.old).at last) }
        ensures begun { OnOk result ((shows self.new).begun ≡ (shows self.old).begun) }
        ensures told { OnOk result ((shows self.new).told
            ≡ option_map (λ answers. answers ++ answer.now ∷ [])
            (shows self.old).told) };
}
