//! Laws of the numbers of lines. Each is the contract of a function that does nothing.

ghost use Rattle.std.specs.Prelude.{ℕ, List, map};
ghost use Rattle.nm_types.specs.Commands.{Numbered};
ghost use Rattle.nm_types.specs.Sizes.{Sizes};
ghost use Rattle.nm_history.specs.Quiescence.{Ended, Packets};
ghost use Rattle.nm_history.specs.Run.{IsRunBy};
ghost use Rattle.nm_transcript.specs.Renumbered.{KeepsApart, renumbered_command, renumbered_ends};

/// Lines are names: a lawful run is one by other numbers of lines too, where different lines of a rank stay
/// different.
pub fn a_run_is_one_by_other_numbers()
    ensures { (shape : Sizes) (commands : ℕ → List Numbered) (ranks : List Ended) (packets : List Packets)
        (f : ℕ → ℕ → ℕ) → ((i : ℕ) → KeepsApart (f i)) → IsRunBy shape commands ranks packets →
        IsRunBy shape (λ i. map (renumbered_command (f i)) (commands i)) (renumbered_ends f 0 ranks) packets }
{}
