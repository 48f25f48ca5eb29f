//! What two ends owe one another, and what follows of all ranks.

ghost use Rattle.std.specs.Prelude.{◌≡◌, ℕ, List, length, map};
ghost use Rattle.nm_types.specs.declared.scripts.Line.{Line};
ghost use Rattle.nm_types.specs.Commands.{Numbered, commands_of};
ghost use Rattle.nm_types.specs.Limits.{IsScript};
ghost use Rattle.nm_types.specs.Sizes.{Sizes};
ghost use Rattle.nm_history.specs.Quiescence.{EachRank, Packets, IsStopped, packets_of, packets_of_by};
ghost use Rattle.nm_history.specs.Run.{IsRunBy, IsRunOf};
ghost use Rattle.nm_channels.specs.Finished.{AreAllEnds, AreAllEndsBy, AreInRange, Finished, ended_of};

/// Where each two ranks, which may be the same, have nothing left to send and took of each other what
/// the histories call for, each rank is at its end or waits for what can't come, and the counts of
/// packets are those that the histories call for, the histories are a run of these commands, whatever
/// gave them.
pub fn ends_make_a_run_by()
    ensures { (shape : Sizes) (commands : ℕ → List Numbered) (ranks : List Finished)
        (packets : List Packets) → AreInRange shape.ranks commands → length ranks ≡ shape.ranks →
        AreAllEndsBy shape commands ranks →
        EachRank (λ i rank. IsStopped (commands i) rank) (map ended_of ranks) →
        packets ≡ packets_of_by commands (map ended_of ranks) →
        IsRunBy shape commands (map ended_of ranks) packets }
{}

/// So it is with the commands of a script.
pub fn ends_make_a_run()
    ensures { (shape : Sizes) (lines : List Line) (ranks : List Finished)
        (packets : List Packets) → IsScript shape.ranks lines → length ranks ≡ shape.ranks →
        AreAllEnds shape lines ranks →
        EachRank (λ i rank. IsStopped (commands_of i lines) rank) (map ended_of ranks) →
        packets ≡ packets_of lines (map ended_of ranks) →
        IsRunOf shape lines (map ended_of ranks) packets }
{}
