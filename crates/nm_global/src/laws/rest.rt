//! Ranks with nothing left to send, and nothing between them.

ghost use Rattle.std.specs.Prelude.{◌≡◌, ◌<◌, ℕ, List, map};
ghost use Rattle.nm_types.specs.Commands.{Numbered};
ghost use Rattle.nm_types.specs.Sizes.{Sizes};
ghost use Rattle.nm_history.specs.Outgoing.{packets_to};
ghost use Rattle.nm_history.specs.Quiescence.{EachRank, Packets, IsStopped, packets_of_by};
ghost use Rattle.nm_history.specs.Run.{IsRunBy};
ghost use Rattle.nm_sending.specs.Outboxes.{popped_to};
ghost use Rattle.nm_channels.specs.Settled.{HasNoStray};
ghost use Rattle.nm_channels.specs.Finished.{AreInRange};
ghost use Rattle.nm_global.specs.Ranks.{AreAtRest, Each, EachTwo, OneRank, recorded_of};

use crate::outgoing::laws::leaves::all_left;

/// Where each is at its end or waits for what can't come, and the counts of packets are those that
/// the histories call for, the histories are a run of the commands, which are in range.
pub fn ranks_at_rest_make_a_run()
    ensures { (shape : Sizes) (commands : ℕ → List Numbered) (ranks : List OneRank)
        (packets : List Packets) → AreInRange shape.ranks commands →
        AreAtRest shape commands ranks →
        EachRank (λ i rank. IsStopped (commands i) rank) (map recorded_of ranks) →
        packets ≡ packets_of_by commands (map recorded_of ranks) →
        IsRunBy shape commands (map recorded_of ranks) packets }
{
    all_left();
}

/// Each popped as many packets for each as its history calls for.
pub fn packets_are_counted()
    ensures { (shape : Sizes) (commands : ℕ → List Numbered) (ranks : List OneRank) →
        AreAtRest shape commands ranks →
        Each (λ i r. (to : ℕ) → to < shape.ranks →
        popped_to r.view.sending.outbox to ≡ packets_to r.view.events to) ranks }
{}

/// No packet and no piece that was taken was a stray.
pub fn none_was_a_stray()
    ensures { (shape : Sizes) (commands : ℕ → List Numbered) (ranks : List OneRank) →
        AreAtRest shape commands ranks → EachTwo (λ i j a b. HasNoStray i b.log) ranks }
{
    all_left();
}
