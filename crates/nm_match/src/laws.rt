//! Laws of the deeds. Each is the contract of a function that does nothing.

ghost use Rattle.std.specs.Prelude.{◌≡◌, ℕ, List, length, nat_lt};
ghost use Rattle.nm_history.specs.declared.events.Event.{Event};
ghost use Rattle.nm_history.specs.RankRun.{Always, NumberAt};
ghost use Rattle.nm_history.specs.Sends.{arrivals, receives};
ghost use Rattle.nm_match.specs.declared.deeds.Deed.{Deed};
ghost use Rattle.nm_match.specs.Deeds.{Represents, history_of, is_known_message, is_known_receive};
ghost use Rattle.nm_match.specs.InTurn.{ArePairedInTurn, ArePlainEvents};
ghost use Rattle.nm_match.specs.SameMatching.{SameMatching};

/// Matching is the same on a history and on the deeds that it stands for: what a matcher with these
/// deeds answers is what the definitions say of that history.
pub fn matching_agrees()
    ensures { (deeds : List Deed) (h : List Event) → Represents deeds h →
        SameMatching h (history_of deeds) }
{}

/// Where receives and arrivals are numbered in order from 0, those below their count are known and
/// no others: the next number of either is new.
pub fn numbers_are_known()
    ensures receive { (ranks : ℕ) (h : List Event) (number : ℕ) → Always (NumberAt ranks) h →
        is_known_receive h number ≡ nat_lt number (length (receives h)) }
    ensures message { (ranks : ℕ) (h : List Event) (from n : ℕ) → Always (NumberAt ranks) h →
        is_known_message h from n ≡ nat_lt n (length (arrivals h from)) }
{}

/// Where each receive names its source and its tag, no receive is cancelled and no message is withdrawn
/// or claimed, messages and receives of one source, tag and context pair in turn: the k-th receive
/// takes the k-th message (MPI 3.1, section 3.5).
pub fn channels_pair_in_turn()
    ensures { (ranks : ℕ) (h : List Event) → Always (NumberAt ranks) h → ArePlainEvents h →
        ArePairedInTurn h }
{}
