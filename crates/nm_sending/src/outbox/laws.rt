//! Laws of the definitions. Each is the contract of a function that does nothing.

ghost use Rattle.std.specs.Prelude.{◌≡◌, ◌<◌, ◌+◌, ◌==◌, ℕ, List, [], ◌∷◌, ◌++◌, if◌then◌else◌};
ghost use Rattle.std.specs.Prelude.{length, slice_set};
ghost use Rattle.nm_sending.specs.Letters.{Letter, packets_for};
ghost use Rattle.nm_sending.specs.Outboxes.{OutboxView, popped_to, put_to};

/// The packets to a rank in some letters followed by others. So where the letters that were put are
/// those that were popped followed by those in the outbox, the same is true of the packets to each
/// rank.
pub fn packets_stay_in_order()
    ensures none { (to : ℕ) → packets_for to [] ≡ [] }
    ensures one { (to : ℕ) (letter : Letter) →
        packets_for to (letter ∷ []) ≡ (if letter.to == to then letter.packet ∷ [] else []) }
    ensures both { (to : ℕ) (first rest : List Letter) →
        packets_for to (first ++ rest) ≡ packets_for to first ++ packets_for to rest }
{}

/// A letter that is put counts as one for its rank and as none for the others, and a letter that is
/// popped changes no count of those that were put.
pub fn counts_change()
    ensures put { (outbox : OutboxView) (letter : Letter) (to : ℕ) →
        put_to (record outbox { letters = outbox.letters ++ letter ∷ [] }) to
        ≡ put_to outbox to + (if letter.to == to then 1 else 0) }
    ensures popped { (outbox : OutboxView) (letter : Letter) (rest : List Letter) (to : ℕ) →
        outbox.letters ≡ letter ∷ rest → letter.to < length outbox.popped →
        put_to
        (record outbox {
          letters = rest;
          popped = slice_set outbox.popped letter.to (popped_to outbox letter.to + 1);
        }) to
        ≡ put_to outbox to }
{}
