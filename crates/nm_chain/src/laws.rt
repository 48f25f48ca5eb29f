//! Laws of the definitions. Each is the contract of a function that does nothing.

ghost use Rattle.std.specs.Prelude.{◌≡◌, ◌≢◌, ℕ, suc, ◌<◌, ◌⊎◌, List, [], ◌∷◌, ◌++◌};
ghost use Rattle.nm_chain.specs.Update.{update};
ghost use Rattle.nm_chain.specs.Chain.{Place, held, entering, queued, Item, item, IsIn};
ghost use Rattle.nm_chain.specs.Chain.{Has as Stands, IsChain};
ghost use Rattle.nm_chain.specs.Sequence.{Has, Got, InSequence};

/// What each item of a chain has to be before a step, and after it.
pub trait Fits<L> {
    ghost before: { Item L → Type 0 };

    ghost after: { Item L → Type 0 };
}

/// An enqueue exchanges the tail for a cell that is in no chain of the queue, whose link is 0, and
/// that fits once its slot is at home. The cell is the last one, and its enqueue is pending.
pub fn an_enqueue_goes_to_the_end<L, F: Fits<L>>()
    ensures { (place : ℕ → Place L) (link : ℕ → ℕ)
        (q head tail shadow r c : ℕ) (y : L) (chain : List (Item L)) →
        IsChain F.before place link q head tail shadow chain →
        ¬ IsIn q (place c) → link c ≡ 0 → F.after (item c y) →
        ((x : Item L) → x.cell ≢ c → F.before x → F.after x) →
        IsChain F.after (update place c (entering r q tail)) link q head (suc c) shadow
        (chain ++ item c y ∷ []) }
{}

/// The pending enqueue that found no tail stores the head, which is 0. One that found a cell stores
/// the link of that cell, which is in the chain and whose link is 0. The chain stays.
pub fn a_pending_enqueue_is_finished<L, F: Fits<L>>()
    ensures head { (place : ℕ → Place L) (link : ℕ → ℕ)
        (q head tail shadow r c : ℕ)
        (chain : List (Item L)) → IsChain F.before place link q head tail shadow chain →
        place c ≡ entering r q 0 →
        IsChain F.before (update place c (queued q)) link q (suc c) tail shadow chain × (head ≡ 0) }
    ensures link { (place : ℕ → Place L) (link : ℕ → ℕ)
        (q head tail shadow r c p : ℕ)
        (chain : List (Item L)) → IsChain F.before place link q head tail shadow chain →
        place c ≡ entering r q (suc p) →
        IsChain F.before (update place c (queued q)) (update link p (suc c)) q head tail shadow
        chain
        × IsIn q (place p) × (link p ≡ 0) }
{}

/// The consumer clears the head word, whose cell is its shadow head from then on. Where there is a
/// shadow head, it is the first cell.
pub fn the_shadow_head_is_the_first_cell<L, F: Fits<L>>()
    ensures cleared { (place : ℕ → Place L) (link : ℕ → ℕ)
        (q head tail shadow c : ℕ)
        (chain : List (Item L)) → IsChain F.before place link q head tail shadow chain →
        head ≡ suc c → IsChain F.before place link q 0 tail (suc c) chain }
    ensures first { (place : ℕ → Place L) (link : ℕ → ℕ)
        (q head tail shadow c : ℕ)
        (chain : List (Item L)) → IsChain F.before place link q head tail shadow chain →
        shadow ≡ suc c → (x : Item L) × (xs : List (Item L)) × (chain ≡ x ∷ xs) × (x.cell ≡ c)
        × (place c ≡ queued q) × (head ≡ 0) }
{}

/// The consumer takes the first cell, with its slot, where its link has a cell, which is the next
/// shadow head, or where it is the tail too, and then the chain is empty.
pub fn the_first_cell_is_taken<L, F: Fits<L>>()
    ensures linked { (place : ℕ → Place L) (link : ℕ → ℕ)
        (q tail shadow r d : ℕ) (x : Item L) (xs : List (Item L)) →
        ((y : Item L) → y.cell ≢ x.cell → F.before y → F.after y)
        → IsChain F.before place link q 0 tail shadow (x ∷ xs) →
        link x.cell ≡ suc d →
        IsChain F.after (update place x.cell (held r)) link q 0 tail (suc d) xs }
    ensures last { (place : ℕ → Place L) (link : ℕ → ℕ)
        (q tail shadow r : ℕ) (x : Item L) (xs : List (Item L)) →
        ((y : Item L) → y.cell ≢ x.cell → F.before y → F.after y)
        → IsChain F.before place link q 0 tail shadow (x ∷ xs) →
        tail ≡ suc x.cell →
        IsChain F.after (update place x.cell (held r)) link q 0 0 0 [] × (xs ≡ []) }
{}

/// Each packet that was sent stands in one of the four places.
pub fn no_packet_is_lost()
    ensures { (s : ℕ) (got_box boxes got_cell chain : List ℕ) →
        InSequence s got_box boxes got_cell chain → (k : ℕ) → k < s →
        (Has k got_box ⊎ Has k boxes) ⊎ (Has k got_cell ⊎ Has k chain) }
{}

/// The next packet may go either way. The first packet in the chain may be got at any time, and the
/// first one in the boxes once all packets with smaller numbers were got.
pub fn packets_stay_in_sequence()
    ensures put_by_box { (s : ℕ) (got_box boxes got_cell chain : List ℕ) →
        InSequence s got_box boxes got_cell chain →
        InSequence (suc s) got_box (boxes ++ s ∷ []) got_cell chain }
    ensures put_by_cell { (s : ℕ) (got_box boxes got_cell chain : List ℕ) →
        InSequence s got_box boxes got_cell chain →
        InSequence (suc s) got_box boxes got_cell (chain ++ s ∷ []) }
    ensures got_by_box { (s k : ℕ) (got_box boxes got_cell chain : List ℕ) →
        InSequence s got_box (k ∷ boxes) got_cell chain →
        ((j : ℕ) → j < k → Got got_box got_cell j) →
        InSequence s (got_box ++ k ∷ []) boxes got_cell chain }
    ensures got_by_cell { (s k : ℕ) (got_box boxes got_cell chain : List ℕ) →
        InSequence s got_box boxes got_cell (k ∷ chain) →
        InSequence s got_box boxes (got_cell ++ k ∷ []) chain }
{}

/// Where a packet was got and one with a smaller number wasn't, the smaller one stands in the
/// boxes. Where it is the first that is missing, it is the first one there.
pub fn a_missing_packet_stands_in_the_boxes()
    ensures missing { (s j k : ℕ) (got_box boxes got_cell chain : List ℕ) →
        InSequence s got_box boxes got_cell chain → j < k → Got got_box got_cell k →
        ¬ Got got_box got_cell j → Has j boxes }
    ensures first { (s j k b : ℕ) (got_box boxes got_cell chain : List ℕ) →
        InSequence s got_box (b ∷ boxes) got_cell chain →
        ((i : ℕ) → i < j → Got got_box got_cell i) → j < k → Got got_box got_cell k →
        ¬ Got got_box got_cell j → b ≡ j }
{}
