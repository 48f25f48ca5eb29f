//! Laws of the definitions. Each is the contract of a function that does nothing.

ghost use Rattle.std.specs.Prelude.{◌≡◌, ◌≢◌, ℕ, ◌%◌, ◌<◌, true, false, Bool, Option, Some, None};
ghost use Rattle.std.specs.Prelude.{List, [], ◌∷◌, ◌++◌, length, slice_set};
ghost use mathlib.Core.Option as maybe;
ghost use lib.ListN.{get_elem?};
ghost use Rattle.nm_chain.specs.declared.seats.views.View.{View};
ghost use Rattle.nm_chain.specs.Spoken.{Spoken, view};
ghost use Rattle.nm_chain.specs.Total.{total, sign};
ghost use Rattle.nm_chain.specs.Update.{update};
ghost use Rattle.nm_chain.specs.Window.{Changes, Window};

/// What each item of a window has to be.
pub trait Fits<L> {
    ghost fits: { L → Type 0 };
}

/// A seat that speaks for one rank may change the entry of that rank, and the entry that a seat has
/// for a rank is the one in the ledger.
pub fn a_seat_changes_its_own_entry<E>()
    ensures changes { (rank : E → ℕ) (ledger : ℕ → E) (views : List (View E)) (id : ℕ) (e f : E) →
        Spoken rank ledger views → get_elem? views id ≡ maybe.some (view (e ∷ [])) →
        rank f ≡ rank e →
        Spoken rank (update ledger (rank e) f) (slice_set views id (view (f ∷ []))) }
    ensures value { (rank : E → ℕ) (ledger : ℕ → E) (views : List (View E)) (id : ℕ) (e : E)
        (es : List E) → Spoken rank ledger views →
        get_elem? views id ≡ maybe.some (view (e ∷ es)) → ledger (rank e) ≡ e }
{}

/// A split moves an entry to the new seat, and a join moves the entries of the spent seat. What the
/// ledger has for each rank stays.
pub fn entries_move_between_seats<E>()
    ensures split { (rank : E → ℕ) (ledger : ℕ → E) (views : List (View E)) (id : ℕ) (e : E)
        (es : List E) → Spoken rank ledger views →
        get_elem? views id ≡ maybe.some (view (e ∷ es)) →
        Spoken rank ledger (slice_set views id (view es) ++ view (e ∷ []) ∷ []) }
    ensures join { (rank : E → ℕ) (ledger : ℕ → E) (views : List (View E)) (id other : ℕ)
        (v w : View E) → Spoken rank ledger views → get_elem? views id ≡ maybe.some v →
        other ≢ id → get_elem? views other ≡ maybe.some w →
        Spoken rank ledger (slice_set (slice_set views id (view (w.entries ++ v.entries)))
        other (view [])) }
{}

/// Where the flag of the next place is 0, the window has room for one more item. The producer that
/// took the slot of that place stores an item that fits and its mark, and it is behind the others.
pub fn the_next_free_place_is_filled<L, F: Fits<L>>()
    ensures room { (B : ℕ) (none : L) (mark : L → ℕ) (flag : ℕ → ℕ)
        (slot : ℕ → maybe.Option (maybe.Option L)) (filling : Bool) (emptying : Option L)
        (put got waits : List L) → 0 < B → ((y : L) → 0 < mark y) →
        Window B none mark F.fits flag slot filling emptying put got waits →
        flag (length put % B) ≡ 0 → length waits < B }
    ensures filled { (B : ℕ) (none y : L) (mark : L → ℕ) (flag flag' : ℕ → ℕ)
        (slot slot' : ℕ → maybe.Option (maybe.Option L)) (emptying : Option L)
        (put got waits : List L) → 0 < B → ((y : L) → 0 < mark y) → F.fits y →
        Window B none mark F.fits flag slot true emptying put got waits →
        Changes B flag flag' (length put) (mark y) →
        Changes B slot slot' (length put) (maybe.some (maybe.some y)) →
        Window B none mark F.fits flag' slot' false emptying
        (put ++ y ∷ []) got (waits ++ y ∷ []) }
{}

/// Where the flag of the next place isn't 0, it is the mark of the first item that waits, which fits. The
/// consumer that took the slot of that place clears the flag, and has got that item.
pub fn the_first_full_place_is_emptied<L, F: Fits<L>>()
    ensures found { (B : ℕ) (none : L) (mark : L → ℕ) (flag : ℕ → ℕ)
        (slot : ℕ → maybe.Option (maybe.Option L)) (filling : Bool) (emptying : Option L)
        (put got waits : List L) → 0 < B → ((y : L) → 0 < mark y) →
        Window B none mark F.fits flag slot filling emptying put got waits →
        0 < flag (length got % B) →
        (y : L) × (ys : List L) × (waits ≡ y ∷ ys) × (flag (length got % B) ≡ mark y) × F.fits y }
    ensures emptied { (B : ℕ) (none y : L) (mark : L → ℕ) (flag flag' : ℕ → ℕ)
        (slot slot' : ℕ → maybe.Option (maybe.Option L)) (filling : Bool)
        (put got ys : List L) → 0 < B → ((y : L) → 0 < mark y) →
        Window B none mark F.fits flag slot filling (Some y) put got (y ∷ ys) →
        Changes B flag flag' (length got) 0 →
        Changes B slot slot' (length got) (maybe.some (maybe.some none)) →
        Window B none mark F.fits flag' slot' filling None put (got ++ y ∷ []) ys }
{}

/// So many places have a flag that isn't 0 as there are items that wait, whoever is at work.
pub fn the_full_places_are_those_that_wait<L, F: Fits<L>>()
    ensures { (B : ℕ) (none : L) (mark : L → ℕ) (flag : ℕ → ℕ)
        (slot : ℕ → maybe.Option (maybe.Option L)) (filling : Bool) (emptying : Option L)
        (put got waits : List L) → 0 < B → ((y : L) → 0 < mark y) →
        Window B none mark F.fits flag slot filling emptying put got waits →
        total B (λ k. sign (flag k)) ≡ length waits }
{}
