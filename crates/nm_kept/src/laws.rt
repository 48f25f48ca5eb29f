//! Laws of the definitions. Each is the contract of a function that does nothing.

ghost use Rattle.std.specs.Prelude.{◌≡◌, ◌+◌, ◌-◌, ℕ, ◌++◌, length, slice_get};
ghost use Rattle.nm_kept.specs.Keeping.{Keeping, past, window};

/// The whole list is what was let go and then what is in memory, where each item has its number less
/// how many were let go.
pub fn a_list_is_its_past_and_its_window<T>()
    ensures whole { (kept : Keeping T) → past kept ++ window kept ≡ kept.items }
    ensures size { (kept : Keeping T) → length (window kept) ≡ length kept.items - kept.forgotten }
    ensures item { (kept : Keeping T) (place : ℕ)
        → slice_get (window kept) place ≡ slice_get kept.items (kept.forgotten + place) }
{}
