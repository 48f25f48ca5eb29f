//! How many events are called for since the answer before, and how many were found.

ghost use Rattle.std.specs.Prelude.{◌≡◌, ℕ, Bool, if◌then◌else◌, List, take};
ghost use Rattle.nm_history.specs.declared.events.Event as event;
ghost use Rattle.nm_history.specs.declared.events.Happened as occurrence;
ghost use Rattle.nm_lookups.specs.SinceAnswer.{IsSince, of_kind};
ghost use Rattle.nm_check_rank.specs.Manies as spec;
ghost use Rattle.nm_check_rank.specs.declared.paired.manies.Many.TheVariants.{Nothing, One};

use crate::paired::dues::Due;
use nm_lookups::asked::since::Since;

/// How many events of a kind there are.
#[derive(Clone, Copy)]
pub enum Many {
    /// There is none.
    Nothing,
    /// There is one.
    One,
    /// There are two or more.
    More,
}

/// How many there are since the last answer.
pub(crate) fn many_of(since: Since) -> Many
    ensures { (p : occurrence.Happened → Bool) (h : List event.Event) (k : ℕ) →
        IsSince p h k since → result ≡ spec.many_of (of_kind p (take k h)) }
{
    match since {
        Since::Nothing => Many::Nothing,
        Since::One(_) => Many::One,
        Since::More => Many::More,
    }
}

/// One, where it is called for.
pub(crate) fn one_if(called: bool) -> Many
    ensures { result ≡ (if called then One else Nothing) }
{
    if called { Many::One } else { Many::Nothing }
}

/// Another number is called for than was found.
pub(crate) fn many_due(called: Many, found: Many) -> Option<Due>
    ensures { result ≡ spec.many_due called found }
{
    match (called, found) {
        (Many::Nothing, Many::Nothing) | (Many::One, Many::One) => None,
        _ => Some(Due::Many { called, found }),
    }
}
