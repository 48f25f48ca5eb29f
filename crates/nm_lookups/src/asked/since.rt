//! What happened since the last command gave its answer.

ghost use Rattle.std.specs.Prelude.{◌≡◌, ℕ, ◌+◌, Bool, List, Some, [], slice_get, take};
ghost use Rattle.nm_history.specs.declared.events.Event as event;
ghost use Rattle.nm_history.specs.declared.events.Happened as occurrence;
ghost use Rattle.nm_lookups.specs.Deciding.{Decides};
ghost use Rattle.nm_lookups.specs.SinceAnswer.{IsNoAnswer, IsSince, of_kind};

use nm_history::Happened;

/// A kind of event that a command calls for.
pub trait Called {
    ghost counts: { occurrence.Happened → Bool };

    /// Whether the event is of this kind.
    fn is_called(what: &Happened) -> bool
        ensures { result ≡ counts what.now };
}

/// The events of one kind since the last answer.
#[derive(Clone, Copy)]
pub enum Since {
    /// There is none.
    Nothing,
    /// The one at this place.
    One(usize),
    /// There are two or more.
    More,
}

impl Since {
    /// What there is of a kind after one event more.
    pub fn after<T: Called>(self, k: usize, what: &Happened) -> Since
        ensures { (h : List event.Event) (e : event.Event) → slice_get h k ≡ Some e →
            e.what ≡ what.now →
            IsSince T.counts h k self → IsSince T.counts h (k + 1) result }
    {
        match what {
            Happened::Ran { .. } => Since::Nothing,
            _ => self.after_other(k, T::is_called(what)),
        }
    }

    /// .. where it is no answer.
    fn after_other(self, k: usize, called: bool) -> Since
        ensures { (p : occurrence.Happened → Bool) (h : List event.Event) (e : event.Event) →
            slice_get h k ≡ Some e → IsNoAnswer e.what → p e.what ≡ called →
            IsSince p h k self → IsSince p h (k + 1) result }
    {
        if !called {
            return self;
        }
        match self {
            Since::Nothing => Since::One(k),
            _ => Since::More,
        }
    }

    /// Whether there is no event of the kind.
    pub fn is_nothing(self) -> bool
        ensures { (p : occurrence.Happened → Bool) (h : List event.Event) (k : ℕ) →
            IsSince p h k self →
            Decides result (of_kind p (take k h) ≡ []) }
    {
        matches!(self, Since::Nothing)
    }
}
