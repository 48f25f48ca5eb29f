//! A law of the moves. It is the contract of a function that does nothing.

ghost use Rattle.nm_explored.specs.Moves.{EventsAreChoices};

/// What may come next in a run, and is not quiet, is a move of the ranks' states, which makes of the
/// rank's state what its history says with it.
pub fn events_are_choices()
    ensures { EventsAreChoices }
{}
