//! Laws of the states. Each is the contract of a function that does nothing.

ghost use Rattle.nm_outcomes.specs.Looks.{StatesSay};
ghost use Rattle.nm_outcomes.specs.RankStates.{SpotsFollow};

/// The state of a rank follows its history: what a rank does, a message that comes and one that is
/// withdrawn make of the state what the history says with that event more.
pub fn spots_follow()
    ensures { SpotsFollow }
{}

/// What a state says is what the definitions say of its history: the live requests and messages, how many
/// commands ran, receives were started and messages sent, and what was sent without asking or recalled.
pub fn states_say()
    ensures { StatesSay }
{}
