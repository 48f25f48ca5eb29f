//! Laws of the definitions. Each is the contract of a function that does nothing.

ghost use Rattle.nm_outcomes.specs.Due.{EventsAreDue};
ghost use Rattle.nm_outcomes.specs.Logs.{LogsDeliver, RunsHaveLogs};
ghost use Rattle.nm_outcomes.specs.Moves.{StepsAreMoves};
ghost use Rattle.nm_outcomes.specs.Outcomes.{RunsAreFound};
ghost use Rattle.nm_outcomes.specs.Paths.{RunsArePaths};
ghost use Rattle.nm_outcomes.specs.Places.{PlacesFollow};
ghost use Rattle.nm_outcomes.specs.Queues.{ReceivesAndMessagesSwap};
ghost use Rattle.nm_outcomes.specs.Rests.{RunsComeToRest};
ghost use Rattle.nm_outcomes.specs.Results.{ResultsMayCome};
ghost use Rattle.nm_outcomes.specs.Searches.{SearchesFindEnds};

use nm_types::laws::commands_stand_at_their_lines;

/// Each run of a script has a log: all its events in one order, in which each of them may come after
/// those before it.
pub fn runs_have_logs()
    ensures { RunsHaveLogs }
{}

/// The histories of a log are delivered at each moment: between each two ranks no message was lost,
/// made up, changed or overtaken.
pub fn logs_deliver()
    ensures { LogsDeliver }
{}

/// In a log each result is one that its request may end with by then: of what has still to leave, to
/// become whole or to come back, none need have happened before.
pub fn results_may_come()
    ensures { ResultsMayCome }
{}

/// A receive that is posted before a message comes does what it does behind it: the queues are the
/// same after both, and so are the pairs that were made.
pub fn receives_and_messages_swap()
    ensures { ReceivesAndMessagesSwap }
{}

/// The place of a rank follows its history: what it is after one event more is told by what it was and
/// by the event.
pub fn places_follow()
    ensures { PlacesFollow }
{}

/// At each event of a rank's run, a send, a posted receive and an answer are those of its next command.
pub fn events_are_due()
    ensures { EventsAreDue }
{}

/// The next step of a run is a move of the ranks' places: whether it may come is told by what each
/// rank's later answers can depend on, and by nothing else of their histories.
pub fn steps_are_moves()
    ensures { StepsAreMoves }
{}

/// Each run of a script is a path of moves, from the first places of the ranks to where its histories are.
pub fn runs_are_paths()
    ensures { RunsArePaths }
{}

/// Each run of a script is a path of moves to places at rest.
pub fn runs_come_to_rest()
    ensures { RunsComeToRest }
{}

/// A search that makes all moves of each state that it finds, or chosen ones that are enough, finds each
/// end that a path leads to.
pub fn searches_find_ends()
    ensures { SearchesFindEnds }
{}

/// What a run of a script tells is told at the end of some moves: so a search that finds the ends of all
/// moves misses no report.
pub fn runs_are_found()
    ensures { RunsAreFound }
{
    commands_stand_at_their_lines();
}
