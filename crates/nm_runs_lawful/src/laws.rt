//! Laws of the definitions. Each is the contract of a function that does nothing.

ghost use Rattle.nm_runs_lawful.specs.Runs.{RanksAreTold, RunsAreLawful, RunsAreNotRefused};
ghost use Rattle.nm_runs_lawful.specs.Stands.{EndsAreEnds, StepsLead};

use nm_types::laws::commands_stand_at_their_lines;

/// There is a report of what ranks tell.
pub fn ranks_are_told()
    ensures { RanksAreTold }
{}

/// At each step of a log of a run, moves lead from the state behind the log so far to the one behind the step.
pub fn steps_lead()
    ensures { StepsLead }
{}

/// The state behind a whole log is an end: all is told, no move is left, and each rank rests as is said.
pub fn ends_are_ends()
    ensures { EndsAreEnds }
{}

/// What a run of a script tells, a run by MPI's text alone tells.
pub fn runs_are_lawful()
    ensures { RunsAreLawful }
{
    commands_stand_at_their_lines();
    steps_lead();
    ends_are_ends();
}

/// A judge of what a run of a script tells does not refuse it: it calls it lawful, or gives up at its limit.
pub fn runs_are_not_refused()
    ensures { RunsAreNotRefused }
{
    runs_are_lawful();
}
