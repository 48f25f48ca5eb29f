//! Walks over the events of a rank.

ghost use Rattle.nm_check_rank.specs.Runs.{IsRun, commands_in};
ghost use Rattle.nm_check_rank.specs.Walks.{IsWalked};

use crate::clauses::OwnClause;
use crate::paired::runs::Run;
use crate::paired::so_far::SoFar;
use crate::paired::standing::{Standing, first_against};

/// What a walk over the events finds.
#[derive(Clone, Copy)]
pub(crate) enum Walked {
    /// The event of this place is the first that breaks one of the rules.
    Breaks { at: usize, standing: Standing },
    /// Each event keeps each of them, and this is what there is of the events.
    Ends(SoFar),
}

/// Walks over the events up to the first that breaks one of these rules.
pub(crate) fn walk(run: &Run, rules: &[OwnClause]) -> Walked
    requires { IsRun run.now }
    ensures { IsWalked run.now.shape (commands_in run.now) rules.now run.now.events.now result }
{
    let events = run.events;
    let mut so_far = SoFar::none();
    for (k, e) in events.iter().enumerate() {
        if let Some(standing) = first_against(run, rules, so_far, k, e) {
            return Walked::Breaks { at: k, standing };
        }
        so_far = so_far.after(k, e);
    }
    Walked::Ends(so_far)
}
