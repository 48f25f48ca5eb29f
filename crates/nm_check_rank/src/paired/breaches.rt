//! Where a rank breaks a rule of its own run first.

use crate::breaks::Break;
use crate::clauses::OwnClause;
use crate::paired::dues::Due;

/// The first break of a rank's own run: no event before breaks a rule.
#[derive(Clone, Copy)]
pub struct Breach {
    /// The rule: the first in order of those that break there.
    pub clause: OwnClause,
    /// The event that breaks it, or the end.
    pub place: Break,
    /// What stands against the event, if it is one.
    pub due: Option<Due>,
}
