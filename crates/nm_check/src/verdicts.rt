//! What can be said of a record.

ghost use Rattle.std.specs.Prelude.{◌≡◌};
ghost use Rattle.nm_check.specs.Answers.{verdict_status};

use crate::clauses::CarriedClause;
use crate::rest::clauses::RestClause;
use nm_check_rank::clauses::OwnClause;

/// What a record is judged to be: a run, or one that breaks a rule. The rule is the first that is
/// broken.
#[derive(Clone, Copy)]
pub enum Verdict {
    /// The record is of a run of the script.
    Holds,
    /// A rank breaks a rule of its own run.
    Own {
        clause: OwnClause,
        rank: u8,
    },
    /// The messages from one rank to another break a rule.
    Carried {
        clause: CarriedClause,
        from: u8,
        to: u8,
    },
    /// The ranks are not at rest.
    Rest {
        clause: RestClause,
    },
    /// Not all cells are home.
    Home,
    /// The record is not marked as done exactly where every rank is at its end.
    Done,
}

impl Verdict {
    /// Its status: 0 where the trace holds, else 8.
    pub fn status(self) -> u8
        ensures { result ≡ verdict_status self }
    {
        match self {
            Verdict::Holds => 0,
            _ => 8,
        }
    }
}
