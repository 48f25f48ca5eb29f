//! The rules of all ranks at rest.

ghost use Rattle.std.specs.Prelude.{◌≡◌};
ghost use Rattle.nm_check.specs.RestClauses.{rest_letter};

/// A rule of all ranks at rest.
#[derive(Clone, Copy)]
pub enum RestClause {
    /// All that was sent has arrived.
    Arrived,
    /// Each eager message has left and is whole.
    Eager,
    /// Each paired message that was sent by asking has left and is whole.
    Asked,
    /// Each recall is answered.
    Recalls,
    /// Each rank is at its end, or waits at its next command, which can't go on.
    Waits,
    /// The counts of packets are those that the histories call for.
    Counts,
}

impl RestClause {
    /// The letter by which the rule is named: `a` to `f`, in the order above.
    pub fn letter(self) -> char
        ensures { result ≡ rest_letter self }
    {
        match self {
            RestClause::Arrived => 'a',
            RestClause::Eager => 'b',
            RestClause::Asked => 'c',
            RestClause::Recalls => 'd',
            RestClause::Waits => 'e',
            RestClause::Counts => 'f',
        }
    }
}
