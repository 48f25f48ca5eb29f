//! The rules of the messages from one rank to another.

ghost use Rattle.std.specs.Prelude.{◌≡◌};
ghost use Rattle.nm_check.specs.CarriedClauses.{carried_letter};

/// A rule of the messages from one rank to another (MPI 3.1, sections 3.4, 3.5 and 3.8.4).
#[derive(Clone, Copy)]
pub enum CarriedClause {
    /// The arrivals are the first of the sends, in order, each with its envelope and a later stamp.
    Messages,
    /// A receive that shows the bytes of a message shows the body of its send.
    Bodies,
    /// A message that was sent by asking has left only after it was paired.
    Outs,
    /// A withdrawal follows its recall, and the recall's answer the withdrawal.
    Withdrawals,
}

impl CarriedClause {
    /// The letter by which the rule is named: `a` to `d`, in the order above.
    pub fn letter(self) -> char
        ensures { result ≡ carried_letter self }
    {
        match self {
            CarriedClause::Messages => 'a',
            CarriedClause::Bodies => 'b',
            CarriedClause::Outs => 'c',
            CarriedClause::Withdrawals => 'd',
        }
    }
}
