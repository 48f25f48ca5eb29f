//! The rules of a rank's own run, by name.

ghost use Rattle.std.specs.Prelude.{◌≡◌};
ghost use Rattle.nm_check_rank.specs.OwnClauses.{own_letter, own_order};

/// A rule of a rank's run (MPI 3.1, chapter 3).
#[derive(Clone, Copy)]
pub enum OwnClause {
    /// The commands that ran are the first ones, in order, each with its answer.
    Answers,
    /// Each start that was taken has its one send or receive.
    Starts,
    /// Sends, receives and arrivals are numbered from 0, and messages come from ranks that there
    /// are.
    Numbers,
    /// Each cancel has its one event.
    Cancels,
    /// A message is whole once, after it came, and after it was paired where it was sent by asking.
    Wholes,
    /// A message is withdrawn once and where it is free, leaves once, and a recall is answered
    /// once.
    Ends,
    /// Stamps are at least 1 and rise.
    Stamps,
    /// Each matched probe that showed a message has its one claim, of the first free message.
    Claims,
}

/// All rules, in the order in which they are judged.
const ORDER: &[OwnClause] = &[
    OwnClause::Stamps,
    OwnClause::Numbers,
    OwnClause::Claims,
    OwnClause::Starts,
    OwnClause::Cancels,
    OwnClause::Wholes,
    OwnClause::Ends,
    OwnClause::Answers,
];

impl OwnClause {
    /// All rules, in the order in which they are judged.
    pub(crate) fn order() -> &'static [OwnClause]
        ensures { result.now ≡ own_order }
    {
        ORDER
    }

    /// The letter by which the rule is named: `a` to `h`, in the order above.
    pub fn letter(self) -> char
        ensures { result ≡ own_letter self }
    {
        match self {
            OwnClause::Answers => 'a',
            OwnClause::Starts => 'b',
            OwnClause::Numbers => 'c',
            OwnClause::Cancels => 'd',
            OwnClause::Wholes => 'e',
            OwnClause::Ends => 'f',
            OwnClause::Stamps => 'g',
            OwnClause::Claims => 'h',
        }
    }
}
