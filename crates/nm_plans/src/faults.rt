//! Why bytes are refused.

use nm_script::{LineFault, TextFault};

/// What is wrong with a plan's text. The first line with a fault has the first of these kinds.
#[derive(Clone, Copy, Debug, PartialEq)]
pub enum PlanKind {
    /// There are more bytes than a plan may have. This stands before all others.
    TooLong,
    /// The line has a byte below 32 or above 126.
    NotAscii,
    /// It is one line more than a plan may have.
    Lines,
    /// It is line 1, and isn't `ranks N`.
    First,
    /// Its first word isn't a rank with a colon.
    Rank,
    /// Its second word is no command.
    Command,
    /// The number of words after the command isn't the command's.
    Count,
    /// An argument other than a body isn't spelled right, or is out of its range.
    Number,
    /// A body isn't spelled right, or is too long.
    Body,
    /// Its rank has made a request of this name, or one that goes the same way, is in parts where
    /// this one is, and has the same peer, tag and context.
    Taken,
    /// The request of the other side has another number of parts.
    Parts,
    /// The request isn't in a state for this command.
    Order,
    /// The script of the lines up to this one is past a limit of scripts.
    Size,
}

/// Why no plan was read.
pub type PlanFault = TextFault<PlanKind>;

impl From<PlanKind> for LineFault<PlanKind> {
    ghost use Rattle.std.specs.Prelude.{◌≡◌};
    ghost use Rattle.nm_script.specs.declared.faults.LineFault.TheVariants.{Bad};

    ghost from_gives = { λ kind fault. fault ≡ Bad kind };

    fn from(kind: PlanKind) -> LineFault<PlanKind> {
        LineFault::Bad(kind)
    }
}
