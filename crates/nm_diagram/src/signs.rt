//! The signs of a picture, and what they stand for.

ghost use Rattle.std.specs.Prelude.{◌≡◌};
ghost use Rattle.nm_diagram.specs.Diagrams.{sign_of};
ghost use Rattle.nm_diagram.specs.Signs.{is_ask, is_eager, is_of_left, is_waits, name_of, tells};
ghost use Rattle.nm_diagram.specs.Signs.{words_of};

use nm_history::Happened;
use nm_types::How;

/// What a shape of a picture stands for.
#[derive(Clone, Copy)]
pub enum Sign {
    /// An eager send.
    Send,
    /// A rendezvous send.
    Ask,
    /// A receive posted.
    Post,
    /// The arrival of a message, or of the request of a rendezvous.
    Arrive,
    /// All bytes of a message have arrived.
    Whole,
    /// A message has left.
    Out,
    /// A cancel of a receive.
    Cancel,
    /// A cancel of a send.
    Recall,
    /// A withdrawal, done or late.
    Withdraw,
    /// The answer to a cancelled send.
    Undone,
    /// A message claimed by a probe.
    Claim,
    /// A claimed message received.
    Match,
    /// A command answered.
    Ran,
    /// A command that is blocked at the end.
    Waits,
    /// An eager message on its way.
    EagerWay,
    /// The request of a rendezvous on its way.
    AskWay,
    /// A withdrawal, or its answer, on its way.
    BackWay,
    /// A receive and what it took.
    Taken,
    /// A message that nobody took.
    Left,
}

/// Whether a message is eager.
fn is_eager(how: How) -> bool
    ensures { result ≡ is_eager how }
{
    match how {
        How::Eager => true,
        How::Ask => false,
    }
}

/// Whether a message goes by rendezvous.
fn is_ask(how: How) -> bool
    ensures { result ≡ is_ask how }
{
    match how {
        How::Eager => false,
        How::Ask => true,
    }
}

impl Sign {
    /// The sign of an event.
    pub fn of(what: &Happened) -> Sign
        ensures { result ≡ sign_of what.now }
    {
        match what {
            Happened::Send {
                how: How::Eager,
                ..
            } => Sign::Send,
            Happened::Send { how: How::Ask, .. } => Sign::Ask,
            Happened::Post { .. } => Sign::Post,
            Happened::Arrive { .. } => Sign::Arrive,
            Happened::Whole { .. } => Sign::Whole,
            Happened::Out { .. } => Sign::Out,
            Happened::Cancel { .. } => Sign::Cancel,
            Happened::Recall { .. } => Sign::Recall,
            Happened::Withdraw { .. } => Sign::Withdraw,
            Happened::Undone { .. } => Sign::Undone,
            Happened::Claim { .. } => Sign::Claim,
            Happened::Match { .. } => Sign::Match,
            Happened::Ran { .. } => Sign::Ran,
        }
    }

    /// Whether an event is told by a sign.
    pub fn tells(self, what: &Happened) -> bool
        ensures { result ≡ tells self what.now }
    {
        match (self, what) {
            (Sign::Send, Happened::Send { how, .. }) => is_eager(*how),
            (Sign::Ask, Happened::Send { how, .. }) => is_ask(*how),
            (Sign::Post, Happened::Post { .. }) => true,
            (Sign::Arrive, Happened::Arrive { .. }) => true,
            (Sign::Whole, Happened::Whole { .. }) => true,
            (Sign::Out, Happened::Out { .. }) => true,
            (Sign::Cancel, Happened::Cancel { .. }) => true,
            (Sign::Recall, Happened::Recall { .. }) => true,
            (Sign::Withdraw, Happened::Withdraw { .. }) => true,
            (Sign::Undone, Happened::Undone { .. }) => true,
            (Sign::Claim, Happened::Claim { .. }) => true,
            (Sign::Match, Happened::Match { .. }) => true,
            (Sign::Ran, Happened::Ran { .. }) => true,
            (Sign::EagerWay, Happened::Arrive { a }) => is_eager(a.env.how),
            (Sign::AskWay, Happened::Arrive { a }) => is_ask(a.env.how),
            (Sign::BackWay, Happened::Withdraw { .. }) => true,
            (Sign::BackWay, Happened::Undone { .. }) => true,
            (Sign::Taken, Happened::Post { .. }) => true,
            (Sign::Taken, Happened::Match { .. }) => true,
            _ => false,
        }
    }

    /// Whether a sign tells of a command that waits.
    pub fn is_waits(self) -> bool
        ensures { result ≡ is_waits self }
    {
        match self {
            Sign::Waits => true,
            _ => false,
        }
    }

    /// Whether a sign tells of a message that nobody took.
    pub fn is_of_left(self) -> bool
        ensures { result ≡ is_of_left self }
    {
        match self {
            Sign::Left => true,
            _ => false,
        }
    }

    /// The name of the group that draws a sign.
    pub fn name(self) -> &'static str
        ensures { result.now ≡ name_of self }
    {
        match self {
            Sign::Send => "send",
            Sign::Ask => "ask",
            Sign::Post => "post",
            Sign::Arrive => "arrive",
            Sign::Whole => "whole",
            Sign::Out => "out",
            Sign::Cancel => "cancel",
            Sign::Recall => "recall",
            Sign::Withdraw => "withdraw",
            Sign::Undone => "undone",
            Sign::Claim => "claim",
            Sign::Match => "match",
            Sign::Ran => "ran",
            Sign::Waits => "waits",
            Sign::EagerWay => "eagerway",
            Sign::AskWay => "askway",
            Sign::BackWay => "backway",
            Sign::Taken => "taken",
            Sign::Left => "left",
        }
    }

    /// What a sign stands for, in words.
    pub fn words(self) -> &'static str
        ensures { result.now ≡ words_of self }
    {
        match self {
            Sign::Send => "an eager send",
            Sign::Ask => "a rendezvous send",
            Sign::Post => "a receive posted",
            Sign::Arrive => "a message, or its request, arrives",
            Sign::Whole => "all bytes have arrived",
            Sign::Out => "a message has left",
            Sign::Cancel => "a cancel of a receive",
            Sign::Recall => "a cancel of a send",
            Sign::Withdraw => "a withdrawal, done or late",
            Sign::Undone => "the answer to a cancelled send",
            Sign::Claim => "a message claimed by a probe",
            Sign::Match => "a claimed message received",
            Sign::Ran => "a command answered",
            Sign::Waits => "a command blocked at the end",
            Sign::EagerWay => "an eager message on its way",
            Sign::AskWay => "a rendezvous request on its way",
            Sign::BackWay => "a withdrawal on its way",
            Sign::Taken => "a receive and what it took",
            Sign::Left => "a message that nobody took",
        }
    }
}
