//! The kinds of events that are of a message, a number or a line.

use crate::firsts::{Kind, Message, Numbering};
use nm_history::Happened;
use nm_types::How;

/// A message was sent to the other rank.
pub struct Sends;

impl Kind for Sends {
    ghost use Rattle.nm_history.specs.Happens.{is_send};

    ghost is_of = { is_send };

    fn message(what: &Happened) -> Option<Message> {
        match what {
            Happened::Send { to, n, .. } => Some(Message { rank: *to, n: *n }),
            _ => None,
        }
    }
}

/// A message of the other rank came.
pub struct Arrivals;

impl Kind for Arrivals {
    ghost use Rattle.nm_history.specs.Happens.{is_arrival};

    ghost is_of = { is_arrival };

    fn message(what: &Happened) -> Option<Message> {
        match what {
            Happened::Arrive { a } => Some(Message {
                rank: a.env.from,
                n: a.n,
            }),
            _ => None,
        }
    }
}

/// A message of the other rank came that is sent by asking.
pub struct Askings;

impl Kind for Askings {
    ghost use Rattle.nm_history.specs.RankRun.{is_asking};

    ghost is_of = { is_asking };

    fn message(what: &Happened) -> Option<Message> {
        match what {
            Happened::Arrive { a } => {
                if a.env.how == How::Ask {
                    Some(Message {
                        rank: a.env.from,
                        n: a.n,
                    })
                } else {
                    None
                }
            }
            _ => None,
        }
    }
}

/// A message of the other rank is here whole.
pub struct Wholes;

impl Kind for Wholes {
    ghost use Rattle.nm_history.specs.Happens.{is_whole};

    ghost is_of = { is_whole };

    fn message(what: &Happened) -> Option<Message> {
        match what {
            Happened::Whole { from, n } => Some(Message { rank: *from, n: *n }),
            _ => None,
        }
    }
}

/// A message to the other rank has left.
pub struct Outs;

impl Kind for Outs {
    ghost use Rattle.nm_history.specs.Happens.{is_out};

    ghost is_of = { is_out };

    fn message(what: &Happened) -> Option<Message> {
        match what {
            Happened::Out { to, n } => Some(Message { rank: *to, n: *n }),
            _ => None,
        }
    }
}

/// The other rank was asked to withdraw a message.
pub struct Recalls;

impl Kind for Recalls {
    ghost use Rattle.nm_history.specs.Happens.{is_recall};

    ghost is_of = { is_recall };

    fn message(what: &Happened) -> Option<Message> {
        match what {
            Happened::Recall { to, n } => Some(Message { rank: *to, n: *n }),
            _ => None,
        }
    }
}

/// A message of the other rank was withdrawn.
pub struct Withdrawn;

impl Kind for Withdrawn {
    ghost use Rattle.std.specs.Prelude.{true};
    ghost use Rattle.nm_history.specs.Happens.{is_withdraw};

    ghost is_of = { λ from n what. is_withdraw from n true what };

    fn message(what: &Happened) -> Option<Message> {
        match what {
            Happened::Withdraw {
                from,
                n,
                done: true,
            } => Some(Message { rank: *from, n: *n }),
            _ => None,
        }
    }
}

/// A message of the other rank was to be withdrawn, and was not.
pub struct Refused;

impl Kind for Refused {
    ghost use Rattle.std.specs.Prelude.{false};
    ghost use Rattle.nm_history.specs.Happens.{is_withdraw};

    ghost is_of = { λ from n what. is_withdraw from n false what };

    fn message(what: &Happened) -> Option<Message> {
        match what {
            Happened::Withdraw {
                from,
                n,
                done: false,
            } => Some(Message { rank: *from, n: *n }),
            _ => None,
        }
    }
}

/// The answer came back that a message was withdrawn.
pub struct Undone;

impl Kind for Undone {
    ghost use Rattle.std.specs.Prelude.{true};
    ghost use Rattle.nm_history.specs.Happens.{is_undone};

    ghost is_of = { λ to n what. is_undone to n true what };

    fn message(what: &Happened) -> Option<Message> {
        match what {
            Happened::Undone { to, n, done: true } => Some(Message { rank: *to, n: *n }),
            _ => None,
        }
    }
}

/// The answer came back that a message was not withdrawn.
pub struct Late;

impl Kind for Late {
    ghost use Rattle.std.specs.Prelude.{false};
    ghost use Rattle.nm_history.specs.Happens.{is_undone};

    ghost is_of = { λ to n what. is_undone to n false what };

    fn message(what: &Happened) -> Option<Message> {
        match what {
            Happened::Undone { to, n, done: false } => Some(Message { rank: *to, n: *n }),
            _ => None,
        }
    }
}

/// A message of the other rank was claimed.
pub struct Claims;

impl Kind for Claims {
    ghost use Rattle.nm_history.specs.Happens.{is_claim};

    ghost is_of = { is_claim };

    fn message(what: &Happened) -> Option<Message> {
        match what {
            Happened::Claim { from, n, .. } => Some(Message { rank: *from, n: *n }),
            _ => None,
        }
    }
}

/// A receive was cancelled.
pub struct Cancels;

impl Numbering for Cancels {
    ghost use Rattle.nm_history.specs.Happens.{is_cancel};

    ghost is_at = { is_cancel };

    fn number(what: &Happened) -> Option<u64> {
        match what {
            Happened::Cancel { number, done: true } => Some(*number),
            _ => None,
        }
    }
}

/// The command of a line made a request.
pub struct Starts;

impl Numbering for Starts {
    ghost use Rattle.nm_lookups.specs.Firsts.{is_start_at};

    ghost is_at = { is_start_at };

    fn number(what: &Happened) -> Option<u64> {
        match what {
            Happened::Send { line, .. } => Some(*line),
            Happened::Post { line, .. } => Some(*line),
            Happened::Match { line, .. } => Some(*line),
            _ => None,
        }
    }
}

/// The command of a line claimed a message.
pub struct LineClaims;

impl Numbering for LineClaims {
    ghost use Rattle.nm_lookups.specs.Firsts.{is_claim_at};

    ghost is_at = { is_claim_at };

    fn number(what: &Happened) -> Option<u64> {
        match what {
            Happened::Claim { line, .. } => Some(*line),
            _ => None,
        }
    }
}

/// A message was sent to the other rank by asking.
pub struct AskedSends;

impl Kind for AskedSends {
    ghost use Rattle.nm_history.specs.Happens.{is_asked_send};

    ghost is_of = { is_asked_send };

    fn message(what: &Happened) -> Option<Message> {
        match what {
            Happened::Send { to, n, how, .. } => {
                if *how == How::Ask {
                    Some(Message { rank: *to, n: *n })
                } else {
                    None
                }
            }
            _ => None,
        }
    }
}
