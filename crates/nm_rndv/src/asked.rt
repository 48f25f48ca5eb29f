//! How far a message that was asked for has come.

ghost use Rattle.std.specs.Prelude.{◌≡◌, option_map};
ghost use Rattle.nm_rndv.specs.Cuts.{offset_of, next_bytes};
ghost use Rattle.nm_rndv.specs.Offers.{after_clearance, after_piece, next_in};
ghost use Rattle.nm_rndv.specs.Offers.{is_waiting as is_waiting_lem, is_leaving as is_leaving_lem};
ghost use Rattle.nm_rndv.specs.Offers.{is_out as is_out_lem, has_body as has_body_lem};
ghost use Rattle.nm_rndv.specs.Offers.{leaving_or_out as leaving_or_out_lem};

use crate::cuts::{Leaving, LongBody};

/// How far a message has come. The body is kept only while pieces of it may still be sent.
#[derive(Drop)]
pub enum State {
    /// The receiver was asked to clear it.
    Asked(LongBody),
    /// It was cleared, and is being sent in pieces.
    Cleared(Leaving),
    /// It was cleared, and has left whole.
    Out,
    /// It was withdrawn before it was cleared.
    Withdrawn,
}

/// The state of a message with these pieces left to send.
fn leaving_or_out(left: Option<Leaving>) -> State
    ensures { result ≡ leaving_or_out_lem left }
{
    match left {
        Some(leaving) => State::Cleared(leaving),
        None => State::Out,
    }
}

/// The state after a clearance.
pub fn cleared(state: State) -> State
    ensures { result ≡ after_clearance state }
{
    match state {
        State::Asked(body) => leaving_or_out(Leaving::start(body)),
        other => other,
    }
}

impl State {
    /// Whether it waits for its clearance.
    pub fn is_waiting(&self) -> bool
        ensures { result ≡ is_waiting_lem self.now }
    {
        matches!(self, State::Asked(_))
    }

    /// Whether it was cleared and is not out.
    pub fn is_leaving(&self) -> bool
        ensures { result ≡ is_leaving_lem self.now }
    {
        matches!(self, State::Cleared(_))
    }

    /// Whether it is out.
    pub fn is_out(&self) -> bool
        ensures { result ≡ is_out_lem self.now }
    {
        matches!(self, State::Out)
    }

    /// Whether it waits or leaves, so that its body is kept.
    pub fn has_body(&self) -> bool
        ensures { result ≡ has_body_lem self.now }
    {
        matches!(self, State::Asked(_) | State::Cleared(_))
    }

    /// What is left to be sent, where it was cleared and is not out.
    pub fn leaving(&self) -> Option<&Leaving>
        ensures { option_map (λ left. (offset_of left.now, next_bytes left.now)) result
            ≡ next_in self.now }
    {
        match self {
            State::Cleared(leaving) => Some(leaving),
            _ => None,
        }
    }

    /// Counts one piece more as sent.
    #[inline(always)]
    pub fn pop(&mut self)
        ensures { self.new ≡ after_piece self.old }
    {
        let State::Cleared(leaving) = self else {
            return;
        };
        if leaving.is_last() {
            *self = State::Out;
        } else {
            leaving.pop();
        }
    }
}
