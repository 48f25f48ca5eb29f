//! A body that is being sent in pieces.

ghost use Rattle.std.specs.Prelude.{◌≡◌, ◌↔◌, ◌≤◌, IsNone, IsSome, IsTrue, Some};
ghost use Rattle.nm_types.specs.Bodies.{body_len};
ghost use Rattle.nm_types.specs.declared.limits.TheConstants.{MAX_BODY};
ghost use Rattle.nm_rndv.specs.Cuts.{start_of, rest_of, offset_of, next_bytes};

use nm_types::ranges::part;
use nm_types::{Body, MAX_PIECE, Piece, laws};
use std::marker::Model;

/// The most bytes of a piece.
const PIECE: u32 = MAX_PIECE as u32;

/// A body of at most 1,048,576 bytes.
#[derive(Drop)]
pub struct LongBody {
    body: Body,
}

impl Model for LongBody {
    ghost use Rattle.std.specs.Prelude.{◌≤◌};
    ghost use Rattle.nm_types.specs.Bodies.{body_len};
    ghost use Rattle.nm_types.specs.declared.limits.TheConstants.{MAX_BODY};
    ghost use Rattle.nm_types.specs.declared.scripts.Body.{Body};

    ghost Value = { Body };

    ghost view = { λ a. a.body };

    ghost invariant = { λ a. body_len a.body ≤ MAX_BODY };
}

impl LongBody {
    /// A body that is short enough.
    pub fn new(body: Body) -> Self
        requires { body_len body ≤ MAX_BODY }
        ensures { result ≡ body }
    {
        LongBody { body }
    }
}

/// A body with pieces that are still to be sent, and how many were sent.
#[derive(Drop)]
pub struct Leaving {
    body: Body,
    popped: u32,
}

impl Model for Leaving {
    ghost use Rattle.nm_rndv.specs.Cuts.{Cut, IsCut};

    ghost Value = { Cut };

    ghost view = { λ a. record { body = a.body; popped = a.popped } };

    ghost invariant = { λ a. IsCut a.body a.popped };
}

impl Leaving {
    /// The body before its first piece, or `None` where it is empty.
    pub fn start(body: LongBody) -> Option<Leaving>
        ensures { result ≡ start_of body }
    {
        let LongBody { body } = body;
        if body.len() == 0 {
            return None;
        }
        Some(Leaving { body, popped: 0 })
    }

    /// Where in the body the next piece begins.
    pub fn offset(&self) -> u32
        ensures { result ≡ offset_of self.now }
    {
        PIECE * self.popped
    }

    /// Makes it the next piece, of message `n`, by one copy of the bytes. Its sender and its number
    /// become 0.
    pub fn fill_piece(&self, n: u64, into: &mut Piece)
        ensures blank { (into.new.from ≡ 0) × (into.new.number ≡ 0) }
        ensures place { (into.new.n ≡ n) × (into.new.at ≡ offset_of self.now) }
        ensures bytes { into.new.bytes ≡ next_bytes self.now }
    {
        let at = self.offset();
        let size = (self.body.len() - at).min(PIECE) as usize;
        laws::bodies_have_their_length();
        into.from = 0;
        into.number = 0;
        into.n = n;
        into.at = at;
        into.bytes.set(part(&self.body, at, size));
    }

    /// Whether the next piece is the last.
    pub fn is_last(&self) -> bool
        ensures { IsTrue result ↔ IsNone (rest_of self.now) }
    {
        PIECE * (self.popped + 1) >= self.body.len()
    }

    /// Counts the next piece, which is not the last.
    pub fn pop(&mut self)
        requires { IsSome (rest_of self.old) }
        ensures { rest_of self.old ≡ Some self.new }
    {
        self.popped += 1;
    }
}
