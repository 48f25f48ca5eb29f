//! Views of seats: one entry for each rank that the seat speaks for.

ghost use Rattle.std.specs.Prelude.{[], ◌++◌};
ghost use Rattle.nm_chain.specs.Spoken.{view, first_of, others_of, sealed};

use atomic_table::{Join, Split};
use std::collections::LinkedList;

/// What a seat knows: the entry of each rank that it speaks for. No value of it is made.
pub struct View<E> {
    pub entries: LinkedList<E>,
    /// What the entries of all ranks were, for a seat that was made when the table was sealed.
    pub seen: LinkedList<E>,
}

/// The new seat speaks for the first rank of the old one, which speaks for the others.
pub struct GivesFirst;

impl<E> Split<View<E>> for GivesFirst {
    ghost left = { others_of };

    ghost right = { first_of };
}

/// The new seat speaks for no rank, and keeps what the old one knows of all of them.
pub struct Seals;

impl<E> Split<View<E>> for Seals {
    ghost left = { λ v. v };

    ghost right = { sealed };
}

/// The seat speaks for the other one's ranks too, which come before its own.
pub struct Joins;

impl<E> Join<View<E>> for Joins {
    ghost both = { λ v w. view (w.entries ++ v.entries) };

    ghost spent = { view [] };
}
