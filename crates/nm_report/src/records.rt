//! The record of a run.

use crate::{Accounts, Pairs};
use nm_types::{Account, Shape};

/// What became of a run.
pub struct RunRecord {
    pub shape: Shape,
    /// What became of the ranks, by rank.
    pub ranks: Accounts,
    /// The packets of each ordered pair that had any, by sender and then destination.
    pub pairs: Pairs,
    pub cells: Account,
    /// Whether every rank is at its end.
    pub done: bool,
}

impl Drop for RunRecord {
    fn drop(self) {
        let RunRecord {
            shape: _,
            ranks: _,
            pairs: _,
            cells: _,
            done: _,
        } = self;
    }
}
