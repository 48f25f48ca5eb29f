//! What there is to say of a script that can hang.

use nm_outcomes::spots::ranks::Rank;
use nm_waits::waits::Wait;
use nm_why::changes::Change;
use nm_why::cures::Cures;
use nm_why::hangs::Aim;
use nm_why::least::Least;

/// What there is to say of a script that can hang.
pub struct Why {
    /// The states of the ranks where nothing can happen any more and one waits.
    pub states: Vec<Rank>,
    /// Where they wait, and for what.
    pub waits: Vec<Wait>,
    /// Which of them waits for which, from the first that waits.
    pub chain: Vec<u8>,
    /// What the least part of the script still does.
    pub aim: Aim,
    pub least: Least,
    /// The single changes that were tried.
    pub tried: Vec<Change>,
    pub cures: Cures,
}

impl Drop for Why {
    fn drop(self) {
        let Why {
            states: _,
            waits: _,
            chain: _,
            aim: _,
            least: _,
            tried: _,
            cures: _,
        } = self;
    }
}
