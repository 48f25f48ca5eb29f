//! When the commands of a run could start, by the clocks of their ranks. Nothing is proved of it: in whatever order
//! the commands of different ranks stand, they are a script of which the run is one.

use crate::renumbered::line_of;
use nm_history::{Happened, History};
use nm_report::RankAccount;
use nm_types::Memory;
use std::alloc::Global;
use std::collections::VecDeque;

/// When the commands of each rank could start that have no line yet.
#[derive(Drop)]
pub struct Starts {
    ranks: Vec<VecDeque<u64>>,
}

// When the commands of this history could start: the first one at 0, each other one at the answer before its first
// event.
fn starts_in(alloc: Global, history: &History) -> Result<VecDeque<u64>, Memory> {
    let mut starts = VecDeque::new(alloc);
    let mut answered = 0;
    for event in history.as_slice() {
        let next = (starts.len() as u64).saturating_add(2);
        if line_of(&event.what) == Some(next) {
            starts.push_back(answered)?;
        }
        if let Happened::Ran { .. } = event.what {
            answered = event.stamp;
        }
    }
    starts.push_back(answered)?;
    Ok(starts)
}

impl Starts {
    /// Those of all commands.
    pub fn new(alloc: Global, accounts: &[RankAccount]) -> Result<Starts, Memory> {
        let mut ranks = Vec::new(alloc);
        for account in accounts {
            ranks.push(starts_in(alloc, &account.history)?)?;
        }
        Ok(Starts { ranks })
    }

    /// When the next command of a rank could start.
    pub fn next(&self, rank: usize) -> u64 {
        match self.ranks.get(rank) {
            Some(starts) => starts.front().copied().unwrap_or(u64::MAX),
            None => u64::MAX,
        }
    }

    /// The next command of a rank has a line.
    pub fn pass(&mut self, rank: usize) {
        if let Some(starts) = self.ranks.get_mut(rank) {
            starts.pop_front();
        }
    }
}
