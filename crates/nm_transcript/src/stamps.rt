//! The stamps of events that are kept, numbered anew in their order. Nothing is proved of it.

use nm_history::History;
use nm_report::RankAccount;
use nm_types::Memory;
use std::alloc::Global;

// Puts the stamps of a history at the end.
fn push_stamps(stamps: &mut Vec<u64>, history: &History) -> Result<(), Memory> {
    for event in history.as_slice() {
        stamps.push(event.stamp)?;
    }
    Ok(())
}

/// All stamps of these events, each once, in order.
pub fn stamps_of(alloc: Global, accounts: &[RankAccount]) -> Result<Vec<u64>, Memory> {
    let mut stamps = Vec::new(alloc);
    for account in accounts {
        push_stamps(&mut stamps, &account.history)?;
    }
    stamps.sort_unstable();
    stamps.dedup();
    Ok(stamps)
}

/// The number of a stamp among these, from 1.
pub fn number_of(stamps: &[u64], stamp: u64) -> u64 {
    match stamps.binary_search(&stamp) {
        Ok(place) => place as u64 + 1,
        Err(place) => place as u64 + 1,
    }
}
