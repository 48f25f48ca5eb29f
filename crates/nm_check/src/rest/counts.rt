//! Whether the counts of packets are those that the histories call for, and the first that is not.

ghost use Rattle.std.specs.Prelude.{◌≡◌, ◌+◌, ◌*◌, ◌<◌, ◌≤◌, ◌^◌, ◌++◌, ◌∷◌, ℕ, if◌then◌else◌, IfOk};
ghost use Rattle.std.specs.Prelude.{List, Some, count_by, length, slice_get, slice_index, IfSome, MatchOption};
ghost use Rattle.std.specs.Prelude.{OnOk};
ghost use Rattle.nm_types.specs.declared.scripts.Line as script_line;
ghost use Rattle.nm_history.specs.Outgoing.{further_packets, is_clear, packets_of_events, packets_to};
ghost use Rattle.nm_history.specs.Quiescence.{EachRank, Packets, packets_of as packets_due};
ghost use Rattle.nm_history.specs.Sends.{is_ask};
ghost use Rattle.nm_history.specs.Outgoing.{packets_of_event};
ghost use Rattle.nm_report.specs.Ends.{ends_of, packets_of};
ghost use Rattle.nm_lookups.specs.Deciding.{Decides};
ghost use Rattle.nm_check_rank.specs.Differ.{DifferFirstAt};
ghost use Rattle.nm_check_rank.specs.Tabled.{AreRankTables};
ghost use Rattle.nm_check.specs.Tabled.{AreTabled};
ghost use Rattle.nm_check.specs.Counting.{AreDue, at_most, counted_pair, load_to, row_from};

use crate::marks::NAMES;
use nm_check_rank::paired::tables::Tables;
use nm_history::plain::Pair;
use nm_history::{Event, Happened};
use nm_report::{PairCount, RankAccount};
use nm_types::{How, Memory};
use std::alloc::{AllocError, Global};

/// Packets to a rank.
#[derive(Clone, Copy)]
struct Load {
    rank: u8,
    packets: u32,
}

/// How many packets a send calls for.
fn packets_of_send(how: How, len: u32) -> u32
    ensures exact { result ≡ (if is_ask how then 1 else 1 + further_packets len) }
    ensures few { result ≤ 4294967295 }
{
    match how {
        How::Ask => 1,
        How::Eager => 1 + len.saturating_sub(1) / 256,
    }
}

/// The packets that an event calls for, but for the message that it pairs.
fn load_of_event(what: &Happened) -> Option<Load>
    ensures exact { (to : ℕ) → load_to to result ≡ packets_of_event to what.now }
    ensures few { IfSome result (λ load. load.packets ≤ 4294967295) }
{
    match what {
        Happened::Send { to, len, how, .. } => Some(Load {
            rank: *to,
            packets: packets_of_send(*how, *len),
        }),
        Happened::Recall { to, .. } => Some(Load {
            rank: *to,
            packets: 1,
        }),
        Happened::Withdraw { from, .. } => Some(Load {
            rank: *from,
            packets: 1,
        }),
        _ => None,
    }
}

/// The packet that clears a pair's message, if it is sent by asking.
fn load_of_pair(pair: &Pair) -> Option<Load>
    ensures { (to : ℕ) → load_to to result ≡ (if is_clear to pair.now then 1 else 0) }
{
    match pair.arrival.env.how {
        How::Ask => Some(Load {
            rank: pair.arrival.env.from,
            packets: 1,
        }),
        How::Eager => None,
    }
}

/// Adds to the count of the load's rank.
fn add(counts: &mut [u128; NAMES], load: Option<Load>)
    ensures { (due : ℕ → ℕ) → AreDue counts.old due →
        AreDue counts.new (λ to. due to + load_to to load) }
{
    if let Some(load) = load {
        let place = load.rank as usize;
        counts[place] = counts[place].saturating_add(u128::from(load.packets));
    }
}

/// How many packets to each rank the events call for, but for the messages that they pair.
fn counts_of_events(events: &[Event]) -> [u128; NAMES]
    ensures exact { AreDue result (λ to. packets_of_events to events.now) }
    ensures few { (to : ℕ) → packets_of_events to events.now ≤ length events.now * 4294967295 }
{
    let mut counts = [0; NAMES];
    for e in events {
        add(&mut counts, load_of_event(&e.what));
    }
    counts
}

/// .. and how many with those that clear the messages of the pairs.
fn with_pairs(mut counts: [u128; NAMES], pairs: &[Pair]) -> [u128; NAMES]
    ensures { (due : ℕ → ℕ) → AreDue counts due →
        AreDue result (λ to. due to + count_by (is_clear to) pairs.now) }
{
    for pair in pairs {
        add(&mut counts, load_of_pair(pair));
    }
    counts
}

/// Whether a count is of these ranks, and so many.
fn is_pair(pair: &PairCount, from: u8, to: u8, count: u128) -> bool
    ensures { (n : ℕ) → count ≡ at_most n →
        Decides result (counted_pair pair.now ≡ record { from = from; to = to; count = n }) }
{
    pair.from == from && pair.to == to && u128::from(pair.packets) == count
}

/// The counts behind the first one, if it is of these ranks, and so many.
fn behind<'a>(left: &'a [PairCount], from: u8, to: u8, count: u128) -> Option<&'a [PairCount]>
    ensures { (n : ℕ) → count ≡ at_most n → MatchOption result
        ((rest : List Packets) →
        packets_of left.now ≡ record { from = from; to = to; count = n } ∷ rest → ⊥)
        (λ others. packets_of left.now ≡ record { from = from; to = to; count = n }
        ∷ packets_of others.now) }
{
    let (pair, others) = left.split_first()?;
    if is_pair(pair, from, to, count) {
        Some(others)
    } else {
        None
    }
}

/// The counts behind those of a sender, if these come first.
fn behind_row<'a>(
    pairs: &'a [PairCount],
    from: u8,
    counts: &[u128; NAMES],
    ranks: u8,
) -> Option<&'a [PairCount]>
    ensures { (due : ℕ → ℕ) → AreDue counts.now due → MatchOption result
        ((rest : List Packets) → packets_of pairs.now ≡ row_from from due 0 ranks ++ rest → ⊥)
        (λ others. packets_of pairs.now ≡ row_from from due 0 ranks ++ packets_of others.now) }
{
    let mut left = pairs;
    for to in 0..ranks {
        let count = counts[to as usize];
        if count > 0 {
            match behind(left, from, to, count) {
                Some(others) => left = others,
                None => return None,
            }
        }
    }
    Some(left)
}

/// How many packets to each rank the history of a rank calls for, by its tables.
fn counts_of(account: &RankAccount, own: &Tables) -> [u128; NAMES]
    requires { (i : ℕ) × (lines : List script_line.Line)
        × AreRankTables i lines account.now.history.events own.now }
    ensures exact { AreDue result (packets_to account.now.history.events) }
    ensures few { (to : ℕ) → packets_to account.now.history.events to
        ≤ length account.now.history.events * 4294967296 }
{
    let events = account.history.as_slice();
    with_pairs(counts_of_events(events), own.pairing.pairs())
}

/// Whether the counts of packets are those that the histories of the ranks call for.
pub(crate) fn are_counted(pairs: &[PairCount], ranks: &[RankAccount], tables: &[Tables]) -> bool
    requires few { length ranks.now < 256 }
    requires tabled { AreTabled (ends_of ranks.now) tables.now }
    ensures { (lines : List script_line.Line) →
        Decides result (packets_of pairs.now ≡ packets_due lines (ends_of ranks.now)) }
{
    let many = ranks.len() as u8;
    let mut left = pairs;
    for (i, rank) in ranks.iter().enumerate() {
        let counts = counts_of(rank, &tables[i]);
        match behind_row(left, i as u8, &counts, many) {
            Some(others) => left = others,
            None => return false,
        }
    }
    left.is_empty()
}

/// Puts the counts of a sender for this many ranks at the end, but for those that are 0.
fn push_row(
    due: &mut Vec<PairCount>,
    from: u8,
    counts: &[u128; NAMES],
    ranks: u8,
) -> Result<(), AllocError>
    requires { (to : ℕ) → to < 256 → slice_index counts.now to < 2 ^ 64 }
    ensures { (packets : ℕ → ℕ) → AreDue counts.now packets → ((to : ℕ) → packets to < 2 ^ 64) →
        OnOk result (packets_of due.new.items
        ≡ packets_of due.old.items ++ row_from from packets 0 ranks) }
{
    for to in 0..ranks {
        let count = counts[to as usize];
        if count > 0 {
            let packets = count as u64;
            due.push(PairCount { from, to, packets })?;
        }
    }
    Ok(())
}

/// The counts of packets that the histories of the ranks call for.
///
/// # Errors
/// Want of memory.
pub fn counts_due(
    alloc: Global,
    ranks: &[RankAccount],
    tables: &[Tables],
) -> Result<Vec<PairCount>, Memory>
    requires few { length ranks.now < 256 }
    requires short { EachRank (λ i rank. length rank.events ≤ 67108864) (ends_of ranks.now) }
    requires tabled { AreTabled (ends_of ranks.now) tables.now }
    ensures { (lines : List script_line.Line) →
        IfOk result (λ due. packets_of due.items ≡ packets_due lines (ends_of ranks.now)) }
{
    let many = ranks.len() as u8;
    let mut due = Vec::new(alloc);
    for (i, rank) in ranks.iter().enumerate() {
        let counts = counts_of(rank, &tables[i]);
        push_row(&mut due, i as u8, &counts, many)?;
    }
    Ok(due)
}

/// Whether a count is the one that is due at a place.
fn is_due_at(pair: &PairCount, due: &[PairCount], at: usize) -> bool
    ensures { Decides result (slice_get (packets_of due.now) at ≡ Some (counted_pair pair.now)) }
{
    match due.get(at) {
        Some(other) => is_pair(other, pair.from, pair.to, u128::from(pair.packets)),
        None => false,
    }
}

/// The first place at which the counts are not those that are due.
pub fn first_miscount(pairs: &[PairCount], due: &[PairCount]) -> Option<usize>
    ensures { MatchOption result (packets_of pairs.now ≡ packets_of due.now)
        (DifferFirstAt (packets_of pairs.now) (packets_of due.now)) }
{
    for (k, pair) in pairs.iter().enumerate() {
        if !is_due_at(pair, due, k) {
            return Some(k);
        }
    }
    if pairs.len() < due.len() {
        Some(pairs.len())
    } else {
        None
    }
}
