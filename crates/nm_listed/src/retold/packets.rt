//! How many packets a history calls for.

ghost use Rattle.std.specs.Prelude.{◌≡◌, ◌<◌, ◌≤◌, ◌+◌, ◌++◌, ℕ, if◌then◌else◌, IfOk, List, OnOk, count_by, length};
ghost use Rattle.std.specs.List.{range_with_len};
ghost use Rattle.nm_history.specs.Matching.{matched_pairs};
ghost use Rattle.nm_history.specs.Outgoing.{further_packets, is_clear as is_clear_lem, packets_to as packets_to_lem};
ghost use Rattle.nm_history.specs.Quiescence.{packets_from, packets_of as packets_due};
ghost use Rattle.nm_history.specs.RankRun.{Always, NumberAt};
ghost use Rattle.nm_history.specs.Sends.{is_ask};
ghost use Rattle.nm_history.specs.Outgoing.{packets_of_event as packets_of_event_lem, packets_of_events};
ghost use Rattle.nm_report.specs.Ends.{ends_of, packets_of};
ghost use Rattle.nm_listed.specs.Records.{AreCountable, some_packets};

use nm_history::plain::Pair;
use nm_history::{Event, Happened};
use nm_lookups::pairing::Pairing;
use nm_report::{PairCount, Pairs, RankAccount};
use nm_types::{How, Line, Memory};
use std::alloc::Global;

/// How many packets a send calls for.
fn packets_of_send(how: How, len: u32) -> u64
    ensures { result ≡ (if is_ask how then 1 else 1 + further_packets len) }
{
    match how {
        How::Ask => 1,
        How::Eager => 1 + u64::from(len.saturating_sub(1)) / 256,
    }
}

/// How many packets to a rank an event calls for, but for the message that it pairs.
fn packets_of_event(to: u8, what: &Happened) -> u64
    ensures { result ≡ packets_of_event_lem to what.now }
{
    match what {
        Happened::Send {
            to: other,
            len,
            how,
            ..
        } => if *other == to {
            packets_of_send(*how, *len)
        } else {
            0
        },
        Happened::Recall { to: other, .. } => if *other == to { 1 } else { 0 },
        Happened::Withdraw { from, .. } => if *from == to { 1 } else { 0 },
        _ => 0,
    }
}

/// How many packets to a rank the events call for, but for the messages that they pair.
#[tactic(auto, using(crate::proofs::PacketLemmas::own_next, crate::proofs::PacketLemmas::own_within))]
fn own_packets(to: u8, events: &[Event]) -> u64
    requires { packets_of_events to events.now < 18446744073709551616 }
    ensures { result ≡ packets_of_events to events.now }
{
    let mut total = 0;
    for event in events {
        total += packets_of_event(to, &event.what);
    }
    total
}

/// Whether a packet to a rank clears the message of a pair.
fn is_clear(to: u8, pair: &Pair) -> bool
    ensures { result ≡ is_clear_lem to pair.now }
{
    pair.arrival.env.from == to && matches!(pair.arrival.env.how, How::Ask)
}

/// How many packets to a rank clear the messages of pairs.
fn clear_packets(to: u8, pairs: &[Pair]) -> u64
    ensures { result ≡ count_by (is_clear_lem to) pairs.now }
{
    pairs.iter().filter(|pair| is_clear(to, pair)).count() as u64
}

/// How many packets to a rank a history with these pairs calls for.
#[tactic(auto, using(crate::proofs::PacketLemmas::packets_split))]
fn packets_to(to: u8, events: &[Event], pairs: &[Pair]) -> u64
    requires few { packets_to_lem events.now to ≤ length events.now + 281474976710656 }
    requires pairs { pairs.now ≡ matched_pairs events.now }
    ensures { result ≡ packets_to_lem events.now to }
{
    own_packets(to, events) + clear_packets(to, pairs)
}

/// Adds the count of the packets to a rank, if there are any.
fn push_count(pairs: &mut Pairs, from: u8, to: u8, packets: u64) -> Result<(), Memory>
    ensures { OnOk result (packets_of pairs.new ≡ packets_of pairs.old
        ++ some_packets (record { from = from; to = to; count = packets })) }
{
    if packets > 0 {
        pairs.push(PairCount { from, to, packets })?;
    }
    Ok(())
}

/// Adds the counts of the packets that the history of a rank calls for.
fn push_row(
    alloc: Global,
    lines: &[Line],
    from: u8,
    ranks: u8,
    events: &[Event],
    pairs: &mut Pairs,
) -> Result<(), Memory>
    requires numbered { (ranks : ℕ) × Always (NumberAt ranks) events.now }
    requires packets { (to : ℕ) → packets_to_lem events.now to ≤ length events.now + 281474976710656 }
    ensures { OnOk result (packets_of pairs.new ≡ packets_of pairs.old
        ++ packets_from lines.now (range_with_len 0 ranks) from events.now) }
{
    let pairing = Pairing::of(alloc, from, lines, events)?;
    let matched = pairing.pairs();
    for to in 0..ranks {
        let packets = packets_to(to, events, matched);
        push_count(pairs, from, to, packets)?;
    }
    Ok(())
}

/// The counts of the packets that the histories call for, by sender and then by receiver.
pub(crate) fn counts(alloc: Global, lines: &[Line], ranks: &[RankAccount]) -> Result<Pairs, Memory>
    requires few { length ranks.now < 256 }
    requires countable { AreCountable (ends_of ranks.now) }
    ensures { IfOk result (λ pairs. packets_of pairs ≡ packets_due lines.now (ends_of ranks.now)) }
{
    let many = ranks.len() as u8;
    let mut pairs = Pairs::new(alloc);
    for (i, rank) in ranks.iter().enumerate() {
        let events = rank.history.as_slice();
        push_row(alloc, lines, i as u8, many, events, &mut pairs)?;
    }
    Ok(pairs)
}
