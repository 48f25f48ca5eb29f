//! The numbers of a record, each within its type.
//!
//! What a type says of a number is known where the number is read, so these functions read all.

ghost use Rattle.std.specs.Prelude.{◌<◌, ◌^◌, length};
ghost use Rattle.std.specs.List.{AllByRecursion};
ghost use Rattle.nm_types.specs.declared.answers.Answer.TheVariants as told;
ghost use Rattle.nm_report.specs.Ends.{ends_of};
ghost use Rattle.nm_trace.specs.Traces.{AnswerIn, CellsIn, EventIn, PairIn, PeerIn, PickIn};
ghost use Rattle.nm_trace.specs.Traces.{WaitsIn, WhatIn};
ghost use Rattle.nm_breaks.specs.Ranges.{ArrivalIn, PostIn, ReadIn};

use nm_history::{Event, Happened};
use nm_report::{PairCount, RankAccount};
use nm_types::{Account, Answer, Arrival, Peer, Post, Seen, TagPick};

fn peer_fits(peer: Peer)
    ensures { PeerIn peer }
{
    if let Peer::One(rank) = peer {
        let _read = rank;
    }
}

fn pick_fits(pick: TagPick)
    ensures { PickIn pick }
{
    if let TagPick::One(tag) = pick {
        let _read = tag;
    }
}

fn bytes_fit(bytes: &[u8])
    ensures { (length bytes.now < 2 ^ 63) × AllByRecursion (λ b. b < 2 ^ 8) bytes.now }
{
    let many = bytes.len();
    let _half = many / 2;
}

fn seen_fits(seen: Seen)
    ensures { AnswerIn (told.Seen seen) }
{
    let _read = (seen.from, seen.tag, seen.len);
}

fn answer_fits(answer: &Answer, line: u64)
    ensures answer { AnswerIn answer.now }
    ensures line { line < 2 ^ 64 }
{
    let _line = line;
    match answer {
        Answer::Got { from, tag, body } => {
            let _read = (*from, *tag);
            bytes_fit(body.as_slice());
        }
        Answer::Cut { from, tag, len } => {
            let _read = (*from, *tag, *len);
        }
        Answer::Seen(seen) => seen_fits(*seen),
        _ => {}
    }
}

fn post_fits(post: Post, line: u64)
    ensures post { PostIn post }
    ensures line { line < 2 ^ 64 }
{
    let _read = (line, post.number, post.ctx, post.cap);
    peer_fits(post.from);
    pick_fits(post.tag);
}

fn arrival_fits(a: Arrival)
    ensures { ArrivalIn a }
{
    let _read = (a.env.from, a.n, a.env.tag, a.env.ctx, a.env.len);
}

fn what_fits(what: &Happened)
    ensures { WhatIn what.now }
{
    match what {
        Happened::Send {
            to,
            n,
            tag,
            ctx,
            len,
            line,
            ..
        } => {
            let _read = (*to, *n, *tag, *ctx, *len, *line);
        }
        Happened::Post { post, line } => post_fits(*post, *line),
        Happened::Arrive { a } => arrival_fits(*a),
        Happened::Whole { from: rank, n }
        | Happened::Out { to: rank, n }
        | Happened::Recall { to: rank, n }
        | Happened::Withdraw { from: rank, n, .. }
        | Happened::Undone { to: rank, n, .. } => {
            let _read = (*rank, *n);
        }
        Happened::Cancel { number, .. } => {
            let _read = *number;
        }
        Happened::Claim { from, n, line } => {
            let _read = (*from, *n, *line);
        }
        Happened::Match {
            number,
            from,
            n,
            cap,
            line,
        } => {
            let _read = (*number, *from, *n, *cap, *line);
        }
        Happened::Ran { line, answer } => answer_fits(answer, *line),
    }
}

fn event_fits(event: &Event)
    ensures { EventIn event.now }
{
    let _stamp = event.stamp;
    what_fits(&event.what);
}

fn events_fit(events: &[Event])
    ensures { AllByRecursion EventIn events.now }
{
    for e in events {
        event_fits(e);
    }
}

fn waits_fit(waits: Option<u64>)
    ensures { WaitsIn waits }
{
    if let Some(line) = waits {
        let _read = line;
    }
}

/// The numbers of the ranks.
pub(crate) fn ranks_fit(ranks: &[RankAccount])
    ensures { AllByRecursion ReadIn (ends_of ranks.now) }
{
    for rank in ranks {
        events_fit(rank.history.as_slice());
        waits_fit(rank.waits);
    }
}

fn pair_fits(pair: PairCount)
    ensures { PairIn pair }
{
    let _read = (pair.from, pair.to, pair.packets);
}

/// The counts of packets.
pub(crate) fn pairs_fit(pairs: &[PairCount])
    ensures { AllByRecursion PairIn pairs.now }
{
    for pair in pairs {
        pair_fits(*pair);
    }
}

/// The account of the cells.
pub(crate) fn cells_fit(cells: Account)
    ensures { CellsIn cells }
{
    let _read = (cells.total, cells.home);
}
