//! Events and counts of packets by the words of their lines.

ghost use Rattle.std.specs.Prelude.{◌≡◌, [], ◌∷◌, map};
ghost use Rattle.nm_trace.specs.Events.{peer_of, pick_of, how_of, done_of, send_of, post_of};
ghost use Rattle.nm_trace.specs.Events.{arrive_of, whole_of, out_of, cancel_of, recall_of};
ghost use Rattle.nm_trace.specs.Events.{withdraw_of, undone_of, claim_of, match_of, answer_of};
ghost use Rattle.nm_trace.specs.Events.{is_answer, lone_of, send_with, showing_of, told_as};
ghost use Rattle.nm_trace.specs.Events.{ran_of, plain_of, told_of, note_of, pair_of};

use crate::notes::{Note, Said};
use crate::numbers::{huge, large, middle, small};
use crate::sorts::{Sort, lone_answer, sort_from};
use nm_history::{Event, Happened};
use nm_report::PairCount;
use nm_script::words::number_up_to;
use nm_types::{Answer, Arrival, Bytes, Envelope, How, Peer, Post, Seen, TagPick};
use std::alloc::Global;

/// The source that a receive names.
#[tactic(auto, unfolding(crate::specs::Events::peer_of))]
fn peer_from(word: &[u8]) -> Option<Peer>
    ensures { result ≡ peer_of word.now }
{
    if word == b"any".as_slice() {
        return Some(Peer::Any);
    }
    let rank = small(word)?;
    Some(Peer::One(rank))
}

/// The tag that a receive names.
#[tactic(auto, unfolding(crate::specs::Events::pick_of))]
fn pick_from(word: &[u8]) -> Option<TagPick>
    ensures { result ≡ pick_of word.now }
{
    if word == b"any".as_slice() {
        return Some(TagPick::Any);
    }
    let tag = middle(word)?;
    Some(TagPick::One(tag))
}

/// How a message is sent.
#[tactic(auto, unfolding(crate::specs::Events::how_of))]
fn how_from(word: &[u8]) -> Option<How>
    ensures { result ≡ how_of word.now }
{
    if word == b"eager".as_slice() {
        Some(How::Eager)
    } else if word == b"ask".as_slice() {
        Some(How::Ask)
    } else {
        None
    }
}

/// Whether something was done, or too late.
#[tactic(auto, unfolding(crate::specs::Events::done_of))]
fn done_from(word: &[u8]) -> Option<bool>
    ensures { result ≡ done_of word.now }
{
    if word == b"done".as_slice() {
        Some(true)
    } else if word == b"late".as_slice() {
        Some(false)
    } else {
        None
    }
}

/// A send, by its seven words.
#[tactic(auto, unfolding(crate::specs::Events::send_with))]
fn send_with(
    to: &[u8],
    n: &[u8],
    tag: &[u8],
    ctx: &[u8],
    len: &[u8],
    how: &[u8],
    line: &[u8],
) -> Option<Happened>
    ensures { result ≡ send_with to.now n.now tag.now ctx.now len.now how.now line.now }
{
    let to = small(to)?;
    let n = huge(n)?;
    let tag = middle(tag)?;
    let ctx = small(ctx)?;
    let len = large(len)?;
    let how = how_from(how)?;
    let line = huge(line)?;
    Some(Happened::Send {
        to,
        n,
        tag,
        ctx,
        len,
        how,
        line,
    })
}

/// A send, by the words behind its name.
#[tactic(auto, unfolding(crate::specs::Events::send_of))]
fn send_from(words: &[&[u8]]) -> Option<Happened>
    ensures { result ≡ send_of (map (λ word. word.now) words.now) }
{
    match words {
        [to, n, tag, ctx, len, how, line] => send_with(to, n, tag, ctx, len, how, line),
        _ => None,
    }
}

/// A receive that was posted, by its six words.
#[tactic(auto, unfolding(crate::specs::Events::post_of))]
fn post_with(
    number: &[u8],
    from: &[u8],
    tag: &[u8],
    ctx: &[u8],
    cap: &[u8],
    line: &[u8],
) -> Option<Happened>
    ensures { result ≡ post_of
        (number.now ∷ from.now ∷ tag.now ∷ ctx.now ∷ cap.now ∷ line.now ∷ []) }
{
    let number = huge(number)?;
    let from = peer_from(from)?;
    let tag = pick_from(tag)?;
    let ctx = small(ctx)?;
    let cap = large(cap)?;
    let line = huge(line)?;
    Some(Happened::Post {
        post: Post {
            number,
            from,
            tag,
            ctx,
            cap,
        },
        line,
    })
}

/// A receive that was posted, by the words behind its name.
fn post_from(words: &[&[u8]]) -> Option<Happened>
    ensures { result ≡ post_of (map (λ word. word.now) words.now) }
{
    match words {
        [number, from, tag, ctx, cap, line] => post_with(number, from, tag, ctx, cap, line),
        _ => None,
    }
}

/// An arrival, by its six words.
#[tactic(auto, unfolding(crate::specs::Events::arrive_of))]
fn arrive_with(
    from: &[u8],
    n: &[u8],
    tag: &[u8],
    ctx: &[u8],
    len: &[u8],
    how: &[u8],
) -> Option<Happened>
    ensures { result ≡ arrive_of
        (from.now ∷ n.now ∷ tag.now ∷ ctx.now ∷ len.now ∷ how.now ∷ []) }
{
    let from = small(from)?;
    let n = huge(n)?;
    let tag = middle(tag)?;
    let ctx = small(ctx)?;
    let len = large(len)?;
    let how = how_from(how)?;
    Some(Happened::Arrive {
        a: Arrival {
            n,
            env: Envelope {
                from,
                tag,
                ctx,
                len,
                how,
            },
        },
    })
}

/// An arrival, by the words behind its name.
fn arrive_from(words: &[&[u8]]) -> Option<Happened>
    ensures { result ≡ arrive_of (map (λ word. word.now) words.now) }
{
    match words {
        [from, n, tag, ctx, len, how] => arrive_with(from, n, tag, ctx, len, how),
        _ => None,
    }
}

/// A message that is whole, by its two words.
#[tactic(auto, unfolding(crate::specs::Events::whole_of))]
fn whole_with(from: &[u8], n: &[u8]) -> Option<Happened>
    ensures { result ≡ whole_of (from.now ∷ n.now ∷ []) }
{
    let from = small(from)?;
    let n = huge(n)?;
    Some(Happened::Whole { from, n })
}

/// A message that is whole, by the words behind its name.
fn whole_from(words: &[&[u8]]) -> Option<Happened>
    ensures { result ≡ whole_of (map (λ word. word.now) words.now) }
{
    match words {
        [from, n] => whole_with(from, n),
        _ => None,
    }
}

/// A message that is out, by its two words.
#[tactic(auto, unfolding(crate::specs::Events::out_of))]
fn out_with(to: &[u8], n: &[u8]) -> Option<Happened>
    ensures { result ≡ out_of (to.now ∷ n.now ∷ []) }
{
    let to = small(to)?;
    let n = huge(n)?;
    Some(Happened::Out { to, n })
}

/// A message that is out, by the words behind its name.
fn out_from(words: &[&[u8]]) -> Option<Happened>
    ensures { result ≡ out_of (map (λ word. word.now) words.now) }
{
    match words {
        [to, n] => out_with(to, n),
        _ => None,
    }
}

/// A cancel, by its two words.
#[tactic(auto, unfolding(crate::specs::Events::cancel_of))]
fn cancel_with(number: &[u8], done: &[u8]) -> Option<Happened>
    ensures { result ≡ cancel_of (number.now ∷ done.now ∷ []) }
{
    let number = huge(number)?;
    let done = done_from(done)?;
    Some(Happened::Cancel { number, done })
}

/// A cancel, by the words behind its name.
fn cancel_from(words: &[&[u8]]) -> Option<Happened>
    ensures { result ≡ cancel_of (map (λ word. word.now) words.now) }
{
    match words {
        [number, done] => cancel_with(number, done),
        _ => None,
    }
}

/// A recall, by its two words.
#[tactic(auto, unfolding(crate::specs::Events::recall_of))]
fn recall_with(to: &[u8], n: &[u8]) -> Option<Happened>
    ensures { result ≡ recall_of (to.now ∷ n.now ∷ []) }
{
    let to = small(to)?;
    let n = huge(n)?;
    Some(Happened::Recall { to, n })
}

/// A recall, by the words behind its name.
fn recall_from(words: &[&[u8]]) -> Option<Happened>
    ensures { result ≡ recall_of (map (λ word. word.now) words.now) }
{
    match words {
        [to, n] => recall_with(to, n),
        _ => None,
    }
}

/// A withdrawal, by its three words.
#[tactic(auto, unfolding(crate::specs::Events::withdraw_of))]
fn withdraw_with(from: &[u8], n: &[u8], done: &[u8]) -> Option<Happened>
    ensures { result ≡ withdraw_of (from.now ∷ n.now ∷ done.now ∷ []) }
{
    let from = small(from)?;
    let n = huge(n)?;
    let done = done_from(done)?;
    Some(Happened::Withdraw { from, n, done })
}

/// A withdrawal, by the words behind its name.
fn withdraw_from(words: &[&[u8]]) -> Option<Happened>
    ensures { result ≡ withdraw_of (map (λ word. word.now) words.now) }
{
    match words {
        [from, n, done] => withdraw_with(from, n, done),
        _ => None,
    }
}

/// What became of a recall, by its three words.
#[tactic(auto, unfolding(crate::specs::Events::undone_of))]
fn undone_with(to: &[u8], n: &[u8], done: &[u8]) -> Option<Happened>
    ensures { result ≡ undone_of (to.now ∷ n.now ∷ done.now ∷ []) }
{
    let to = small(to)?;
    let n = huge(n)?;
    let done = done_from(done)?;
    Some(Happened::Undone { to, n, done })
}

/// What became of a recall, by the words behind its name.
fn undone_from(words: &[&[u8]]) -> Option<Happened>
    ensures { result ≡ undone_of (map (λ word. word.now) words.now) }
{
    match words {
        [to, n, done] => undone_with(to, n, done),
        _ => None,
    }
}

/// A claim, by its three words.
#[tactic(auto, unfolding(crate::specs::Events::claim_of))]
fn claim_with(from: &[u8], n: &[u8], line: &[u8]) -> Option<Happened>
    ensures { result ≡ claim_of (from.now ∷ n.now ∷ line.now ∷ []) }
{
    let from = small(from)?;
    let n = huge(n)?;
    let line = huge(line)?;
    Some(Happened::Claim { from, n, line })
}

/// A claim, by the words behind its name.
fn claim_from(words: &[&[u8]]) -> Option<Happened>
    ensures { result ≡ claim_of (map (λ word. word.now) words.now) }
{
    match words {
        [from, n, line] => claim_with(from, n, line),
        _ => None,
    }
}

/// A receive of a claimed message, by its five words.
#[tactic(auto, unfolding(crate::specs::Events::match_of))]
fn match_with(number: &[u8], from: &[u8], n: &[u8], cap: &[u8], line: &[u8]) -> Option<Happened>
    ensures { result ≡ match_of (number.now ∷ from.now ∷ n.now ∷ cap.now ∷ line.now ∷ []) }
{
    let number = huge(number)?;
    let from = small(from)?;
    let n = huge(n)?;
    let cap = large(cap)?;
    let line = huge(line)?;
    Some(Happened::Match {
        number,
        from,
        n,
        cap,
        line,
    })
}

/// A receive of a claimed message, by the words behind its name.
fn match_from(words: &[&[u8]]) -> Option<Happened>
    ensures { result ≡ match_of (map (λ word. word.now) words.now) }
{
    match words {
        [number, from, n, cap, line] => match_with(number, from, n, cap, line),
        _ => None,
    }
}

/// An answer of one word, without bytes.
#[tactic(auto, unfolding(crate::specs::Events::lone_of))]
fn lone_from(word: &[u8]) -> Option<(Answer, u64)>
    ensures { result ≡ lone_of word.now }
{
    let answer = lone_answer(word)?;
    Some((answer, 0))
}

/// An answer that shows a message, by its name.
#[tactic(auto, unfolding(crate::specs::Events::showing_of))]
fn showing_from(
    alloc: Global,
    name: &[u8],
    from: u8,
    tag: u16,
    word: &[u8],
) -> Option<(Answer, u64)>
    ensures { result ≡ showing_of name.now from tag word.now }
{
    if name == b"got".as_slice() {
        let len = number_up_to(word, 9223372036854775807)?;
        let body = Bytes::new(alloc);
        Some((Answer::Got { from, tag, body }, len))
    } else if name == b"cut".as_slice() {
        let len = large(word)?;
        Some((Answer::Cut { from, tag, len }, 0))
    } else if name == b"seen".as_slice() {
        let len = large(word)?;
        Some((Answer::Seen(Seen { from, tag, len }), 0))
    } else {
        None
    }
}

/// The answer of these words. One that got bytes has none yet.
#[tactic(auto, unfolding(crate::specs::Events::answer_of))]
fn answer_from(alloc: Global, words: &[&[u8]]) -> Option<(Answer, u64)>
    ensures { result ≡ answer_of (map (λ word. word.now) words.now) }
{
    match words {
        [word] => lone_from(word),
        [name, from, tag, len] => {
            let from = small(from)?;
            let tag = middle(tag)?;
            showing_from(alloc, name, from, tag, len)
        }
        _ => None,
    }
}

/// A command that ran, by the words behind its name.
#[tactic(auto, unfolding(crate::specs::Events::ran_of))]
fn ran_from(alloc: Global, words: &[&[u8]]) -> Option<Said>
    ensures { result ≡ ran_of (map (λ word. word.now) words.now) }
{
    match words {
        [line, rest @ ..] => {
            let line = huge(line)?;
            let (answer, len) = answer_from(alloc, rest)?;
            let what = Happened::Ran { line, answer };
            Some(Said { what, len })
        }
        _ => None,
    }
}

/// What happened, by its name and the other words, where it is no answer.
#[tactic(auto, unfolding(crate::specs::Events::plain_of))]
fn plain_from(sort: Sort, words: &[&[u8]]) -> Option<Happened>
    ensures { result ≡ plain_of sort (map (λ word. word.now) words.now) }
{
    match sort {
        Sort::Send => send_from(words),
        Sort::Post => post_from(words),
        Sort::Arrive => arrive_from(words),
        Sort::Whole => whole_from(words),
        Sort::Out => out_from(words),
        Sort::Cancel => cancel_from(words),
        Sort::Recall => recall_from(words),
        Sort::Withdraw => withdraw_from(words),
        Sort::Undone => undone_from(words),
        Sort::Claim => claim_from(words),
        Sort::Match => match_from(words),
        Sort::Ran => None,
    }
}

/// Whether an event of this name is an answer.
fn is_answer(sort: Sort) -> bool
    ensures { result ≡ is_answer sort }
{
    matches!(sort, Sort::Ran)
}

/// What happened, by its name and the other words.
#[tactic(auto, unfolding(crate::specs::Events::told_as))]
fn told_as(alloc: Global, sort: Sort, words: &[&[u8]]) -> Option<Said>
    ensures { result ≡ told_as sort (map (λ word. word.now) words.now) }
{
    if is_answer(sort) {
        return ran_from(alloc, words);
    }
    let what = plain_from(sort, words)?;
    Some(Said { what, len: 0 })
}

/// What happened, by all its words.
#[tactic(auto, unfolding(crate::specs::Events::told_of))]
fn told_from(alloc: Global, name: &[u8], words: &[&[u8]]) -> Option<Said>
    ensures { result ≡ told_of name.now (map (λ word. word.now) words.now) }
{
    let sort = sort_from(name)?;
    told_as(alloc, sort, words)
}

/// The event of a line, by its first words and those behind its name.
#[tactic(auto, unfolding(crate::specs::Events::note_of))]
fn note_with(
    alloc: Global,
    at: &[u8],
    rank: &[u8],
    stamp: &[u8],
    name: &[u8],
    words: &[&[u8]],
) -> Option<Note>
    ensures { result ≡ note_of
        (at.now ∷ rank.now ∷ stamp.now ∷ name.now ∷ map (λ word. word.now) words.now) }
{
    if at != b"@".as_slice() {
        return None;
    }
    let rank = small(rank)?;
    let stamp = huge(stamp)?;
    let Said { what, len } = told_from(alloc, name, words)?;
    let event = Event { stamp, what };
    Some(Note { rank, event, len })
}

/// The event of a line.
#[tactic(auto, unfolding(crate::specs::Events::note_of))]
pub fn note_from(alloc: Global, words: &[&[u8]]) -> Option<Note>
    ensures { result ≡ note_of (map (λ word. word.now) words.now) }
{
    match words {
        [at, rank, stamp, name, rest @ ..] => note_with(alloc, at, rank, stamp, name, rest),
        _ => None,
    }
}

/// The count of packets of a line, by its four words.
#[tactic(auto, unfolding(crate::specs::Events::pair_of))]
fn pair_with(name: &[u8], from: &[u8], to: &[u8], packets: &[u8]) -> Option<PairCount>
    ensures { result ≡ pair_of (name.now ∷ from.now ∷ to.now ∷ packets.now ∷ []) }
{
    if name != b"pair".as_slice() {
        return None;
    }
    let from = small(from)?;
    let to = small(to)?;
    let packets = huge(packets)?;
    Some(PairCount { from, to, packets })
}

/// The count of packets of a line.
#[tactic(auto, unfolding(crate::specs::Events::pair_of))]
pub fn pair_from(words: &[&[u8]]) -> Option<PairCount>
    ensures { result ≡ pair_of (map (λ word. word.now) words.now) }
{
    match words {
        [name, from, to, packets] => pair_with(name, from, to, packets),
        _ => None,
    }
}
