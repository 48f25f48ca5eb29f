//! What a command may answer, and what it does with that answer.

ghost use Rattle.std.specs.Prelude.{◌≡◌, ◌==◌, ◌&&◌, ◌||◌, false, is_some, length, nat_eq, option_copied};
ghost use Rattle.std.specs.Prelude.{if◌then◌else◌, None, Some};
ghost use Rattle.std.specs.Cmp.Lexicographic.{pointwise};
ghost use Rattle.nm_types.specs.declared.scripts.Body.TheVariants as body;
ghost use Rattle.nm_types.specs.Bodies.{body_len, bytes_of, generated_byte};
ghost use Rattle.std.specs.List.{list_any};
ghost use Rattle.nm_lawful.specs.Ranks.{shown_to_lem};
ghost use Rattle.nm_lawful.specs.declared.messages.Act.TheVariants as act;
ghost use Rattle.nm_lawful.specs.Replies.{act_of_lem, asked_lem, cancelled_at_lem, cancelled_lem, claimed_lem};
ghost use Rattle.nm_lawful.specs.Replies.{done_lem, ends_lem, has_bytes_lem, holds_lem, is_cancelled_lem, is_held_lem, is_start_lem};
ghost use Rattle.nm_history.specs.Totals.{is_sent as is_sent_lem};
ghost use Rattle.nm_lawful.specs.Replies.{is_result_lem, late_lem, looked_lem, may_end_lem};
ghost use Rattle.nm_lawful.specs.Replies.{message_of_lem, nulled_lem, pattern_lem, probed_lem, received_lem};
ghost use Rattle.nm_lawful.specs.Replies.{seen_by_lem, sends_bytes_lem, started_lem, tested_lem, waited_lem};

use crate::messages::{Act, Message, Pattern, Request, Standing};
use crate::ranks::Rank;
use nm_types::{Answer, Body, Command, Line, Peer, Seen, TagPick};

/// Where a command stands: its rank, with the states of all, and its place in the script.
#[derive(Clone, Copy)]
pub struct View<'a> {
    pub lines: &'a [Line],
    pub ranks: &'a [Rank],
    pub i: u8,
    pub rank: &'a Rank,
    pub place: usize,
}

/// The byte at a place of a generated body.
fn generated(k: u32) -> u8
    ensures { result ≡ generated_byte k }
{
    ((31 * u64::from(k) + 7) % 251) as u8
}

/// Whether bytes are the generated ones, of which there are as many.
fn are_generated(len: u32, bytes: &[u8]) -> bool
    requires { length bytes.now ≡ len }
    ensures { result ≡ pointwise nat_eq (bytes_of (body.Gen len)) bytes.now }
{
    for k in 0..len {
        if generated(k) != bytes[k as usize] {
            return false;
        }
    }
    true
}

/// Whether a body has these bytes.
#[tactic(auto, using(crate::proofs::ByteLemmas::other_body, crate::proofs::ByteLemmas::longer_body))]
fn is_body(body: &Body, bytes: &[u8]) -> bool
    ensures { result ≡ pointwise nat_eq (bytes_of body.now) bytes.now }
{
    match body {
        Body::Hex(own) => own.as_slice() == bytes,
        Body::Gen(len) => bytes.len() == *len as usize && are_generated(*len, bytes),
    }
}

/// Whether the line at a place sends these bytes.
fn has_bytes(lines: &[Line], place: usize, bytes: &[u8]) -> bool
    ensures { result ≡ has_bytes_lem lines.now place bytes.now }
{
    match lines.get(place) {
        Some(line) => match &line.command {
            Command::Send { body, .. } => is_body(body, bytes),
            _ => false,
        },
        None => false,
    }
}

/// Whether a receive that has this message ends so.
fn is_result(lines: &[Line], cap: u32, m: &Message, answer: &Answer) -> bool
    ensures { result ≡ is_result_lem lines.now cap m.now answer.now }
{
    match answer {
        Answer::Got { from, tag, body } => {
            m.len <= cap as usize
                && m.from == *from
                && m.tag == *tag
                && has_bytes(lines, m.place, body.as_slice())
        }
        Answer::Cut { from, tag, len } => {
            (cap as usize) < m.len
                && m.from == *from
                && m.tag == *tag
                && (*len == 0 || *len as usize == m.len)
        }
        _ => false,
    }
}

/// Whether an answer says that a send is complete.
fn is_sent(answer: &Answer) -> bool
    ensures { result ≡ is_sent_lem answer.now }
{
    matches!(answer, Answer::Sent)
}

/// Whether an answer says that a request was cancelled.
fn is_cancelled(answer: &Answer) -> bool
    ensures { result ≡ is_cancelled_lem answer.now }
{
    matches!(answer, Answer::Cancelled)
}

/// Whether a request that stands so may end with an answer.
fn ends(lines: &[Line], waiting: bool, standing: &Standing, answer: &Answer) -> bool
    ensures { result ≡ ends_lem lines.now waiting standing.now answer.now }
{
    match standing {
        Standing::Send { sync } => is_sent(answer) && (!*sync || !waiting),
        Standing::Recalled { sync } => is_sent(answer) && (!*sync || !waiting),
        Standing::Withdrawn => is_cancelled(answer),
        Standing::Open { .. } => false,
        Standing::Marked { .. } => false,
        Standing::Off => is_cancelled(answer),
        Standing::Taken { cap, message } => is_result(lines, *cap, message, answer),
    }
}

/// Whether a rank's request may end with an answer.
fn may_end(lines: &[Line], rank: &Rank, r: &Request, answer: &Answer) -> bool
    ensures { result ≡ may_end_lem lines.now rank.now r.now answer.now }
{
    ends(lines, rank.is_waiting(r.place), &r.standing, answer)
}

/// A start.
fn started(free: bool, act: Act, told: Option<&Answer>) -> Option<Act>
    ensures { result ≡ started_lem free act (option_copied told.entry) }
{
    match told {
        None => act_if(free, act),
        Some(Answer::Busy) => act_if(!free, Act::Pass),
        Some(_) => None,
    }
}

/// What is done where something holds.
fn act_if(holds: bool, act: Act) -> Option<Act>
    ensures { result ≡ (if holds then Some act else None) }
{
    if holds { Some(act) } else { None }
}

/// An answer of a name that has nothing.
fn nulled(answer: &Answer) -> Option<Act>
    ensures { result ≡ nulled_lem answer.now }
{
    match answer {
        Answer::Null => Some(Act::Pass),
        _ => None,
    }
}

/// A wait.
fn waited(lines: &[Line], rank: &Rank, q: u16, answer: &Answer) -> Option<Act>
    ensures { result ≡ waited_lem lines.now rank.now q answer.now }
{
    match rank.live(q) {
        Some(r) => act_if(may_end(lines, rank, &r, answer), Act::End { q }),
        None => nulled(answer),
    }
}

/// A test, which may say `no` of each request.
fn tested(lines: &[Line], rank: &Rank, q: u16, answer: &Answer) -> Option<Act>
    ensures { result ≡ tested_lem lines.now rank.now q answer.now }
{
    match answer {
        Answer::No => act_if(rank.live(q).is_some(), Act::Pass),
        _ => waited(lines, rank, q, answer),
    }
}

/// A message, where this is what a probe shows of it.
fn if_so(m: Message, seen: &Seen) -> Option<Message>
    ensures { result ≡ (if m.tag == seen.now.tag && m.len == seen.now.len then Some m else None) }
{
    if m.tag == seen.tag && m.len == seen.len as usize {
        Some(m)
    } else {
        None
    }
}

/// The message that an answer shows.
fn seen_by(ranks: &[Rank], to: u8, rank: &Rank, p: &Pattern, seen: &Seen) -> Option<Message>
    ensures { result ≡ seen_by_lem ranks.now to rank.now p.now seen.now }
{
    match ranks.get(seen.from as usize) {
        Some(sender) => match sender.shown_to(to, rank, p) {
            Some(m) => if_so(m, seen),
            None => None,
        },
        None => None,
    }
}

/// A probe that only looks.
fn looked(ranks: &[Rank], to: u8, rank: &Rank, p: &Pattern, answer: &Answer) -> Option<Act>
    ensures { result ≡ looked_lem (λ m. act.Pass) ranks.now to rank.now p.now answer.now }
{
    match answer {
        Answer::Seen(seen) => match seen_by(ranks, to, rank, p, seen) {
            Some(_) => Some(Act::Pass),
            None => None,
        },
        _ => None,
    }
}

/// .. and that may find nothing.
fn probed(ranks: &[Rank], to: u8, rank: &Rank, p: &Pattern, answer: &Answer) -> Option<Act>
    ensures { result ≡ probed_lem (λ m. act.Pass) ranks.now to rank.now p.now answer.now }
{
    match answer {
        Answer::Nothing => Some(Act::Pass),
        _ => looked(ranks, to, rank, p, answer),
    }
}

/// A matched probe whose handle is free.
fn matched(ranks: &[Rank], to: u8, rank: &Rank, m: u16, p: &Pattern, answer: &Answer) -> Option<Act>
    ensures { result ≡ probed_lem (λ message. act.Claim m message) ranks.now to rank.now p.now answer.now }
{
    match answer {
        Answer::Nothing => Some(Act::Pass),
        Answer::Seen(seen) => match seen_by(ranks, to, rank, p, seen) {
            Some(message) => Some(Act::Claim { m, message }),
            None => None,
        },
        _ => None,
    }
}

/// A matched probe.
fn claimed(ranks: &[Rank], to: u8, rank: &Rank, m: u16, p: &Pattern, answer: &Answer) -> Option<Act>
    ensures { result ≡ claimed_lem ranks.now to rank.now m p.now answer.now }
{
    let live = rank.handle(m).is_some();
    match answer {
        Answer::Busy => act_if(live, Act::Pass),
        _ => {
            if live {
                None
            } else {
                matched(ranks, to, rank, m, p, answer)
            }
        }
    }
}

/// A matched receive that is taken.
fn taken(rank: &Rank, q: u16, m: u16, cap: u32) -> Option<Act>
    ensures { result ≡ received_lem rank.now q m cap None }
{
    if rank.live(q).is_some() {
        return None;
    }
    match rank.handle(m) {
        Some(claim) => Some(Act::Receive {
            q,
            m,
            cap,
            message: claim.message,
        }),
        None => None,
    }
}

/// A matched receive.
fn received(rank: &Rank, q: u16, m: u16, cap: u32, told: Option<&Answer>) -> Option<Act>
    ensures { result ≡ received_lem rank.now q m cap (option_copied told.entry) }
{
    match told {
        None => taken(rank, q, m, cap),
        Some(Answer::Busy) => act_if(rank.live(q).is_some(), Act::Pass),
        Some(Answer::Null) => act_if(
            !(rank.live(q).is_some() || rank.handle(m).is_some()),
            Act::Pass,
        ),
        Some(_) => None,
    }
}

/// A cancel that takes effect later.
fn asked(later: Act, answer: &Answer) -> Option<Act>
    ensures { result ≡ asked_lem later answer.now }
{
    match answer {
        Answer::Asked => Some(later),
        _ => None,
    }
}

/// .. or at once.
fn done(now: Act, later: Act, answer: &Answer) -> Option<Act>
    ensures { result ≡ done_lem now later answer.now }
{
    match answer {
        Answer::Done => Some(now),
        _ => asked(later, answer),
    }
}

/// .. or is too late.
fn late(answer: &Answer) -> Option<Act>
    ensures { result ≡ late_lem answer.now }
{
    match answer {
        Answer::Late => Some(Act::Pass),
        _ => asked(Act::Pass, answer),
    }
}

/// A request stands otherwise.
fn mark(place: usize, standing: Standing) -> Act
    ensures { result ≡ act.Mark place standing }
{
    Act::Mark { place, standing }
}

/// A cancel of a request that stands so.
fn cancelled_at(place: usize, standing: &Standing, answer: &Answer) -> Option<Act>
    ensures { result ≡ cancelled_at_lem place standing.now answer.now }
{
    match standing {
        Standing::Send { sync } => asked(mark(place, Standing::Recalled { sync: *sync }), answer),
        Standing::Recalled { .. } => asked(Act::Pass, answer),
        Standing::Withdrawn => asked(Act::Pass, answer),
        Standing::Open { pattern, cap } => done(
            mark(place, Standing::Off),
            mark(
                place,
                Standing::Marked {
                    pattern: *pattern,
                    cap: *cap,
                },
            ),
            answer,
        ),
        Standing::Marked { .. } => done(mark(place, Standing::Off), Act::Pass, answer),
        Standing::Off => done(Act::Pass, Act::Pass, answer),
        Standing::Taken { .. } => late(answer),
    }
}

/// A cancel.
fn cancelled(rank: &Rank, q: u16, answer: &Answer) -> Option<Act>
    ensures { result ≡ cancelled_lem rank.now q answer.now }
{
    match rank.live(q) {
        Some(r) => cancelled_at(r.place, &r.standing, answer),
        None => nulled(answer),
    }
}

/// How long a body is.
fn len_of(body: &Body) -> usize
    ensures { result ≡ body_len body.now }
{
    match body {
        Body::Hex(bytes) => bytes.len(),
        Body::Gen(len) => *len as usize,
    }
}

/// A pattern.
fn pattern(from: Peer, tag: TagPick, ctx: u8) -> Pattern
    ensures { result ≡ pattern_lem from tag ctx }
{
    Pattern { from, tag, ctx }
}

/// What a command that always answers does, where it tells this answer.
fn act_told(view: View, command: &Command, answer: &Answer) -> Option<Act>
    ensures { (is_start_lem command.now ≡ false) → result
        ≡ act_of_lem view.entry.lines.now view.entry.ranks.now view.entry.i view.entry.rank.now view.entry.place
        command.now (Some answer.now) }
{
    match command {
        Command::Wait { q } => waited(view.lines, view.rank, *q, answer),
        Command::Test { q } => tested(view.lines, view.rank, *q, answer),
        Command::Probe { from, tag, ctx } => {
            let p = pattern(*from, *tag, *ctx);
            probed(view.ranks, view.i, view.rank, &p, answer)
        }
        Command::Await { from, tag, ctx } => {
            let p = pattern(*from, *tag, *ctx);
            looked(view.ranks, view.i, view.rank, &p, answer)
        }
        Command::Cancel { q } => cancelled(view.rank, *q, answer),
        Command::Mprobe { m, from, tag, ctx } => {
            let p = pattern(*from, *tag, *ctx);
            claimed(view.ranks, view.i, view.rank, *m, &p, answer)
        }
        _ => None,
    }
}

/// What a command does, where it tells this answer; a start that is taken tells none.
pub fn act_of(view: View, command: &Command, told: Option<&Answer>) -> Option<Act>
    ensures { result
        ≡ act_of_lem view.entry.lines.now view.entry.ranks.now view.entry.i view.entry.rank.now view.entry.place
        command.now (option_copied told.entry) }
{
    match command {
        Command::Send {
            to,
            q,
            tag,
            ctx,
            sync,
            body,
        } => {
            let message = Message {
                place: view.place,
                from: view.i,
                to: *to,
                tag: *tag,
                ctx: *ctx,
                len: len_of(body),
            };
            let act = Act::Send {
                q: *q,
                sync: *sync,
                message,
            };
            started(view.rank.live(*q).is_none(), act, told)
        }
        Command::Recv {
            q,
            from,
            tag,
            ctx,
            cap,
        } => {
            let act = Act::Post {
                q: *q,
                pattern: pattern(*from, *tag, *ctx),
                cap: *cap,
            };
            started(view.rank.live(*q).is_none(), act, told)
        }
        Command::Mrecv { q, m, cap } => received(view.rank, *q, *m, *cap, told),
        _ => match told {
            Some(answer) => act_told(view, command, answer),
            None => None,
        },
    }
}

/// Whether a request that stands so holds up a wait.
fn holds(waiting: bool, standing: &Standing) -> bool
    ensures { result ≡ holds_lem waiting standing.now }
{
    match standing {
        Standing::Send { .. } => waiting,
        Standing::Recalled { .. } => waiting,
        Standing::Open { .. } => true,
        _ => false,
    }
}

/// Whether a rank has a message to show.
fn is_shown(ranks: &[Rank], i: u8, rank: &Rank, p: &Pattern) -> bool
    ensures { result ≡ list_any (λ sender. is_some (shown_to_lem sender i rank.now p.now)) ranks.now }
{
    ranks
        .iter()
        .any(|sender| sender.shown_to(i, rank, p).is_some())
}

/// Whether a command is held up.
pub fn is_held(ranks: &[Rank], i: u8, rank: &Rank, command: &Command) -> bool
    ensures { result ≡ is_held_lem ranks.now i rank.now command.now }
{
    match command {
        Command::Wait { q } => match rank.live(*q) {
            Some(r) => holds(rank.is_waiting(r.place), &r.standing),
            None => false,
        },
        Command::Await { from, tag, ctx } => !is_shown(ranks, i, rank, &pattern(*from, *tag, *ctx)),
        _ => false,
    }
}
