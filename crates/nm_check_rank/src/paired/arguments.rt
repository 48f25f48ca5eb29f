//! The arguments of a send or a receive, and the first of them that is another one.

ghost use Rattle.std.specs.Prelude.{◌≡◌, ◌≢◌, true, List, ◌∷◌};
ghost use Rattle.nm_types.specs.declared.messages.How as the_how;
ghost use Rattle.nm_history.specs.declared.events.Happened.TheVariants as happening;
ghost use Rattle.nm_history.specs.RankRun.{is_start};
ghost use Rattle.nm_lookups.specs.Deciding.{Decides};
ghost use Rattle.nm_check_rank.specs.Arguments as spec;
ghost use Rattle.nm_check_rank.specs.Arguments.{IsFirstMismatch, arguments};
ghost use Rattle.nm_check_rank.specs.declared.paired.arguments.Argument as argument;
ghost use Rattle.nm_check_rank.specs.declared.paired.arguments.Argument.TheVariants as arg;

use crate::hows::is_same_how;
use crate::paired::starts::{is_same_peer, is_same_pick};
use nm_history::Happened;
use nm_lookups::firsts::Message;
use nm_types::{How, Peer, TagPick};

/// What a start is.
#[derive(Clone, Copy, PartialEq)]
pub enum Sort {
    Send,
    Receive,
    /// The receive of a claimed message.
    Matched,
}

/// An argument of a start or an arrival.
#[derive(Clone, Copy)]
pub enum Argument {
    Sort(Sort),
    To(u8),
    From(Peer),
    Tag(TagPick),
    Context(u8),
    Length(u64),
    Capacity(u32),
    Message(Message),
    /// How it is sent.
    Way(How),
    /// The line of the command.
    Line(u64),
}

/// An argument that is called for, and another one that was found.
#[derive(Clone, Copy)]
pub struct Mismatch {
    pub called: Argument,
    pub found: Argument,
}

fn is_same_sort(a: Sort, b: Sort) -> bool
    ensures { Decides result (a ≡ b) }
{
    a == b
}

fn is_same_message(a: Message, b: Message) -> bool
    ensures { Decides result (a ≡ b) }
{
    a.rank == b.rank && a.n == b.n
}

/// Two arguments of starts are the same.
fn is_same_argument(a: Argument, b: Argument) -> bool
    ensures { Decides result (a ≡ b) }
{
    match a {
        Argument::Sort(x) => matches!(b, Argument::Sort(y) if is_same_sort(x, y)),
        Argument::To(x) => matches!(b, Argument::To(y) if x == y),
        Argument::From(x) => matches!(b, Argument::From(y) if is_same_peer(x, y)),
        Argument::Tag(x) => matches!(b, Argument::Tag(y) if is_same_pick(x, y)),
        Argument::Context(x) => matches!(b, Argument::Context(y) if x == y),
        Argument::Length(x) => matches!(b, Argument::Length(y) if x == y),
        Argument::Capacity(x) => matches!(b, Argument::Capacity(y) if x == y),
        Argument::Message(x) => matches!(b, Argument::Message(y) if is_same_message(x, y)),
        Argument::Way(x) => matches!(b, Argument::Way(y) if is_same_how(x, y)),
        Argument::Line(x) => matches!(b, Argument::Line(y) if x == y),
    }
}

/// The first of some arguments, where it is another one, or else the first of the others.
fn before_others(called: Argument, found: Argument, others: Option<Mismatch>) -> Option<Mismatch>
    ensures { (xs ys : List argument.Argument) → IsFirstMismatch xs ys others →
        IsFirstMismatch (called ∷ xs) (found ∷ ys) result }
{
    if is_same_argument(called, found) {
        others
    } else {
        Some(Mismatch { called, found })
    }
}

/// What a start is.
fn sort_of(what: &Happened) -> Sort
    ensures { result ≡ spec.sort_of what.now }
{
    match what {
        Happened::Send { .. } => Sort::Send,
        Happened::Match { .. } => Sort::Matched,
        _ => Sort::Receive,
    }
}

/// A start is another thing than is called for.
fn other_sort(called: Sort, what: &Happened) -> Option<Mismatch>
    ensures { (xs : List argument.Argument) → called ≢ spec.sort_of what.now →
        IsFirstMismatch (arg.Sort called ∷ xs) (arguments what.now) result }
{
    Some(Mismatch {
        called: Argument::Sort(called),
        found: Argument::Sort(sort_of(what)),
    })
}

/// The first argument in which a start is not the send that is called for.
pub(crate) fn send_mismatch(
    what: &Happened,
    to: u8,
    tag: u16,
    ctx: u8,
    len: u64,
    line: u64,
) -> Option<Mismatch>
    ensures { (how : the_how.How) → IsFirstMismatch
        (arguments (happening.Send to 0 tag ctx len how line)) (arguments what.now) result }
{
    match what {
        Happened::Send {
            to: t,
            tag: g,
            ctx: x,
            len: l,
            line: at,
            ..
        } => {
            let called = Argument::Tag(TagPick::One(tag));
            let found = Argument::Tag(TagPick::One(*g));
            let lines = before_others(Argument::Line(line), Argument::Line(*at), None);
            let lens = Argument::Length(u64::from(*l));
            let lens = before_others(Argument::Length(len), lens, lines);
            let ctxs = before_others(Argument::Context(ctx), Argument::Context(*x), lens);
            let tags = before_others(called, found, ctxs);
            before_others(Argument::To(to), Argument::To(*t), tags)
        }
        _ => other_sort(Sort::Send, what),
    }
}

/// .. not the receive.
pub(crate) fn post_mismatch(
    what: &Happened,
    from: Peer,
    tag: TagPick,
    ctx: u8,
    cap: u32,
    line: u64,
) -> Option<Mismatch>
    ensures { is_start what.now ≡ true → IsFirstMismatch
        (arguments (happening.Post
        (record { number = 0; from = from; tag = tag; ctx = ctx; cap = cap }) line))
        (arguments what.now) result }
{
    match what {
        Happened::Post { post, line: at } => {
            let lines = before_others(Argument::Line(line), Argument::Line(*at), None);
            let caps = Argument::Capacity(post.cap);
            let caps = before_others(Argument::Capacity(cap), caps, lines);
            let ctxs = before_others(Argument::Context(ctx), Argument::Context(post.ctx), caps);
            let tags = before_others(Argument::Tag(tag), Argument::Tag(post.tag), ctxs);
            before_others(Argument::From(from), Argument::From(post.from), tags)
        }
        _ => other_sort(Sort::Receive, what),
    }
}

/// .. not the receive of this claimed message.
pub(crate) fn match_mismatch(
    what: &Happened,
    message: Message,
    cap: u32,
    line: u64,
) -> Option<Mismatch>
    ensures { IsFirstMismatch
        (arguments (happening.Match 0 message.rank message.n cap line)) (arguments what.now) result }
{
    match what {
        Happened::Match {
            from,
            n,
            cap: room,
            line: at,
            ..
        } => {
            let held = Message { rank: *from, n: *n };
            let lines = before_others(Argument::Line(line), Argument::Line(*at), None);
            let caps = before_others(Argument::Capacity(cap), Argument::Capacity(*room), lines);
            before_others(Argument::Message(message), Argument::Message(held), caps)
        }
        _ => other_sort(Sort::Matched, what),
    }
}
