//! What may happen next at a rank.

ghost use Rattle.std.specs.Prelude.{◌≡◌, ◌+◌, ◌-◌, ◌<◌, ◌≤◌, ◌==◌, ◌&&◌, ◌^◌, IsTrue, None, Some, false};
ghost use Rattle.std.specs.Prelude.{if◌then◌else◌, count_by, filter, find};
ghost use Rattle.std.specs.Prelude.{length};
ghost use Rattle.std.specs.List.{list_any};
ghost use Rattle.std.specs.Prelude.{option_and_then, option_copied, option_map, slice_get};
ghost use Rattle.std.specs.Option.{option_map_or};
ghost use Rattle.nm_types.specs.Bodies.{body_len};
ghost use Rattle.nm_types.specs.Limits.{sent_len};
ghost use Rattle.nm_history.specs.Matching.{is_of_receive};
ghost use Rattle.nm_history.specs.RankRun.{how_of as how_of_lem};
ghost use Rattle.nm_lookups.specs.AskedFor.{meant_by};
ghost use Rattle.nm_explored.specs.Successors.{answer_in, arrival_by, cancel_at, cancelled_at, got_by};
ghost use Rattle.nm_explored.specs.Successors.{begun_in, is_held_by, is_withdrawn_next};
ghost use Rattle.nm_explored.specs.Successors.{may_begin as may_begin_lem};
ghost use Rattle.nm_explored.specs.Successors.{is_idle_at, is_test_of, match_at, message_next, probed_at};
ghost use Rattle.nm_explored.specs.Successors.{recalled_at, received_at, result_in, seen_at, sent_at, shown_at};
ghost use Rattle.nm_explored.specs.Successors.{spot_in, start_in, started_at};
ghost use Rattle.nm_explored.specs.Lines.{line_in};
ghost use Rattle.nm_match.specs.Deeds.{is_message};
ghost use Rattle.nm_outcomes.specs.Looks.{claim_in, is_cancelling_by, is_claim_any, is_recall_by};
ghost use Rattle.nm_lookups.specs.AskedFor.{message_meant};
ghost use Rattle.nm_outcomes.specs.Looks.{is_receive_by, is_send_by, is_starting_by};
ghost use Rattle.nm_outcomes.specs.RankStates.{free_lem};

use nm_history::plain::Pair;
use nm_lookups::asked::requests::Request;
use nm_outcomes::spots::deeds::{Deed, Message, Receive, Reply};
use nm_outcomes::spots::looks::{
    came, claim_at, found, is_idle, is_recalled, is_unasked, live, live_message, received, send_at,
    sent,
};
use nm_outcomes::spots::ranks::Rank;
use nm_types::{Arrival, Body, Command, Envelope, How, Line, Peer, Seen, TagPick};

/// The ranks of a state: each by its number in a table of them.
#[derive(Clone, Copy)]
pub struct View<'a> {
    pub eager: u16,
    pub lines: &'a [Line],
    pub table: &'a [Rank],
    pub ids: &'a [usize],
}

impl<'a> View<'a> {
    /// The state of a rank.
    pub fn rank(&self, i: u8) -> Option<&'a Rank>
        ensures { option_copied result ≡ spot_in self.now.table.now self.now.ids.now i }
    {
        match self.ids.get(i as usize) {
            Some(id) => self.table.get(*id),
            None => None,
        }
    }
}

/// The line at a place, from 0, is a rank's.
fn is_own(lines: &[Line], rank: u8, k: usize) -> bool
    ensures { result ≡ option_map_or (λ line. line.rank == rank) (slice_get lines.now k) false }
{
    match lines.get(k) {
        Some(line) => line.rank == rank,
        None => false,
    }
}

/// The number of the line at a place, as far as it fits.
fn number_of_line(k: usize) -> Option<u64>
    ensures { k < 4294967293 → result ≡ Some (k + 2) }
{
    if k < 4294967293 {
        Some(k as u64 + 2)
    } else {
        None
    }
}

/// How many commands are left before one, after a line.
fn left_after(own: bool, left: usize) -> usize
    requires { IsTrue own → 0 < left }
    ensures { result ≡ (if own then left - 1 else left) }
{
    if own { left - 1 } else { left }
}

/// The line of the command of a rank at a place, from 0.
pub fn line_at(lines: &[Line], rank: u8, place: usize) -> Option<u64>
    ensures { length lines.now < 4294967293 → result ≡ line_in lines.now rank place }
{
    let mut left = place;
    for k in 0..lines.len() {
        let own = is_own(lines, rank, k);
        if own && left == 0 {
            return number_of_line(k);
        }
        left = left_after(own, left);
    }
    None
}

/// How long a body is.
pub fn len_of(body: &Body) -> u32
    ensures few { result ≤ body_len body.now }
    ensures exact { body_len body.now < 2 ^ 32 → result ≡ body_len body.now }
{
    match body {
        Body::Hex(bytes) => len_of_bytes(bytes.len()),
        Body::Gen(len) => *len,
    }
}

/// A length, as far as it fits.
fn len_of_bytes(len: usize) -> u32
    ensures few { result ≤ len }
    ensures exact { len < 2 ^ 32 → result ≡ len }
{
    if len < 4294967296 {
        len as u32
    } else {
        u32::MAX
    }
}

/// How a message of this length is sent.
fn how_of(eager: u16, sync: bool, len: u32) -> How
    ensures { result ≡ how_of_lem eager sync len }
{
    if sync || u32::from(eager) < len {
        How::Ask
    } else {
        How::Eager
    }
}

/// The cancel or the recall of a live request.
fn cancel(rank: &Rank, request: Request) -> Option<Deed>
    ensures { result ≡ cancel_at rank.now (meant_by request) }
{
    match request {
        Request::Receiving { number } => {
            let done = !rank.is_paired(number);
            Some(Deed::Cancel { number, done })
        }
        Request::Sending { to, n } => {
            if is_recalled(rank.deeds(), to, n) {
                None
            } else {
                Some(Deed::Recall { to, n })
            }
        }
    }
}

/// The receive of a claimed message, which no receive took.
fn matched(rank: &Rank, cap: u32, line: u64, m: Message) -> Option<Deed>
    ensures { result ≡ match_at rank.now cap line (message_meant m) }
{
    if rank.is_taken(m.rank, m.n) {
        return None;
    }
    Some(Deed::Match {
        number: received(rank.deeds()),
        from: m.rank,
        n: m.n,
        cap,
        line,
    })
}

/// The claim of a message, if there is one.
fn claim(free: Option<Arrival>, line: u64) -> Option<Deed>
    ensures { result ≡ option_map (λ a. Deed.Claim a.env.from a.n line) free }
{
    match free {
        Some(a) => Some(Deed::Claim {
            from: a.env.from,
            n: a.n,
            line,
        }),
        None => None,
    }
}

/// The send of a message to a rank.
fn send(
    deeds: &[Deed],
    eager: u16,
    line: u64,
    to: u8,
    tag: u16,
    ctx: u8,
    sync: bool,
    body: &Body,
) -> Deed
    ensures { body_len body.now < 2 ^ 32 →
        result ≡ Deed.Send to (count_by (is_send_by to) deeds.now) tag ctx (body_len body.now)
        (how_of_lem eager sync (body_len body.now)) line }
{
    let len = len_of(body);
    Deed::Send {
        to,
        n: sent(deeds, to),
        tag,
        ctx,
        len,
        how: how_of(eager, sync, len),
        line,
    }
}

/// The receive that a command posts.
fn post(deeds: &[Deed], line: u64, from: Peer, tag: TagPick, ctx: u8, cap: u32) -> Deed
    ensures { result ≡ Deed.Post (record {
      number = count_by is_receive_by deeds.now;
      from = from;
      tag = tag;
      ctx = ctx;
      cap = cap;
    }) line }
{
    Deed::Post {
        receive: Receive {
            number: received(deeds),
            from,
            tag,
            ctx,
            cap,
        },
        line,
    }
}

/// What the command of a line does before its answer.
pub fn start(
    lines: &[Line],
    eager: u16,
    i: u8,
    rank: &Rank,
    line: u64,
    command: &Command,
) -> Option<Deed>
    ensures { sent_len command.now < 2 ^ 32 →
        result ≡ start_in eager lines.now i rank.now line command.now }
{
    let deeds = rank.deeds();
    match command {
        Command::Send {
            to,
            tag,
            ctx,
            body,
            sync,
            ..
        } => Some(send(deeds, eager, line, *to, *tag, *ctx, *sync, body)),
        Command::Recv {
            from,
            tag,
            ctx,
            cap,
            ..
        } => Some(post(deeds, line, *from, *tag, *ctx, *cap)),
        Command::Mrecv { m, cap, .. } => match live_message(lines, i, deeds, *m) {
            Some(message) => matched(rank, *cap, line, message),
            None => None,
        },
        Command::Cancel { q } => match live(lines, i, deeds, *q) {
            Some(request) => cancel(rank, request),
            None => None,
        },
        Command::Mprobe { from, tag, ctx, .. } => claim(found(rank, *from, *tag, *ctx), line),
        _ => None,
    }
}

/// Whether a deed is a send or a receive.
fn is_starting(deed: &Deed) -> bool
    ensures { result ≡ is_starting_by deed.now }
{
    matches!(
        deed,
        Deed::Send { .. } | Deed::Post { .. } | Deed::Match { .. }
    )
}

/// Whether a deed is a cancel or a recall.
fn is_cancelling(deed: &Deed) -> bool
    ensures { result ≡ is_cancelling_by deed.now }
{
    matches!(deed, Deed::Cancel { .. } | Deed::Recall { .. })
}

/// Whether a deed is a claim.
fn is_claim(deed: &Deed) -> bool
    ensures { result ≡ is_claim_any deed.now }
{
    matches!(deed, Deed::Claim { .. })
}

/// Whether a deed can't come right behind another one.
fn is_held(last: &Deed, deed: &Deed) -> bool
    ensures { result ≡ is_held_by last.now deed.now }
{
    match deed {
        Deed::Send { .. } => is_starting(last),
        Deed::Post { .. } => is_starting(last),
        Deed::Cancel { .. } => is_cancelling(last),
        Deed::Claim { .. } => is_claim(last),
        _ => false,
    }
}

/// Whether a deed may come behind these ones.
fn may_begin(deeds: &[Deed], deed: &Deed) -> bool
    ensures { result ≡ may_begin_lem deeds.now deed.now }
{
    match deeds.last() {
        Some(last) => !is_held(last, deed),
        None => true,
    }
}

/// What the command of a line does now, before its answer.
pub fn begin(
    lines: &[Line],
    eager: u16,
    i: u8,
    rank: &Rank,
    line: u64,
    command: &Command,
) -> Option<Deed>
    ensures { sent_len command.now < 2 ^ 32 →
        result ≡ begun_in eager lines.now i rank.now line command.now }
{
    match start(lines, eager, i, rank, line, command) {
        Some(deed) => {
            if may_begin(rank.deeds(), &deed) {
                Some(deed)
            } else {
                None
            }
        }
        None => None,
    }
}

/// What a receive shows of the message that a deed sent.
fn got(pair: Pair, deed: Deed) -> Option<Reply>
    ensures { result ≡ got_by pair deed }
{
    match deed {
        Deed::Send { line, .. } => Some(Reply::Got {
            from: pair.arrival.env.from,
            tag: pair.arrival.env.tag,
            line,
        }),
        _ => None,
    }
}

/// What a receive shows of its message, by what its sender did.
fn got_of(pair: Pair, i: u8, sender: &Rank) -> Option<Reply>
    ensures { result ≡ option_and_then (got_by pair)
        (slice_get (filter (is_send_by i) sender.now.deeds) pair.arrival.n) }
{
    match send_at(sender.deeds(), i, pair.arrival.n as usize) {
        Some(deed) => got(pair, deed),
        None => None,
    }
}

/// What a receive shows of its message.
fn shown(view: View, i: u8, pair: Pair) -> Option<Reply>
    ensures { result ≡ shown_at (spot_in view.entry.table.now view.entry.ids.now) i pair }
{
    let env = pair.arrival.env;
    if pair.cap < env.len {
        return Some(Reply::Cut {
            from: env.from,
            tag: env.tag,
            len: env.len,
        });
    }
    match view.rank(env.from) {
        Some(sender) => got_of(pair, i, sender),
        None => None,
    }
}

/// The message of a receive.
fn pair_of(rank: &Rank, number: u64) -> Option<Pair>
    ensures { result ≡ find (is_of_receive number) rank.now.pairs }
{
    rank.pairs().iter().copied().find(|p| p.number == number)
}

/// What a send may end with by now.
fn sent_result(rank: &Rank, other: &Rank, i: u8, to: u8, n: u64) -> Option<Reply>
    ensures { result ≡ sent_at rank.now other.now i to n }
{
    if other.is_withdrawn(i, n) {
        return Some(Reply::Cancelled);
    }
    let left = is_unasked(rank.deeds(), to, n) || other.is_taken(i, n);
    let late = !is_recalled(rank.deeds(), to, n) || (other.has(i, n) && !other.is_free(i, n));
    if left && late {
        Some(Reply::Sent)
    } else {
        None
    }
}

/// What a request may end with by now.
fn result(view: View, i: u8, rank: &Rank, request: Request) -> Option<Reply>
    ensures { result ≡ result_in (spot_in view.entry.table.now view.entry.ids.now) i rank.now
        (meant_by request) }
{
    match request {
        Request::Receiving { number } => {
            if rank.is_off(number) {
                return Some(Reply::Cancelled);
            }
            match pair_of(rank, number) {
                Some(pair) => shown(view, i, pair),
                None => None,
            }
        }
        Request::Sending { to, n } => match view.rank(to) {
            Some(other) => sent_result(rank, other, i, to, n),
            None => None,
        },
    }
}

/// The answer to a wait or a test of what a name stands for.
fn ended(view: View, i: u8, rank: &Rank, held: Option<Request>) -> Option<Reply>
    ensures { result ≡ option_map_or
        (result_in (spot_in view.entry.table.now view.entry.ids.now) i rank.now)
        (option_map meant_by held) (Some Reply.Null) }
{
    match held {
        Some(request) => result(view, i, rank, request),
        None => Some(Reply::Null),
    }
}

/// The answer to a start whose name has this request.
fn started(idle: bool, held: Option<Request>) -> Option<Reply>
    ensures { result ≡ started_at idle (option_map meant_by held) }
{
    match held {
        Some(_) => if idle { Some(Reply::Busy) } else { None },
        None => if idle { None } else { Some(Reply::Started) },
    }
}

/// The answer to a cancel.
fn cancelled(idle: bool, rank: &Rank, held: Option<Request>) -> Option<Reply>
    ensures { result ≡ cancelled_at idle rank.now (option_map meant_by held) }
{
    match held {
        None => if idle { Some(Reply::Null) } else { None },
        Some(request) => cancelled_request(idle, rank, request),
    }
}

/// The answer to a cancel of a request.
fn cancelled_request(idle: bool, rank: &Rank, request: Request) -> Option<Reply>
    ensures { result ≡ cancelled_at idle rank.now (Some (meant_by request)) }
{
    match request {
        Request::Receiving { number } => {
            if idle {
                None
            } else if rank.is_paired(number) {
                Some(Reply::Late)
            } else {
                Some(Reply::Done)
            }
        }
        Request::Sending { to, n } => recalled(rank, to, n),
    }
}

/// The answer to a cancel of a send: it was recalled, before or now.
fn recalled(rank: &Rank, to: u8, n: u64) -> Option<Reply>
    ensures { result ≡ recalled_at rank.now to n }
{
    if is_recalled(rank.deeds(), to, n) {
        Some(Reply::Asked)
    } else {
        None
    }
}

/// What a probe shows of a message.
fn seen(a: Arrival) -> Reply
    ensures { result ≡ seen_at a }
{
    Reply::Seen(Seen {
        from: a.env.from,
        tag: a.env.tag,
        len: a.env.len,
    })
}

/// What a matched probe shows of a message that it claimed.
fn seen_claim(rank: &Rank, m: Message) -> Option<Reply>
    ensures { result ≡ option_map seen_at (find (is_message m.rank m.n) rank.now.came) }
{
    awaited(rank.message(m.rank, m.n))
}

/// What a matched probe of a line shows: the message that it claimed.
fn claimed(rank: &Rank, line: u64) -> Option<Reply>
    ensures { result ≡ option_map seen_at (option_and_then
        (λ m. find (is_message m.from m.n) rank.now.came) (claim_in rank.now.deeds line)) }
{
    match claim_at(rank.deeds(), line) {
        Some(m) => seen_claim(rank, m),
        None => None,
    }
}

/// The answer to a matched probe whose handle has no message.
fn probed_new(idle: bool, rank: &Rank, line: u64, free: Option<Arrival>) -> Option<Reply>
    ensures { result ≡ probed_at idle rank.now line free None }
{
    if !idle {
        return claimed(rank, line);
    }
    match free {
        Some(_) => None,
        None => Some(Reply::Nothing),
    }
}

/// The answer to a matched probe.
fn probed(
    idle: bool,
    rank: &Rank,
    line: u64,
    free: Option<Arrival>,
    held: Option<Message>,
) -> Option<Reply>
    ensures { result ≡ probed_at idle rank.now line free (option_map message_meant held) }
{
    match held {
        Some(_) => if idle { Some(Reply::Busy) } else { None },
        None => probed_new(idle, rank, line, free),
    }
}

/// The answer to a matched receive.
fn received_answer(idle: bool, held: Option<Request>, message: Option<Message>) -> Option<Reply>
    ensures { result
        ≡ received_at idle (option_map meant_by held) (option_map message_meant message) }
{
    match held {
        Some(_) => if idle { Some(Reply::Busy) } else { None },
        None => match message {
            Some(_) => if idle { None } else { Some(Reply::Started) },
            None => if idle { Some(Reply::Null) } else { None },
        },
    }
}

/// The answer to an await.
fn awaited(free: Option<Arrival>) -> Option<Reply>
    ensures { result ≡ option_map seen_at free }
{
    match free {
        Some(a) => Some(seen(a)),
        None => None,
    }
}

/// The answer to a probe.
fn looked(free: Option<Arrival>) -> Reply
    ensures { result ≡ option_map_or seen_at free Reply.Nothing }
{
    match free {
        Some(a) => seen(a),
        None => Reply::Nothing,
    }
}

/// The answer that the command of a line can have by now, but for that of a test that its request is
/// not complete.
pub fn answer(view: View, i: u8, rank: &Rank, line: u64, command: &Command) -> Option<Reply>
    ensures { result ≡ answer_in (spot_in view.entry.table.now view.entry.ids.now)
        view.entry.lines.now i rank.now line command.now }
{
    let deeds = rank.deeds();
    let lines = view.lines;
    match command {
        Command::Send { q, .. } => started(is_idle(deeds), live(lines, i, deeds, *q)),
        Command::Recv { q, .. } => started(is_idle(deeds), live(lines, i, deeds, *q)),
        Command::Wait { q } => ended(view, i, rank, live(lines, i, deeds, *q)),
        Command::Test { q } => ended(view, i, rank, live(lines, i, deeds, *q)),
        Command::Probe { from, tag, ctx } => Some(looked(found(rank, *from, *tag, *ctx))),
        Command::Await { from, tag, ctx } => awaited(found(rank, *from, *tag, *ctx)),
        Command::Cancel { q } => cancelled(is_idle(deeds), rank, live(lines, i, deeds, *q)),
        Command::Mprobe { m, from, tag, ctx } => probed(
            is_idle(deeds),
            rank,
            line,
            found(rank, *from, *tag, *ctx),
            live_message(lines, i, deeds, *m),
        ),
        Command::Mrecv { q, m, .. } => received_answer(
            is_idle(deeds),
            live(lines, i, deeds, *q),
            live_message(lines, i, deeds, *m),
        ),
    }
}

/// Whether the command is a test of a live request.
pub fn may_say_no(lines: &[Line], i: u8, rank: &Rank, command: &Command) -> bool
    ensures { result ≡ is_test_of lines.now i rank.now command.now }
{
    match command {
        Command::Test { q } => match live(lines, i, rank.deeds(), *q) {
            Some(Request::Receiving { number }) => !rank.is_off(number),
            Some(Request::Sending { .. }) => true,
            None => false,
        },
        _ => false,
    }
}

/// The message that a deed of a rank sent.
fn arrival_of(from: u8, n: u64, deed: Deed) -> Option<Arrival>
    ensures { result ≡ arrival_by from n deed }
{
    match deed {
        Deed::Send {
            tag,
            ctx,
            len,
            how,
            ..
        } => Some(Arrival {
            n,
            env: Envelope {
                from,
                tag,
                ctx,
                len,
                how,
            },
        }),
        _ => None,
    }
}

/// The message under way from a rank to another one.
fn under_way(rank: &Rank, other: &Rank, i: u8, from: u8) -> Option<Arrival>
    ensures { result ≡ (let n = count_by (λ a. a.env.from == from) rank.now.came in
        option_and_then (arrival_by from n) (slice_get (filter (is_send_by i) other.now.deeds) n)) }
{
    let n = came(rank, from);
    match send_at(other.deeds(), i, n) {
        Some(deed) => arrival_of(from, n as u64, deed),
        None => None,
    }
}

/// The next message under way from a rank to another one.
pub fn next_message(view: View, i: u8, from: u8) -> Option<Arrival>
    ensures { result ≡ message_next (spot_in view.entry.table.now view.entry.ids.now) i from }
{
    match view.rank(i) {
        Some(rank) => match view.rank(from) {
            Some(other) => under_way(rank, other, i, from),
            None => None,
        },
        None => None,
    }
}

/// Whether message n of a rank came, is free, and was recalled.
fn is_withdrawn(rank: &Rank, other: &Rank, i: u8, from: u8, n: u64) -> bool
    ensures { result ≡ (list_any (is_message from n) rank.now.came
        && (free_lem rank.now from n && list_any (is_recall_by i n) other.now.deeds)) }
{
    rank.has(from, n) && (rank.is_free(from, n) && is_recalled(other.deeds(), i, n))
}

/// Whether message n of a rank to this one may be withdrawn.
pub fn may_withdraw(view: View, i: u8, from: u8, n: u64) -> bool
    ensures { result
        ≡ is_withdrawn_next (spot_in view.entry.table.now view.entry.ids.now) i from n }
{
    match view.rank(i) {
        Some(rank) => match view.rank(from) {
            Some(other) => is_withdrawn(rank, other, i, from, n),
            None => false,
        },
        None => false,
    }
}
