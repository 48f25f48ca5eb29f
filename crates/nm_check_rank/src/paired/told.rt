//! Answers without the bytes of messages.

ghost use Rattle.std.specs.Prelude.{◌≡◌, if◌then◌else◌, Option, Some, None, is_some, option_map};
ghost use Rattle.std.specs.Option.{option_map_or};
ghost use Rattle.nm_types.specs.declared.answers.Answer.TheVariants as answers;
ghost use Rattle.nm_history.specs.Answers.{seen as seen_lem, without_bytes};
ghost use Rattle.nm_history.specs.Completion.{shown as shown_lem};
ghost use Rattle.nm_lookups.specs.Deciding.{Decides};
ghost use Rattle.nm_check_rank.specs.Told.{untold};

use nm_history::plain::Pair;
use nm_types::{Answer, Arrival};

/// An answer, of whose bytes the number alone counts.
#[derive(Clone, Copy, PartialEq)]
pub enum Told {
    Started,
    Busy,
    Null,
    No,
    Nothing,
    Sent,
    Got { from: u8, tag: u16, len: u64 },
    Cut { from: u8, tag: u16, len: u32 },
    Cancelled,
    Seen { from: u8, tag: u16, len: u32 },
    Done,
    Late,
    Asked,
}

/// An answer without its bytes.
pub(crate) fn told_of(answer: &Answer) -> Told
    ensures { untold result ≡ without_bytes answer.now }
{
    match answer {
        Answer::Started => Told::Started,
        Answer::Busy => Told::Busy,
        Answer::Null => Told::Null,
        Answer::No => Told::No,
        Answer::Nothing => Told::Nothing,
        Answer::Sent => Told::Sent,
        Answer::Got { from, tag, body } => Told::Got {
            from: *from,
            tag: *tag,
            len: body.len() as u64,
        },
        Answer::Cut { from, tag, len } => Told::Cut {
            from: *from,
            tag: *tag,
            len: *len,
        },
        Answer::Cancelled => Told::Cancelled,
        Answer::Seen(seen) => Told::Seen {
            from: seen.from,
            tag: seen.tag,
            len: seen.len,
        },
        Answer::Done => Told::Done,
        Answer::Late => Told::Late,
        Answer::Asked => Told::Asked,
    }
}

/// Whether an answer is the one told, but for its bytes.
pub(crate) fn is_told(told: Told, answer: &Answer) -> bool
    ensures { Decides result (untold told ≡ without_bytes answer.now) }
{
    is_same_told(told, told_of(answer))
}

fn is_same_told(a: Told, b: Told) -> bool
    ensures { Decides result (a ≡ b) }
{
    a == b
}

/// What a receive shows of its message.
pub(crate) fn shown(pair: Pair) -> Told
    ensures { untold result ≡ shown_lem pair }
{
    let env = pair.arrival.env;
    if pair.cap < env.len {
        Told::Cut {
            from: env.from,
            tag: env.tag,
            len: env.len,
        }
    } else {
        Told::Got {
            from: env.from,
            tag: env.tag,
            len: u64::from(env.len),
        }
    }
}

/// What a probe shows of a message.
pub(crate) fn seen(a: Arrival) -> Told
    ensures { untold result ≡ seen_lem a }
{
    Told::Seen {
        from: a.env.from,
        tag: a.env.tag,
        len: a.env.len,
    }
}

/// The answer of a probe.
pub(crate) fn probe_answer(found: Option<Arrival>) -> Told
    ensures { untold result ≡ option_map_or seen_lem found answers.Nothing }
{
    match found {
        Some(a) => seen(a),
        None => Told::Nothing,
    }
}

/// The answer of a probe that waits for a message.
pub(crate) fn await_answer(found: Option<Arrival>) -> Option<Told>
    ensures { option_map untold result ≡ option_map seen_lem found }
{
    match found {
        Some(a) => Some(seen(a)),
        None => None,
    }
}

/// The answer of a matched probe: what it claimed, where its handle has no live message.
pub(crate) fn claim_answer(
    live: bool,
    claimed: Option<Arrival>,
    found: Option<Arrival>,
) -> Option<Told>
    ensures { option_map untold result
        ≡ (if live then Some answers.Busy else option_map_or (λ a. Some (seen_lem a)) claimed
        (if is_some found then None else Some answers.Nothing)) }
{
    if live {
        return Some(Told::Busy);
    }
    match claimed {
        Some(a) => Some(seen(a)),
        None => nothing_found(found),
    }
}

/// The answer of a matched probe that claimed nothing.
fn nothing_found(found: Option<Arrival>) -> Option<Told>
    ensures { option_map untold result
        ≡ (if is_some found then None else Some answers.Nothing) }
{
    match found {
        Some(_) => None,
        None => Some(Told::Nothing),
    }
}

/// The answer of a start.
pub(crate) fn start_answer(live: bool) -> Told
    ensures { untold result ≡ (if live then answers.Busy else answers.Started) }
{
    if live { Told::Busy } else { Told::Started }
}

/// The answer of a matched receive.
pub(crate) fn receive_answer(live: bool, held: bool) -> Told
    ensures { untold result ≡ (if live then answers.Busy
        else if held then answers.Started else answers.Null) }
{
    if live {
        Told::Busy
    } else if held {
        Told::Started
    } else {
        Told::Null
    }
}
