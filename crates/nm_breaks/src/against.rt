//! What stands between an event and the one of the other rank that it is held against.

ghost use Rattle.std.specs.Prelude.{◌≡◌, ℕ, MatchOption, None, Some};
ghost use Rattle.nm_types.specs.Commands.{command_at, commands_of};
ghost use Rattle.nm_types.specs.declared.answers.Answer.TheVariants as answers;
ghost use Rattle.nm_history.specs.declared.events.Happened.TheVariants.{Arrive, Undone};
ghost use Rattle.nm_report.specs.Ends.{ends_of};
ghost use Rattle.nm_history.specs.Sends.{sent_bytes};
ghost use Rattle.nm_check.specs.Bytes.{IsFirstOtherByte};
ghost use Rattle.nm_breaks.specs.Against as spec;
ghost use Rattle.nm_breaks.specs.Against.{IsAgainst, IsAgainstAt, IsAgainstHeld, IsBetween, IsBodyAgainst};

use crate::places::{EventLine, event_at};
use nm_check::bodies::first_other_byte;
use nm_check::firsts::Spot;
use nm_check_rank::paired::arguments::{Argument, Mismatch};
use nm_check_rank::paired::dues::Due;
use nm_check_rank::paired::objections::word_after;
use nm_history::{Event, Happened};
use nm_lookups::asked::commands::command_of_line;
use nm_report::RankAccount;
use nm_types::{Answer, Envelope, How, Line, TagPick};

/// A message came with another argument than it was sent with.
fn other_argument(sent: Argument, came: Argument) -> Option<Due>
    ensures { result ≡ spec.other_argument sent came }
{
    let mismatch = Mismatch {
        called: sent,
        found: came,
    };
    Some(Due::Argument { mismatch })
}

/// A message came in another way than it was sent, or too soon.
fn way_against(came: How, sent: How, soon: Option<Due>) -> Option<Due>
    ensures { result ≡ spec.way_against came sent soon }
{
    match came {
        How::Eager => match sent {
            How::Eager => soon,
            How::Ask => other_argument(Argument::Way(sent), Argument::Way(came)),
        },
        How::Ask => match sent {
            How::Ask => soon,
            How::Eager => other_argument(Argument::Way(sent), Argument::Way(came)),
        },
    }
}

/// .. with another tag, context or length.
fn envelope_against(
    env: Envelope,
    tag: u16,
    ctx: u8,
    len: u32,
    how: How,
    soon: Option<Due>,
) -> Option<Due>
    ensures { result ≡ spec.envelope_against env tag ctx len how soon }
{
    if env.tag != tag {
        let sent = Argument::Tag(TagPick::One(tag));
        return other_argument(sent, Argument::Tag(TagPick::One(env.tag)));
    }
    if env.ctx != ctx {
        return other_argument(Argument::Context(ctx), Argument::Context(env.ctx));
    }
    if env.len != len {
        let sent = Argument::Length(u64::from(len));
        return other_argument(sent, Argument::Length(u64::from(env.len)));
    }
    way_against(env.how, how, soon)
}

/// A recall was answered with another word than its withdrawal had, or too soon.
fn word_against(done: bool, withdrawn: bool, soon: Option<Due>) -> Option<Due>
    ensures { result ≡ spec.word_against done withdrawn soon }
{
    match word_after(withdrawn, done) {
        Some(objection) => Some(Due::Against { objection }),
        None => soon,
    }
}

/// What stands between an arrival and another event.
fn arrival_against(env: Envelope, other: &Happened, soon: Option<Due>) -> Option<Due>
    ensures { (n : ℕ) → result ≡ spec.event_against (Arrive (record { n = n; env = env })) other.now
        soon }
{
    match other {
        Happened::Send {
            tag,
            ctx,
            len,
            how,
            ..
        } => envelope_against(env, *tag, *ctx, *len, *how, soon),
        _ => soon,
    }
}

/// .. between the answer to a recall and another event.
fn undone_against(done: bool, other: &Happened, soon: Option<Due>) -> Option<Due>
    ensures { (to n : ℕ) → result ≡ spec.event_against (Undone to n done) other.now soon }
{
    match other {
        Happened::Withdraw {
            done: withdrawn,
            ..
        } => word_against(done, *withdrawn, soon),
        _ => soon,
    }
}

/// The first of these bytes that is not the one which the command of a rank's line sends.
fn bytes_against(lines: &[Line], y: u8, line: u64, bytes: &[u8]) -> Option<Due>
    ensures { MatchOption (command_at (commands_of y lines.now) line) (result ≡ None)
        (λ c. IsFirstOtherByte (sent_bytes c) bytes.now result) }
{
    match command_of_line(lines, y, line) {
        Some(command) => first_other_byte(bytes, command),
        None => None,
    }
}

/// What stands between these bytes of an answer and an event of rank y.
fn shown_against(lines: &[Line], y: u8, bytes: &[u8], other: &Happened) -> Option<Due>
    ensures { (from tag : ℕ) →
        IsBodyAgainst lines.now y (answers.Got from tag bytes.now) other.now result }
{
    match other {
        Happened::Send { line, .. } => bytes_against(lines, y, *line, bytes),
        _ => None,
    }
}

/// .. between an answer and the event.
fn body_against(lines: &[Line], y: u8, answer: &Answer, other: &Happened) -> Option<Due>
    ensures { IsBodyAgainst lines.now y answer.now other.now result }
{
    match answer {
        Answer::Got { body, .. } => shown_against(lines, y, body.as_slice(), other),
        _ => None,
    }
}

/// What stands between two events, the second of rank y.
fn between(
    lines: &[Line],
    y: u8,
    what: &Happened,
    other: &Happened,
    soon: Option<Due>,
) -> Option<Due>
    ensures { IsBetween lines.now y what.now other.now soon result }
{
    match what {
        Happened::Arrive { a } => arrival_against(a.env, other, soon),
        Happened::Undone { done, .. } => undone_against(*done, other, soon),
        Happened::Ran { answer, .. } => body_against(lines, y, answer, other),
        _ => soon,
    }
}

/// .. an event, and the one of a place.
fn against_held(lines: &[Line], ranks: &[RankAccount], e: &Event, held: Spot) -> Option<Due>
    ensures { IsAgainstHeld lines.now (ends_of ranks.now) e.now held result }
{
    match event_at(ranks, held) {
        Some(other) => {
            let soon = Some(Due::Stamp {
                last: other.stamp,
                found: e.stamp,
            });
            between(lines, held.rank, &e.what, &other.what, soon)
        }
        None => None,
    }
}

/// .. the events of two places.
fn against_at(lines: &[Line], ranks: &[RankAccount], spot: Spot, held: Spot) -> Option<Due>
    ensures { IsAgainstAt lines.now (ends_of ranks.now) spot held result }
{
    match event_at(ranks, spot) {
        Some(e) => against_held(lines, ranks, e, held),
        None => None,
    }
}

/// .. if there is one that it is held against.
pub(crate) fn against_of(
    lines: &[Line],
    ranks: &[RankAccount],
    event: EventLine,
    other: Option<EventLine>,
) -> Option<Due>
    ensures { IsAgainst lines.now (ends_of ranks.now) event other result }
{
    match other {
        Some(held) => against_at(lines, ranks, event.spot, held.spot),
        None => None,
    }
}
