//! Whether receives show the bodies that were sent.

ghost use Rattle.std.specs.Prelude.{◌≡◌, List, Some, IsSomeAnd, slice_get, take};
ghost use Rattle.nm_types.specs.Bodies.{bytes_of, generated_byte};
ghost use Rattle.nm_types.specs.Commands.{command_at, commands_of};
ghost use Rattle.nm_types.specs.declared.scripts.Body.TheVariants.{Gen};
ghost use Rattle.nm_history.specs.declared.events.Event as event;
ghost use Rattle.nm_history.specs.declared.events.Happened.TheVariants.{Ran};
ghost use Rattle.nm_history.specs.Delivery.{BodyAt};
ghost use Rattle.nm_history.specs.Quiescence.{history_of};
ghost use Rattle.nm_history.specs.Sends.{sends, sent_bytes, sent_of};
ghost use Rattle.nm_report.specs.Ends.{ends_of};
ghost use Rattle.nm_lookups.specs.Deciding.{Decides};
ghost use Rattle.nm_check_rank.specs.Tabled.{AreRankTables};
ghost use Rattle.nm_check.specs.Bytes.{IsFirstOtherByte};
ghost use Rattle.nm_check.specs.Marked.{AreLooked, Names};

use crate::looked::{Looked, sent_at};
use crate::marks::named_unless;
use nm_check_rank::paired::dues::Due;
use nm_check_rank::paired::tables::Tables;
use nm_history::{Event, Happened};
use nm_lookups::asked::commands::command_of_line;
use nm_types::{Answer, Body, Command, Line};

/// The byte at place k of a generated body.
fn generated(k: u32) -> u8
    ensures { result ≡ generated_byte k }
{
    ((31 * u64::from(k) + 7) % 251) as u8
}

/// .. if it has so many.
fn generated_at(len: u32, k: usize) -> Option<u8>
    ensures { result ≡ slice_get (bytes_of (Gen len)) k }
{
    if k < len as usize {
        Some(generated(k as u32))
    } else {
        None
    }
}

/// The byte at a place of a body, if it has so many.
fn byte_of(body: &Body, k: usize) -> Option<u8>
    ensures { result ≡ slice_get (bytes_of body.now) k }
{
    match body {
        Body::Hex(own) => own.as_slice().get(k).copied(),
        Body::Gen(len) => generated_at(*len, k),
    }
}

/// .. of what a command sends.
fn byte_sent(command: &Command, k: usize) -> Option<u8>
    ensures { result ≡ slice_get (sent_bytes command.now) k }
{
    match command {
        Command::Send { body, .. } => byte_of(body, k),
        _ => None,
    }
}

fn is_byte(sent: Option<u8>, byte: u8) -> bool
    ensures { Decides result (sent ≡ Some byte) }
{
    match sent {
        Some(sent) => sent == byte,
        None => false,
    }
}

/// The first byte that is not the one that a command sends, or is missing.
pub fn first_other_byte(bytes: &[u8], command: &Command) -> Option<Due>
    ensures { IsFirstOtherByte (sent_bytes command.now) bytes.now result }
{
    for (k, byte) in bytes.iter().enumerate() {
        let called = byte_sent(command, k);
        if !is_byte(called, *byte) {
            return Some(Due::Byte {
                at: k as u64,
                called,
                found: Some(*byte),
            });
        }
    }
    let at = bytes.len();
    match byte_sent(command, at) {
        Some(byte) => Some(Due::Byte {
            at: at as u64,
            called: Some(byte),
            found: None,
        }),
        None => None,
    }
}

/// Whether bytes are those that a command sends.
fn are_sent_by(bytes: &[u8], command: &Command) -> bool
    ensures { Decides result (bytes.now ≡ sent_bytes command.now) }
{
    first_other_byte(bytes, command).is_none()
}

/// Whether bytes are those that the command of a rank's line sends.
fn are_of_line(i: u8, lines: &[Line], line: u64, bytes: &[u8]) -> bool
    ensures { Decides result (IsSomeAnd (command_at (commands_of i lines.now) line)
        (λ c. bytes.now ≡ sent_bytes c)) }
{
    match command_of_line(lines, i, line) {
        Some(command) => are_sent_by(bytes, command),
        None => false,
    }
}

/// Whether an event is a send of these bytes.
fn is_send_with(i: u8, lines: &[Line], e: &Event, bytes: &[u8]) -> bool
    ensures { Decides result (IsSomeAnd (sent_of e.now.stamp e.now.what)
        (λ s. IsSomeAnd (command_at (commands_of i lines.now) s.line)
        (λ c. bytes.now ≡ sent_bytes c))) }
{
    match &e.what {
        Happened::Send { line, .. } => are_of_line(i, lines, *line, bytes),
        _ => false,
    }
}

/// Whether these are the bytes of message n of rank i to rank j.
fn were_sent(i: u8, j: u8, n: u64, bytes: &[u8], of: &Looked) -> bool
    requires { AreLooked of.now.lines.now (ends_of of.now.ranks.now) of.now.tables.now }
    ensures { Decides result
        (IsSomeAnd (slice_get (sends (history_of (ends_of of.now.ranks.now) i) j) n)
        (λ s. IsSomeAnd (command_at (commands_of i of.now.lines.now) s.line)
        (λ c. bytes.now ≡ sent_bytes c))) }
{
    match sent_at(of, i, j, n) {
        Some(e) => is_send_with(i, of.lines, e, bytes),
        None => false,
    }
}

/// The sender whose message the answer of a line at rank j does not show as it was sent.
fn sender_of_answer(
    j: u8,
    k: usize,
    line: u64,
    answer: &Answer,
    own: &Tables,
    of: &Looked,
) -> Option<u8>
    requires { AreLooked of.now.lines.now (ends_of of.now.ranks.now) of.now.tables.now }
    ensures { (h : List event.Event) (e : event.Event) →
        AreRankTables j of.now.lines.now h own.now →
        slice_get h k ≡ Some e → e.what ≡ Ran line answer.now →
        Names (λ i. BodyAt i (commands_of i of.now.lines.now)
        (sends (history_of (ends_of of.now.ranks.now) i) j)
        (commands_of j of.now.lines.now) (take k h) (Ran line answer.now)) result }
{
    let Answer::Got { body, .. } = answer else {
        return None;
    };
    match own.pair_asked(j, of.lines, k, line) {
        Some(pair) => {
            let from = pair.arrival.env.from;
            let bytes = body.as_slice();
            named_unless(were_sent(from, j, pair.arrival.n, bytes, of), from)
        }
        None => None,
    }
}

/// The sender whose message the event at a place of rank j does not show as it was sent.
pub(crate) fn sender_not_shown(j: u8, k: usize, e: &Event, own: &Tables, of: &Looked) -> Option<u8>
    requires { AreLooked of.now.lines.now (ends_of of.now.ranks.now) of.now.tables.now }
    ensures { (h : List event.Event) → AreRankTables j of.now.lines.now h own.now →
        slice_get h k ≡ Some e.now →
        Names (λ i. BodyAt i (commands_of i of.now.lines.now)
        (sends (history_of (ends_of of.now.ranks.now) i) j)
        (commands_of j of.now.lines.now) (take k h) e.now.what) result }
{
    match &e.what {
        Happened::Ran { line, answer } => sender_of_answer(j, k, *line, answer, own, of),
        _ => None,
    }
}
