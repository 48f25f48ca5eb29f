//! What an answer tells of a message, written where C wants it.

ghost use Rattle.std.specs.Prelude.{◌≡◌, option_map};
ghost use Rattle.nm_process.specs.LastAnswer.{last_answer};
ghost use Rattle.nm_handle.specs.Standing.{process_of};
ghost use Rattle.nm_c.specs.Told.{body_said, bytes_said, envelope_said, length_said, overlay, status_said};

use crate::Status;
use nm_handle::Handle;
use nm_types::{Answer, Bytes};

// A length in 32 bits.
fn length_of(bytes: usize) -> u32
    ensures { result ≡ length_said bytes }
{
    if bytes <= 0xffff_ffff {
        bytes as u32
    } else {
        0xffff_ffff
    }
}

/// Copies as much as there is room for.
#[tactic(auto, using(crate::proofs::Overlay::fits, crate::proofs::Overlay::is_short))]
pub(crate) fn copy(bytes: &[u8], into: &mut [u8])
    ensures { into.new ≡ overlay bytes.now into.old }
{
    let count = bytes.len();
    let room = into.len();
    if count <= room {
        into[..count].copy_from_slice(bytes);
        return;
    }
    into.copy_from_slice(&bytes[..room]);
}

// The envelope of the message that an answer tells of.
fn envelope(answer: &Answer) -> Option<Status>
    ensures { result ≡ envelope_said answer.now }
{
    match answer {
        Answer::Got { from, tag, body } => Some(Status {
            from: *from as u32,
            tag: *tag as u32,
            length: length_of(body.len()),
        }),
        Answer::Cut { from, tag, len } => Some(Status {
            from: *from as u32,
            tag: *tag as u32,
            length: *len,
        }),
        Answer::Seen(seen) => Some(Status {
            from: seen.from as u32,
            tag: seen.tag as u32,
            length: seen.len,
        }),
        Answer::Started => None,
        Answer::Busy => None,
        Answer::Null => None,
        Answer::No => None,
        Answer::Nothing => None,
        Answer::Sent => None,
        Answer::Cancelled => None,
        Answer::Done => None,
        Answer::Late => None,
        Answer::Asked => None,
    }
}

/// The body of the message that an answer gives.
pub(crate) fn bytes_of(answer: &Answer) -> Option<&Bytes>
    ensures { option_map (λ b. b.now) result ≡ bytes_said answer.now }
{
    match answer {
        Answer::Got {
            from: _,
            tag: _,
            body,
        } => Some(body),
        Answer::Cut { .. } => None,
        Answer::Seen(_) => None,
        Answer::Started => None,
        Answer::Busy => None,
        Answer::Null => None,
        Answer::No => None,
        Answer::Nothing => None,
        Answer::Sent => None,
        Answer::Cancelled => None,
        Answer::Done => None,
        Answer::Late => None,
        Answer::Asked => None,
    }
}

// Writes the envelope of the message that an answer tells of, if it tells of one.
fn write_envelope(answer: Option<&Answer>, status: &mut Status)
    ensures { status.new ≡ status_said (option_map (λ a. a.now) answer.entry) status.old }
{
    let Some(answer) = answer else {
        return;
    };
    let Some(told) = envelope(answer) else {
        return;
    };
    *status = told;
}

// Writes the bytes that an answer gives, if it gives any.
fn write_bytes(answer: Option<&Answer>, body: &mut [u8])
    ensures { body.new ≡ body_said (option_map (λ a. a.now) answer.entry) body.old }
{
    let Some(answer) = answer else {
        return;
    };
    let Some(bytes) = bytes_of(answer) else {
        return;
    };
    copy(bytes.as_slice(), body);
}

/// Writes the envelope that the last answer tells.
pub(crate) fn show(handle: &Handle, status: &mut Status)
    ensures { status.new ≡ status_said (last_answer (process_of handle.now).rank.events) status.old }
{
    write_envelope(handle.answer(), status);
}

// Writes the bytes that the last answer gives.
fn give(handle: &Handle, body: &mut [u8])
    ensures { body.new ≡ body_said (last_answer (process_of handle.now).rank.events) body.old }
{
    write_bytes(handle.answer(), body);
}

/// Tells what the last answer has of a message.
pub(crate) fn tell(handle: &Handle, status: &mut Status, body: &mut [u8])
    ensures status { status.new ≡ status_said (last_answer (process_of handle.now).rank.events) status.old }
    ensures body { body.new ≡ body_said (last_answer (process_of handle.now).rank.events) body.old }
{
    show(handle, status);
    give(handle, body);
}
