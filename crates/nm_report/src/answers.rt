//! Answers as text.

ghost use Rattle.std.specs.Prelude.{◌≡◌, [], ◌∷◌, ◌++◌, OnOk, decimal, string_bytes};
ghost use Rattle.std.specs.List.{join_with_byte};
ghost use Rattle.nm_report.specs.Answers.{answer_words, body_word};

use crate::digits::push_digits;
use nm_types::Answer;
use std::alloc::AllocError;

/// Writes a name, the source and the tag of a message, and a number of bytes.
fn push_shown(out: &mut String, name: &str, from: u8, tag: u16, len: u64) -> Result<(), AllocError>
    ensures ok { OnOk result (string_bytes out.new ≡ string_bytes out.old
        ++ join_with_byte 32 (name.now ∷ decimal from ∷ decimal tag ∷ decimal len ∷ [])) }
{
    write!(out, "{name} {from} {tag} {len}")
}

/// Writes an answer, but for the bytes of a message.
pub fn push_answer(out: &mut String, answer: &Answer) -> Result<(), AllocError>
    ensures ok { OnOk result (string_bytes out.new ≡ string_bytes out.old
        ++ join_with_byte 32 (answer_words answer.now)) }
{
    match answer {
        Answer::Started => out.push_str("started"),
        Answer::Busy => out.push_str("busy"),
        Answer::Null => out.push_str("null"),
        Answer::No => out.push_str("no"),
        Answer::Nothing => out.push_str("none"),
        Answer::Sent => out.push_str("sent"),
        Answer::Got { from, tag, body } => push_shown(out, "got", *from, *tag, body.len() as u64),
        Answer::Cut { from, tag, len } => push_shown(out, "cut", *from, *tag, u64::from(*len)),
        Answer::Cancelled => out.push_str("cancelled"),
        Answer::Seen(seen) => push_shown(out, "seen", seen.from, seen.tag, u64::from(seen.len)),
        Answer::Done => out.push_str("done"),
        Answer::Late => out.push_str("late"),
        Answer::Asked => out.push_str("asked"),
    }
}

/// Writes the bytes of a message, where the answer has them.
pub(crate) fn push_body(out: &mut String, answer: &Answer) -> Result<(), AllocError>
    ensures ok { OnOk result (string_bytes out.new ≡ string_bytes out.old ++ body_word answer.now) }
{
    if let Answer::Got { body, .. } = answer {
        out.push_str(" x")?;
        push_digits(out, body.as_slice())?;
    }
    Ok(())
}
