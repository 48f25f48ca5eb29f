//! A line of the answers.

ghost use Rattle.std.specs.Prelude.{◌≡◌, IfOk, codes, map, option_map};
ghost use Rattle.std.specs.Str.{bytes_eq};
ghost use Rattle.nm_trace.specs.Answers.{bytes_of};
ghost use Rattle.nm_lawful_top.specs.Items.{answer_of, cut_of, digits_in, filled_of, got_of, item_in, item_of};
ghost use Rattle.nm_lawful_top.specs.Items.{is_wait_lem, lone_of, place_of, seen_of, showing_of, shown_of, told_of};

use crate::words::Cuts;
use nm_script::words::{are_lower_digits, number_up_to, words};
use nm_types::{Answer, Bytes, Seen};
use std::alloc::{AllocError, Global};

/// What a line tells of a command.
#[derive(Drop)]
pub enum Told {
    /// Its rank waits there in the end.
    Waits,
    /// It answered so; `Started` stands for words that are no answer.
    Answers(Answer),
}

/// A line of the answers: a rank, the line of its command in the script, and what is told of that.
#[derive(Drop)]
pub struct Item {
    pub rank: u8,
    pub line: u32,
    pub told: Told,
}

/// An answer of one word.
#[tactic(auto, unfolding(crate::specs::Items::lone_of))]
fn lone(word: &[u8]) -> Answer
    ensures { result ≡ lone_of word.now }
{
    if word == b"busy".as_slice() {
        Answer::Busy
    } else if word == b"null".as_slice() {
        Answer::Null
    } else if word == b"no".as_slice() {
        Answer::No
    } else if word == b"none".as_slice() {
        Answer::Nothing
    } else if word == b"sent".as_slice() {
        Answer::Sent
    } else if word == b"cancelled".as_slice() {
        Answer::Cancelled
    } else if word == b"done".as_slice() {
        Answer::Done
    } else if word == b"late".as_slice() {
        Answer::Late
    } else if word == b"asked".as_slice() {
        Answer::Asked
    } else {
        Answer::Started
    }
}

/// The numbers of a message: its source, its tag and its length.
#[tactic(auto, unfolding(crate::specs::Items::seen_of))]
fn seen(from: &[u8], tag: &[u8], len: &[u8]) -> Option<Seen>
    ensures { result ≡ seen_of from.now tag.now len.now }
{
    let from = number_up_to(from, 255)?;
    let tag = number_up_to(tag, 65535)?;
    let len = number_up_to(len, 4294967295)?;
    Some(Seen {
        from: from as u8,
        tag: tag as u16,
        len: len as u32,
    })
}

/// A message that was cut, with its length as it is taken.
#[tactic(auto, unfolding(crate::specs::Items::cut_of))]
fn cut(cuts: Cuts, seen: Seen) -> Option<Answer>
    ensures { result ≡ cut_of cuts seen }
{
    let Seen { from, tag, len } = seen;
    match cuts {
        Cuts::Any => Some(Answer::Cut { from, tag, len: 0 }),
        Cuts::Compared => {
            if len == 0 {
                None
            } else {
                Some(Answer::Cut { from, tag, len })
            }
        }
    }
}

/// An answer of a name and these numbers.
#[tactic(auto, unfolding(crate::specs::Items::shown_of))]
fn shown(cuts: Cuts, name: &[u8], seen: Seen) -> Option<Answer>
    ensures { result ≡ shown_of cuts name.now seen }
{
    if name == b"cut".as_slice() {
        cut(cuts, seen)
    } else if name == b"seen".as_slice() {
        Some(Answer::Seen(seen))
    } else {
        None
    }
}

/// An answer of four words.
#[tactic(auto, unfolding(crate::specs::Items::showing_of))]
fn showing(cuts: Cuts, name: &[u8], from: &[u8], tag: &[u8], len: &[u8]) -> Option<Answer>
    ensures { result ≡ showing_of cuts name.now from.now tag.now len.now }
{
    let numbers = seen(from, tag, len)?;
    shown(cuts, name, numbers)
}

/// The bytes of this number that digits spell.
#[tactic(auto, unfolding(nm_trace::specs::Answers::bytes_of))]
fn bytes(alloc: Global, digits: &[u8], len: u64) -> Result<Option<Bytes>, AllocError>
    ensures { IfOk result (λ bytes. bytes ≡ bytes_of digits.now len) }
{
    let is_long = digits.len() % 2 == 0 && digits.len() as u64 / 2 == len;
    if !is_long || !are_lower_digits(digits) {
        return Ok(None);
    }
    match hex::decode(alloc, digits) {
        Ok(bytes) => Ok(Some(Bytes::from_vec(bytes))),
        Err(hex::FromHexError::OutOfMemory) => Err(AllocError),
        Err(_) => Ok(None),
    }
}

/// The digits behind an `x`.
#[tactic(auto, unfolding(crate::specs::Items::digits_in))]
fn behind_x(text: &[u8]) -> Option<&[u8]>
    ensures { option_map (λ digits. digits.now) result ≡ digits_in text.now }
{
    match text {
        [x, digits @ ..] => { if *x == b'x' { Some(digits) } else { None } }
        _ => None,
    }
}

/// An answer with bytes, of these numbers.
#[tactic(auto, unfolding(crate::specs::Items::filled_of))]
fn filled(alloc: Global, seen: Seen, text: &[u8]) -> Result<Option<Answer>, AllocError>
    ensures { IfOk result (λ answer. answer ≡ filled_of seen text.now) }
{
    let Seen { from, tag, len } = seen;
    let Some(digits) = behind_x(text) else {
        return Ok(None);
    };
    match bytes(alloc, digits, u64::from(len))? {
        Some(body) => Ok(Some(Answer::Got { from, tag, body })),
        None => Ok(None),
    }
}

/// An answer of five words, which has bytes.
#[tactic(auto, unfolding(crate::specs::Items::got_of))]
fn got(
    alloc: Global,
    name: &[u8],
    from: &[u8],
    tag: &[u8],
    len: &[u8],
    text: &[u8],
) -> Result<Option<Answer>, AllocError>
    ensures { IfOk result (λ answer. answer ≡ got_of name.now from.now tag.now len.now text.now) }
{
    if name != b"got".as_slice() {
        return Ok(None);
    }
    match seen(from, tag, len) {
        Some(numbers) => filled(alloc, numbers, text),
        None => Ok(None),
    }
}

/// The answer of these words, if it is one.
#[tactic(auto, unfolding(crate::specs::Items::answer_of))]
fn answer(alloc: Global, cuts: Cuts, words: &[&[u8]]) -> Result<Option<Answer>, AllocError>
    ensures { IfOk result (λ answer. answer ≡ answer_of cuts (map (λ word. word.now) words.now)) }
{
    match words {
        [word] => Ok(Some(lone(word))),
        [name, from, tag, len] => Ok(showing(cuts, name, from, tag, len)),
        [name, from, tag, len, text] => got(alloc, name, from, tag, len, text),
        _ => Ok(None),
    }
}

/// Whether a word says that a rank waits.
fn says_wait(word: &[u8]) -> bool
    ensures { result ≡ bytes_eq word.now (codes "waits") }
{
    word == b"waits".as_slice()
}

/// .. whether words do.
#[tactic(auto, unfolding(crate::specs::Items::is_wait_lem))]
fn is_wait(words: &[&[u8]]) -> bool
    ensures { result ≡ is_wait_lem (map (λ word. word.now) words.now) }
{
    match words {
        [word] => says_wait(word),
        _ => false,
    }
}

/// What these words tell of a command.
#[tactic(auto, unfolding(crate::specs::Items::told_of))]
fn telling(alloc: Global, cuts: Cuts, words: &[&[u8]]) -> Result<Told, AllocError>
    ensures { IfOk result (λ told. told ≡ told_of cuts (map (λ word. word.now) words.now)) }
{
    if is_wait(words) {
        return Ok(Told::Waits);
    }
    match answer(alloc, cuts, words)? {
        Some(answer) => Ok(Told::Answers(answer)),
        None => Ok(Told::Answers(Answer::Started)),
    }
}

/// A rank and a line.
#[tactic(auto, unfolding(crate::specs::Items::place_of))]
fn place(rank: &[u8], line: &[u8]) -> Option<(u8, u32)>
    ensures { result ≡ place_of rank.now line.now }
{
    let rank = number_up_to(rank, 255)?;
    let line = number_up_to(line, 4294967295)?;
    Some((rank as u8, line as u32))
}

/// What a line of these words tells.
#[tactic(auto, unfolding(crate::specs::Items::item_in))]
fn item_from(alloc: Global, cuts: Cuts, words: &[&[u8]]) -> Result<Option<Item>, AllocError>
    ensures { IfOk result (λ item. item ≡ item_in cuts (map (λ word. word.now) words.now)) }
{
    match words {
        [rank, line, rest @ ..] => {
            let Some((rank, line)) = place(rank, line) else {
                return Ok(None);
            };
            let told = telling(alloc, cuts, rest)?;
            Ok(Some(Item { rank, line, told }))
        }
        _ => Ok(None),
    }
}

/// What a line tells, if it begins with a rank and a line.
pub fn read_item(alloc: Global, cuts: Cuts, line: &[u8]) -> Result<Option<Item>, AllocError>
    ensures { IfOk result (λ item. item ≡ item_of cuts line.now) }
{
    let words = words(alloc, line)?;
    item_from(alloc, cuts, words.as_slice())
}
