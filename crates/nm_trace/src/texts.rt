//! The text that is left, and what its next line tells.

ghost use Rattle.std.specs.Prelude.{◌≡◌, ◌≤◌, ◌<◌, ◌+◌, [], ◌∷◌, map, IfOk, IfSome, length};
ghost use Rattle.std.specs.Option.{option_map};
ghost use Rattle.nm_script.specs.Lines.{words_of};
ghost use Rattle.nm_trace.specs.declared.faults.TraceFault.TheVariants.{Bad};
ghost use Rattle.nm_trace.specs.Answers.{given};
ghost use Rattle.nm_trace.specs.Events.{pair_of};
ghost use Rattle.nm_trace.specs.Lines.{first_line};
ghost use Rattle.nm_trace.specs.Machine.{cells_of, cells_with, end_of, next_note, waits_of};
ghost use Rattle.nm_trace.specs.Outcome.{line_as};

use crate::answers::given;
use crate::events::{note_from, pair_from};
use crate::faults::TraceFault;
use crate::lines::next_line;
use crate::notes::Note;
use crate::numbers::{huge, large, small};
use nm_history::Event;
use nm_report::PairCount;
use nm_script::words::words;
use nm_types::Account;
use std::alloc::{AllocError, Global};

/// What is left of the text, and the number of its first line.
#[derive(Clone, Copy)]
pub struct Text<'a> {
    pub rest: &'a [u8],
    pub number: u32,
    pub ghost fits: { number + length rest.now ≤ 67108865 },
}

impl<'a> Text<'a> {
    /// The line that stops the text.
    pub fn fault(self) -> TraceFault
        ensures { result ≡ Bad self.entry.number }
    {
        TraceFault::Bad { line: self.number }
    }

    /// The first line, and the text behind it.
    fn line(self) -> Option<(&'a [u8], Text<'a>)>
        ensures first { option_map (λ cut. (cut.0.now, cut.1.rest.now)) result
            ≡ first_line self.entry.rest.now }
        ensures number { IfSome result (λ cut. cut.1.number ≡ self.entry.number + 1) }
        ensures shorter { IfSome result (λ cut.
            length cut.1.rest.now < length self.entry.rest.now) }
    {
        let (line, rest) = next_line(self.rest)?;
        let number = self.number + 1;
        Some((line, Text { rest, number }))
    }
}

/// The event of a line that can stand behind one of this rank.
#[tactic(auto, unfolding(crate::specs::Machine::next_note))]
fn note_behind(alloc: Global, ranks: u8, last: u8, words: &[&[u8]]) -> Option<Note>
    ensures { result ≡ next_note ranks last (map (λ word. word.now) words.now) }
{
    let note = note_from(alloc, words)?;
    if note.rank < ranks && last <= note.rank {
        Some(note)
    } else {
        None
    }
}

/// The event of the next line, if it can stand behind one of this rank.
pub fn next_note<'a>(
    alloc: Global,
    ranks: u8,
    last: u8,
    text: Text<'a>,
) -> Result<Option<(Note, Text<'a>)>, AllocError>
    ensures read { IfOk result (λ next. option_map (λ x. (x.0, x.1.rest.now)) next
        ≡ line_as (λ line. next_note ranks last (words_of line)) text.entry.rest.now) }
    ensures number { IfOk result (λ next. IfSome next (λ x. x.1.number ≡ text.entry.number + 1)) }
    ensures shorter { IfOk result (λ next.
        IfSome next (λ x. length x.1.rest.now < length text.entry.rest.now)) }
{
    let Some((line, after)) = text.line() else {
        return Ok(None);
    };
    let words = words(alloc, line)?;
    match note_behind(alloc, ranks, last, &words) {
        Some(note) => Ok(Some((note, after))),
        None => Ok(None),
    }
}

/// The count of packets of the next line, if it is one.
pub fn next_pair<'a>(
    alloc: Global,
    text: Text<'a>,
) -> Result<Option<(PairCount, Text<'a>)>, AllocError>
    ensures read { IfOk result (λ next. option_map (λ x. (x.0, x.1.rest.now)) next
        ≡ line_as (λ line. pair_of (words_of line)) text.entry.rest.now) }
    ensures number { IfOk result (λ next. IfSome next (λ x. x.1.number ≡ text.entry.number + 1)) }
    ensures shorter { IfOk result (λ next.
        IfSome next (λ x. length x.1.rest.now < length text.entry.rest.now)) }
{
    let Some((line, after)) = text.line() else {
        return Ok(None);
    };
    let words = words(alloc, line)?;
    match pair_from(&words) {
        Some(pair) => Ok(Some((pair, after))),
        None => Ok(None),
    }
}

/// The event of a note whose answer the next line gives, if it does.
pub fn next_given<'a>(
    alloc: Global,
    note: Note,
    text: Text<'a>,
) -> Result<Option<(Event, Text<'a>)>, AllocError>
    ensures read { IfOk result (λ next. option_map (λ x. (x.0, x.1.rest.now)) next
        ≡ line_as (given note) text.entry.rest.now) }
    ensures number { IfOk result (λ next. IfSome next (λ x. x.1.number ≡ text.entry.number + 1)) }
{
    let Some((line, after)) = text.line() else {
        return Ok(None);
    };
    match given(alloc, note, line)? {
        Some(event) => Ok(Some((event, after))),
        None => Ok(None),
    }
}

/// The line at which a rank waits, by the three words of a line.
#[tactic(auto, unfolding(crate::specs::Machine::waits_of))]
fn waits_with(whose: &[u8], line: &[u8], name: &[u8], rank: u8) -> Option<u64>
    ensures { result ≡ waits_of rank (whose.now ∷ line.now ∷ name.now ∷ []) }
{
    if small(whose)? != rank || name != b"waits".as_slice() {
        return None;
    }
    huge(line)
}

/// The line at which a rank waits, by the words of a line.
#[tactic(auto, unfolding(crate::specs::Machine::waits_of))]
fn waits_from(words: &[&[u8]], rank: u8) -> Option<u64>
    ensures { result ≡ waits_of rank (map (λ word. word.now) words.now) }
{
    match words {
        [whose, line, name] => waits_with(whose, line, name, rank),
        _ => None,
    }
}

/// The line at which a rank waits, if the next line of the text says so.
pub fn next_waits<'a>(
    alloc: Global,
    rank: u8,
    text: Text<'a>,
) -> Result<Option<(u64, Text<'a>)>, AllocError>
    ensures read { IfOk result (λ next. option_map (λ x. (x.0, x.1.rest.now)) next
        ≡ line_as (λ line. waits_of rank (words_of line)) text.entry.rest.now) }
    ensures number { IfOk result (λ next. IfSome next (λ x. x.1.number ≡ text.entry.number + 1)) }
{
    let Some((line, after)) = text.line() else {
        return Ok(None);
    };
    let words = words(alloc, line)?;
    match waits_from(&words, rank) {
        Some(at) => Ok(Some((at, after))),
        None => Ok(None),
    }
}

/// The account of the cells, by its four words.
#[tactic(auto, unfolding(crate::specs::Machine::cells_with))]
fn cells_with(name: &[u8], total: &[u8], word: &[u8], home: &[u8]) -> Option<Account>
    ensures { result ≡ cells_with name.now total.now word.now home.now }
{
    if name != b"cells".as_slice() {
        return None;
    }
    if word != b"home".as_slice() {
        return None;
    }
    let total = large(total)?;
    let home = large(home)?;
    Some(Account { total, home })
}

/// The account of the cells, by the words of a line.
#[tactic(auto, unfolding(crate::specs::Machine::cells_of))]
fn cells_from(words: &[&[u8]]) -> Option<Account>
    ensures { result ≡ cells_of (map (λ word. word.now) words.now) }
{
    match words {
        [name, total, word, home] => cells_with(name, total, word, home),
        _ => None,
    }
}

/// The account of the cells of the next line, if it is one.
pub fn next_cells<'a>(
    alloc: Global,
    text: Text<'a>,
) -> Result<Option<(Account, Text<'a>)>, AllocError>
    ensures read { IfOk result (λ next. option_map (λ x. (x.0, x.1.rest.now)) next
        ≡ line_as (λ line. cells_of (words_of line)) text.entry.rest.now) }
    ensures number { IfOk result (λ next. IfSome next (λ x. x.1.number ≡ text.entry.number + 1)) }
{
    let Some((line, after)) = text.line() else {
        return Ok(None);
    };
    let words = words(alloc, line)?;
    match cells_from(&words) {
        Some(cells) => Ok(Some((cells, after))),
        None => Ok(None),
    }
}

/// Whether every rank is at its end, by the last line.
#[tactic(auto, unfolding(crate::specs::Machine::end_of))]
fn end_from(line: &[u8]) -> Option<bool>
    ensures { result ≡ end_of line.now }
{
    if line == b"done".as_slice() {
        Some(true)
    } else if line == b"stuck".as_slice() {
        Some(false)
    } else {
        None
    }
}

/// Whether every rank is at its end, by the next line.
pub fn next_end<'a>(text: Text<'a>) -> Option<(bool, Text<'a>)>
    ensures read { option_map (λ x. (x.0, x.1.rest.now)) result
        ≡ line_as end_of text.entry.rest.now }
    ensures number { IfSome result (λ x. x.1.number ≡ text.entry.number + 1) }
{
    let (line, after) = text.line()?;
    let done = end_from(line)?;
    Some((done, after))
}
