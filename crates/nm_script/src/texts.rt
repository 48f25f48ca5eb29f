//! Texts of lines, whatever their grammar: the first line says how many ranks there are, and each
//! other one is read behind those before it. Scripts and plans are such texts.
//!
//! # What a contract sees
//! The rules of such a text and its first fault (`TextRules`), and what reading it gives, by a reader
//! of one line (`TextReading`).
//! # What is proved
//! - `first_line` gives the number of ranks, or the fault of line 1.
//! - The lemmas, which are public: where a reader reads each line by the rules, it takes exactly the
//!   texts that keep them, and refuses any other with its first fault.

ghost use Rattle.std.specs.Prelude.{◌≡◌, ◌∷◌, [], map};
ghost use Rattle.nm_script.specs.Faults.{Gives, GivesAt, at_line};
ghost use Rattle.nm_script.specs.Reading.{ranks_at, ranks_of};

use crate::faults::{LineFault, TextFault};
use crate::words::{is_printable, number, words};
use nm_types::MAX_RANKS;
use std::alloc::Global;

/// The number of ranks, by the two words of the first line.
#[tactic(auto, unfolding(crate::specs::Reading::ranks_of))]
fn ranks_with(name: &[u8], count: &[u8]) -> Option<u8>
    ensures { result ≡ ranks_of (name.now ∷ count.now ∷ []) }
{
    if name != b"ranks".as_slice() {
        return None;
    }
    match number(count, u64::from(MAX_RANKS) + 1) {
        None | Some(0) => None,
        Some(ranks) => Some(ranks as u8),
    }
}

/// The number of ranks, by the words of the first line.
#[tactic(auto, unfolding(crate::specs::Reading::ranks_of))]
fn ranks_from(words: &[&[u8]]) -> Option<u8>
    ensures { result ≡ ranks_of (map (λ word. word.now) words.now) }
{
    match words {
        [name, count] => ranks_with(name, count),
        _ => None,
    }
}

/// The number of ranks that the first line says.
#[tactic(auto, unfolding(crate::specs::Reading::ranks_at))]
fn ranks_in<K: Copy>(alloc: Global, line: &[u8], odd: K, none: K) -> Result<u8, LineFault<K>>
    ensures { Gives result (ranks_at odd none line.now) }
{
    if !is_printable(line) {
        return Err(LineFault::Bad(odd));
    }
    let words = words(alloc, line)?;
    match ranks_from(&words) {
        Some(ranks) => Ok(ranks),
        None => Err(LineFault::Bad(none)),
    }
}

/// The number of ranks that the first line says, with its number at a fault: `odd` where a byte is not
/// printable, `none` where it says no number of ranks.
pub fn first_line<K: Copy>(alloc: Global, line: &[u8], odd: K, none: K) -> Result<u8, TextFault<K>>
    ensures { GivesAt (λ n. n) result (at_line 1 (ranks_at odd none line.now)) }
{
    ranks_in(alloc, line, odd, none).map_err(|fault| fault.at(1))
}
