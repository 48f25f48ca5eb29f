//! The ranks that a word names.

ghost use Rattle.std.specs.Prelude.{◌≡◌, ◌==◌, false, map, replicate, IfOk};
ghost use Rattle.nm_chart.specs.PartWords.{chosen_by as chosen_by_lem, choose as choose_lem};
ghost use Rattle.nm_chart.specs.PartWords.{parts_of};

use nm_script::words::number_up_to;
use std::alloc::{AllocError, Global};

/// How many ranks a number of 8 bits can name.
pub const NAMES: usize = 256;

/// The greatest number of a rank.
const MAX_RANK: u64 = 63;

/// What stands between commas.
fn parts(alloc: Global, word: &[u8]) -> Result<Vec<&[u8]>, AllocError>
    ensures { IfOk result (λ parts. map (λ part. part.now) parts.items ≡ parts_of word.now) }
{
    word.split(|b| *b == b',').collect(alloc)
}

/// The ranks that these words name, by their numbers.
fn choose(words: &[&[u8]]) -> Option<[bool; NAMES]>
    ensures { result ≡ choose_lem (map (λ word. word.now) words.now) (replicate 256 false) }
{
    let mut chosen = [false; NAMES];
    for word in words {
        let rank = number_up_to(word, MAX_RANK)?;
        chosen[rank as usize] = true;
    }
    Some(chosen)
}

/// The ranks that a word names, with commas between.
pub fn chosen_by(alloc: Global, word: &[u8]) -> Result<Option<[bool; NAMES]>, AllocError>
    ensures { IfOk result (λ found. found ≡ chosen_by_lem word.now) }
{
    let words = parts(alloc, word)?;
    Ok(choose(&words))
}
