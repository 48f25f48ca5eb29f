//! One argument behind the first word.

ghost use Rattle.std.specs.Prelude.{◌≡◌, ℕ, ◌+◌, ◌≤◌, ◌<◌, ◌++◌, List, codes, length, map, string_bytes, IfSome};
ghost use Rattle.std.specs.Prelude.{IsSomeAnd, MatchOption};
ghost use Rattle.nm_script.specs.Decimal.{number_of};
ghost use Rattle.nm_script.specs.ArgumentWords.{IsArgument, IsOption};
ghost use Rattle.nm_script.specs.declared.command_line.arguments.Argument.{Argument};

use crate::words::number_up_to;
use nm_types::{MAX_CELLS, MAX_EAGER};

/// An option with its value, or a number that stands by itself.
#[derive(Clone, Copy)]
pub enum Argument {
    Cells(u8),
    Eager(u16),
    Number(u16),
}

/// The number of at most `most` that a word spells.
fn number(word: &[u8], most: u16) -> Option<u16>
    ensures { result ≡ number_of (most + 1) word.now }
{
    number_up_to(word, u64::from(most)).map(|value| value as u16)
}

/// What stands behind the front of a word, where it has this front.
fn behind<'a>(word: &'a [u8], front: &[u8]) -> Option<&'a [u8]>
    ensures { MatchOption result ((rest : List ℕ) → word.now ≡ front.now ++ rest → ⊥)
        (λ rest. word.now ≡ front.now ++ rest.now) }
{
    word.strip_prefix(front)
}

/// The value of an option that the words begin with, and the words behind it. The option stands
/// as its name and its value, or joined with it.
fn option<'a>(
    words: &'a [String],
    name: &[u8],
    joined: &[u8],
    most: u16,
) -> Option<(u16, &'a [String])>
    requires { joined.now ≡ name.now ++ codes "=" }
    ensures found { IfSome result (λ x. (x.0 ≤ most)
        × IsOption name.now x.0 (map string_bytes words.now) (map string_bytes x.1.now)) }
    ensures finds { (value : ℕ) (others : List (List ℕ)) → value ≤ most →
        IsOption name.now value (map string_bytes words.now) others →
        IsSomeAnd result (λ x. (x.0 ≡ value) × (map string_bytes x.1.now ≡ others)) }
    ensures shorter { IfSome result (λ x. length x.1.now < length words.now) }
{
    let (word, others) = words.split_first()?;
    if word.as_bytes() == name {
        let (value, others) = others.split_first()?;
        return Some((number(value.as_bytes(), most)?, others));
    }
    let value = behind(word.as_bytes(), joined)?;
    Some((number(value, most)?, others))
}

/// The argument that the words begin with, and the words behind it.
pub fn next_argument(words: &[String]) -> Option<(Argument, &[String])>
    ensures found { IfSome result (λ x. IsArgument x.0 (map string_bytes words.now)
        (map string_bytes x.1.now)) }
    ensures finds { (argument : Argument) (others : List (List ℕ)) →
        IsArgument argument (map string_bytes words.now) others →
        IsSomeAnd result (λ x. (x.0 ≡ argument) × (map string_bytes x.1.now ≡ others)) }
    ensures shorter { IfSome result (λ x. length x.1.now < length words.now) }
{
    if let Some((cells, others)) = option(words, b"--cells", b"--cells=", u16::from(MAX_CELLS)) {
        if cells == 0 {
            return None;
        }
        return Some((Argument::Cells(cells as u8), others));
    }
    if let Some((eager, others)) = option(words, b"--eager", b"--eager=", MAX_EAGER) {
        return Some((Argument::Eager(eager), others));
    }
    let (word, others) = words.split_first()?;
    Some((Argument::Number(number(word.as_bytes(), u16::MAX)?), others))
}
