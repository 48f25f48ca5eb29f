//! Where a given text stands among the reports that a script can have.

ghost use Rattle.std.specs.Prelude.{ℕ, ◌+◌, ◌≤◌, length, map};
ghost use Rattle.nm_listed.specs.Places.{IsFirstNew, IsPlace, ShareLines};
ghost use Rattle.nm_listed.specs.Texts.{bytes_of};

use crate::texts::Texts;

/// Where a text stands among others.
#[derive(Clone, Copy)]
pub enum Place {
    /// It is the one with this number, 1 for the first.
    At { number: usize },
    /// It is none of them, and this is its first line, 1 for the first, such that none of them
    /// begins with it and the lines before it. Where there is no such line in the text, it is the one
    /// behind its last.
    Not { line: usize },
}

/// How many lines, each with its line feed, both texts begin with.
fn shared_lines(text: &[u8], other: &[u8]) -> usize
    ensures share { ShareLines text.now other.now result }
    ensures most { (count : ℕ) → ShareLines text.now other.now count → count ≤ result }
    ensures bound { result ≤ length text.now }
{
    let mut lines = 0;
    for (at, byte) in text.iter().enumerate() {
        if at >= other.len() || *byte != other[at] {
            return lines;
        }
        if *byte == b'\n' {
            lines += 1;
        }
    }
    lines
}

/// How many lines, each with its line feed, the text and one of the others begin with, at most.
fn most_shared(texts: &[Vec<u8>], text: &[u8]) -> usize
    ensures first { IsFirstNew (map bytes_of texts.now) text.now (result + 1) }
    ensures bound { result ≤ length text.now }
{
    let mut most = 0;
    for other in texts {
        let lines = shared_lines(text, other.as_slice());
        if lines > most {
            most = lines;
        }
    }
    most
}

/// Where a text stands among others, of which each stands there once; where it is none of them, the
/// line at which it leaves them.
pub fn place_of(texts: &Texts, text: &[u8]) -> Place
    ensures { IsPlace texts.now text.now result }
{
    match texts.number(text) {
        Some(number) => Place::At { number },
        None => Place::Not {
            line: most_shared(texts.as_slice(), text) + 1,
        },
    }
}
