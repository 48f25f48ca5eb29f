//! The words of the command line of `chart`.
//!
//! Options say which part of a trace is drawn, each with its value as the next word, each at most
//! once, in any order: `--from STAMP` and `--to STAMP` for the first and the last stamp, of which the
//! last is at most 1,000,000 and the first not behind it; `--ranks A,B,..` for the ranks that are
//! drawn, each at most 63; `--of N`, at most 64, for how many ranks have a line though the trace says
//! nothing of them.
//!
//! # What a contract sees
//! The words as lists of bytes, and the part that they ask for (`nm_diagram`).
//! # What is proved
//! `read` gives the part that the words ask for (`asked_of` of `specs/Words.antt`), and none exactly
//! where they are not taken. Unless memory runs out: it lists the ranks.

mod options;
mod ranks;

ghost use Rattle.std.specs.Prelude.{◌≡◌, map, string_bytes, IfOk, IfSome};
ghost use Rattle.nm_chart.specs.PartWords.{InRange, asked_of};

use nm_diagram::Part;
use nm_types::Memory;
use options::{Options, rest};
use std::alloc::Global;

/// The part of a trace that the words ask for, or `None` where they are not taken.
///
/// The words are those of the command line without the program's name.
pub fn read(alloc: Global, words: &[String]) -> Result<Option<Part>, Memory>
    ensures asked { IfOk result (λ found. found ≡ asked_of (map string_bytes words.now)) }
    ensures within { IfOk result (λ found. IfSome found InRange) }
{
    let found = rest(alloc, Options::nothing(), words)?;
    match found {
        Some(options) => Ok(options.part()),
        None => Ok(None),
    }
}
