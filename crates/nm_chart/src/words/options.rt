//! What the options ask for.

ghost use Rattle.std.specs.Prelude.{◌≡◌, ◌≤◌, ◌&&◌, List, Option, IsTrue, map, nat_le, string_bytes};
ghost use Rattle.std.specs.Prelude.{IfOk, IfSome};
ghost use Rattle.nm_chart.specs.PartWords.{InRange, all_options, nothing, part_of, with_chosen};
ghost use Rattle.nm_chart.specs.PartWords.{with_from, with_of, with_option, with_to};

use crate::words::ranks::{NAMES, chosen_by};
use nm_diagram::{Part, Span};
use nm_script::words::number_up_to;
use std::alloc::{AllocError, Global};

/// The greatest stamp that a picture has a place for.
const MAX_STAMP: u64 = 1_000_000;

/// The most ranks of a trace.
const MAX_RANKS: u64 = 64;

/// The greatest number that a word may spell.
const MAX_NUMBER: u64 = 4_294_967_295;

/// The values of the options, as far as they were read.
#[derive(Clone, Copy)]
pub struct Options {
    /// The first stamp.
    pub from: Option<u64>,
    /// The last stamp.
    pub to: Option<u64>,
    /// Whether a rank is drawn, by its number.
    pub chosen: Option<[bool; NAMES]>,
    /// How many ranks there are.
    pub of: Option<u64>,
}

/// Whether stamps and a number of ranks are in range, and the first stamp is not behind the last.
fn are_in_range(first: u64, last: u64, lanes: u64) -> bool
    ensures value { result ≡ (nat_le first last && nat_le last 1000000 && nat_le lanes 64) }
    ensures within { IsTrue result → (first ≤ last) × (last ≤ 1000000) × (lanes ≤ 64) }
{
    first <= last && last <= MAX_STAMP && lanes <= MAX_RANKS
}

impl Options {
    /// No option was read yet.
    pub fn nothing() -> Options
        ensures { result ≡ nothing }
    {
        Options {
            from: None,
            to: None,
            chosen: None,
            of: None,
        }
    }

    /// With the first stamp, unless it was given before.
    fn with_from(self, value: &[u8]) -> Option<Options>
        ensures { result ≡ with_from value.now self }
    {
        match (self.from, number_up_to(value, MAX_NUMBER)) {
            (None, Some(from)) => Some(Options {
                from: Some(from),
                ..self
            }),
            _ => None,
        }
    }

    /// With the last stamp, unless it was given before.
    fn with_to(self, value: &[u8]) -> Option<Options>
        ensures { result ≡ with_to value.now self }
    {
        match (self.to, number_up_to(value, MAX_NUMBER)) {
            (None, Some(to)) => Some(Options {
                to: Some(to),
                ..self
            }),
            _ => None,
        }
    }

    /// With the number of ranks, unless it was given before.
    fn with_of(self, value: &[u8]) -> Option<Options>
        ensures { result ≡ with_of value.now self }
    {
        match (self.of, number_up_to(value, MAX_NUMBER)) {
            (None, Some(of)) => Some(Options {
                of: Some(of),
                ..self
            }),
            _ => None,
        }
    }

    /// With the chosen ranks, unless they were given before.
    fn with_chosen(self, chosen: Option<[bool; NAMES]>) -> Option<Options>
        ensures { result ≡ with_chosen chosen self }
    {
        match (self.chosen, chosen) {
            (None, Some(chosen)) => Some(Options {
                chosen: Some(chosen),
                ..self
            }),
            _ => None,
        }
    }

    /// With the option of this name and its value.
    fn with_option(
        self,
        alloc: Global,
        name: &[u8],
        value: &[u8],
    ) -> Result<Option<Options>, AllocError>
        ensures { IfOk result (λ found. found ≡ with_option name.now value.now self) }
    {
        if name == b"--from".as_slice() {
            Ok(self.with_from(value))
        } else if name == b"--to".as_slice() {
            Ok(self.with_to(value))
        } else if name == b"--of".as_slice() {
            Ok(self.with_of(value))
        } else if name == b"--ranks".as_slice() {
            let chosen = chosen_by(alloc, value)?;
            Ok(self.with_chosen(chosen))
        } else {
            Ok(None)
        }
    }

    /// The part that these options ask for, if their values are in range: the whole where there is
    /// none.
    pub fn part(self) -> Option<Part>
        ensures part { result ≡ part_of self }
        ensures within { IfSome result InRange }
    {
        let first = self.from.unwrap_or(0);
        let last = self.to.unwrap_or(MAX_STAMP);
        let lanes = self.of.unwrap_or(0);
        if !are_in_range(first, last, lanes) {
            return None;
        }
        let chosen = self.chosen.unwrap_or([true; NAMES]);
        Some(Part {
            span: Span {
                first,
                end: last + 1,
            },
            lanes: lanes as u16,
            chosen,
        })
    }
}

/// What the words give, beside what was read before them.
pub fn rest(
    alloc: Global,
    options: Options,
    words: &[String],
) -> Result<Option<Options>, AllocError>
    ensures { IfOk result (λ found. found ≡ all_options (map string_bytes words.now) options) }
{
    // Calls itself at most five times: there are four options, each given once.
    let Some((name, behind)) = words.split_first() else {
        return Ok(Some(options));
    };
    let Some((value, others)) = behind.split_first() else {
        return Ok(None);
    };
    let added = options.with_option(alloc, name.as_bytes(), value.as_bytes())?;
    match added {
        Some(next) => rest(alloc, next, others),
        None => Ok(None),
    }
}
