//! The reports of the ends of a search.

ghost use Rattle.std.specs.Prelude.{◌≡◌, IfOk, map};
ghost use Rattle.nm_explored.specs.Ends.{TellsAll, TellsOnly, told_at_end};
ghost use Rattle.nm_listed.specs.Finding.{IsFound, text_of_told};

use crate::lawful::ends_are_runs;
use crate::records::end_text;
use crate::texts::Texts;
use nm_explored::End;
use nm_report::laws::reports_say_what_was_told;
use nm_types::{Memory, Script, Shape};
use std::alloc::Global;

/// What the ends of a search report.
#[derive(Drop)]
pub enum Found {
    /// The reports of the ends, each once, in the order of a dictionary.
    All(Texts),
    /// They have more than 134,217,728 bytes.
    TooLong,
}

/// The most bytes of all reports together.
pub const MAX_REPORTS: usize = 134217728;

/// The reports of these ends.
fn end_texts(alloc: Global, shape: Shape, ends: Vec<End>) -> Result<Texts, Memory>
    ensures { IfOk result (λ texts.
        texts ≡ map (λ end. text_of_told shape (told_at_end end)) ends.items) }
{
    let mut texts = Texts::new(alloc);
    for end in ends {
        texts.push(end_text(alloc, shape, end)?)?;
    }
    Ok(texts)
}

/// The reports of ends that tell all that the runs of the script can tell, and tell it at rest, each once:
/// all reports that the script can have.
pub fn reports(
    alloc: Global,
    script: &Script,
    shape: Shape,
    ends: Vec<End>,
) -> Result<Found, Memory>
    requires equal { shape.ranks ≡ script.now.ranks }
    requires tells { TellsAll shape script.now.lines ends.items }
    requires only { TellsOnly shape script.now.lines ends.items }
    ensures found { IfOk result (IsFound shape script.now.lines) }
{
    reports_say_what_was_told();
    ends_are_runs();
    let mut texts = end_texts(alloc, shape, ends)?;
    texts.put_in_order()?;
    if texts.is_within(MAX_REPORTS) {
        Ok(Found::All(texts))
    } else {
        Ok(Found::TooLong)
    }
}
