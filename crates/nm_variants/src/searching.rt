//! The reports of one variant.

ghost use Rattle.std.specs.Prelude.{◌≡◌, ℕ, IfOk};
ghost use Rattle.nm_explored.specs.Ends.{TellsAll, TellsOnly};
ghost use Rattle.nm_variants.specs.Reports.{IsSearched};
ghost use Rattle.nm_variants.specs.Variants.{variant_of as variant_of_lem};

use crate::variants::variant_of;
use nm_explored::{End, Explored, explore};
use nm_listed::{Found, Texts, reports};
use nm_types::{Lines, Memory, Script, Shape};
use nm_why::script_of;
use std::alloc::Global;

/// What was found of one script.
#[derive(Drop)]
pub(crate) enum Searched {
    /// Its reports.
    All(Texts),
    /// It has more states than the limit, or its text is too long.
    TooMany,
    /// They have more than 134,217,728 bytes.
    TooLong,
}

/// The reports of a script whose search found these ends.
fn of_ends(alloc: Global, script: &Script, shape: Shape, ends: Vec<End>) -> Result<Searched, Memory>
    requires equal { shape.ranks ≡ script.now.ranks }
    requires tells { TellsAll shape script.now.lines ends.items }
    requires only { TellsOnly shape script.now.lines ends.items }
    ensures { (bound : ℕ) → IfOk result (IsSearched shape script.now.lines bound) }
{
    match reports(alloc, script, shape, ends)? {
        Found::All(texts) => Ok(Searched::All(texts)),
        Found::TooLong => Ok(Searched::TooLong),
    }
}

/// The reports of a script.
fn search(alloc: Global, script: &Script, shape: Shape, bound: u32) -> Result<Searched, Memory>
    requires { shape.ranks ≡ script.now.ranks }
    ensures { IfOk result (IsSearched shape script.now.lines bound) }
{
    match explore(alloc, script, shape, bound)? {
        Explored::All(ends) => of_ends(alloc, script, shape, ends.into_vec()),
        Explored::TooMany => Ok(Searched::TooMany),
    }
}

/// The reports of the variant with this number.
pub(crate) fn search_variant(
    alloc: Global,
    script: &Script,
    shape: Shape,
    number: u32,
    bound: u32,
) -> Result<Searched, Memory>
    ensures { IfOk result (IsSearched shape (variant_of_lem shape.eager number script.now.lines) bound) }
{
    let lines = variant_of(alloc, script.lines.as_slice(), shape.eager(), number)?;
    match script_of(shape.ranks(), Lines::from_vec(lines)) {
        Some(variant) => search(alloc, &variant, shape, bound),
        None => Ok(Searched::TooMany),
    }
}
