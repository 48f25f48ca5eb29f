//! Bodies, which are spelled as in a script.

ghost use Rattle.nm_script.specs.Bodies.{body_of};
ghost use Rattle.nm_script.specs.Faults.{Gives};
ghost use Rattle.nm_plans.specs.declared.faults.PlanKind.TheVariants as kind;
ghost use Rattle.nm_plans.specs.Faults.{or_kind};

use crate::faults::PlanKind;
use nm_script::LineFault;
use nm_types::Body;
use std::alloc::Global;

/// The body that a word spells.
pub fn body_from(alloc: Global, word: &[u8]) -> Result<Body, LineFault<PlanKind>>
    ensures { Gives result (or_kind (body_of word.now) kind.Body) }
{
    match nm_script::body_from(alloc, word) {
        Ok(body) => Ok(body),
        Err(LineFault::Bad(_)) => Err(LineFault::Bad(PlanKind::Body)),
        Err(LineFault::Memory) => Err(LineFault::Memory),
    }
}
