//! A step of a rank.

ghost use Rattle.nm_rank.specs.Ranks.{RankView};
ghost use Rattle.nm_rank.specs.Steps.{Step};
ghost use Rattle.nm_global.specs.ProcessInvariant.{GhostHistory};
ghost use Rattle.nm_global.specs.Steps.{IsPlaced, MayBeMade, Setting, after};

use nm_sending::outbox::laws::packets_stay_in_order;
use nm_types::laws::bodies_have_their_length;

/// Whichever call changes a rank (`nm_rank`'s `Step`), the rank stands at its place in its run from then on:
/// its log has that step's moment, and what left it is what its history calls for.
pub fn a_step_keeps_its_place()
    ensures { (run : Setting) (old new : RankView) (past : GhostHistory) (step : Step old new) →
        MayBeMade run past old new step → IsPlaced run old past →
        IsPlaced run new (after old new step past) }
{
    packets_stay_in_order();
    bodies_have_their_length();
}
