//! The ranks at the start.

ghost use Rattle.std.specs.Prelude.{ℕ, List};
ghost use Rattle.nm_types.specs.Commands.{Numbered};
ghost use Rattle.nm_types.specs.Sizes.{Sizes};
ghost use Rattle.nm_rank.specs.New.{IsNew};
ghost use Rattle.nm_rank.specs.Ranks.{RankView};
ghost use Rattle.nm_global.specs.Ranks.{IsPassed, RankInvariant, new_rank};

use crate::log::laws::moments::a_log_begins;
use crate::outgoing::laws::starts::nothing_left;
use nm_history::laws::rank_run_begins;

/// A new rank stands at its place (`Rank::new`), and nothing is between any two.
pub fn new_ranks_stand()
    ensures stands { (shape : Sizes) (commands : List Numbered) (i : ℕ) (v : RankView) →
        IsNew shape i v → RankInvariant shape commands i (new_rank v) }
    ensures passed { (i j : ℕ) (v w : RankView) → IsPassed i j (new_rank v) (new_rank w) }
{
    rank_run_begins();
    a_log_begins();
    nothing_left();
}
