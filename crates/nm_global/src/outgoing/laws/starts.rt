//! A new rank.

ghost use Rattle.std.specs.Prelude.{ℕ, ◌<◌, List};
ghost use Rattle.nm_types.specs.Sizes.{Sizes};
ghost use Rattle.nm_history.specs.Sends.{Sent};
ghost use Rattle.nm_rank.specs.New.{IsNew};
ghost use Rattle.nm_rank.specs.Ranks.{RankView};
ghost use Rattle.nm_global.specs.Emitted.{IsEmitted, nothing};

/// From a rank at which nothing happened nothing left (`Rank::new`).
pub fn nothing_left()
    ensures { (bodies : Sent → List ℕ) (shape : Sizes) (me to : ℕ) (v : RankView) →
        to < shape.ranks → IsNew shape me v → IsEmitted bodies v to nothing }
{}
