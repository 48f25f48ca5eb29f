//! The first moment.

ghost use Rattle.std.specs.Prelude.{ℕ, List, []};
ghost use Rattle.nm_types.specs.Commands.{Numbered};
ghost use Rattle.nm_types.specs.Sizes.{Sizes};
ghost use Rattle.nm_history.specs.Sends.{Sent};
ghost use Rattle.nm_rank.specs.New.{IsNew};
ghost use Rattle.nm_rank.specs.Ranks.{RankView};
ghost use Rattle.nm_global.specs.Logged.{IsLogged};

/// A new rank has the empty log.
pub fn a_log_begins()
    ensures { (bodies : Sent → List ℕ) (commands : List Numbered) (shape : Sizes) (me : ℕ)
        (v : RankView) → IsNew shape me v → IsLogged shape.eager bodies commands v [] [] }
{}
