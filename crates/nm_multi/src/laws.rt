//! Laws of the rank at a desk: it stands to what was sent there, and a result that shows a message
//! shows the body of its send. Each is the contract of a function that does nothing. The hypotheses
//! are the clauses of the call.

ghost use Rattle.std.specs.Prelude.{◌≡◌, List, [], ◌++◌};
ghost use Rattle.std.specs.List.{cons_option};
ghost use Rattle.nm_types.specs.declared.scripts.Body.{Body};
ghost use Rattle.nm_types.specs.Sizes.{Sizes};
ghost use Rattle.nm_history.specs.Rules.{AreRight};
ghost use Rattle.nm_rank.specs.New.{IsNew};
ghost use Rattle.nm_rank.specs.Ranks.{RankView};
ghost use Rattle.nm_multi.specs.declared.calls.Call.{Call};
ghost use Rattle.nm_multi.specs.declared.calls.Reply.{Reply};
ghost use Rattle.nm_multi.specs.Acts.{Acts, ShowsBody, body_sent};
ghost use Rattle.nm_multi.specs.Calls.{IsInRange};
ghost use Rattle.nm_multi.specs.Moves.{IsAlone};
ghost use Rattle.nm_multi.specs.Standing.{DeskInvariant};

use nm_global::laws::steps::a_step_keeps_its_place;
use nm_global::log::laws::moments::a_log_begins;
use nm_global::log::laws::results::a_result_is_given;
use nm_global::outgoing::laws::starts::nothing_left;

/// At a new rank nothing was sent (`Rank::new`).
pub(crate) fn a_desk_begins()
    ensures { (shape : Sizes) (v : RankView) → shape.ranks ≡ 1 → IsNew shape 0 v → DeskInvariant [] v }
{
    a_log_begins();
    nothing_left();
}

/// With each call and the reply that it has the rank goes on so, by one body more where a send is
/// started. A result that shows a message shows the body of its send. The history before is right.
pub(crate) fn calls_go_on()
    ensures kept { (sent : List Body) (v v' : RankView) (c : Call) (r : Reply) → IsInRange c →
        AreRight v.sizes.ranks [] v.events → IsAlone v → Acts c r v v' → DeskInvariant sent v →
        DeskInvariant (sent ++ cons_option (body_sent c r) []) v' }
    ensures shows { (sent : List Body) (v v' : RankView) (c : Call) (r : Reply) →
        AreRight v.sizes.ranks [] v.events → IsAlone v → Acts c r v v' → DeskInvariant sent v →
        ShowsBody sent v c r }
{
    a_step_keeps_its_place();
    a_result_is_given();
}
