//! Whether a script can hang, with a run that does.

ghost use Rattle.std.specs.Prelude.{◌≡◌, IfOk, List, OnOk};
ghost use Rattle.nm_explored.specs.Met.{AreBack, IsMade};
ghost use Rattle.nm_explored.specs.Stores.{Grows, IsFirst};
ghost use Rattle.nm_hangs.specs.Found.{IsHang, IsHangTrace};
ghost use Rattle.nm_hangs.specs.Hunts.{IsHunted, IsStuckIn};

use crate::hunts::{Hunted, hunt};
use nm_explored::ends::way_back;
use nm_explored::searches::{Search, Setting};
use nm_listed::retold::retold;
use nm_report::trace;
use nm_types::laws::commands_stand_at_their_lines;
use nm_types::{Memory, Script, Shape};
use std::alloc::Global;

/// What was found of a script.
#[derive(Drop)]
pub enum Hang {
    /// It can hang: the trace of a run that does.
    Found { trace: Vec<u8> },
    /// No run of it hangs.
    Never,
    /// The search met more states than the limit, and none at which a rank is stuck.
    Open,
}

/// The trace of the run that leads to a state at which a rank is stuck.
fn trace_to(
    alloc: Global,
    script: &Script,
    shape: Shape,
    search: &Search,
    state: usize,
) -> Result<Vec<u8>, Memory>
    requires equal { shape.ranks ≡ script.now.ranks }
    requires made { IsMade shape.eager shape.ranks script.now.lines search.now }
    requires back { AreBack shape.eager shape.ranks script.now.lines search.now }
    requires stuck { IsStuckIn shape.ranks script.now.lines search.now state }
    ensures { IfOk result (λ trace. IsHangTrace shape script.now.lines trace.items) }
{
    let path = way_back(alloc, search, state)?;
    let run = retold(alloc, script, shape, path.as_slice())?;
    trace(alloc, &run)
}

/// A search for a state of a script at which a rank is stuck.
fn hunt_in(
    alloc: Global,
    script: &Script,
    shape: Shape,
    states: u32,
    search: &mut Search,
) -> Result<Hunted, Memory>
    requires equal { shape.ranks ≡ script.now.ranks }
    requires first { IsFirst shape.ranks search.old }
    requires made { IsMade shape.eager shape.ranks script.now.lines search.old }
    requires back { AreBack shape.eager shape.ranks script.now.lines search.old }
    ensures grows { OnOk result (Grows search.old search.new) }
    ensures made { OnOk result (IsMade shape.eager shape.ranks script.now.lines search.new) }
    ensures back { OnOk result (AreBack shape.eager shape.ranks script.now.lines search.new) }
    ensures hunted { IfOk result (IsHunted shape.eager shape.ranks script.now.lines states search.new) }
{
    let of = Setting {
        lines: script.lines.as_slice(),
        ranks: shape.ranks(),
        eager: shape.eager(),
    };
    hunt(alloc, of, states, search)
}

/// Whether a script can hang. The search ends at the first state that it finds at which a rank is stuck, and gives the
/// trace of a run that leads there.
pub fn find_hang(alloc: Global, script: &Script, shape: Shape, states: u32) -> Result<Hang, Memory>
    requires { shape.ranks ≡ script.now.ranks }
    ensures { IfOk result (IsHang shape script.now.lines states) }
{
    commands_stand_at_their_lines();
    let mut search = Search::new(alloc, shape.ranks())?;
    match hunt_in(alloc, script, shape, states, &mut search)? {
        Hunted::Stuck { state } => Ok(Hang::Found {
            trace: trace_to(alloc, script, shape, &search, state)?,
        }),
        Hunted::Never => Ok(Hang::Never),
        Hunted::Open => Ok(Hang::Open),
    }
}
