//! Whether a record is of a run of a script.

ghost use Rattle.std.specs.Prelude.{◌≡◌, IfOk, IsTrue};
ghost use Rattle.nm_report.specs.Lawful.{IsRunIn};

use nm_check::{Verdict, judge};
use nm_report::RunRecord;
use nm_types::{Memory, Script};
use std::alloc::Global;

/// Whether a record is of a run of the script: of one in which each rank ran its own commands, took
/// from each sender exactly the messages that it sent, once, whole and in order, each receive has
/// the message that MPI's matching gives it, and nothing is under way at the end.
///
/// A record of another number of ranks is of none.
pub fn is_lawful(alloc: Global, script: &Script, run: &RunRecord) -> Result<bool, Memory>
    ensures sound { IfOk result (λ lawful. IsTrue lawful →
        (run.now.shape.ranks ≡ script.now.ranks)
        × IsRunIn run.now.shape script.now.lines run.now) }
    ensures whole { run.now.shape.ranks ≡ script.now.ranks →
        IsRunIn run.now.shape script.now.lines run.now → IfOk result (λ lawful. IsTrue lawful) }
{
    let ranks = run.shape.ranks();
    if ranks != script.ranks {
        return Ok(false);
    }
    if run.ranks.len() != ranks as usize {
        return Ok(false);
    }
    match judge(alloc, script, run)? {
        Verdict::Holds => Ok(true),
        _ => Ok(false),
    }
}
