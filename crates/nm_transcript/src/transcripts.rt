//! The script of a run, and its record by the script's lines.

ghost use Rattle.std.specs.Prelude.{◌≡◌, IfErr, IfOk, length};
ghost use Rattle.nm_report.specs.Ends.{ends_of};
ghost use Rattle.nm_report.specs.Lawful.{IsRunIn};
ghost use Rattle.nm_transcript.specs.declared.transcripts.Refusal.TheVariants as refusal;
ghost use Rattle.nm_transcript.specs.Orders.{IsNoScript};
ghost use Rattle.nm_transcript.specs.Transcripts.{AreEndsOf, IsRecordOf, IsTranscript};

use crate::calls::Calls;
use crate::orders::in_one_list;
use crate::renumbered::renumber;
use crate::starts::Starts;
use nm_report::RunRecord;
use nm_types::{Memory, Script};
use nm_why::script_of;
use std::alloc::Global;

/// The commands of a run as a script, and the record of the run by the script's lines.
pub struct Transcript {
    pub script: Script,
    pub record: RunRecord,
}

impl Drop for Transcript {
    fn drop(self) {
        let Transcript {
            script: _,
            record: _,
        } = self;
    }
}

/// Why a run has no transcript.
#[derive(Drop)]
pub enum Refusal {
    /// Memory was refused.
    Memory,
    /// Its commands are more than a script has: too many lines, or bodies or a text that are too long.
    TooLong,
}

impl From<Memory> for Refusal {
    ghost from_gives = { λ _ e. e ≡ refusal.Memory };

    fn from(_memory: Memory) -> Refusal {
        Refusal::Memory
    }
}

/// The script of these commands of each rank, and the record by the script's lines. In the record that is given the
/// k-th of these commands of each rank, from 0, has line k + 2.
pub fn arrange(alloc: Global, given: Vec<Calls>, run: RunRecord) -> Result<Transcript, Refusal>
    requires many { length given.items ≡ run.shape.ranks }
    requires own { AreEndsOf given.items (ends_of run.ranks) }
    ensures ranks { IfOk result (λ x. x.script.ranks ≡ run.shape.ranks) }
    ensures ok { IfOk result (λ x. IsTranscript given.items run x.script.lines x.record) }
    ensures refused { IfErr result (IsNoScript run.shape.ranks given.items) }
{
    let ranks = run.shape.ranks();
    let starts = Starts::new(alloc, run.ranks.as_slice())?;
    let lines = in_one_list(alloc, given, starts)?;
    let Some(script) = script_of(ranks, lines) else {
        return Err(Refusal::TooLong);
    };
    let record = renumber(alloc, run, script.lines.as_slice())?;
    Ok(Transcript { script, record })
}

/// The script of what each rank gave, and the record of that run by the script's lines. In the record that is
/// given the k-th command of each rank, from 0, has line k + 2. So the record is of a run of the script.
pub fn transcribe(alloc: Global, given: Vec<Calls>, run: RunRecord) -> Result<Transcript, Refusal>
    requires { IsRecordOf given.items run }
    ensures ranks { IfOk result (λ x. x.script.ranks ≡ run.shape.ranks) }
    ensures ok { IfOk result (λ x. IsTranscript given.items run x.script.lines x.record) }
    ensures lawful { IfOk result (λ x. IsRunIn run.shape x.script.lines x.record) }
    ensures refused { IfErr result (IsNoScript run.shape.ranks given.items) }
{
    arrange(alloc, given, run)
}
