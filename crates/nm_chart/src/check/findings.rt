//! What there is to say of the words and the source, and how it is said.

ghost use Rattle.std.specs.Prelude.{◌≡◌, IfOk};
ghost use Rattle.nm_chart.specs.Findings.{CanBeDrawn, Says, fault_text, status_of};

use crate::answers::USAGE;
use nm_check::Verdict;
use nm_diagram::Part;
use nm_picture::{Flag, flagged_picture};
use nm_report::RunRecord;
use nm_shell::line;
use nm_types::Memory;
use std::alloc::{AllocError, Global};

/// What there is to say.
#[derive(Drop)]
pub enum Finding {
    /// The words are not taken.
    Usage,
    /// The source failed.
    Unread,
    /// There is no script: this line is its first that is none.
    NoScript {
        line: u32,
    },
    /// There is no trace: this line behind `---` is its first that is none, or line 0 where there is
    /// no line `---`, or the input is too long.
    NoTrace {
        line: u32,
    },
    /// There is the trace of a record, with the verdict on it and a flag where it breaks a rule first.
    Drawn {
        run: RunRecord,
        verdict: Verdict,
        flag: Option<Flag>,
    },
}

/// The line of a fault of the script or of the trace.
fn fault(alloc: Global, of: &'static str, line: u32) -> Result<Vec<u8>, AllocError>
    ensures { IfOk result (λ bytes. bytes.items ≡ fault_text of.now line) }
{
    let text = format!(in alloc; "fault {} {}\n", of, line)?;
    Ok(text.into_bytes())
}

/// The text of a finding, whole and in memory.
pub fn text(alloc: Global, finding: &Finding) -> Result<Vec<u8>, Memory>
    requires { CanBeDrawn finding.now }
    ensures { IfOk result (λ text. Says finding.now text.items) }
{
    match finding {
        Finding::Usage => Ok(line(alloc, USAGE)?),
        Finding::Unread => Ok(line(alloc, "fault read\n")?),
        Finding::NoScript { line } => Ok(fault(alloc, "script", *line)?),
        Finding::NoTrace { line } => Ok(fault(alloc, "trace", *line)?),
        Finding::Drawn { run, flag, .. } => flagged_picture(alloc, run, Part::whole(), *flag),
    }
}

/// The status of a finding that was written.
pub fn status(finding: &Finding) -> u8
    ensures { result ≡ status_of finding.now }
{
    match finding {
        Finding::Drawn { verdict, .. } => verdict.status(),
        Finding::Usage => 2,
        Finding::NoScript { .. } => 3,
        Finding::Unread => 4,
        Finding::NoTrace { .. } => 9,
    }
}
