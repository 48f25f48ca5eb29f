//! What is said of a verdict, and of bytes that are no trace.

ghost use Rattle.std.specs.Prelude.{◌≡◌, IfOk};
ghost use Rattle.nm_check.specs.Texts.{trace_fault_text as trace_fault_text_lem};
ghost use Rattle.nm_check.specs.Texts.{verdict_text as verdict_text_lem};

use crate::Verdict;
use std::alloc::{AllocError, Global};

/// What is said of a verdict.
pub fn verdict_text(alloc: Global, verdict: Verdict) -> Result<Vec<u8>, AllocError>
    ensures { IfOk result (λ bytes. bytes.items ≡ verdict_text_lem verdict) }
{
    let text = match verdict {
        Verdict::Holds => format!(in alloc; "holds\n")?,
        Verdict::Own { clause, rank } => format!(in alloc;
            "broken D7 {} {}\n",
            clause.letter(),
            rank
        )?,
        Verdict::Carried { clause, from, to } => {
            format!(in alloc; "broken D8 {} {} {}\n", clause.letter(), from, to)?
        }
        Verdict::Rest { clause } => format!(in alloc; "broken D9 {}\n", clause.letter())?,
        Verdict::Home => format!(in alloc; "broken D17\n")?,
        Verdict::Done => format!(in alloc; "broken done\n")?,
    };
    Ok(text.into_bytes())
}

/// What is said of the first line that begins no trace.
pub fn trace_fault_text(alloc: Global, line: u32) -> Result<Vec<u8>, AllocError>
    ensures { IfOk result (λ bytes. bytes.items ≡ trace_fault_text_lem line) }
{
    let text = format!(in alloc; "fault trace {}\n", line)?;
    Ok(text.into_bytes())
}
