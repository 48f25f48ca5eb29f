//! What is said of bytes that spell no script.

ghost use Rattle.std.specs.Prelude.{◌≡◌, IfOk};
ghost use Rattle.nm_script.specs.FaultTexts.{fault_text as fault_text_lem, kind_text};

use crate::faults::Kind;
use std::alloc::{AllocError, Global};

/// What is said of a script's first fault.
pub fn fault_text(alloc: Global, line: u32, kind: Kind) -> Result<Vec<u8>, AllocError>
    ensures { IfOk result (λ bytes. bytes.items ≡ fault_text_lem line kind) }
{
    let text = format!(in alloc; "fault script {} {}\n", line, kind_name(kind))?;
    Ok(text.into_bytes())
}

/// The name of a kind of fault.
fn kind_name(kind: Kind) -> &'static str
    ensures { result.now ≡ kind_text kind }
{
    match kind {
        Kind::TooLong => "toolong",
        Kind::NotAscii => "notascii",
        Kind::Lines => "lines",
        Kind::First => "first",
        Kind::Rank => "rank",
        Kind::Command => "command",
        Kind::Count => "count",
        Kind::Number => "number",
        Kind::Body => "body",
        Kind::BodyTotal => "bodytotal",
    }
}
