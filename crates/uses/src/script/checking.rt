//! What a text is, as text.

ghost use Rattle.std.specs.Prelude.{◌≡◌, ℕ, IfOk, List, string_bytes};
ghost use Rattle.nm_types.specs.declared.scripts.Line.{Line};
ghost use Rattle.nm_script.specs.Lines.{with_feed};
ghost use Rattle.nm_script.specs.declared.faults.Kind.{Kind};
ghost use Rattle.nm_script.specs.Rules.{IsFirstFault};
ghost use Rattle.nm_script.specs.Spelled.{IsTextOf};
ghost use Rattle.uses.specs.Faults.{fault_line, kind_word};

use nm_script::laws::{a_text_is_a_script_or_has_a_fault, read_is_written};
use nm_script::{Kind, ScriptFault, read};
use nm_types::Memory;
use nm_written::write;
use std::alloc::Global;

/// The word for a kind of fault.
fn word(kind: Kind) -> &'static str
    ensures { result.now ≡ kind_word kind }
{
    match kind {
        Kind::TooLong => "too long",
        Kind::NotAscii => "not printable",
        Kind::Lines => "too many lines",
        Kind::First => "no ranks",
        Kind::Rank => "rank",
        Kind::Command => "command",
        Kind::Count => "count of words",
        Kind::Number => "number",
        Kind::Body => "body",
        Kind::BodyTotal => "bodies too long",
    }
}

/// What is said of a text. Where it spells a script it is that script's one text, which is the same
/// bytes, with a line feed where the last line had none. Else it is the first fault.
///
/// Each text has one of the two and never both: so the two clauses say all that is answered, but
/// for want of memory.
pub fn checked(alloc: Global, bytes: &[u8]) -> Result<String, Memory>
    ensures script { (ranks : ℕ) (lines : List Line) → IsTextOf bytes.now ranks lines →
        IfOk result (λ text. string_bytes text ≡ with_feed bytes.now) }
    ensures fault { (line : ℕ) (kind : Kind) → IsFirstFault bytes.now line kind →
        IfOk result (λ text. string_bytes text ≡ fault_line line kind) }
{
    a_text_is_a_script_or_has_a_fault();
    read_is_written();
    match read(alloc, bytes) {
        Ok(script) => write(alloc, &script),
        Err(ScriptFault::Bad { line, kind }) => {
            Ok(format!(in alloc; "line {}: {}\n", line, word(kind))?)
        }
        Err(ScriptFault::Memory) => Err(Memory),
    }
}
