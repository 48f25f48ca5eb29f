//! What is cut where it was put together. The law is the contract of a function that does nothing.

ghost use Rattle.std.specs.Prelude.{◌≤◌, ◌++◌, ℕ, List, codes, length};
ghost use Rattle.nm_types.specs.declared.scripts.Line as script_line;
ghost use Rattle.nm_script.specs.Lines.{with_feed};
ghost use Rattle.nm_script.specs.Spelled.{IsTextOf};
ghost use Rattle.nm_shell.specs.Inputs.{IsInput};

use nm_script::laws::read_is_written;

/// A script, with a line feed where its last line has none, then a line `---` and any text: where
/// the whole is short enough, it is cut there and nowhere else, and what stands before is still that
/// script. So what is written of a run, behind its script and this line, is cut where it was put
/// together.
pub fn scripts_are_cut_off()
    ensures input { (ranks : ℕ) (lines : List script_line.Line) (script rest : List ℕ) →
        IsTextOf script ranks lines →
        length (with_feed script ++ (codes "---\n" ++ rest)) ≤ 67108864 →
        IsInput (with_feed script ++ (codes "---\n" ++ rest)) (with_feed script) rest }
    ensures script { (ranks : ℕ) (lines : List script_line.Line) (script : List ℕ) →
        IsTextOf script ranks lines → IsTextOf (with_feed script) ranks lines }
{
    read_is_written();
}
