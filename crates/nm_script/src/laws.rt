//! Laws of the texts that are read and written.

ghost use Rattle.std.specs.Prelude.{◌≡◌, ◌≤◌, ◌+◌, ◌⊎◌, ℕ, List, IsTrue};
ghost use Rattle.std.specs.List.{list_all};
ghost use Rattle.nm_types.specs.declared.limits.TheConstants.{MAX_BODIES, MAX_LINES, MAX_RANKS};
ghost use Rattle.nm_types.specs.declared.scripts.Line.{Line};
ghost use Rattle.nm_types.specs.Limits.{IsScript, sent_len};
ghost use Rattle.nm_types.specs.Text.{script_text};
ghost use Rattle.nm_script.specs.Lines.{with_feed, words_of};
ghost use Rattle.nm_script.specs.declared.faults.Kind.{Kind};
ghost use Rattle.nm_script.specs.Rules.{IsFirstFault, IsLine, KeepsRule, line_kinds};
ghost use Rattle.nm_script.specs.TextRules.{AllKept};
ghost use Rattle.nm_script.specs.Spelled.{IsTextOf, has_bytes};

/// Bytes spell at most one script.
pub fn one_script()
    ensures { (bytes : List ℕ) (first second : ℕ) (lines others : List Line) →
        IsTextOf bytes first lines → IsTextOf bytes second others →
        (first ≡ second) × (lines ≡ others) }
{}

/// The text that is written of a script spells it, where its limits hold and its bodies have bytes.
pub fn written_is_read()
    ensures { (ranks : ℕ) (lines : List Line) → IsScript ranks lines →
        IsTrue (list_all (λ line. has_bytes line.command) lines) →
        IsTextOf (script_text ranks lines) ranks lines }
{}

/// A script is written as the bytes that spell it, with a line feed where the last line had none.
pub fn read_is_written()
    ensures { (bytes : List ℕ) (ranks : ℕ) (lines : List Line) →
        IsTextOf bytes ranks lines → script_text ranks lines ≡ with_feed bytes }
{}

/// A text at its place keeps every rule of lines exactly where it is a command's line there.
pub fn lines_keep_the_rules()
    ensures kept { (ranks number total : ℕ) (text : List ℕ) (line : Line) → ranks ≤ MAX_RANKS →
        IsLine ranks text line → number ≤ MAX_LINES →
        total + sent_len line.command ≤ MAX_BODIES →
        AllKept (KeepsRule ranks number total text (words_of text)) line_kinds }
    ensures only { (ranks number total : ℕ) (text : List ℕ) → ranks ≤ MAX_RANKS →
        AllKept (KeepsRule ranks number total text (words_of text)) line_kinds →
        (line : Line) × IsLine ranks text line × (number ≤ MAX_LINES)
        × (total + sent_len line.command ≤ MAX_BODIES) }
{}

/// A text is that of a script, or has a first fault. It isn't both, and its first fault is one.
pub fn a_text_is_a_script_or_has_a_fault()
    ensures either { (bytes : List ℕ) →
        ((ranks : ℕ) × (lines : List Line) × IsTextOf bytes ranks lines)
        ⊎ ((line : ℕ) × (kind : Kind) × IsFirstFault bytes line kind) }
    ensures not_both { (bytes : List ℕ) (ranks line : ℕ) (lines : List Line) (kind : Kind) →
        IsTextOf bytes ranks lines → IsFirstFault bytes line kind → ⊥ }
    ensures one_fault { (bytes : List ℕ) (line other : ℕ) (kind also : Kind) →
        IsFirstFault bytes line kind → IsFirstFault bytes other also →
        (line ≡ other) × (kind ≡ also) }
{}
