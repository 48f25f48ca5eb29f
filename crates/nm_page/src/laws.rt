//! What follows from the text of a page. Each law is the contract of a function that does nothing.

ghost use Rattle.std.specs.Prelude.{◌≡◌, ℕ, ◌++◌, true, List};
ghost use Rattle.nm_report.specs.declared.records.RunRecord.{RunRecord};
ghost use Rattle.nm_diagram.specs.declared.frames.Part.{Part};
ghost use Rattle.nm_picture.specs.WellFormed.{IsWellFormed};
ghost use Rattle.nm_page.specs.Pages.{IsPageIn, doctype_text, hides, hides_nothing};

/// A part of a run has one page.
pub fn a_run_has_one_page()
    ensures { (part : Part) (run : RunRecord) (a b : List ℕ) → IsPageIn part run a →
        IsPageIn part run b → a ≡ b }
{}

/// Behind its first line a page is well-formed markup: each tag is closed where it has to be, the
/// picture's among them.
pub fn a_page_is_well_formed()
    ensures { (part : Part) (run : RunRecord) (text : List ℕ) → IsPageIn part run text →
        (rest : List ℕ) × (text ≡ doctype_text ++ rest) × IsWellFormed rest }
{}

/// No property that could hide a shape stands in the style of a page.
pub fn a_page_hides_nothing()
    ensures { hides_nothing hides ≡ true }
{}
