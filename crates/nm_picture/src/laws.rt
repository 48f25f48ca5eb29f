//! What follows from the text of a picture. Each law is the contract of a function that does nothing.

ghost use Rattle.std.specs.Prelude.{◌≡◌, ℕ, ◌≤◌, true, List, Option, length};
ghost use Rattle.std.specs.List.{AllByRecursion};
ghost use Rattle.nm_report.specs.declared.records.RunRecord.{RunRecord};
ghost use Rattle.nm_diagram.specs.declared.frames.Part.{Part};
ghost use Rattle.nm_diagram.specs.Alike.{AreAlike};
ghost use Rattle.nm_diagram.specs.Signs.{all_signs};
ghost use Rattle.nm_picture.specs.declared.flags.Flag.{Flag};
ghost use Rattle.nm_picture.specs.Flags.{IsFlaggedIn};
ghost use Rattle.nm_picture.specs.Markup.{escaped, is_plain};
ghost use Rattle.nm_picture.specs.Pictures.{IsPictureIn, IsPictureOf};
ghost use Rattle.nm_picture.specs.Sheet.{all_stand, are_drawn, covers, none_stands, strokes};
ghost use Rattle.nm_picture.specs.WellFormed.{IsWellFormed};

/// The sheet draws each sign, and the ways of messages and the links have their strokes. No property
/// that could hide a shape stands in it.
pub fn each_sign_is_drawn()
    ensures drawn { are_drawn all_signs ≡ true }
    ensures strokes { all_stand strokes ≡ true }
    ensures shown { none_stands covers ≡ true }
{}

/// A part of a run has one picture.
pub fn a_run_has_one_picture()
    ensures { (part : Part) (run : RunRecord) (a b : List ℕ) → IsPictureIn part run a →
        IsPictureIn part run b → a ≡ b }
{}

/// Runs of the same ranks, but for silent ones at the end of either, have one picture.
pub fn alike_runs_have_one_picture()
    ensures whole { (run other : RunRecord) (text : List ℕ) → AreAlike run.ranks other.ranks →
        IsPictureOf run text → IsPictureOf other text }
    ensures part { (part : Part) (run other : RunRecord) (text : List ℕ) →
        part.lanes ≤ length other.ranks → AreAlike run.ranks other.ranks →
        IsPictureIn part run text → IsPictureIn part other text }
{}

/// A picture is well-formed markup: each tag is closed where it has to be, and no text holds one.
pub fn a_picture_is_well_formed()
    ensures plain { (part : Part) (run : RunRecord) (text : List ℕ) → IsPictureIn part run text →
        IsWellFormed text }
    ensures flagged { (part : Part) (flag : Option Flag) (run : RunRecord) (text : List ℕ) →
        IsFlaggedIn part flag run text → IsWellFormed text }
{}

/// What is between tags holds no tag.
pub fn escaped_text_has_no_tags()
    ensures { (text : List ℕ) → AllByRecursion (λ b. is_plain b ≡ true) (escaped text) }
{}
