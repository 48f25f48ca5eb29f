//! Laws of the report. Each is the contract of a function that does nothing.

ghost use Rattle.std.specs.Prelude.{◌≡◌, false, List};
ghost use Rattle.nm_types.specs.declared.scripts.Line.{Line};
ghost use Rattle.nm_types.specs.Limits.{IsScript};
ghost use Rattle.nm_types.specs.Sizes.{Sizes};
ghost use Rattle.nm_report.specs.declared.records.RunRecord.{RunRecord};
ghost use Rattle.nm_report.specs.Lawful.{IsRunIn};
ghost use Rattle.nm_report.specs.Report.{report_text};
ghost use Rattle.nm_report.specs.Summary.{CountsFit};
ghost use Rattle.nm_report.specs.Told.{told_of, told_text};

use nm_history::laws::matched_pairs_have_receives;
use nm_types::laws::bodies_have_their_length;

/// A report without its trace says what was told, and no more.
pub fn reports_say_what_was_told()
    ensures { (run : RunRecord) →
        report_text false run ≡ told_text (told_of run) run.cells run.done }
{}

/// A lawful run of a script has a summary: the numbers of its answers and of their bytes are below
/// 2^64. A rank answers each command at most once, and a message has the bytes that some command of
/// the script sends.
pub fn summaries_fit()
    ensures { (shape : Sizes) (lines : List Line) (run : RunRecord) →
        IsScript shape.ranks lines → IsRunIn shape lines run → CountsFit (told_of run) }
{
    bodies_have_their_length();
    matched_pairs_have_receives();
}
