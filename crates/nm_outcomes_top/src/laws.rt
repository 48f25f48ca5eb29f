//! What follows from what is done, by what the words ask for. Each law is the contract of a function
//! that does nothing.

ghost use Rattle.std.specs.Prelude.{◌≡◌, ℕ, ◌⊎◌, List, IfSome};
ghost use Rattle.nm_types.specs.declared.scripts.Line.{Line};
ghost use Rattle.nm_outside.specs.Told.{Appends};
ghost use Rattle.nm_shell.specs.Done.{Ending, IsDone, OrFails, OrUnwritten};
ghost use Rattle.nm_shell.specs.Inputs.{HasNoParts};
ghost use Rattle.nm_script.specs.Rules.{IsFirstFault};
ghost use Rattle.nm_script.specs.Spelled.{IsTextOf};
ghost use Rattle.nm_script.specs.declared.faults.Kind.{Kind};
ghost use Rattle.nm_outcomes_top.specs.declared.words.Asked.{Asked};
ghost use Rattle.nm_outcomes_top.specs.declared.words.Question.TheVariants as question;
ghost use Rattle.nm_outcomes_top.specs.Answers.{IsInputOf, TellsOutcomes, read_of};
ghost use Rattle.nm_outcomes_top.specs.Endings.{IsAmong, IsEitherListed, IsFewerSaid, IsHangSaid, IsNoHangSaid};
ghost use Rattle.nm_outcomes_top.specs.Endings.{IsNotAmong, IsOutgrown, IsRefused, IsSafe, IsTraceSaid, Speaks};
ghost use Rattle.nm_outcomes_top.specs.Texts.{no_report, usage};
ghost use Rattle.nm_outcomes_top.specs.OptionWords.{IsTaken, NotTaken};

use nm_script::laws::a_text_is_a_script_or_has_a_fault;

/// Status 2 comes exactly where the words are not taken.
pub fn words_are_taken_or_not()
    ensures usage { (e : Ending) → IsDone TellsOutcomes e → e.status ≡ 2 →
        NotTaken e.words × Appends e.before e.after usage }
    ensures not_taken { (e : Ending) → IsDone TellsOutcomes e → NotTaken e.words →
        OrUnwritten (e.status ≡ 2) e.status }
{}

/// Status 3 comes exactly where the bytes spell no script.
pub fn scripts_are_refused()
    ensures refused { (e : Ending) → IsDone TellsOutcomes e → (asked : Asked) → IsTaken e.words asked →
        e.status ≡ 3 → IfSome e.input (IsRefused asked e.before e.after) }
    ensures refuses { (e : Ending) → IsDone TellsOutcomes e → (asked : Asked) → IsTaken e.words asked →
        IfSome e.input (λ bytes. (script report : List ℕ) (line : ℕ) (kind : Kind) →
        IsInputOf asked.question (read_of asked.question bytes) script report →
        IsFirstFault script line kind → OrFails (e.status ≡ 3) e.status) }
{
    a_text_is_a_script_or_has_a_fault();
}

/// Where they spell one, it is written what is asked of all reports that its runs can have, or there
/// are too many states, or the reports are too long.
pub fn reports_are_told()
    ensures lists { (e : Ending) → IsDone TellsOutcomes e → (asked : Asked) → IsTaken e.words asked →
        IfSome e.input (λ bytes. (script report : List ℕ) (ranks : ℕ) (lines : List Line) →
        IsInputOf asked.question (read_of asked.question bytes) script report →
        IsTextOf script ranks lines →
        OrFails (Speaks asked.question e.status ⊎ (e.status ≡ 10)) e.status) }
    ensures outgrown { (e : Ending) → IsDone TellsOutcomes e → (asked : Asked) → IsTaken e.words asked →
        e.status ≡ 10 → IfSome e.input (IsOutgrown asked e.before e.after) }
{
    a_text_is_a_script_or_has_a_fault();
}

/// Where each standard send may wait, all reports are written that there are then. At status 0 none hangs.
pub fn either_is_listed()
    ensures listed { (e : Ending) → IsDone TellsOutcomes e → (asked : Asked) → IsTaken e.words asked →
        asked.question ≡ question.Either → (e.status ≡ 0) ⊎ (e.status ≡ 1) →
        IfSome e.input (IsEitherListed asked e.status e.before e.after) }
    ensures safe { (e : Ending) → IsDone TellsOutcomes e → (asked : Asked) → IsTaken e.words asked →
        asked.question ≡ question.Either → e.status ≡ 0 → IfSome e.input (IsSafe asked) }
{}

/// A trace of the one with this number, or there are fewer.
pub fn one_is_traced()
    ensures traced { (e : Ending) → IsDone TellsOutcomes e → (asked : Asked) (number : ℕ) →
        IsTaken e.words asked → asked.question ≡ question.Trace number →
        (e.status ≡ 0) ⊎ (e.status ≡ 1) →
        IfSome e.input (IsTraceSaid asked number e.status e.before e.after) }
    ensures fewer { (e : Ending) → IsDone TellsOutcomes e → (asked : Asked) (number : ℕ) →
        IsTaken e.words asked → asked.question ≡ question.Trace number → e.status ≡ 7 →
        IfSome e.input (IsFewerSaid asked number e.before e.after) }
{}

/// The given report is one of them, or none, or there is none given.
pub fn one_is_looked_up()
    ensures among { (e : Ending) → IsDone TellsOutcomes e → (asked : Asked) → IsTaken e.words asked →
        asked.question ≡ question.Among → e.status ≡ 0 →
        IfSome e.input (IsAmong asked e.before e.after) }
    ensures not_among { (e : Ending) → IsDone TellsOutcomes e → (asked : Asked) → IsTaken e.words asked →
        asked.question ≡ question.Among → e.status ≡ 8 →
        IfSome e.input (IsNotAmong asked e.before e.after) }
    ensures no_report { (e : Ending) → IsDone TellsOutcomes e → (asked : Asked) → IsTaken e.words asked →
        e.status ≡ 9 → IfSome e.input (λ bytes. (asked.question ≡ question.Among)
        × HasNoParts (read_of asked.question bytes))
        × Appends e.before e.after no_report }
{}

/// Whether one of the runs hangs: the trace of one that does, or that none does.
pub fn hangs_are_told()
    ensures hangs { (e : Ending) → IsDone TellsOutcomes e → (asked : Asked) → IsTaken e.words asked →
        asked.question ≡ question.Hangs → e.status ≡ 1 →
        IfSome e.input (IsHangSaid asked e.before e.after) }
    ensures none { (e : Ending) → IsDone TellsOutcomes e → (asked : Asked) → IsTaken e.words asked →
        asked.question ≡ question.Hangs → e.status ≡ 0 →
        IfSome e.input (IsNoHangSaid asked e.before e.after) }
{}
