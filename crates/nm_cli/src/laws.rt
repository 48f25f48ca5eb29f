//! What follows from what is done, by what the words ask for. Each law is the contract of a function
//! that does nothing.

ghost use Rattle.std.specs.Prelude.{◌≡◌, ◌≢◌, ℕ, ◌⊎◌, List, None, Some, codes, drop};
ghost use Rattle.std.specs.Prelude.{IfSome, IsSomeAnd};
ghost use Rattle.nm_types.specs.declared.scripts.Line.{Line};
ghost use Rattle.nm_outside.specs.Told.{Appends, Rose};
ghost use Rattle.nm_script.specs.CommandWords.{IsTaken};
ghost use Rattle.nm_script.specs.declared.command_line.CommandLine.{CommandLine};
ghost use Rattle.nm_script.specs.declared.command_line.Mode.TheVariants.{Check, Multi, Parts, Plain};
ghost use Rattle.nm_script.specs.Spelled.{SpellsNone};
ghost use Rattle.nm_sure.specs.PlainText.{plain_done};
ghost use Rattle.nm_cli.specs.Answers.{NotTaken, end_status, usage};
ghost use Rattle.nm_cli.specs.Checks.{IsCheckedEnd, IsWritten};
ghost use Rattle.nm_cli.specs.Done.{Ending, IsDone};
ghost use Rattle.nm_cli.specs.Endings.{IsLogged, IsPlanEnded, IsRefused, IsReported, IsWorkedOut};
ghost use Rattle.nm_shell.specs.Done.{OrFails, OrUnwritten};
ghost use Rattle.nm_cli.specs.Plains.{IsDeterminate, sure_text};
ghost use Rattle.nm_cli.specs.Scripts.{HandsOut, IsKnown, Makes, Reads, ReadsSource, Runs};
ghost use Rattle.nm_cli.specs.Scripts.{limit_of, read_of, sizes_for};

use nm_persist::runs::receives_show_their_sends;
use nm_script::flood::laws::{floods_keep_the_limits, floods_name_their_messages};
use nm_script::laws::one_script;
use nm_sure::plain_runs_agree;

/// Status 2 comes exactly where the words are not taken.
pub fn words_are_taken_or_not()
    ensures usage { (e : Ending) → IsDone e → e.status ≡ 2 →
        NotTaken e.words × Appends e.before e.after usage }
    ensures not_taken { (e : Ending) → IsDone e → NotTaken e.words →
        OrUnwritten (e.status ≡ 2) e.status }
{}

/// Where a script was to be read, status 3 comes exactly where the bytes are none.
pub fn scripts_are_refused()
    ensures refused { (e : Ending) → IsDone e → e.status ≡ 3 → (line : CommandLine)
        × IsTaken e.words line × (Reads line.mode →
        IfSome e.input (IsRefused e.before e.after)) }
    ensures refuses { (e : Ending) → IsDone e → (line : CommandLine) → IsTaken e.words line →
        Reads line.mode → IfSome e.input (λ bytes.
        SpellsNone (read_of bytes) → OrFails (e.status ≡ 3) e.status) }
{}

/// A script that is known is run: it ends with 0 or 1, and where nothing failed, the run's text was
/// written whole, or memory ran out. With run, trace and flood it ends with a run, or no script, also
/// where the source doesn't tell its bytes; and a flood needs no source.
pub fn scripts_are_run()
    ensures reports { (e : Ending) → IsDone e → (line : CommandLine) → IsTaken e.words line →
        Runs line.mode → (ranks : ℕ) (lines : List Line) →
        IsKnown line.mode e.input ranks lines →
        OrFails ((e.status ≡ 0) ⊎ (e.status ≡ 1)) e.status }
    ensures completes { (e : Ending) → IsDone e → (line : CommandLine) → IsTaken e.words line →
        Runs line.mode → (ranks : ℕ) (lines : List Line) →
        IsKnown line.mode e.input ranks lines → ¬ (Rose e.read_old e.read_new) →
        ¬ (Rose e.write_old e.write_new) → (e.status ≡ 6)
        ⊎ IsReported line e.input e.status e.run e.closed e.before e.after }
    ensures ended { (e : Ending) → IsDone e → (line : CommandLine) → IsTaken e.words line →
        Runs line.mode → OrFails ((e.status ≡ 0) ⊎ ((e.status ≡ 1) ⊎ (e.status ≡ 3))) e.status }
    ensures made { (e : Ending) → IsDone e → (line : CommandLine) → IsTaken e.words line →
        Makes line.mode → OrUnwritten ((e.status ≡ 0) ⊎ (e.status ≡ 1)) e.status }
{}

/// All runs of a plain script are reported alike, and so are those of a flood: what is said is a
/// function of the script and the sizes.
pub fn runs_are_reported_alike()
    ensures determinate { (e : Ending) → IsDone e → (line : CommandLine) → IsTaken e.words line →
        (ranks : ℕ) (lines : List Line) → IsKnown line.mode e.input ranks lines →
        IsDeterminate line.mode lines → (e.status ≡ 0) ⊎ (e.status ≡ 1) →
        (e.status ≡ end_status (plain_done (sizes_for line ranks) lines))
        × Appends e.before e.after (sure_text line.mode (sizes_for line ranks) lines) }
{
    one_script();
    plain_runs_agree();
    floods_keep_the_limits();
    floods_name_their_messages();
}

/// With plain, by what the bytes spell: no script, one that is not plain, or a plain one.
pub fn plain_scripts_are_worked_out()
    ensures plain { (e : Ending) → IsDone e → (line : CommandLine) → IsTaken e.words line →
        line.mode ≡ Plain →
        OrFails (IsWorkedOut line e.input e.status e.before e.after) e.status }
{}

/// With check, by what the bytes are: no script with a trace, or one, with the verdict on the trace.
/// That of a run of the script holds.
pub fn traces_are_checked()
    ensures check { (e : Ending) → IsDone e → (line : CommandLine) → IsTaken e.words line →
        line.mode ≡ Check →
        OrFails (IsCheckedEnd line e.input e.status e.before e.after) e.status }
    ensures holds { (e : Ending) → IsDone e → (line : CommandLine) → IsTaken e.words line →
        line.mode ≡ Check → IsSomeAnd e.input (IsWritten line) →
        OrFails ((e.status ≡ 0) × Appends e.before e.after (codes "holds\n")) e.status }
{}

/// With parts, by what the bytes spell: no plan, or a plan, whose script ran. What is said of a
/// receive shows the body of that start at its sender.
pub fn plans_are_run()
    ensures parts { (e : Ending) → IsDone e → (line : CommandLine) → IsTaken e.words line →
        line.mode ≡ Parts →
        OrFails (IsPlanEnded line e.input e.status e.run e.closed e.before e.after) e.status }
{
    receives_show_their_sends();
}

/// Several threads shared one rank. The log is one history that has each thread's calls.
pub fn threads_are_logged()
    ensures logged { (e : Ending) → IsDone e → (line : CommandLine) → IsTaken e.words line →
        (threads rounds : ℕ) → line.mode ≡ Multi threads rounds →
        OrUnwritten ((e.status ≡ 0) × IsLogged threads rounds e.log e.before e.after) e.status }
{}

/// A source that is read is read to its end, or to the limit, and no failure of it is passed over.
pub fn sources_are_read()
    ensures read { (e : Ending) → IsDone e → (line : CommandLine) → IsTaken e.words line →
        ReadsSource line.mode → OrFails (IfSome e.input
        (λ bytes. e.left ≡ Some (drop (limit_of line.mode) bytes))) e.status }
    ensures quiet { (e : Ending) → IsDone e → OrFails (e.read_new ≡ e.read_old) e.status }
{}

/// What is handed out: nothing at 2, 3 and 4, a record for words that run a script or a plan alone,
/// and a log for several threads alone.
pub fn what_is_handed_out()
    ensures no_record { (e : Ending) → IsDone e →
        (e.status ≡ 2) ⊎ ((e.status ≡ 3) ⊎ (e.status ≡ 4)) →
        (e.run ≡ None) × (e.closed ≡ None) × (e.log ≡ None) }
    ensures no_run { (e : Ending) → IsDone e → (line : CommandLine) → IsTaken e.words line →
        ¬ (HandsOut line.mode) → (e.run ≡ None) × (e.closed ≡ None) }
    ensures no_log { (e : Ending) → IsDone e → (line : CommandLine) → IsTaken e.words line →
        ((threads rounds : ℕ) → line.mode ≢ Multi threads rounds) → e.log ≡ None }
{}
