//! What follows from what is done. Each law is the contract of a function that does nothing.

ghost use Rattle.std.specs.Prelude.{◌≡◌, Some, IfSome, IsSomeAnd, drop};
ghost use Rattle.nm_script.specs.declared.command_line.CommandLine.{CommandLine};
ghost use Rattle.nm_outside.specs.Told.{Appends};
ghost use Rattle.nm_breaks.specs.Answers.{IsAsked, NotAsked};
ghost use Rattle.nm_verdict.specs.Answers.{AreAsked, IsWritten, SaysVerdict, usage};
ghost use Rattle.nm_shell.specs.Done.{Ending, IsDone, OrFails, OrUnwritten};
ghost use Rattle.nm_verdict.specs.Endings.{IsStatus};

/// Status 2 comes exactly where the words are not taken.
pub fn words_are_taken_or_not()
    ensures usage { (e : Ending) → IsDone SaysVerdict e → e.status ≡ 2 →
        NotAsked e.words × Appends e.before e.after usage }
    ensures not_taken { (e : Ending) → IsDone SaysVerdict e → NotAsked e.words →
        OrUnwritten (e.status ≡ 2) e.status }
{}

/// The trace of a run of the script holds, and no other status comes but those that there are.
pub fn traces_of_runs_hold()
    ensures holds { (e : Ending) → IsDone SaysVerdict e → (line : CommandLine) →
        IsAsked e.words line → IsSomeAnd e.input (IsWritten line) →
        OrFails (e.status ≡ 0) e.status }
    ensures statuses { (e : Ending) → IsDone SaysVerdict e → IsStatus e.status }
{}

/// The source is read to its end, or to the limit, and no failure of it is passed over.
pub fn sources_are_read()
    ensures read { (e : Ending) → IsDone SaysVerdict e → AreAsked e.words → OrFails
        (IfSome e.input (λ bytes. e.left ≡ Some (drop 67108865 bytes))) e.status }
    ensures quiet { (e : Ending) → IsDone SaysVerdict e →
        OrFails (e.read_new ≡ e.read_old) e.status }
{}
