//! What follows from the definitions. Each law is the contract of a function that does nothing.

ghost use Rattle.std.specs.Prelude.{◌≡◌, ℕ, ◌≤◌, List, [], Some, IfSome, drop};
ghost use Rattle.nm_types.specs.Sizes.{Sizes};
ghost use Rattle.nm_report.specs.declared.records.RunRecord.{RunRecord};
ghost use Rattle.nm_trace.specs.Traces.{IsTraceOf};
ghost use Rattle.nm_shell.specs.Done.{Ending, IsDone, OrFails, OrUnwritten, unread};
ghost use Rattle.nm_outside.specs.Told.{Appends, AppendsPart, Rose};
ghost use Rattle.nm_chart.specs.declared.answers.Response.{Response};
ghost use Rattle.nm_chart.specs.Answers.{Charts, IsAnswer, Tells, WasQuiet, WasRead};
ghost use Rattle.nm_chart.specs.Given.{IsReadFor};
ghost use Rattle.nm_chart.specs.Endings.{IsBadTrace, IsRefused, IsStatus, IsTrace};
ghost use Rattle.nm_chart.specs.Endings.{usage, widest};
ghost use Rattle.nm_shell.specs.Inputs.{read_of};
ghost use Rattle.nm_chart.specs.Widened.{widened};

/// The trace of a record of any shape is one of the widest shape: of the same record, with silent
/// ranks behind its own. So the traces of records are taken, whatever their shape.
pub fn one_shape_serves_for_all()
    ensures { (shape : Sizes) (bytes : List ℕ) (run : RunRecord) → shape.ranks ≤ 64 →
        IsTraceOf shape bytes run → IsTraceOf widest bytes (widened run) }
{}

/// Status 2 comes exactly where there are words.
pub fn words_are_not_taken()
    ensures usage { (e : Ending) → IsDone Charts e → e.status ≡ 2 →
        ¬ (e.words ≡ []) × Appends e.before e.after usage }
    ensures not_taken { (e : Ending) → IsDone Charts e → ¬ (e.words ≡ []) →
        OrUnwritten (e.status ≡ 2) e.status }
{}

/// Status 9 comes exactly where the bytes are no trace, and 0 where they are that of a record.
pub fn traces_are_drawn_or_refused()
    ensures refused { (e : Ending) → IsDone Charts e → e.status ≡ 9 → (e.words ≡ [])
        × IfSome e.input (λ bytes. IsRefused (read_of bytes) e.before e.after) }
    ensures refuses { (e : Ending) → IsDone Charts e → e.words ≡ [] → IfSome e.input (λ bytes.
        (line : ℕ) → IsBadTrace (read_of bytes) line → OrFails (e.status ≡ 9) e.status) }
    ensures draws { (e : Ending) → IsDone Charts e → e.words ≡ [] → IfSome e.input (λ bytes.
        (run : RunRecord) → IsTrace (read_of bytes) run → OrFails (e.status ≡ 0) e.status) }
{}

/// The source is read to its end, or to the limit, and no failure of it is passed over.
pub fn sources_are_read()
    ensures read { (e : Ending) → IsDone Charts e → e.words ≡ [] → OrFails (IfSome e.input
        (λ bytes. e.left ≡ Some (drop 67108865 bytes))) e.status }
    ensures quiet { (e : Ending) → IsDone Charts e → OrFails (e.read_new ≡ e.read_old) e.status }
{}

/// What the other statuses mean. Where the sink failed, what it took is a front of the text that was
/// due, and where memory ran out, nothing was written.
pub fn failures_are_told()
    ensures unread { (e : Ending) → IsDone Charts e → e.status ≡ 4 →
        Rose e.read_old e.read_new × Appends e.before e.after unread }
    ensures unwritten { (e : Ending) → IsDone Charts e → e.status ≡ 5 →
        Rose e.write_old e.write_new × (answer : Response)
        × IsAnswer e.words e.input e.read_old e.read_new answer
        × IsReadFor (WasQuiet answer) (WasRead answer) e.input e.left e.read_old e.read_new
        × (text : List ℕ) × Tells answer text × AppendsPart e.before e.after text }
    ensures memory { (e : Ending) → IsDone Charts e → e.status ≡ 6 → e.after ≡ e.before }
    ensures statuses { (e : Ending) → IsDone Charts e → IsStatus e.status }
{}
