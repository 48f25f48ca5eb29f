//! What follows from the lists of shapes. Each law is the contract of a function that does nothing.

ghost use Rattle.std.specs.Prelude.{◌≡◌, ℕ, ◌≤◌, ◌<◌, ◌+◌, ◌⊎◌, ◌++◌, true, false, List, [], ◌∷◌, Some, None, slice_get};
ghost use Rattle.std.specs.Prelude.{Contains, filter, get_or, length, map, replicate};
ghost use Rattle.std.specs.List.{AllByRecursion, list_any};
ghost use Rattle.nm_types.specs.declared.messages.Arrival.{Arrival};
ghost use Rattle.nm_types.specs.declared.scripts.Line.{Line};
ghost use Rattle.nm_types.specs.Sizes.{Sizes};
ghost use Rattle.nm_history.specs.declared.events.Event.{Event};
ghost use Rattle.nm_history.specs.declared.events.Happened.{Happened};
ghost use Rattle.nm_history.specs.declared.events.Happened.TheVariants as what;
ghost use Rattle.nm_history.specs.AtEach.{AtEach};
ghost use Rattle.nm_history.specs.RankRun.{StampAt};
ghost use Rattle.nm_report.specs.declared.accounts.RankAccount.{RankAccount};
ghost use Rattle.nm_report.specs.declared.records.RunRecord.{RunRecord};
ghost use Rattle.nm_report.specs.Lawful.{IsRunIn};
ghost use Rattle.nm_diagram.specs.declared.anchors.Anchor.TheVariants as anchor;
ghost use Rattle.nm_diagram.specs.Anchors.{first_stamp};
ghost use Rattle.nm_diagram.specs.Diagrams.{all_arrows, all_marks, arrows_at, mark_of, marks_of};
ghost use Rattle.nm_diagram.specs.declared.frames.Frame.{Frame};
ghost use Rattle.nm_diagram.specs.declared.frames.Part.{Part};
ghost use Rattle.nm_diagram.specs.declared.frames.Span.{Span};
ghost use Rattle.nm_diagram.specs.Frames.{IsFrame, IsIn, full_rows, has_more, is_shown, shown_count};
ghost use Rattle.nm_diagram.specs.Joined.{HasOneArrow, IsOfMessage, IsSentBefore, Rise};
ghost use Rattle.nm_diagram.specs.Legend.{is_used, legend_of};
ghost use Rattle.nm_diagram.specs.Labels.{labelled, labels_of};
ghost use Rattle.nm_diagram.specs.Left.{all_rings};
ghost use Rattle.nm_diagram.specs.Links.{all_links};
ghost use Rattle.nm_diagram.specs.Returns.{IsOfWithdrawal, all_returns};
ghost use Rattle.nm_diagram.specs.declared.signs.Sign.TheVariants as sign;
ghost use Rattle.nm_diagram.specs.Signs.{way_of};

/// Each event that is shown has exactly one mark, in the lane of its rank. The marks of a rank
/// stand in the order of its history, so their stamps rise where those of its events do.
pub fn each_event_has_one_mark()
    ensures lane { (span : Span) (rank : ℕ) (account : RankAccount) → marks_of span rank account
        ≡ map (mark_of rank) (filter (is_shown span) account.history.events) }
    ensures count { (span : Span) (ranks : List RankAccount) →
        length (all_marks span ranks) ≡ shown_count span ranks }
    ensures rise { (span : Span) (rank : ℕ) (account : RankAccount) →
        Rise 0 (map (λ e. e.stamp) account.history.events) →
        Rise 0 (map (λ m. m.stamp) (marks_of span rank account)) }
{}

/// Each event that is shown has exactly one label, in the lane of its rank.
pub fn each_event_has_one_label()
    ensures { (span : Span) (rank : ℕ) (account : RankAccount) → labels_of span rank account
        ≡ map (labelled rank) (filter (is_shown span) account.history.events) }
{}

/// Each sign that stands in the picture is one of the legend's: that of each mark, the way of each
/// arrow and of each withdrawal, what a link and a ring tell, and that of a command that can't go
/// on. The legend has no other sign.
pub fn each_sign_is_explained()
    ensures marks { (span : Span) (ranks : List RankAccount) →
        AllByRecursion (λ mark. Contains (legend_of span ranks) mark.sign) (all_marks span ranks) }
    ensures arrows { (span : Span) (ranks : List RankAccount) → AllByRecursion
        (λ arrow. Contains (legend_of span ranks) (way_of arrow.how)) (all_arrows span ranks) }
    ensures links { (span : Span) (ranks : List RankAccount) → AllByRecursion
        (λ link. Contains (legend_of span ranks) sign.Taken) (all_links span ranks) }
    ensures returns { (span : Span) (ranks : List RankAccount) → AllByRecursion
        (λ way. Contains (legend_of span ranks) sign.BackWay) (all_returns span ranks) }
    ensures rings { (span : Span) (ranks : List RankAccount) → AllByRecursion
        (λ ring. Contains (legend_of span ranks) sign.Left) (all_rings span ranks) }
    ensures waits { (span : Span) (ranks : List RankAccount) (account : RankAccount) →
        Contains ranks account → ¬ (account.waits ≡ None) →
        Contains (legend_of span ranks) sign.Waits }
    ensures used { (span : Span) (ranks : List RankAccount) →
        AllByRecursion (λ sign. is_used span ranks sign ≡ true) (legend_of span ranks) }
{}

/// A row is full exactly where some rank has an event there that tells more than that a command was
/// started.
pub fn each_full_row_tells_more()
    ensures { (ranks : List RankAccount) (top row : ℕ) → row < 1024 →
        get_or (full_rows top (replicate 1024 false) ranks) row false
        ≡ list_any (has_more (top + row + 1)) ranks }
{}

/// Each arrow goes from the send of a message to its arrival, and both are shown.
pub fn each_arrow_is_of_a_message()
    ensures { (span : Span) (ranks : List RankAccount) →
        AllByRecursion (IsOfMessage span ranks) (all_arrows span ranks) }
{}

/// Each way of a withdrawal goes from the asking for it to the withdrawal, or from there to its
/// answer.
pub fn each_return_is_of_a_withdrawal()
    ensures { (span : Span) (ranks : List RankAccount) →
        AllByRecursion (IsOfWithdrawal span ranks) (all_returns span ranks) }
{}

/// An arrival that is shown has exactly one arrow, from the send of its message, where stamps rise
/// at the sender and the picture has room for what it shows. No other event has one.
pub fn each_arrival_has_one_arrow()
    ensures arrival { (span : Span) (rank stamp sent : ℕ) (ranks : List RankAccount) (sender : RankAccount)
        (a : Arrival) → IsIn span stamp → shown_count span ranks ≤ 20000 →
        slice_get ranks a.env.from ≡ Some sender →
        Rise 0 (map (λ e. e.stamp) sender.history.events) →
        first_stamp span (anchor.Send rank a.n) sender.history.events ≡ Some sent →
        arrows_at span ranks rank (record { stamp = stamp; what = what.Arrive a })
        ≡ record {
          from = a.env.from;
          sent = sent;
          to = rank;
          arrived = stamp;
          n = a.n;
          how = a.env.how;
        } ∷ [] }
    ensures other { (span : Span) (rank : ℕ) (ranks : List RankAccount) (event : Event) →
        ((a : Arrival) → ¬ (event.what ≡ what.Arrive a)) → arrows_at span ranks rank event ≡ [] }
{}

/// In the run of a script each arrival that is shown has one arrow, and it comes from an earlier
/// stamp, unless its message was sent before the first stamp of the part that is shown.
pub fn each_message_goes_forward()
    ensures { (shape : Sizes) (lines : List Line) (run : RunRecord) (part : Part) (frame : Frame) →
        IsRunIn shape lines run → IsFrame part run.ranks frame →
        (rank stamp : ℕ) (receiver : RankAccount)
        (a : Arrival) (before after : List Event) → slice_get run.ranks rank ≡ Some receiver →
        receiver.history.events ≡ before ++ record { stamp = stamp; what = what.Arrive a } ∷ after →
        IsIn frame.span stamp → (IsSentBefore frame.span.first run.ranks rank a
        ⊎ HasOneArrow frame.span run.ranks rank stamp a) }
{}

/// The stamps of a rank's run rise, by the rule of its clock.
pub fn stamps_of_a_run_rise()
    ensures { (h : List Event) → AtEach (λ before e. StampAt before e.stamp) h →
        Rise 0 (map (λ e. e.stamp) h) }
{}
