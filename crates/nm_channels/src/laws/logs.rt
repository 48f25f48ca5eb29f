//! How a log grows.

ghost use Rattle.std.specs.Prelude.{◌≡◌, ℕ, List, [], ◌∷◌, ◌++◌, fold};
ghost use Rattle.std.specs.List.{cons_option};
ghost use Rattle.nm_types.specs.Commands.{Numbered};
ghost use Rattle.nm_history.specs.Sends.{Sent};
ghost use Rattle.nm_history.specs.Known.{known_by, known_after};
ghost use Rattle.nm_channels.specs.Moments.{LogEntry, history_of, taken_from, taken_of, pulled_from};
ghost use Rattle.nm_channels.specs.Moments.{pulled_of, clock_of, clock_after};
ghost use Rattle.nm_channels.specs.Sound.{AreSound, MayHappen};

/// The moments of a rank, one after another: the log stays sound, and its history, its clock, what
/// is known of each other rank and the pieces taken of it grow by those of the moment.
pub fn moments_go_on()
    ensures sound { (eager : ℕ) (bodies : Sent → List ℕ) (commands : List Numbered)
        (log : List LogEntry) (m : LogEntry) → AreSound eager bodies commands log →
        MayHappen eager bodies commands log m → AreSound eager bodies commands (log ++ m ∷ []) }
    ensures history { (log : List LogEntry) (m : LogEntry) →
        history_of (log ++ m ∷ []) ≡ history_of log ++ m.events }
    ensures clock { (log : List LogEntry) (m : LogEntry) →
        clock_of (log ++ m ∷ []) ≡ clock_after (clock_of log) m }
    ensures known { (log : List LogEntry) (m : LogEntry) (i : ℕ) →
        known_by (taken_from i (log ++ m ∷ []))
        ≡ fold known_after (known_by (taken_from i log)) (cons_option (taken_of i m.cause) []) }
    ensures pulled { (log : List LogEntry) (m : LogEntry) (i : ℕ) →
        pulled_from i (log ++ m ∷ [])
        ≡ pulled_from i log ++ cons_option (pulled_of i m.cause) [] }
{}
