//! Worked runs: small scripts with the histories of their ranks, each held against the definitions.
//!
//! # What is proved
//! - `right_runs`: each of these runs is a run of its script, by every rule at once.
//! - `wrong_runs`: each of these breaks the rule that its name tells.
//! - `packets_and_pieces`: how messages of some lengths are cut.
//! - `limits`: the limits that contracts cite by name (`nm_types`) are these numbers.
//!
//! A run stands in `specs/` under its name (`RightRuns`, `WrongRuns`), with words of what it shows.

ghost use Rattle.std.specs.Prelude.{◌≡◌, ◌-◌, ◌^◌, false, [], ◌∷◌};
ghost use Rattle.nm_types.specs.declared.limits.TheConstants.{MAX_BODIES, MAX_BODY, MAX_BOX};
ghost use Rattle.nm_types.specs.declared.limits.TheConstants.{MAX_CAPACITY, MAX_CELLS, MAX_CONTEXT};
ghost use Rattle.nm_types.specs.declared.limits.TheConstants.{MAX_EAGER, MAX_LINES, MAX_NAME};
ghost use Rattle.nm_types.specs.declared.limits.TheConstants.{MAX_PACKETS, MAX_PAYLOAD, MAX_PIECE};
ghost use Rattle.nm_types.specs.declared.limits.TheConstants.{MAX_RANKS, MAX_STAMP};
ghost use Rattle.nm_types.specs.declared.limits.TheConstants.{MAX_TAG, MAX_TEXT};
ghost use Rattle.nm_types.specs.declared.messages.How.TheVariants.{Eager, Ask};
ghost use Rattle.nm_types.specs.declared.packets.What.TheVariants as what;
ghost use Rattle.nm_history.specs.Outgoing.{bare, send_packets, send_pieces};
ghost use Rattle.nm_channels.specs.CalledInTurn as called_in_turn;
ghost use Rattle.nm_channels.specs.Cutting.{body_of, kinds, lengths, packets, pieces, places, send_of};
ghost use Rattle.nm_channels.specs.Cutting.{sizes};
ghost use Rattle.nm_channels.specs.RightRuns.{IsRun, Right};
ghost use Rattle.nm_channels.specs.WrongRuns.{KeepsRule, Wrong};

/// Each of these runs is a run of its script.
pub fn right_runs()
    ensures { (run : Right) → IsRun run }
{}

/// Each of these histories breaks the rule that its name tells.
pub fn wrong_runs()
    ensures { (run : Wrong) → ¬ KeepsRule run }
{}

/// How messages of some lengths are cut, and in which order packets and pieces are called for.
pub fn packets_and_pieces()
    ensures empty { packets 0 ≡ record { stamp = 1; what = what.Head 9 0 0; payload = [] } ∷ [] }
    ensures two_bytes { packets 2
        ≡ record { stamp = 1; what = what.Head 9 0 2; payload = 7 ∷ 38 ∷ [] } ∷ [] }
    ensures one_cell { lengths (packets 256) ≡ 256 ∷ [] }
    ensures two_cells { lengths (packets 257) ≡ 256 ∷ 1 ∷ [] }
    ensures three_cells { lengths (packets 600) ≡ 256 ∷ 256 ∷ 88 ∷ [] }
    ensures three_kinds { kinds (packets 600)
        ≡ what.Head 9 0 600 ∷ what.More 3 ∷ what.More 3 ∷ [] }
    ensures asking { send_packets (send_of 1048576 Ask) []
        ≡ record { stamp = 1; what = what.Ask 9 0 1048576; payload = [] } ∷ [] }
    ensures no_piece { pieces 0 ≡ [] }
    ensures one_piece { sizes (pieces 1024) ≡ 1024 ∷ [] }
    ensures three_pieces { sizes (pieces 2049) ≡ 1024 ∷ 1024 ∷ 1 ∷ [] }
    ensures three_places { places (pieces 2049) ≡ 0 ∷ 1024 ∷ 2048 ∷ [] }
    ensures eager_has_none { send_pieces body_of (send_of 700 Eager) ≡ [] }
    ensures packets_in_turn { called_in_turn.packets
        ≡ bare 1 (what.Ask 4 0 1)
        ∷ bare 7 (what.Withdraw 0)
        ∷ bare 9 (what.Withdrawn 0 false)
        ∷ bare 10 (what.Clear 0) ∷ [] }
    ensures pieces_in_turn { called_in_turn.pieces ≡ record { n = 0; at = 0; bytes = 10 ∷ [] } ∷ [] }
{}

/// The limits of scripts, messages and runs, as numbers.
pub fn limits()
    ensures ranks { MAX_RANKS ≡ 64 }
    ensures cells { MAX_CELLS ≡ 64 }
    ensures eager { MAX_EAGER ≡ 4096 }
    ensures payload { MAX_PAYLOAD ≡ 256 }
    ensures fastbox { MAX_BOX ≡ 64 }
    ensures piece { MAX_PIECE ≡ 1024 }
    ensures tag { MAX_TAG ≡ 32767 }
    ensures context { MAX_CONTEXT ≡ 255 }
    ensures name { MAX_NAME ≡ 65535 }
    ensures capacity { MAX_CAPACITY ≡ 1048576 }
    ensures body { MAX_BODY ≡ 1048576 }
    ensures bodies { MAX_BODIES ≡ 67108864 }
    ensures text { MAX_TEXT ≡ 8388608 }
    ensures lines { MAX_LINES ≡ 65536 }
    ensures packets { MAX_PACKETS ≡ 2 ^ 60 }
    ensures stamp { MAX_STAMP ≡ 2 ^ 62 - 1 }
{}
