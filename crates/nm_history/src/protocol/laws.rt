//! Laws of the protocol. Each is the contract of a function that does nothing.

ghost use Rattle.std.specs.Prelude.{◌≡◌, ◌≢◌, ℕ, ◌+◌, false, Option, List, [], ◌++◌};
ghost use Rattle.std.specs.List.{AllByRecursion};
ghost use Rattle.nm_types.specs.declared.packets.Piece.{Piece};
ghost use Rattle.nm_history.specs.declared.events.Event.{Event};
ghost use Rattle.nm_history.specs.RankRun.{Always, EndAt, NumberAt, WholeAt};
ghost use Rattle.nm_history.specs.Agreement.{Agrees, tells};
ghost use Rattle.nm_history.specs.Effects.{happenings, taken_events};
ghost use Rattle.nm_history.specs.Known.{Known, Taken, known_after, nothing_known};
ghost use Rattle.nm_history.specs.Pieces.{Due, piece_makes};
ghost use Rattle.nm_history.specs.Rules.{AreRight, ClaimedAt};

/// What is known of a rank agrees with the history of the rank that takes its packets: a packet, a
/// stray too, a packet of another rank, a piece and each event that comes of no packet of this rank
/// keep that.
pub fn known_agrees()
    ensures none { (from : ℕ) → Agrees from [] nothing_known }
    ensures packet { (from : ℕ) (h events : List Event) (known : Known) (t : Taken) →
        t.packet.from ≡ from → happenings events ≡ taken_events known h t →
        Agrees from h known → Agrees from (h ++ events) (known_after known t) }
    ensures elsewhere { (from : ℕ) (h events : List Event) (known others : Known) (t : Taken) →
        t.packet.from ≢ from → happenings events ≡ taken_events others h t →
        Agrees from h known → Agrees from (h ++ events) known }
    ensures piece { (from sender : ℕ) (h events : List Event) (known : Known)
        (due : Option Due) (q : Piece) → happenings events ≡ piece_makes sender due q →
        Agrees from h known → Agrees from (h ++ events) known }
    ensures other { (from : ℕ) (h events : List Event) (known : Known) →
        AllByRecursion (λ w. tells from w ≡ false) (happenings events) →
        Agrees from h known → Agrees from (h ++ events) known }
{}

/// Right events followed by right ones are right. A history of right events keeps the rules of numbers,
/// of claims, of what is whole, and of ends.
pub fn right_events_go_on()
    ensures more { (ranks : ℕ) (h events more : List Event) → AreRight ranks h events →
        AreRight ranks (h ++ events) more → AreRight ranks h (events ++ more) }
    ensures numbers { (ranks : ℕ) (h : List Event) → AreRight ranks [] h →
        Always (NumberAt ranks) h }
    ensures claims { (ranks : ℕ) (h : List Event) → AreRight ranks [] h → Always ClaimedAt h }
    ensures wholes { (ranks : ℕ) (h : List Event) → AreRight ranks [] h → Always WholeAt h }
    ensures ends { (ranks : ℕ) (h : List Event) → AreRight ranks [] h → Always EndAt h }
{}
