//! Laws of ports. Each is the contract of a function that does nothing.

ghost use Rattle.std.specs.Prelude.{◌≡◌, ◌<◌, ℕ, Bool, Some, List, [], length, map, slice_get};
ghost use Rattle.nm_types.specs.declared.packets.Path.{Path};
ghost use Rattle.nm_chain.specs.declared.table.parcels.Parcel.{Parcel};
ghost use Rattle.nm_cells.specs.declared.closed.Closed.{Closed};
ghost use Rattle.nm_cells.specs.declared.port.Fabric.{Fabric};
ghost use Rattle.nm_cells.specs.declared.port.Port.{Port};
ghost use Rattle.nm_cells.specs.Ports.{IsNew, knows, sent_by, taken_by};
ghost use Rattle.nm_cells.specs.PathLists.{Begins};
ghost use Rattle.nm_cells.specs.ClosedLists.{entries, ranks_of, sent_list, taken_list};
ghost use Rattle.nm_port.specs.CarriedPackets.{HasPassed, HasSent, one_more};
ghost use Rattle.nm_port.specs.Polls.{Polls, PollsNone};
ghost use Rattle.nm_port.specs.Sends.{HasNoWay, SendsBy};

/// A new port sent nothing and passed nothing on (`Fabric::build`).
pub fn a_new_port_carries_nothing<I, B>()
    ensures sent { (seen : Parcel I → B) (f : Fabric I) (p : Port I) (k j : ℕ) → IsNew f p k →
        HasSent seen (knows p) j [] }
    ensures passed { (seen : Parcel I → B) (f : Fabric I) (p : Port I) (k i : ℕ) → IsNew f p k →
        HasPassed seen (knows p) (taken_by p i) i [] }
{}

/// By a send the parcel comes behind the others for its receiver (`nm_port::send`).
pub fn a_send_carries<I, B>()
    ensures some { (seen : Parcel I → B) (way : Path) (fits : Bool) (to : ℕ) (p : Parcel I)
        (old new : Port I) (j : ℕ) (bs : List B) → SendsBy way fits to p old new →
        p.seq ≡ sent_by old to → HasSent seen (knows old) j bs →
        HasSent seen (knows new) j (one_more to j (seen p) bs) }
    ensures none { (seen : Parcel I → B) (fits : Bool) (to : ℕ) (old new : Port I) (j : ℕ)
        (bs : List B) → HasNoWay fits to old new → HasSent seen (knows old) j bs →
        HasSent seen (knows new) j bs }
{}

/// By a poll the parcel comes behind the others of its sender (`nm_port::poll`).
pub fn a_poll_carries<I, B>()
    ensures some { (seen : Parcel I → B) (f : Fabric I) (old new : Port I) (p : Parcel I) (i : ℕ)
        (bs : List B) → Polls f old new p → HasPassed seen (knows old) (taken_by old i) i bs →
        HasPassed seen (knows new) (taken_by new i) i (one_more p.from i (seen p) bs) }
    ensures none { (seen : Parcel I → B) (old new : Port I) (i : ℕ) (bs : List B) →
        PollsNone old new → HasPassed seen (knows old) (taken_by old i) i bs →
        HasPassed seen (knows new) (taken_by new i) i bs }
{}

/// At the end these are the lists of the closed fabric (`Fabric::close`).
pub fn a_close_carries<I, B>()
    ensures sent { (seen : Parcel I → B) (c : Closed I) (ports : List (Port I)) (i j : ℕ) (p : Port I)
        (bs : List B) → entries c ≡ map knows ports → slice_get ports i ≡ Some p →
        length (sent_list c i j) ≡ sent_by p j → HasSent seen (knows p) j bs →
        map seen (sent_list c i j) ≡ bs }
    ensures taken { (seen : Parcel I → B) (c : Closed I) (ports : List (Port I)) (i j : ℕ) (p : Port I)
        (bs : List B) → entries c ≡ map knows ports → slice_get ports j ≡ Some p → i < ranks_of c →
        length (taken_list c i j) ≡ taken_by p i → HasPassed seen (knows p) (taken_by p i) i bs →
        map seen (taken_list c i j) ≡ bs }
    ensures whole { (c : Closed I) (i j : ℕ) → Begins (taken_list c i j) (sent_list c i j) →
        length (taken_list c i j) ≡ length (sent_list c i j) →
        taken_list c i j ≡ sent_list c i j }
{}
