//! Laws of the ranks of a world. Each is the contract of a function that does nothing.

ghost use Rattle.std.specs.Prelude.{◌≡◌, List, length};
ghost use Rattle.std.specs.List.{AllZip};
ghost use Rattle.nm_types.specs.Sizes.{Sizes};
ghost use Rattle.nm_handle.specs.declared.handles.Handle.{Handle};
ghost use Rattle.nm_handle.specs.Standing.{HasTurned};
ghost use Rattle.nm_handle.specs.Worlds.{AreInOrder, AreOfOneWorld, AreWorld, IsSameRank};

/// What calls, turns and closes leave of the ranks of a world are the ranks of that world.
pub fn a_world_stays()
    ensures { (shape : Sizes) (old new : List Handle) → AreWorld shape old → AllZip IsSameRank old new →
        AreWorld shape new }
{}

/// Ranks of one world, each after a turn, are all of it where they are as many and in order.
pub fn all_in_order_are_a_world()
    ensures { (old new : List Handle) (w : AreOfOneWorld old) → AllZip HasTurned old new → AreInOrder 0 new →
        length new ≡ w.shape.ranks → AreWorld w.shape new }
{}
