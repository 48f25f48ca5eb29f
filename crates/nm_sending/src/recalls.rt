//! What was recalled of the messages to one rank.

ghost use Rattle.std.specs.Prelude.{◌≡◌, ◌<◌, [], ◌∷◌, ◌++◌, Some, None, nat_eq, IfOk, IsSome, OnOk};
ghost use Rattle.std.specs.Map.{lookup, set_value};
ghost use Rattle.indexmap.specs.IndexMap.{spare as room_in};

use indexmap::IndexMap;
use nm_types::Memory;
use std::alloc::Global;
use std::marker::Model;

/// The recalls of messages, each by its message's number, with its answer if it came back. To most ranks nothing
/// is recalled, so the map is made for the first.
pub(crate) struct Recalls {
    map: Option<Box<IndexMap<u64, Option<bool>>>>,
    alloc: Global,
}

impl Drop for Recalls {
    fn drop(self) {
        let Recalls { map: _, alloc: _ } = self;
    }
}

impl Model for Recalls {
    ghost use Rattle.std.specs.Prelude.{[]};
    ghost use Rattle.std.specs.Option.{option_map_or};
    ghost use Rattle.indexmap.specs.IndexMap.{spare as room_in};
    ghost use Rattle.nm_sending.specs.Rows.{RecallsView};

    ghost Value = { RecallsView };

    ghost view = { λ r. record {
      entries = option_map_or (λ map. map.value.entries) r.map [];
      spare = option_map_or (λ map. room_in map.value) r.map 0;
    } };
}

/// A map without recalls, with room for one.
fn room_for_one(alloc: Global) -> Result<Box<IndexMap<u64, Option<bool>>>, Memory>
    ensures entries { IfOk result (λ map. map.value.entries ≡ []) }
    ensures room { IfOk result (λ map. 0 < room_in map.value) }
{
    let mut map = IndexMap::new(alloc);
    map.reserve(1)?;
    Ok(Box::new(alloc, map)?)
}

/// Makes room for one recall more.
fn make_room(map: &mut IndexMap<u64, Option<bool>>) -> Result<(), Memory>
    ensures entries { map.new.entries ≡ map.old.entries }
    ensures room { OnOk result (0 < room_in map.new) }
{
    map.reserve(1)?;
    Ok(())
}

/// Notes a recall behind those of the map. There is room for it.
fn note(map: &mut IndexMap<u64, Option<bool>>, n: u64)
    requires room { 0 < room_in map.old }
    requires is_new { lookup (nat_eq n) map.old.entries ≡ None }
    ensures { map.new.entries ≡ map.old.entries ++ (n, None) ∷ [] }
{
    let Ok(_before) = map.insert(n, None) else {
        unreachable!()
    };
}

impl Recalls {
    /// Nothing was recalled.
    pub(crate) fn new(alloc: Global) -> Self
        ensures { result.entries ≡ [] }
    {
        Recalls { map: None, alloc }
    }

    /// The recall of a message, with its answer if it came back.
    pub(crate) fn get(&self, n: u64) -> Option<Option<bool>>
        ensures { result ≡ lookup (nat_eq n) self.now.entries }
    {
        match &self.map {
            Some(map) => map.get(&n).copied(),
            None => None,
        }
    }

    /// Makes room for one recall more.
    pub(crate) fn reserve(&mut self) -> Result<(), Memory>
        ensures entries { self.new.entries ≡ self.old.entries }
        ensures room { OnOk result (0 < self.new.spare) }
    {
        match &mut self.map {
            Some(map) => make_room(map),
            None => {
                self.map = Some(room_for_one(self.alloc)?);
                Ok(())
            }
        }
    }

    /// Notes a recall behind the others. There is room for it.
    pub(crate) fn add(&mut self, n: u64)
        requires room { 0 < self.old.spare }
        requires is_new { lookup (nat_eq n) self.old.entries ≡ None }
        ensures { self.new.entries ≡ self.old.entries ++ (n, None) ∷ [] }
    {
        if let Some(map) = &mut self.map {
            note(map, n);
        }
    }

    /// Notes the answer of a recall.
    pub(crate) fn answer(&mut self, n: u64, done: bool)
        requires { IsSome (lookup (nat_eq n) self.old.entries) }
        ensures { self.new.entries ≡ set_value (nat_eq n) self.old.entries (Some done) }
    {
        if let Some(map) = &mut self.map {
            *map.get_mut(&n).unwrap() = Some(done);
        }
    }
}
