//! A search that looks at the newest state first, until a rank is stuck.

ghost use Rattle.std.specs.Prelude.{◌≡◌, ℕ, ◌+◌, ◌<◌, ◌≤◌, ◌&&◌, ◌++◌, ◌∷◌, [], true, IfOk, IsTrue, List, OnOk, Some};
ghost use Rattle.std.specs.Prelude.{is_none, length, slice_get};
ghost use Rattle.std.specs.List.{list_all};
ghost use Rattle.std.specs.Option.{option_map_or};
ghost use Rattle.nm_explored.specs.Ends.{AreShort, all_told, told_in};
ghost use Rattle.nm_explored.specs.Met.{AreBack, IsMade};
ghost use Rattle.nm_explored.specs.Stores.{AreLow, Grows, IsFirst, Shows};
ghost use Rattle.nm_explored.specs.Successors.{spot_in};
ghost use Rattle.nm_hangs.specs.Hunts.{AreNear, AreOpen, IsHunted, IsNearBy, IsNoted, IsStuckAt};

use crate::classes::Classes;
use nm_explored::choices::choices::{View, line_at};
use nm_explored::ends::is_end;
use nm_explored::searches::{Search, Setting};
use nm_explored::stores::{Table, Unpacked};
use nm_outcomes::spots::looks::ran;
use nm_types::Memory;
use std::alloc::Global;

/// How such a search ended.
#[derive(Clone, Copy)]
pub enum Hunted {
    /// At the state with this number no rank has a move left, and one waits.
    Stuck { state: usize },
    /// There is no such state.
    Never,
    /// It met more states than the limit.
    Open,
}

/// Whether a rank of a state has no command left.
fn is_done(view: View, i: u8) -> bool
    requires { AreShort view.lines.now }
    ensures { result ≡ option_map_or (λ spot. is_none (told_in view.entry.lines.now i spot).waits)
        (spot_in view.entry.table.now view.entry.ids.now i) true }
{
    match view.rank(i) {
        Some(rank) => line_at(view.lines, i, ran(rank.deeds())).is_none(),
        None => true,
    }
}

/// Whether it has none, and those before it had none.
fn is_done_too(view: View, i: u8, before: bool) -> bool
    requires { AreShort view.lines.now }
    ensures { result ≡ (before && option_map_or (λ spot. is_none (told_in view.entry.lines.now i spot).waits)
        (spot_in view.entry.table.now view.entry.ids.now i) true) }
{
    if !before {
        return false;
    }
    is_done(view, i)
}

/// Whether no rank of a state has a command left.
fn are_done(view: View, ranks: u8) -> bool
    requires { AreShort view.lines.now }
    ensures { result ≡ list_all (λ rank. is_none rank.waits) (all_told view.entry.lines.now
        (spot_in view.entry.table.now view.entry.ids.now) ranks) }
{
    let mut done = true;
    for i in 0..ranks {
        done = is_done_too(view, i, done);
    }
    done
}

/// Whether no rank of a state has a move left, and one waits.
fn is_stuck(view: View, ranks: u8) -> bool
    requires { AreShort view.lines.now }
    ensures stuck { IsTrue result → IsStuckAt ranks view.entry.lines.now
        (spot_in view.entry.table.now view.entry.ids.now) }
    ensures finds { IsStuckAt ranks view.entry.lines.now
        (spot_in view.entry.table.now view.entry.ids.now) → IsTrue result }
{
    if !is_end(view, ranks) {
        return false;
    }
    !are_done(view, ranks)
}

/// Whether it is so where the ranks are in these states.
fn is_stuck_at(of: Setting, all: &Unpacked) -> bool
    requires { AreShort of.lines.now }
    ensures stuck { IsTrue result → IsStuckAt of.entry.ranks of.entry.lines.now
        (spot_in all.now.ranks.items all.now.places.items) }
    ensures finds { IsStuckAt of.entry.ranks of.entry.lines.now
        (spot_in all.now.ranks.items all.now.places.items) → IsTrue result }
{
    let view = View {
        eager: of.eager,
        lines: of.lines,
        table: all.ranks.as_slice(),
        ids: all.places.as_slice(),
    };
    is_stuck(view, of.ranks)
}

/// A state that is to be looked at, with the number of its classes.
#[derive(Clone, Copy)]
pub struct Ahead {
    pub state: usize,
    pub classes: usize,
}

/// Notes a state with a number, to be looked at if none was met that goes on alike.
fn push_new(
    alloc: Global,
    of: Setting,
    table: &Table,
    near: &[u32],
    number: usize,
    ids: &[u32],
    n: usize,
    classes: &mut Classes,
    ahead: &mut Vec<Ahead>,
) -> Result<(), Memory>
    requires short { AreShort of.lines.now }
    requires low { AreLow table.now ids.now }
    requires near { (own : List ℕ) → slice_get classes.old number ≡ Some own →
        AreNear of.lines.now table.now near.now own }
    ensures { OnOk result (IsNoted of.entry.lines.now table.now ids.now n classes.old classes.new
        ahead.old.items ahead.new.items) }
{
    let count = classes.len();
    if classes.note(alloc, of.lines, table, near, number, ids)? {
        ahead.push(Ahead {
            state: n,
            classes: count,
        })?;
    }
    Ok(())
}

/// Notes the state with a number, which comes of one that was looked at.
fn push_state(
    alloc: Global,
    of: Setting,
    search: &Search,
    near: Ahead,
    n: usize,
    classes: &mut Classes,
    ahead: &mut Vec<Ahead>,
) -> Result<(), Memory>
    requires short { AreShort of.lines.now }
    requires made { IsMade of.eager of.ranks of.lines.now search.now }
    requires near { (ids own : List ℕ) → slice_get search.now.states near.state ≡ Some ids →
        slice_get classes.old near.classes ≡ Some own → AreNear of.lines.now search.now.table ids own }
    ensures { OnOk result ((ids : List ℕ) → slice_get search.now.states n ≡ Some ids →
        IsNoted of.entry.lines.now search.now.table ids n classes.old classes.new
        ahead.old.items ahead.new.items) }
{
    push_new(
        alloc,
        of,
        &search.table,
        search.ids_of(near.state),
        near.classes,
        search.ids_of(n),
        n,
        classes,
        ahead,
    )
}

/// Notes the states with the numbers from one up to another one, which come of one that was looked at.
fn push_states(
    alloc: Global,
    of: Setting,
    search: &Search,
    near: Ahead,
    from: usize,
    to: usize,
    classes: &mut Classes,
    ahead: &mut Vec<Ahead>,
) -> Result<(), Memory>
    requires short { AreShort of.lines.now }
    requires made { IsMade of.eager of.ranks of.lines.now search.now }
    requires near { IsNearBy of.lines.now search.now classes.old near }
    requires order { from ≤ to }
    requires there { to ≤ length search.now.states }
    requires ahead { AreOpen of.eager of.ranks of.lines.now search.now classes.old ahead.old.items from }
    ensures noted { OnOk result (AreOpen of.entry.eager of.entry.ranks of.entry.lines.now search.now classes.new
        ahead.new.items to) }
    ensures count { OnOk result (length ahead.new.items + from ≤ length ahead.old.items + to) }
{
    for n in from..to {
        push_state(alloc, of, search, near, n, classes, ahead)?;
    }
    Ok(())
}

/// Adds the states that enough moves lead to from one, at which the ranks are in these states, and notes them.
fn look(
    alloc: Global,
    of: Setting,
    near: Ahead,
    all: &Unpacked,
    search: &mut Search,
    classes: &mut Classes,
    ahead: &mut Vec<Ahead>,
) -> Result<(), Memory>
    requires short { AreShort of.lines.now }
    requires made { IsMade of.eager of.ranks of.lines.now search.old }
    requires back { AreBack of.eager of.ranks of.lines.now search.old }
    requires shown { Shows search.old near.state all.now }
    requires free { (ids : List ℕ) → slice_get search.old.states near.state ≡ Some ids →
        IsStuckAt of.ranks of.lines.now (spot_in search.old.table ids) → ⊥ }
    requires ahead { AreOpen of.eager of.ranks of.lines.now search.old classes.old
        (ahead.old.items ++ near ∷ []) (length search.old.states) }
    ensures grows { OnOk result (Grows search.old search.new) }
    ensures made { OnOk result (IsMade of.entry.eager of.entry.ranks of.entry.lines.now search.new) }
    ensures back { OnOk result (AreBack of.entry.eager of.entry.ranks of.entry.lines.now search.new) }
    ensures ahead { OnOk result (AreOpen of.entry.eager of.entry.ranks of.entry.lines.now search.new classes.new
        ahead.new.items (length search.new.states)) }
    ensures count { OnOk result (length ahead.new.items + length search.old.states
        ≤ length ahead.old.items + length search.new.states) }
{
    let before = search.states.as_slice().len();
    search.expand_from(alloc, of, near.state, all)?;
    let after = search.states.as_slice().len();
    push_states(alloc, of, search, near, before, after, classes, ahead)?;
    Ok(())
}

/// Looks at the states that moves lead to, the newest first, until a rank is stuck at one, or they are more than the
/// limit. Of states that go on alike it looks at one.
pub fn hunt(alloc: Global, of: Setting, limit: u32, search: &mut Search) -> Result<Hunted, Memory>
    requires short { AreShort of.lines.now }
    requires first { IsFirst of.ranks search.old }
    requires made { IsMade of.eager of.ranks of.lines.now search.old }
    requires back { AreBack of.eager of.ranks of.lines.now search.old }
    ensures grows { OnOk result (Grows search.old search.new) }
    ensures made { OnOk result (IsMade of.entry.eager of.entry.ranks of.entry.lines.now search.new) }
    ensures back { OnOk result (AreBack of.entry.eager of.entry.ranks of.entry.lines.now search.new) }
    ensures hunted { IfOk result
        (IsHunted of.entry.eager of.entry.ranks of.entry.lines.now limit search.new) }
{
    let mut classes = Classes::new(alloc);
    let mut ahead: Vec<Ahead> = Vec::new(alloc);
    let mut all = Unpacked::none(alloc);
    let first = Ahead {
        state: 0,
        classes: 0,
    };
    push_state(alloc, of, search, first, 0, &mut classes, &mut ahead)?;
    for _state in 0..limit {
        let Some(next) = ahead.pop() else {
            return Ok(Hunted::Never);
        };
        search.show(alloc, next.state, &mut all)?;
        if is_stuck_at(of, &all) {
            return Ok(Hunted::Stuck { state: next.state });
        }
        look(alloc, of, next, &all, search, &mut classes, &mut ahead)?;
        if search.states.as_slice().len() > limit as usize {
            return Ok(Hunted::Open);
        }
    }
    if ahead.is_empty() {
        Ok(Hunted::Never)
    } else {
        Ok(Hunted::Open)
    }
}
