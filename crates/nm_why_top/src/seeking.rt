//! The search for one run that ends as is sought: with a rank that waits, or with each rank at its end.

ghost use Rattle.std.specs.Prelude.{◌≡◌, ℕ, ◌<◌, ◌≤◌, ◌||◌, ◌++◌, ◌∷◌, [], IfOk, IsTrue, List, OnOk, Some};
ghost use Rattle.std.specs.Prelude.{false, is_some, length, slice_get};
ghost use Rattle.std.specs.Option.{option_map_or};
ghost use Rattle.nm_types.specs.declared.scripts.Line as the_line;
ghost use Rattle.nm_types.specs.Sizes.{Sizes};
ghost use Rattle.nm_explored.specs.Ends.{AreShort, all_told, told_in};
ghost use Rattle.nm_explored.specs.Met.{AreBack, IsMade};
ghost use Rattle.nm_explored.specs.Stores.{Grows, IsFirst};
ghost use Rattle.nm_explored.specs.Successors.{spot_in};
ghost use Rattle.nm_search.specs.Lists.{AddsOnly, Extends, Has};
ghost use Rattle.nm_why.specs.Hangs.{is_hung as is_hung_lem};
ghost use Rattle.nm_why_top.specs.declared.seeking.Sought as the_sought;
ghost use Rattle.nm_why_top.specs.Seeking.{AreAhead, IsSeen, IsSight, IsSought, IsSoughtIn, hung_at};

use nm_explored::choices::choices::{View, line_at};
use nm_explored::choices::moves::Turn;
use nm_explored::ends::{is_end, way_back};
use nm_explored::searches::{Search, Setting};
use nm_explored::stores::Unpacked;
use nm_outcomes::spots::looks::ran;
use nm_types::laws::commands_stand_at_their_lines;
use nm_types::{Memory, Script, Shape};
use std::alloc::Global;

/// How a run is to end.
#[derive(Clone, Copy)]
pub enum Sought {
    /// A rank waits.
    Hang,
    /// Each rank is at its end.
    End,
}

/// How the search for such a run ended.
#[derive(Clone, Copy)]
pub(crate) enum Sight {
    /// It ends at the state with this number.
    At { state: usize },
    /// There is none.
    Nowhere,
    /// It met more states than the limit.
    Open,
}

/// What is known of such a run.
#[derive(Drop)]
pub enum Seen {
    /// The moves of one, the newest first.
    By { path: Vec<Turn> },
    /// There is none.
    Never,
    /// The search met more states than the limit.
    Open,
}

/// Whether a rank of a state has a command left.
fn has_more(view: View, i: u8) -> bool
    requires { AreShort view.lines.now }
    ensures { result ≡ option_map_or (λ spot. is_some (told_in view.entry.lines.now i spot).waits)
        (spot_in view.entry.table.now view.entry.ids.now i) false }
{
    match view.rank(i) {
        Some(rank) => line_at(view.lines, i, ran(rank.deeds())).is_some(),
        None => false,
    }
}

/// Whether it has one, or one of those before it had.
fn has_more_too(view: View, i: u8, before: bool) -> bool
    requires { AreShort view.lines.now }
    ensures { result ≡ (before || option_map_or (λ spot. is_some (told_in view.entry.lines.now i spot).waits)
        (spot_in view.entry.table.now view.entry.ids.now i) false) }
{
    if before {
        return true;
    }
    has_more(view, i)
}

/// Whether a rank of a state has a command left.
fn has_one_more(view: View, ranks: u8) -> bool
    requires { AreShort view.lines.now }
    ensures { result ≡ is_hung_lem (all_told view.entry.lines.now
        (spot_in view.entry.table.now view.entry.ids.now) ranks) }
{
    let mut more = false;
    for i in 0..ranks {
        more = has_more_too(view, i, more);
    }
    more
}

/// Whether a rank of a state has a command left, or none has, as is sought.
fn fits(view: View, ranks: u8, sought: Sought) -> bool
    requires { AreShort view.lines.now }
    ensures fit { IsTrue result → is_hung_lem (all_told view.entry.lines.now
        (spot_in view.entry.table.now view.entry.ids.now) ranks) ≡ hung_at sought }
    ensures finds { is_hung_lem (all_told view.entry.lines.now
        (spot_in view.entry.table.now view.entry.ids.now) ranks) ≡ hung_at sought → IsTrue result }
{
    let more = has_one_more(view, ranks);
    match sought {
        Sought::Hang => more,
        Sought::End => !more,
    }
}

/// Whether a run that is sought ends at a state.
fn is_sought(view: View, ranks: u8, sought: Sought) -> bool
    requires { AreShort view.lines.now }
    ensures sought { IsTrue result → IsSought sought ranks view.entry.lines.now
        (spot_in view.entry.table.now view.entry.ids.now) }
    ensures finds { IsSought sought ranks view.entry.lines.now
        (spot_in view.entry.table.now view.entry.ids.now) → IsTrue result }
{
    if !is_end(view, ranks) {
        return false;
    }
    fits(view, ranks, sought)
}

/// Whether it ends where the ranks are in these states.
fn is_sought_at(of: Setting, sought: Sought, all: &Unpacked) -> bool
    requires { AreShort of.lines.now }
    ensures sought { IsTrue result → IsSought sought of.entry.ranks of.entry.lines.now
        (spot_in all.now.ranks.items all.now.places.items) }
    ensures finds { IsSought sought of.entry.ranks of.entry.lines.now
        (spot_in all.now.ranks.items all.now.places.items) → IsTrue result }
{
    let view = View {
        eager: of.eager,
        lines: of.lines,
        table: all.ranks.as_slice(),
        ids: all.places.as_slice(),
    };
    is_sought(view, of.ranks, sought)
}

/// Adds the numbers from one up to another one.
fn push_numbers(ahead: &mut Vec<usize>, from: usize, to: usize) -> Result<(), Memory>
    ensures kept { OnOk result (Extends ahead.old.items ahead.new.items) }
    ensures only { OnOk result (AddsOnly (λ k. k < to) ahead.old.items ahead.new.items) }
    ensures all { OnOk result ((k : ℕ) → from ≤ k → k < to → Has ahead.new.items k) }
{
    for k in from..to {
        ahead.push(k)?;
    }
    Ok(())
}

/// Adds the states that enough moves lead to from one, and has them looked at.
fn look(
    alloc: Global,
    of: Setting,
    k: usize,
    search: &mut Search,
    ahead: &mut Vec<usize>,
) -> Result<(), Memory>
    requires short { AreShort of.lines.now }
    requires low { k < length search.old.states }
    requires made { IsMade of.eager of.ranks of.lines.now search.old }
    requires back { AreBack of.eager of.ranks of.lines.now search.old }
    ensures grows { OnOk result (Grows search.old search.new) }
    ensures made { OnOk result (IsMade of.entry.eager of.entry.ranks of.entry.lines.now search.new) }
    ensures back { OnOk result (AreBack of.entry.eager of.entry.ranks of.entry.lines.now search.new) }
    ensures ahead { (sought : the_sought.Sought) →
        ((ids : List ℕ) → slice_get search.old.states k ≡ Some ids →
        IsSought sought of.entry.ranks of.entry.lines.now (spot_in search.old.table ids) → ⊥) →
        AreAhead sought of.entry.eager of.entry.ranks of.entry.lines.now search.old (ahead.old.items ++ k ∷ []) →
        OnOk result (AreAhead sought of.entry.eager of.entry.ranks of.entry.lines.now search.new ahead.new.items) }
{
    let before = search.states.as_slice().len();
    search.expand(alloc, of, k)?;
    let after = search.states.as_slice().len();
    push_numbers(ahead, before, after)?;
    Ok(())
}

/// Looks at the states that moves lead to, the newest first, until a run that is sought ends at one, or they are more
/// than the limit.
fn seek_in(
    alloc: Global,
    of: Setting,
    limit: u32,
    sought: Sought,
    search: &mut Search,
) -> Result<Sight, Memory>
    requires short { AreShort of.lines.now }
    requires first { IsFirst of.ranks search.old }
    requires made { IsMade of.eager of.ranks of.lines.now search.old }
    requires back { AreBack of.eager of.ranks of.lines.now search.old }
    ensures grows { OnOk result (Grows search.old search.new) }
    ensures made { OnOk result (IsMade of.entry.eager of.entry.ranks of.entry.lines.now search.new) }
    ensures back { OnOk result (AreBack of.entry.eager of.entry.ranks of.entry.lines.now search.new) }
    ensures sight { IfOk result
        (IsSight sought of.entry.eager of.entry.ranks of.entry.lines.now search.new) }
{
    let mut ahead: Vec<usize> = Vec::new(alloc);
    ahead.push(0)?;
    for _state in 0..limit {
        let Some(state) = ahead.pop() else {
            return Ok(Sight::Nowhere);
        };
        let all = search.state_at(alloc, state)?;
        if is_sought_at(of, sought, &all) {
            return Ok(Sight::At { state });
        }
        look(alloc, of, state, search, &mut ahead)?;
        if search.states.as_slice().len() > limit as usize {
            return Ok(Sight::Open);
        }
    }
    if ahead.is_empty() {
        Ok(Sight::Nowhere)
    } else {
        Ok(Sight::Open)
    }
}

/// .. of a script in these sizes.
fn seek_script(
    alloc: Global,
    script: &Script,
    shape: Shape,
    limit: u32,
    sought: Sought,
    search: &mut Search,
) -> Result<Sight, Memory>
    requires equal { shape.ranks ≡ script.now.ranks }
    requires first { IsFirst shape.ranks search.old }
    requires made { IsMade shape.eager shape.ranks script.now.lines search.old }
    requires back { AreBack shape.eager shape.ranks script.now.lines search.old }
    ensures grows { OnOk result (Grows search.old search.new) }
    ensures made { OnOk result (IsMade shape.eager shape.ranks script.now.lines search.new) }
    ensures back { OnOk result (AreBack shape.eager shape.ranks script.now.lines search.new) }
    ensures sight { IfOk result (IsSight sought shape.eager shape.ranks script.now.lines search.new) }
{
    let of = Setting {
        lines: script.lines.as_slice(),
        ranks: shape.ranks(),
        eager: shape.eager(),
    };
    seek_in(alloc, of, limit, sought, search)
}

/// The moves that lead to the state at which a run that is sought ends.
fn way_to(alloc: Global, search: &Search, state: usize) -> Result<Seen, Memory>
    ensures { (sought : the_sought.Sought) (shape : Sizes) (lines : List the_line.Line) →
        IsMade shape.eager shape.ranks lines search.now → AreBack shape.eager shape.ranks lines search.now →
        IsSoughtIn sought shape.ranks lines search.now state → IfOk result (IsSeen sought shape lines) }
{
    let path = way_back(alloc, search, state)?;
    Ok(Seen::By { path })
}

/// A run of a script that ends as is sought, if there is one. It is the first that is found.
pub fn seek(
    alloc: Global,
    script: &Script,
    shape: Shape,
    states: u32,
    sought: Sought,
) -> Result<Seen, Memory>
    requires { shape.ranks ≡ script.now.ranks }
    ensures { IfOk result (IsSeen sought shape script.now.lines) }
{
    commands_stand_at_their_lines();
    let mut search = Search::new(alloc, shape.ranks())?;
    match seek_script(alloc, script, shape, states, sought, &mut search)? {
        Sight::At { state } => way_to(alloc, &search, state),
        Sight::Nowhere => Ok(Seen::Never),
        Sight::Open => Ok(Seen::Open),
    }
}
