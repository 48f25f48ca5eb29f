//! Items that are split among crews, each in a thread of its own where one can be made.

ghost use Rattle.std.specs.Prelude.{◌<◌, ◌++◌, Bool, List, IfOk};
ghost use Rattle.std.specs.List.{All};
ghost use Rattle.std.specs.Thread.{IsSend, IsSync};
ghost use Rattle.nm_crews.specs.Crews.{HaveTold};

use nm_types::Memory;
use std::thread::{Threads, join_mut};

/// What a crew does to its items.
pub trait Work<T> {
    // The item stands.
    ghost stands: { Self → T → Type 0 };

    // A crew answered this at these items, and left them so.
    ghost told: { Self → Bool → List T → List T → Type 0 };

    /// How many items so many crews have, from this one on.
    fn count(&self, first: usize, crews: usize) -> usize;

    /// The turns of a crew, which has these items.
    fn turns(&self, crew: usize, items: &mut [T]) -> Result<bool, Memory>
        requires { All (stands self.now) items.old }
        ensures { IfOk result (λ some. told self.now some items.old items.new) };
}

/// The turns of so many crews from this one on, at these items. It answers whether one of them answered
/// `true`. Where one is refused memory it is refused, when all of them have ended.
#[cycle(halves)]
pub fn turns_by<R: Threads + Sync, T: Send, W: Work<T> + Sync>(
    rt: &R,
    work: &W,
    first: usize,
    crews: usize,
    items: &mut [T],
) -> Result<bool, Memory>
    requires stands { All (W.stands work.now) items.old }
    ensures told { IfOk result (λ some. HaveTold (W.told work.now) some items.old items.new) }
{
    if crews <= 1 {
        return work.turns(first, items);
    }
    let low = crews / 2;
    let second = first.saturating_add(low);
    let count = work.count(first, low).min(items.len());
    let (front, back) = items.split_at_mut(count);
    halves(rt, work, first, low, front, second, crews - low, back)
}

// A function of its own, so that what the closures require is what this one is given.
#[cycle(halves)]
fn halves<R: Threads + Sync, T: Send, W: Work<T> + Sync>(
    rt: &R,
    work: &W,
    first: usize,
    low: usize,
    front: &mut [T],
    second: usize,
    high: usize,
    back: &mut [T],
) -> Result<bool, Memory>
    requires some { (0 < low) × (0 < high) }
    requires front { All (W.stands work.now) front.old }
    requires back { All (W.stands work.now) back.old }
    ensures told { IfOk result (λ some.
        HaveTold (W.told work.now) some (front.old ++ back.old) (front.new ++ back.new)) }
{
    let (one, other) = join_mut(
        rt,
        &mut || -> Result<bool, Memory>
            requires { IsSync R.row × IsSync W.row × IsSend T.row × All (W.stands work.now) front.now }
            ensures told { IfOk result (λ some.
                HaveTold (W.told work.entry.now) some front.entry.now front.exit.now) }
        { turns_by(rt, work, first, low, front) },
        &mut || -> Result<bool, Memory>
            requires { IsSync R.row × IsSync W.row × IsSend T.row × All (W.stands work.now) back.now }
            ensures told { IfOk result (λ some.
                HaveTold (W.told work.entry.now) some back.entry.now back.exit.now) }
        { turns_by(rt, work, second, high, back) },
    );
    let one = one?;
    let other = other?;
    Ok(one | other)
}
