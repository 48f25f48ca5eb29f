//! From which rank to which each message of a flood goes.
//!
//! A step from a message to the next, or to the one before it, divides nothing.

ghost use Rattle.std.specs.Prelude.{◌≡◌, ◌≤◌, ◌+◌, ◌%◌, ℕ};
ghost use Rattle.nm_script.specs.FloodScripts as spec;

/// The ranks that a message comes from and goes to.
#[derive(Clone, Copy)]
pub(crate) struct Way {
    pub(crate) from: u8,
    pub(crate) to: u8,
}

/// The rank behind another; the first one is behind the last.
fn rank_behind(ranks: u8, rank: u8) -> u8
    requires { 1 ≤ ranks }
    ensures { (n : ℕ) → rank ≡ n % ranks → result ≡ (n + 1) % ranks }
{
    if rank < ranks - 1 { rank + 1 } else { 0 }
}

/// The rank before another; the last one is before the first.
fn rank_before(ranks: u8, rank: u8) -> u8
    requires { 1 ≤ ranks }
    ensures { (n : ℕ) → rank ≡ (n + 1) % ranks → result ≡ n % ranks }
{
    if rank > 0 { rank - 1 } else { ranks - 1 }
}

impl Way {
    /// The way of message k.
    pub(crate) fn of(key: u16, ranks: u8, k: u16) -> Way
        requires { 1 ≤ ranks }
        ensures { result ≡ spec.way key ranks k }
    {
        let from = (k % u16::from(ranks)) as u8;
        let row = u32::from(k / u16::from(ranks));
        let sum = u32::from(from) + row + u32::from(key);
        Way {
            from,
            to: (sum % u32::from(ranks)) as u8,
        }
    }

    /// The way of the next message.
    pub(crate) fn next(self, ranks: u8) -> Way
        requires { 1 ≤ ranks }
        ensures { (key k : ℕ) → self ≡ spec.way key ranks k
            → result ≡ spec.way key ranks (k + 1) }
    {
        let from = rank_behind(ranks, self.from);
        let to = rank_behind(ranks, self.to);
        let to = if from > 0 { to } else { rank_behind(ranks, to) };
        Way { from, to }
    }

    /// The way of the message before this one.
    pub(crate) fn before(self, ranks: u8) -> Way
        requires { 1 ≤ ranks }
        ensures { (key k : ℕ) → self ≡ spec.way key ranks (k + 1)
            → result ≡ spec.way key ranks k }
    {
        let from = rank_before(ranks, self.from);
        let to = rank_before(ranks, self.to);
        let to = if self.from > 0 {
            to
        } else {
            rank_before(ranks, to)
        };
        Way { from, to }
    }
}
