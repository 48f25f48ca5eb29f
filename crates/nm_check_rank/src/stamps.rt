//! Whether stamps rise.

ghost use Rattle.nm_lookups.specs.Deciding.{Decides};
ghost use Rattle.nm_history.specs.AtEach.{AtEach};
ghost use Rattle.nm_history.specs.RankRun.{StampAt};

use nm_history::Event;

/// Whether stamps are at least 1, and each is greater than the one before.
pub fn stamps_rise(events: &[Event]) -> bool
    ensures { Decides result (AtEach (λ before e. StampAt before e.stamp) events.now) }
{
    let mut last = 0;
    for e in events {
        if e.stamp <= last {
            return false;
        }
        last = e.stamp;
    }
    true
}
