//! A matcher is told other deeds than the events of a history, with the same queues.

ghost use Rattle.std.specs.Prelude.{◌≡◌, ℕ, ◌==◌, Bool, false, ◌&&◌, ◌||◌, IfOk, IsTrue, List};
ghost use Rattle.std.specs.Prelude.{find, option_map};
ghost use Rattle.nm_types.specs.declared.messages.Arrival as arrival;
ghost use Rattle.nm_types.specs.declared.messages.Post as posted_receive;
ghost use Rattle.nm_history.specs.Selection.{matches};
ghost use Rattle.nm_match.specs.Deeds.{history_of, is_known_message, is_known_receive};
ghost use Rattle.nm_lookups.specs.Queues.{HasQueues, posted_after_arrival, posted_after_post};
ghost use Rattle.nm_lookups.specs.Queues.{unexpected_after_arrival, unexpected_after_post};
ghost use Rattle.nm_lookups.specs.Queues.{without_message, without_receive};

use nm_match::Matcher;
use nm_types::{Arrival, Memory, Post};

/// Takes a message out of matching, if it is free.
pub(crate) fn take(matcher: &mut Matcher, from: u8, n: u64)
    requires known { IsTrue (is_known_message (history_of matcher.old) from n) }
    ensures { (posted : List posted_receive.Post) (unexpected : List arrival.Arrival)
        (knows : ℕ → Bool) (came : ℕ → ℕ → Bool) →
        HasQueues posted unexpected knows came matcher.old →
        HasQueues posted (without_message from n unexpected) knows came matcher.new }
{
    matcher.withdraw(from, n);
}

/// Cancels a receive, if it is open.
pub(crate) fn cancel(matcher: &mut Matcher, number: u64)
    requires known { IsTrue (is_known_receive (history_of matcher.old) number) }
    ensures { (posted : List posted_receive.Post) (unexpected : List arrival.Arrival)
        (knows : ℕ → Bool) (came : ℕ → ℕ → Bool) →
        HasQueues posted unexpected knows came matcher.old →
        HasQueues (without_receive number posted) unexpected knows came matcher.new }
{
    matcher.cancel(number);
}

/// Posts a receive, and answers the message that it takes. One that was cancelled before is not
/// open.
pub(crate) fn post(
    matcher: &mut Matcher,
    p: Post,
    cancelled: bool,
) -> Result<Option<Arrival>, Memory>
    requires is_new { is_known_receive (history_of matcher.old) p.number ≡ false }
    ensures { (posted : List posted_receive.Post) (unexpected : List arrival.Arrival)
        (knows : ℕ → Bool) (came : ℕ → ℕ → Bool) →
        HasQueues posted unexpected knows came matcher.old → IfOk result (λ taken.
        (taken ≡ find (λ a. matches p.from p.tag p.ctx a.env) unexpected)
        × HasQueues (posted_after_post p cancelled posted taken)
        (unexpected_after_post unexpected taken)
        (λ number. knows number || p.number == number) came matcher.new) }
{
    match matcher.post(p)? {
        Some(a) => Ok(Some(a)),
        None if cancelled => {
            cancel(matcher, p.number);
            Ok(None)
        }
        None => Ok(None),
    }
}

/// Brings a message, and answers the number of the receive that takes it. One that was claimed or
/// withdrawn before is not free.
pub(crate) fn arrive(matcher: &mut Matcher, a: Arrival, gone: bool) -> Result<Option<u64>, Memory>
    requires is_new { is_known_message (history_of matcher.old) a.env.from a.n ≡ false }
    ensures { (posted : List posted_receive.Post) (unexpected : List arrival.Arrival)
        (knows : ℕ → Bool) (came : ℕ → ℕ → Bool) →
        HasQueues posted unexpected knows came matcher.old → IfOk result (λ taken. (taken
        ≡ option_map (λ p. p.number) (find (λ p. matches p.from p.tag p.ctx a.env) posted))
        × HasQueues (posted_after_arrival posted taken)
        (unexpected_after_arrival a gone unexpected taken) knows
        (λ from n. came from n || (a.env.from == from && a.n == n)) matcher.new) }
{
    match matcher.arrive(a)? {
        Some(number) => Ok(Some(number)),
        None if gone => {
            take(matcher, a.env.from, a.n);
            Ok(None)
        }
        None => Ok(None),
    }
}
