//! Laws of a rank's own messages. Each is the contract of a function that does nothing.

ghost use Rattle.std.specs.Prelude.{◌≡◌, ◌^◌, ℕ, false, List, ◌++◌};
ghost use Rattle.std.specs.List.{AllByRecursion};
ghost use Rattle.nm_history.specs.declared.events.Event.{Event};
ghost use Rattle.nm_sending.specs.Outboxes.{OutboxView};
ghost use Rattle.nm_sending.specs.declared.TheConstants.{MAX_MESSAGES};
ghost use Rattle.nm_sending.specs.Departures.{SendingView};
ghost use Rattle.nm_sending.specs.Sent.{AreSent, is_of_sending};

/// Events that are none of a rank's own messages change nothing of what became of them, and neither
/// do packets of other sorts and room.
pub fn messages_stay()
    ensures others { (v : SendingView) (h events : List Event) →
        AllByRecursion (λ e. is_of_sending e.what ≡ false) events → AreSent v h →
        AreSent v (h ++ events) }
    ensures outbox { (v : SendingView) (h : List Event) (o : OutboxView) → AreSent v h →
        AreSent (record v { outbox = o }) h }
{}

/// The number of messages that can be sent to a rank in all.
pub fn limit()
    ensures { MAX_MESSAGES ≡ 2 ^ 50 }
{}
