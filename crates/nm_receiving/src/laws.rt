//! Laws of what came to a rank. Each is the contract of a function that does nothing.

ghost use Rattle.std.specs.Prelude.{◌≡◌, false, List, ◌++◌};
ghost use Rattle.std.specs.List.{AllByRecursion};
ghost use Rattle.nm_history.specs.declared.events.Event.{Event};
ghost use Rattle.nm_receiving.specs.Receipts.{ReceivingView};
ghost use Rattle.nm_receiving.specs.Received.{AreReceived, is_of_receiving};

/// Events that are of no receive and of no message that comes change nothing of what came.
pub fn messages_stay()
    ensures { (v : ReceivingView) (h events : List Event) →
        AllByRecursion (λ e. is_of_receiving e.what ≡ false) events → AreReceived v h →
        AreReceived v (h ++ events) }
{}
