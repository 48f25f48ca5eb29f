//! What stays where something else happens.

ghost use Rattle.std.specs.Prelude.{◌≡◌, false, List, ◌++◌};
ghost use Rattle.std.specs.List.{AllByRecursion};
ghost use Rattle.nm_history.specs.declared.events.Event.{Event};
ghost use Rattle.nm_sending.specs.Departures.{SendingView};
ghost use Rattle.nm_sending.specs.Sent.{AreSent, is_of_sending};
ghost use Rattle.nm_receiving.specs.Receipts.{ReceivingView};
ghost use Rattle.nm_receiving.specs.Received.{AreReceived, is_of_receiving};

/// Events of receives change nothing of what became of the messages sent, and those of messages
/// sent nothing of what came.
pub(crate) fn sides_stay()
    ensures sent { (v : SendingView) (h events : List Event) →
        AllByRecursion (λ e. is_of_sending e.what ≡ false) events → AreSent v h →
        AreSent v (h ++ events) }
    ensures received { (v : ReceivingView) (h events : List Event) →
        AllByRecursion (λ e. is_of_receiving e.what ≡ false) events → AreReceived v h →
        AreReceived v (h ++ events) }
{
    nm_sending::laws::messages_stay();
    nm_receiving::laws::messages_stay();
}
