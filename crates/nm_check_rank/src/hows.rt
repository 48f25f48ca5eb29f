//! How messages are sent.

ghost use Rattle.std.specs.Prelude.{◌≡◌, not};
ghost use Rattle.nm_history.specs.Sends.{is_ask};
ghost use Rattle.nm_lookups.specs.Deciding.{Decides};

use nm_types::How;

/// Whether a message is sent by asking.
pub fn is_asked(how: How) -> bool
    ensures { result ≡ is_ask how }
{
    matches!(how, How::Ask)
}

/// Whether a message is sent at once.
pub fn is_eager(how: How) -> bool
    ensures { result ≡ not (is_ask how) }
{
    matches!(how, How::Eager)
}

/// Whether two are sent alike.
pub fn is_same_how(a: How, b: How) -> bool
    ensures { Decides result (a ≡ b) }
{
    a == b
}
