//! What the packets of a rank tell of its messages, and what came of these.

ghost use Rattle.std.specs.Prelude.{◌≡◌, ◌<◌, ℕ, true, length};
ghost use Rattle.nm_history.specs.Known.{Known, learned};
ghost use Rattle.nm_eager.specs.Joining.{stream_from};
ghost use Rattle.nm_eager.specs.Streams.{after, continues, is_kept, missing};
ghost use Rattle.nm_receiving.specs.Received.{IsTold};

use nm_eager::Joiner;
use nm_eager::laws::missing_bytes_follow;
use nm_types::Packet;

/// What is learned of a packet that continues its stream is what comes of its sender's messages.
pub(crate) fn packets_tell(joiner: &Joiner, p: &Packet)
    requires { p.now.from < joiner.now.sizes.ranks }
    ensures { (eager : ℕ) (known : Known) → is_kept p.now.what ≡ true
        → continues eager (stream_from joiner.now p.now.from).count
        (missing (stream_from joiner.now p.now.from)) p.now.what (length p.now.payload) ≡ true
        → IsTold (stream_from joiner.now p.now.from) known
        → IsTold (after (stream_from joiner.now p.now.from) p.now.what p.now.payload)
        (learned known p.now.what (length p.now.payload)) }
{
    missing_bytes_follow();
    joiner.missing(p.from);
}
