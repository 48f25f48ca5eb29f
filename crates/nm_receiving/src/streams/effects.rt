//! What a packet of a message makes happen.

ghost use Rattle.std.specs.Prelude.{◌≡◌};

use nm_types::{Arrival, Envelope, How};

/// What a packet of a message makes happen: the message arrives, where the packet announces it, and
/// then message `n` is here whole, or it is not.
#[derive(Clone, Copy)]
pub struct Made {
    pub arrival: Option<Arrival>,
    pub n: u64,
    pub whole: bool,
}

/// Message `n` of a rank, as its packet announces it.
pub(crate) fn arrival(n: u64, from: u8, tag: u16, ctx: u8, len: u32, how: How) -> Arrival
    ensures { result
        ≡ record {
          n = n;
          env = record { from = from; tag = tag; ctx = ctx; len = len; how = how };
        } }
{
    let env = Envelope {
        from,
        tag,
        ctx,
        len,
        how,
    };
    Arrival { n, env }
}
