//! How a message's packets are put into the outbox.

ghost use Rattle.std.specs.Prelude.{◌≡◌, ℕ, ◌+◌, ◌-◌, ◌<◌, ◌≤◌};
ghost use Rattle.std.specs.Prelude.{if◌then◌else◌, length, None, Some, OnOk, OnErr};
ghost use Rattle.nm_types.specs.declared.limits.TheConstants.{MAX_BODY, MAX_EAGER, MAX_PACKETS};
ghost use Rattle.nm_types.specs.declared.limits.TheConstants.{MAX_STAMP};
ghost use Rattle.nm_types.specs.Bodies.{body_len};
ghost use Rattle.nm_history.specs.Sends.{is_ask};
ghost use Rattle.nm_rndv.specs.Offers.{state_of};
ghost use Rattle.nm_sending.specs.Calls.{PutsMessage, sent_as};
ghost use Rattle.nm_sending.specs.Outboxes.{put_to};
ghost use Rattle.nm_sending.specs.Departures.{ends_to};
ghost use Rattle.nm_sending.specs.Sent.{Puts, only_to};

use crate::outbox::Outbox;
use nm_eager::Cutter;
use nm_rndv::Offers;
use nm_types::{Body, How, Memory, What};

/// A message, but for its body.
#[derive(Clone, Copy)]
pub(crate) struct Heading {
    pub to: u8,
    pub n: u64,
    pub tag: u16,
    pub ctx: u8,
    pub how: How,
}

/// Puts a packet without bytes. There is room for it.
pub(crate) fn put_bare(outbox: &mut Outbox, to: u8, stamp: u64, what: What)
    requires to { to < length outbox.old.popped }
    requires few { put_to outbox.old to < MAX_PACKETS }
    requires room { 0 < outbox.old.spare }
    requires in_time { stamp ≤ MAX_STAMP }
    ensures puts { (called : ℕ) → called ≤ stamp →
        Puts (only_to to called what) None stamp outbox.old outbox.new }
    ensures ends { (other : ℕ) →
        ends_to other outbox.new.letters ≡ ends_to other outbox.old.letters }
    ensures room { outbox.new.spare ≡ outbox.old.spare - 1 }
{
    outbox.put_bare(to, stamp, what);
}

/// Puts the packets of a message, or the one that asks for it, whose body is kept then.
pub(crate) fn put_message(
    outbox: &mut Outbox,
    offers: &mut Offers,
    heading: Heading,
    body: Body,
    stamp: u64,
) -> Result<(), Memory>
    requires to { heading.to < length outbox.old.popped }
    requires offered { heading.to < length offers.old.destinations }
    requires is_new { state_of offers.old heading.to heading.n ≡ None }
    requires few { put_to outbox.old heading.to + 17 ≤ MAX_PACKETS }
    requires short { body_len body ≤ (if is_ask heading.how then MAX_BODY else MAX_EAGER) }
    requires in_time { stamp ≤ MAX_STAMP }
    ensures put { OnOk result ((line : ℕ) → PutsMessage (sent_as heading.to heading.tag heading.ctx
        body heading.how stamp heading.n line) body outbox.old outbox.new offers.old offers.new) }
    ensures err { OnErr result
        (outbox.new ≡ record outbox.old { spare = outbox.new.spare }) }
    ensures unasked { OnErr result (offers.new ≡ offers.old) }
{
    let Heading {
        to,
        n,
        tag,
        ctx,
        how,
    } = heading;
    let len = body.len();
    match how {
        How::Eager => {
            outbox.reserve(1)?;
            let cutter = Cutter::new(n, tag, ctx, body);
            outbox.put_message(to, stamp, cutter);
        }
        How::Ask => {
            outbox.reserve(1)?;
            offers.ask(to, n, body)?;
            put_bare(outbox, to, stamp, What::Ask { tag, ctx, len });
        }
    }
    Ok(())
}
