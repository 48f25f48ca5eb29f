//! The room that a call takes before it changes anything.

ghost use Rattle.std.specs.Prelude.{◌≡◌, ◌+◌, ◌<◌, ◌≤◌, OnOk};
ghost use Rattle.nm_types.specs.declared.limits.TheConstants.{MAX_STAMP};
ghost use Rattle.nm_request.specs.Requests.{SameRequests};
ghost use Rattle.nm_sending.specs.Calls.{SameButRoom};

use crate::journal::{Journal, Recorder};
use nm_request::Requests;
use nm_sending::Sending;
use nm_types::Memory;

/// Makes room for two events beside that of each message that has not left, for one packet, and for
/// one request.
#[inline(always)]
pub(crate) fn make_room<H: Recorder>(
    journal: &mut Journal<H>,
    sending: &mut Sending,
    requests: &mut Requests,
) -> Result<(), Memory>
    requires few { sending.old.staying ≤ MAX_STAMP }
    ensures events { journal.new ≡ record journal.old { spare = journal.new.spare } }
    ensures kept { journal.old.spare ≤ journal.new.spare }
    ensures two { OnOk result (sending.new.staying + 2 ≤ journal.new.spare) }
    ensures letters { SameButRoom sending.old sending.new }
    ensures one { OnOk result (0 < sending.new.outbox.spare) }
    ensures requests { SameRequests requests.old requests.new }
    ensures another { OnOk result (0 < requests.new.spare) }
{
    journal.reserve(sending.staying() as usize + 2)?;
    sending.reserve(1)?;
    requests.reserve()
}
