// The handle behind a `&mut` to a rank.
ghost use Rattle.std.specs.Prelude.{◌≡◌};
ghost use types.Logic.{sem};
ghost use Rattle.nm_c.specs.Lent.{handle_follows};

use crate::Rank;
use nm_handle::Handle;

impl Rank {
    pub(crate) fn handle(&mut self) -> &mut Handle
        ensures* writes_back { sem 𝓛 (handle_follows self.entry result) }
        ensures value { result.now ≡ self.old.value }
    {
        unsafe { &mut *(self.ptr as *mut Handle) }
    }
}
