// A rank as its pointer.
ghost use Rattle.std.specs.Prelude.{◌≡◌};

use crate::Rank;

impl Rank {
    // C owns it from then on, which no clause says.
    pub(crate) fn into_raw(self) -> *mut u8
        ensures { result ≡ self.ptr }
    {
        let Rank { ptr, alloc: _ } = self;
        ptr
    }
}
