//! Where bytes go.

ghost use Rattle.std.specs.Prelude.{◌≡◌, ℕ, ◌<◌, ◌≤◌, List, Option, length, take, IsErr, IfOk};
ghost use Rattle.std.specs.Prelude.{OnErr, OnOk};
ghost use Rattle.nm_outside.specs.Told.{Appends, Rose, Stays};

use crate::Failed;

/// Where bytes go.
pub trait Sink {
    /// The bytes that it took, where it tells them.
    ghost taken: { Self → Option (List ℕ) };

    /// How often it has failed. It rises where a write fails, and at no other time.
    ghost faults: { Self → ℕ };

    /// Takes bytes from the front, and answers how many: some, where there are any.
    fn write(&mut self, bytes: &[u8]) -> Result<usize, Failed>
        ensures within { IfOk result (λ n. n ≤ length bytes.now) }
        ensures some { 0 < length bytes.now → IfOk result (λ n. 0 < n) }
        ensures taken { IfOk result
            (λ n. Appends (taken self.old) (taken self.new) (take n bytes.now)) }
        ensures failed { OnErr result (Stays (taken self.old) (taken self.new)) }
        ensures later { faults self.old ≤ faults self.new }
        ensures quiet { OnOk result (faults self.new ≡ faults self.old) }
        ensures cause { IsErr result → Rose (faults self.old) (faults self.new) };
}
