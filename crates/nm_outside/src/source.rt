//! Where bytes come from.

ghost use Rattle.std.specs.Prelude.{◌≡◌, ℕ, ◌<◌, ◌≤◌, List, [], Option, length, IsErr, IfOk, OnErr};
ghost use Rattle.std.specs.Prelude.{IfSome, OnOk};
ghost use Rattle.nm_outside.specs.Told.{Moves, Rose, Stays};

/// A read or a write failed.
#[derive(Clone, Copy, Debug, PartialEq)]
pub struct Failed;

/// Where bytes come from.
pub trait Source {
    /// The bytes that are left, where it tells them.
    ghost left: { Self → Option (List ℕ) };

    /// How often it has failed. It rises where a read fails, and at no other time.
    ghost faults: { Self → ℕ };

    /// Reads bytes to the front of the buffer, and answers how many. With room in the buffer, none
    /// is the end.
    fn read(&mut self, buf: &mut [u8]) -> Result<usize, Failed>
        ensures within { IfOk result (λ n. n ≤ length buf.old) }
        ensures moved { IfOk result (λ n. Moves (left self.old) (left self.new) buf.new n) }
        ensures end { result ≡ Ok 0 → 0 < length buf.old
            → IfSome (left self.new) (λ bytes. bytes ≡ []) }
        ensures failed { OnErr result (Stays (left self.old) (left self.new)) }
        ensures later { faults self.old ≤ faults self.new }
        ensures quiet { OnOk result (faults self.new ≡ faults self.old) }
        ensures cause { IsErr result → Rose (faults self.old) (faults self.new) };
}
