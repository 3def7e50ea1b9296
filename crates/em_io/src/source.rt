//! What bytes are read from.
ghost use Rattle.std.specs.Prelude.{◌≡◌, ◌<◌, ◌≤◌, ◌↔◌, ℕ, List, Option, [], length, take, IfOk, IfSome, OnOk, OnErr};
ghost use Rattle.em_io.specs.Faults.{HasRisen};
ghost use Rattle.em_io.specs.Source.{Takes};

/// A read or a write that failed.
#[derive(Clone, Copy, Debug, PartialEq, Eq)]
pub struct Failed;

pub trait Source {
    /// The bytes that are left, if the source tells them. It tells them always or never.
    ghost left: { Self → Option (List ℕ) };

    /// How many bytes it has given.
    ghost given: { Self → ℕ };

    /// How often it has failed, by a counter.
    ghost faults: { Self → ℕ };

    /// Moves the first bytes left into the front of `buf`, and returns how many.
    fn read(&mut self, buf: &mut [u8]) -> Result<usize, Failed>
        ensures within { IfOk result (λ n. n ≤ length buf.new) }
        ensures moved { IfOk result (λ n. Takes (left self.old) (left self.new) (given self.old) (given self.new) (take n buf.new)) }

        // With room for a byte, none is moved exactly where none is left.
        ensures end { IfOk result (λ n. 0 < length buf.new → IfSome (left self.old) (λ rest. (n ≡ 0) ↔ (rest ≡ []))) }

        ensures failed_moved_none { OnErr result ((left self.new ≡ left self.old) × (given self.new ≡ given self.old)) }

        ensures failed { OnErr result (HasRisen (faults self.old) (faults self.new)) }
        ensures sound { OnOk result (faults self.new ≡ faults self.old) }
        ensures never_falls { faults self.old ≤ faults self.new };
}
