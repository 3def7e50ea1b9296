//! What bytes are written to.
ghost use Rattle.std.specs.Prelude.{◌≡◌, ◌≤◌, ℕ, List, Option, IsErrOf, OnOk};
ghost use Rattle.std.specs.Io.KnownBytes.{append_known};
ghost use Rattle.em_io.specs.Faults.{HasRisen};
ghost use Rattle.em_io.specs.Sink.{AppendsPrefix};

/// Why a write did not append its piece.
#[derive(Clone, Copy, Debug, PartialEq, Eq)]
pub enum SinkEnd {
    Failed,
    NoMemory,
}

pub trait Sink {
    /// The bytes written, if the sink tells them. It tells them always or never.
    ghost written: { Self → Option (List ℕ) };

    /// How often it has failed, by a counter.
    ghost faults: { Self → ℕ };

    /// Appends the piece.
    fn write(&mut self, piece: &[u8]) -> Result<(), SinkEnd>
        ensures whole { OnOk result (written self.new ≡ append_known (written self.old) piece.now) }
        ensures failed_part { IsErrOf result SinkEnd.Failed → AppendsPrefix (written self.old) (written self.new) piece.now }
        ensures no_memory_none { IsErrOf result SinkEnd.NoMemory → written self.new ≡ written self.old }

        ensures failed { IsErrOf result SinkEnd.Failed → HasRisen (faults self.old) (faults self.new) }
        ensures sound { ¬ IsErrOf result SinkEnd.Failed → faults self.new ≡ faults self.old }
        ensures never_falls { faults self.old ≤ faults self.new };
}
