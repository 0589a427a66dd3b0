ghost use Rattle.std.specs.Prelude.{◌≡◌, ℕ, ◌<◌, ◌≤◌, ◌+◌, Bool, false, List, [], Option, Ok, length, take, IsTrue, IsOk, IfOk, IfSome, OnOk, OnErr};
ghost use Rattle.std.specs.Io.KnownBytes.{Keeps};
ghost use Rattle.run_devices.specs.Devices.{next_count, Takes, Gains};

/// A device failed in this call.
#[derive(Clone, Copy, Debug, PartialEq, Eq)]
pub struct Failed;

/// Where bytes come from.
pub trait Source {
    /// What is still to be read, where the source tells it.
    ghost left: { Self → Option (List ℕ) };

    /// How many calls failed.
    ghost faults: { Self → ℕ };

    /// Whether the source promises that no call fails.
    ghost is_sound: { Self → Bool } = { λ _. false };

    /// Takes bytes from the front into the front of a buffer. `Ok(0)` for a buffer that isn't empty
    /// comes only at the end. Of the buffer after a failed call nothing is said, since std says nothing of it.
    fn read(&mut self, buf: &mut [u8]) -> Result<usize, Failed>
        ensures bound { IfOk result (λ n. n ≤ length buf.old) }
        ensures taken { IfOk result (λ n. Takes (left self.old) (left self.new) n buf.new) }
        ensures at_end { result ≡ Ok 0 → 0 < length buf.old → IfSome (left self.old) (λ bytes. bytes ≡ []) }
        ensures kept { OnErr result (Keeps (left self.old) (left self.new)) }

        ensures counted { OnOk result (faults self.new ≡ faults self.old) }
        ensures failed { OnErr result (faults self.new ≡ next_count (faults self.old)) }
        ensures never_falls { faults self.old ≤ faults self.new }

        ensures sound { IsTrue (is_sound self.old) → IsOk result }
        ensures stays_sound { IsTrue (is_sound self.old) → IsTrue (is_sound self.new) };
}

/// Where bytes go.
pub trait Sink {
    /// What was written, where the sink tells it.
    ghost got: { Self → Option (List ℕ) };

    /// How many calls failed.
    ghost faults: { Self → ℕ };

    /// For how many more bytes the sink promises that no call fails.
    ghost capacity: { Self → ℕ } = { λ _. 0 };

    /// Appends bytes from the front of a piece, at least one of a piece that isn't empty.
    fn write(&mut self, piece: &[u8]) -> Result<usize, Failed>
        ensures bound { IfOk result (λ n. n ≤ length piece.now) }
        ensures some { IfOk result (λ n. 0 < length piece.now → 0 < n) }
        ensures gained { IfOk result (λ n. Gains (got self.old) (got self.new) (take n piece.now)) }
        ensures kept { OnErr result (Keeps (got self.old) (got self.new)) }

        ensures counted { OnOk result (faults self.new ≡ faults self.old) }
        ensures failed { OnErr result (faults self.new ≡ next_count (faults self.old)) }
        ensures never_falls { faults self.old ≤ faults self.new }

        ensures capacity { 0 < length piece.now → length piece.now ≤ capacity self.old → IsOk result }
        ensures capacity_left { IfOk result (λ n. capacity self.old ≤ capacity self.new + n) };
}
