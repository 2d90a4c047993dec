ghost use Rattle.std.specs.Prelude.{◌<◌, List, ℕ, length, IfOk};
ghost use Rattle.std.specs.declared.option.Option.{Option};
ghost use Rattle.std.specs.Io.{WritesAtMost};
ghost use Rattle.std.specs.Io.KnownBytes.{WriteAppends};
ghost use Rattle.om_port.specs.Causes.{HasCause};

use super::failed::Failed;

/// A destination of bytes. A sink may know the bytes that it has taken, and counts its faults.
pub trait Sink {
    /// The bytes that were taken, if the sink knows them.
    ghost taken: { Self → Option (List ℕ) };

    /// How many faults it has had.
    ghost faults: { Self → ℕ };

    /// Whether it may be written to. It stays so only after it has taken bytes, so generic code can't write again
    /// after a fault.
    ghost ready: { Self → Type 0 };

    /// Takes the first of the bytes, as many as it likes, and returns how many: at least one if there are any.
    /// Generic code has to pass at least one byte.
    ///
    /// [`Failed`] comes only if the count of faults rose, and then nothing is taken.
    fn write(&mut self, bytes: &[u8]) -> Result<usize, Failed>
        requires ready { ready self.old }
        requires nonempty { 0 < length bytes.now }
        ensures bound { WritesAtMost result bytes.now }
        ensures some { 0 < length bytes.now → IfOk result (λ k. 0 < k) }
        ensures bytes { WriteAppends (taken self.old) (taken self.new) result bytes.now }
        ensures cause { HasCause (faults self.old) (faults self.new) result }
        ensures again { IfOk result (λ k. 0 < k → ready self.new) };
}
