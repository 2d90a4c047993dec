ghost use Rattle.std.specs.Prelude.{◌<◌, List, ℕ, length, IfOk};
ghost use Rattle.std.specs.declared.option.Option.{Option};
ghost use Rattle.std.specs.Io.{ReadsAtMost};
ghost use Rattle.std.specs.Io.KnownBytes.{ReadConsumes};
ghost use Rattle.om_port.specs.Causes.{HasCause};

use super::failed::Failed;

/// An origin of bytes. A source may know the bytes that are left, and counts its faults.
pub trait Source {
    /// The bytes that are left, if the source knows them.
    ghost left: { Self → Option (List ℕ) };

    /// How many faults it has had.
    ghost faults: { Self → ℕ };

    /// Whether it may be read. It stays so only after it has given bytes, so generic code can't read again after
    /// the end or a fault.
    ghost ready: { Self → Type 0 };

    /// Gives the next bytes, as many as it likes up to the length of `buf`, at the front of `buf`, and returns how
    /// many. For a nonempty `buf` there are none only at the end of the input. Generic code has to pass a nonempty
    /// `buf`.
    ///
    /// [`Failed`] comes only if the count of faults rose, and then no byte is consumed.
    fn read(&mut self, buf: &mut [u8]) -> Result<usize, Failed>
        requires ready { ready self.old }
        requires room { 0 < length buf.old }
        ensures bound { ReadsAtMost result buf.new }
        ensures bytes { ReadConsumes (left self.old) (left self.new) result buf.new }
        ensures cause { HasCause (faults self.old) (faults self.new) result }
        ensures again { IfOk result (λ k. 0 < k → ready self.new) };
}
