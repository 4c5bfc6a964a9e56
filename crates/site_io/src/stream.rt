ghost use Rattle.std.specs.Prelude.{◌≡◌, ℕ, ◌<◌, ◌≤◌, List, Option, length, IfOk, is_some};
ghost use Rattle.std.specs.Io.KnownBytes.{ReadConsumes, WriteAppends};
ghost use Rattle.site_io.specs.Faults.{HasCause};

/// A read or a write that failed. The count of faults rose.
#[derive(Clone, Copy, Debug, PartialEq, Eq)]
pub struct Failed;

/// Where bytes come from.
///
/// `left` is the bytes not yet read, where they are told. `faults` is a count that never falls.
pub trait Source {
    ghost left: { Self → Option (List ℕ) };

    ghost faults: { Self → ℕ };

    /// Reads some bytes into the front of the buffer, and answers how many.
    ///
    /// They are the front of what was left. 0 for a buffer that isn't empty is the end of input.
    /// A call that failed has read nothing, and the count of faults rose. Whether the bytes left
    /// are told never changes.
    fn read(&mut self, buf: &mut [u8]) -> Result<usize, Failed>
        ensures bound { IfOk result (λ count. count ≤ length buf.new) }
        ensures bytes { ReadConsumes (left self.old) (left self.new) result buf.new }
        ensures told { is_some (left self.new) ≡ is_some (left self.old) }
        ensures cause { HasCause (faults self.old) (faults self.new) result };
}

/// Where bytes go.
///
/// `held` is the bytes taken so far, where they are told. `faults` is a count that never falls.
pub trait Sink {
    ghost held: { Self → Option (List ℕ) };

    ghost faults: { Self → ℕ };

    /// Takes a front of the piece, and answers how many bytes it took: 0 only of an empty piece.
    ///
    /// They are appended to what it held. A call that failed has taken nothing, and the count of
    /// faults rose. Whether the bytes held are told never changes.
    fn write(&mut self, piece: &[u8]) -> Result<usize, Failed>
        ensures bound { IfOk result (λ count. count ≤ length piece.now) }
        ensures some { IfOk result (λ count. 0 < length piece.now → 0 < count) }
        ensures bytes { WriteAppends (held self.old) (held self.new) result piece.now }
        ensures told { is_some (held self.new) ≡ is_some (held self.old) }
        ensures cause { HasCause (faults self.old) (faults self.new) result };
}
