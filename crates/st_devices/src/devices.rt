//! Where the lines of a session come from, and where its replies go.
ghost use Rattle.std.specs.Prelude.{◌≡◌, ◌≤◌, ◌<◌, ℕ, Bool, false, List, Option, IfOk, OnOk, length, is_err};
ghost use Rattle.std.specs.Io.KnownBytes.{ReadConsumes, WriteAppends};

use thiserror::Error;

/// A device has failed in this call, and is not to be called again.
#[derive(Debug, Drop, Error)]
#[error("the device has failed")]
pub struct DeviceFault;

/// A device that gives bytes, until it has failed.
pub trait Source {
    /// The bytes that it still has to give, where they are known.
    ghost rest: { Self → Option (List ℕ) };

    /// A number that falls with each read that gives bytes, so that reading ends.
    ghost reads_left: { Self → ℕ };

    /// Whether it has failed.
    ghost has_failed: { Self → Bool };

    /// Reads a piece into the buffer, from its beginning on, and answers its size. The buffer is not empty, and 0 is answered
    /// only at the end.
    fn read_some(&mut self, buffer: &mut [u8]) -> Result<usize, DeviceFault>
        requires not_empty { 0 < length buffer.old }
        requires works { has_failed self.old ≡ false }
        ensures bound { IfOk result (λ count. count ≤ length buffer.new) }
        ensures bytes { ReadConsumes (rest self.old) (rest self.new) result buffer.new }
        ensures progress { IfOk result
            (λ count. 0 < count → reads_left self.new < reads_left self.old) }
        ensures steady { OnOk result (reads_left self.new ≤ reads_left self.old) }
        ensures failed { has_failed self.new ≡ is_err result };

    /// Whether it has failed.
    fn failed(&self) -> bool
        ensures { result ≡ has_failed self.now };
}

/// A device that takes bytes, until it has failed.
pub trait Sink {
    /// The bytes that it has taken so far, where they are known.
    ghost taken: { Self → Option (List ℕ) };

    /// Whether it has failed.
    ghost has_failed: { Self → Bool };

    /// Takes a beginning of the bytes, and answers its size, which is at least 1.
    fn write_some(&mut self, bytes: &[u8]) -> Result<usize, DeviceFault>
        requires some { 0 < length bytes.now }
        requires works { has_failed self.old ≡ false }
        ensures bound { IfOk result (λ count. count ≤ length bytes.now) }
        ensures progress { IfOk result (λ count. 0 < count) }
        ensures bytes { WriteAppends (taken self.old) (taken self.new) result bytes.now }
        ensures failed { has_failed self.new ≡ is_err result };

    /// Whether it has failed.
    fn failed(&self) -> bool
        ensures { result ≡ has_failed self.now };
}
