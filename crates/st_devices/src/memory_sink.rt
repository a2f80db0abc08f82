//! The sink over memory, whose pieces are of a chosen size and which fails in a chosen call.
ghost use Rattle.std.specs.Prelude.{◌≡◌, ◌≤◌, ◌<◌, ◌+◌, Some, [], false, IfOk, OnOk, OnErr, length, is_err, min};
ghost use Rattle.std.specs.Io.KnownBytes.{WriteAppends};

use crate::devices::{DeviceFault, Sink};
use std::alloc::Global;

/// A sink over memory. It takes pieces of a chosen size, and fails in the call after a chosen number of good calls, or
/// where it finds no memory.
#[derive(Drop)]
pub struct Sheet {
    written: Vec<u8>,
    piece: usize,
    good_calls: u64,
    failed: bool,
    ghost some: { 0 < piece },
}

impl Sheet {
    ghost use Rattle.st_devices.specs.Sheet.{written_on, piece_of, good_calls_of, has_failed_of};

    /// An empty sheet, which has not failed. The size of a piece is not 0.
    pub fn new(alloc: Global, piece: usize, good_calls: u64) -> Self
        requires { 0 < piece }
        ensures empty { written_on result ≡ [] }
        ensures piece { piece_of result ≡ piece }
        ensures good_calls { good_calls_of result ≡ good_calls }
        ensures works { has_failed_of result ≡ false }
    {
        Sheet {
            written: Vec::new(alloc),
            piece,
            good_calls,
            failed: false,
        }
    }

    /// The bytes taken so far.
    pub fn written(&self) -> &[u8]
        ensures { result.now ≡ written_on self.now }
    {
        self.written.as_slice()
    }
}

impl Sink for Sheet {
    ghost use Rattle.st_devices.specs.Sheet.{written_on, capacity_of, piece_of, good_calls_of, has_failed_of};

    ghost taken = { λ sheet. Some (written_on sheet) };

    ghost has_failed = { has_failed_of };

    fn write_some(&mut self, bytes: &[u8]) -> Result<usize, DeviceFault>
        requires some { 0 < length bytes.now }
        requires works { has_failed_of self.old ≡ false }
        ensures bound { IfOk result (λ count. count ≤ length bytes.now) }
        ensures progress { IfOk result (λ count. 0 < count) }
        ensures bytes { WriteAppends (Some (written_on self.old)) (Some (written_on self.new))
            result bytes.now }
        ensures failed { has_failed_of self.new ≡ is_err result }

        // It fails only after the good calls or for want of room, and takes a whole piece where there is one.
        ensures call { OnOk result (0 < good_calls_of self.old) }
        ensures calls { OnOk result (good_calls_of self.new + 1 ≡ good_calls_of self.old) }
        ensures capacity { OnErr result (0 < good_calls_of self.old
            → capacity_of self.old < length (written_on self.old) + min (piece_of self.old) (length bytes.now)) }
        ensures count { IfOk result (λ count. count ≡ min (piece_of self.old) (length bytes.now)) }
        ensures piece { piece_of self.new ≡ piece_of self.old }
    {
        if self.good_calls == 0 {
            self.failed = true;
            return Err(DeviceFault);
        }
        self.good_calls -= 1;
        let count = self.piece.min(bytes.len());
        match self.written.extend_from_slice(&bytes[..count]) {
            Ok(()) => Ok(count),
            Err(_) => {
                self.failed = true;
                Err(DeviceFault)
            }
        }
    }

    fn failed(&self) -> bool {
        self.failed
    }
}
