//! The source over memory, whose pieces are of a chosen size and which fails in a chosen call.
ghost use Rattle.std.specs.Prelude.{◌≡◌, ◌≤◌, ◌<◌, ◌==◌, ◌+◌, Some, false, IfOk, OnOk, length, is_err, min};
ghost use Rattle.std.specs.Io.KnownBytes.{ReadConsumes};

use crate::devices::{DeviceFault, Source};

/// A source over bytes in memory. It gives pieces of a chosen size, the last of which may be shorter, and fails in the
/// call after a chosen number of good calls.
#[derive(Drop)]
pub struct Bytes<'a> {
    rest: &'a [u8],
    piece: usize,
    good_calls: u64,
    failed: bool,
    ghost some: { 0 < piece },
}

impl<'a> Bytes<'a> {
    ghost use Rattle.st_devices.specs.Bytes.{rest_of, piece_of, good_calls_of, has_failed_of};

    /// The source of these bytes, which has not failed. The size of a piece is not 0.
    pub fn new(bytes: &'a [u8], piece: usize, good_calls: u64) -> Self
        requires { 0 < piece }
        ensures bytes { rest_of result ≡ bytes.entry.now }
        ensures piece { piece_of result ≡ piece }
        ensures good_calls { good_calls_of result ≡ good_calls }
        ensures works { has_failed_of result ≡ false }
    {
        Bytes {
            rest: bytes,
            piece,
            good_calls,
            failed: false,
        }
    }
}

impl<'a> Source for Bytes<'a> {
    ghost use Rattle.st_devices.specs.Bytes.{rest_of, piece_of, good_calls_of, has_failed_of};

    ghost rest = { λ source. Some (rest_of source) };

    ghost reads_left = { λ source. length (rest_of source) };

    ghost has_failed = { has_failed_of };

    fn read_some(&mut self, buffer: &mut [u8]) -> Result<usize, DeviceFault>
        requires not_empty { 0 < length buffer.old }
        requires works { has_failed_of self.old ≡ false }
        ensures bound { IfOk result (λ count. count ≤ length buffer.new) }
        ensures bytes { ReadConsumes (Some (rest_of self.old)) (Some (rest_of self.new))
            result buffer.new }
        ensures progress { IfOk result
            (λ count. 0 < count → length (rest_of self.new) < length (rest_of self.old)) }
        ensures steady { OnOk result (length (rest_of self.new) ≤ length (rest_of self.old)) }
        ensures failed { has_failed_of self.new ≡ is_err result }

        // It fails only after the good calls, and gives a whole piece where it has one and the buffer holds it.
        ensures call { is_err result ≡ (good_calls_of self.old == 0) }
        ensures calls { OnOk result (good_calls_of self.new + 1 ≡ good_calls_of self.old) }
        ensures count { IfOk result (λ count. count
            ≡ min (piece_of self.old) (min (length buffer.new) (length (rest_of self.old)))) }
        ensures piece { piece_of self.new ≡ piece_of self.old }
    {
        if self.good_calls == 0 {
            self.failed = true;
            return Err(DeviceFault);
        }
        self.good_calls -= 1;
        let count = self.piece.min(buffer.len()).min(self.rest.len());
        let (first, others) = self.rest.split_at(count);
        buffer[..count].copy_from_slice(first);
        self.rest = others;
        Ok(count)
    }

    fn failed(&self) -> bool {
        self.failed
    }
}
