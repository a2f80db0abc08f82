//! The source over a reader.
ghost use Rattle.std.specs.Prelude.{◌≡◌, ◌≤◌, ◌<◌, ◌+◌, ◌-◌, ◌^◌, false, IfOk, OnOk, is_err, length};
ghost use Rattle.std.specs.Io.KnownBytes.{ReadConsumes};

use crate::devices::{DeviceFault, Source};
use std::io::Read;

/// The most reads that a source over a reader makes. The next one, the 2^62nd, has failed.
const MAX_READS: u64 = (1 << 62) - 1;

/// A source over a reader. Any error of the reader is a failure, an interruption too, and so is the 2^62nd read.
#[derive(Drop)]
pub struct FromReader<R> {
    reader: R,
    reads_left: u64,
    failed: bool,
}

impl<R> FromReader<R> {
    ghost use Rattle.st_devices.specs.Streams.{reader_of, reads_left_of, reader_has_failed};

    /// A source that has not failed, with what the reader has to give.
    pub fn new(reader: R) -> Self
        ensures reader { reader_of result ≡ reader }
        ensures reads { reads_left_of result ≡ 2 ^ 62 - 1 }
        ensures works { reader_has_failed result ≡ false }
    {
        FromReader {
            reader,
            reads_left: MAX_READS,
            failed: false,
        }
    }
}

impl<R: Read> Source for FromReader<R> {
    ghost use Rattle.st_devices.specs.Streams.{reader_of, reads_left_of, reader_has_failed};

    ghost rest = { λ source. R.remaining (reader_of source) };

    ghost reads_left = { reads_left_of };

    ghost has_failed = { reader_has_failed };

    fn read_some(&mut self, buffer: &mut [u8]) -> Result<usize, DeviceFault>
        requires not_empty { 0 < length buffer.old }
        requires works { reader_has_failed self.old ≡ false }
        ensures bound { IfOk result (λ count. count ≤ length buffer.new) }
        ensures bytes { ReadConsumes (R.remaining (reader_of self.old))
            (R.remaining (reader_of self.new)) result buffer.new }
        ensures progress { IfOk result
            (λ count. 0 < count → reads_left_of self.new < reads_left_of self.old) }
        ensures steady { OnOk result (reads_left_of self.new ≤ reads_left_of self.old) }
        ensures failed { reader_has_failed self.new ≡ is_err result }

        // Each read is counted once.
        ensures reads { OnOk result (reads_left_of self.new + 1 ≡ reads_left_of self.old) }
    {
        if self.reads_left == 0 {
            self.failed = true;
            return Err(DeviceFault);
        }
        self.reads_left -= 1;
        match self.reader.read(buffer) {
            Ok(count) => Ok(count),
            Err(_) => {
                self.failed = true;
                Err(DeviceFault)
            }
        }
    }

    fn failed(&self) -> bool {
        self.failed
    }
}
