//! The sink over a writer.
ghost use Rattle.std.specs.Prelude.{◌≡◌, false};

use crate::devices::{DeviceFault, Sink};
use std::io::Write;

/// A sink over a writer. Any error of the writer is a failure, an interruption too, and so is a write that takes nothing.
#[derive(Drop)]
pub struct ToWriter<W> {
    writer: W,
    failed: bool,
}

impl<W> ToWriter<W> {
    ghost use Rattle.st_devices.specs.Streams.{writer_of, writer_has_failed};

    /// A sink that has not failed, with what the writer has taken.
    pub fn new(writer: W) -> Self
        ensures writer { writer_of result ≡ writer }
        ensures works { writer_has_failed result ≡ false }
    {
        ToWriter {
            writer,
            failed: false,
        }
    }
}

impl<W: Write> Sink for ToWriter<W> {
    ghost use Rattle.st_devices.specs.Streams.{writer_of, writer_has_failed};

    ghost taken = { λ sink. W.contents (writer_of sink) };

    ghost has_failed = { writer_has_failed };

    fn write_some(&mut self, bytes: &[u8]) -> Result<usize, DeviceFault> {
        match self.writer.write(bytes) {
            Ok(count) if count > 0 => Ok(count),
            _ => {
                self.failed = true;
                Err(DeviceFault)
            }
        }
    }

    fn failed(&self) -> bool {
        self.failed
    }
}
