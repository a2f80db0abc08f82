//! Writing bytes whole.
ghost use Rattle.std.specs.Prelude.{◌≡◌, ℕ, false, take, OnErr, OnOk, is_err};
ghost use Rattle.std.specs.Io.KnownBytes.{Appends};

use crate::devices::{DeviceFault, Sink};

/// Writes all the bytes, in as many writes as it takes.
pub fn write_all<W: Sink>(sink: &mut W, bytes: &[u8]) -> Result<(), DeviceFault>
    requires { W.has_failed sink.old ≡ false }
    ensures ok { OnOk result (Appends (W.taken sink.old) (W.taken sink.new) bytes.now) }
    ensures err { OnErr result ((count : ℕ) × Appends (W.taken sink.old) (W.taken sink.new)
        (take count bytes.now)) }
    ensures failed { W.has_failed sink.new ≡ is_err result }
{
    let mut at = 0;
    while at < bytes.len() {
        at += sink.write_some(&bytes[at..])?;
    }
    Ok(())
}
