//! A function that writes a whole text to an output.
ghost use Rattle.std.specs.Prelude.{OnOk, OnErr};
ghost use Rattle.std.specs.Io.KnownBytes.{Appends};
ghost use Rattle.jc_base.specs.Device.{CountsFault, WritesFront};

use crate::device::{DeviceFault, Output};

/// Writes all bytes. If a write fails, a proper prefix of them is written.
pub fn write_all<W: Output>(out: &mut W, bytes: &[u8]) -> Result<(), DeviceFault>
    ensures ok { OnOk result (Appends (W.written out.old) (W.written out.new) bytes.now) }
    ensures front { OnErr result (WritesFront (W.written out.old) (W.written out.new) bytes.now) }
    ensures failures { CountsFault result (W.failures out.old) (W.failures out.new) }
{
    let mut at = 0;
    while at < bytes.len() {
        at += out.write(&bytes[at..])?;
    }
    Ok(())
}
