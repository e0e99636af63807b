//! The traits of the devices that a run reads and writes.
ghost use Rattle.std.specs.Prelude.{◌≡◌, ◌+◌, ◌<◌, ◌≤◌, ◌^◌, Bool};
ghost use Rattle.std.specs.Prelude.{ℕ, List, Option, length, false, true, IfOk, MatchResult};
ghost use Rattle.std.specs.Io.KnownBytes.{IsAtEnd, ReadConsumes, WriteAppends};
ghost use Rattle.jc_base.specs.Device.{CountsFault, MoreFaults};

/// The error of a device call that failed. The cause is not kept, and no call that failed is tried again.
#[derive(Clone, Copy, Debug, PartialEq, Eq)]
pub struct DeviceFault;

/// A device from which bytes are read.
pub trait Input {
    /// The bytes that reads return from here on if none fails, or `None` if they are not known.
    ghost remaining: { Self → Option (List ℕ) };

    /// The number of reads that failed, at most 2^64 - 1.
    ghost failures: { Self → ℕ };

    /// An upper bound on the number of bytes that reads still return.
    ghost bound: { Self → ℕ };

    /// Whether it is known that the input has ended.
    ghost ended: { Self → Bool };

    /// Returns whether it is known that the input has ended. An input that has ended is not read again. Does not
    /// allocate.
    fn has_ended(&self) -> bool
        ensures { result ≡ ended self.now };

    /// Reads bytes into the front of `buffer`, and returns their number.
    ///
    /// `Ok(0)` for a buffer that is not empty means that the input has ended. An input that has ended must not be read:
    /// a terminal would need a second end of file.
    fn read(&mut self, buffer: &mut [u8]) -> Result<usize, DeviceFault>
        requires { ended self.old ≡ false }
        ensures room { IfOk result (λ n. n ≤ length buffer.new) }
        ensures bytes { ReadConsumes (remaining self.old) (remaining self.new) result buffer.new }
        ensures ended { IfOk result (λ n. n ≡ 0 → 0 < length buffer.new → ended self.new ≡ true) }
        ensures failures { CountsFault result (failures self.old) (failures self.new) }
        ensures bound { MatchResult result
            (λ n. bound self.new + n ≤ bound self.old)
            (λ _. bound self.new ≤ bound self.old) };

    ghost bound_fits: { (device : Self) → bound device < 2 ^ 63 };

    ghost ended_at_end: { (device : Self) → ended device ≡ true → IsAtEnd (remaining device) };
}

/// A device to which bytes are written.
pub trait Output {
    /// All bytes that were written, or `None` if they are not known.
    ghost written: { Self → Option (List ℕ) };

    /// The number of writes that failed, at most 2^64 - 1.
    ghost failures: { Self → ℕ };

    /// Writes bytes from the front of `bytes`, at least one if there are any, and returns their number.
    fn write(&mut self, bytes: &[u8]) -> Result<usize, DeviceFault>
        ensures room { IfOk result (λ n. n ≤ length bytes.now) }
        ensures some { 0 < length bytes.now → IfOk result (λ n. 0 < n) }
        ensures bytes { WriteAppends (written self.old) (written self.new) result bytes.now }
        ensures failures { CountsFault result (failures self.old) (failures self.new) };
}

/// Counts one more failure, up to 2^64 - 1, and returns the error.
pub(crate) fn one_more(failures: &mut u64) -> DeviceFault
    ensures { MoreFaults failures.old failures.new × (failures.old ≤ failures.new) }
{
    *failures = failures.saturating_add(1);
    DeviceFault
}
