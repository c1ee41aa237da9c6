//! Devices whose failures are counted, so that a contract can blame them.

ghost use Rattle.std.specs.Prelude.{◌≡◌, ◌<◌, take, length, is_err, OnOk, OnErr, IfErr};
ghost use Rattle.std.specs.Io.{ReadsAtMost, WritesAtMost};
ghost use Rattle.std.specs.Io.KnownBytes.{Appends, Keeps, ReadConsumes, WriteAppends};
ghost use Rattle.devices.specs.Watching.{device_of, failures_of, counted, took_nothing, Rose};

use std::io;
use std::io::{Read, Write};
use thiserror::Error;

/// A reader or a writer that counts the calls in which its device failed. It tells its bytes where
/// the device does.
#[derive(Drop)]
pub struct Watched<D> {
    device: D,
    failures: u64,
}

impl<D> Watched<D> {
    /// The device, none of whose calls has failed yet.
    pub fn new(device: D) -> Watched<D>
        ensures device { device_of result ≡ device }
        ensures none { failures_of result ≡ 0 }
    {
        Watched {
            device,
            failures: 0,
        }
    }

    /// The device.
    pub fn into_inner(self) -> D
        ensures { result ≡ device_of self }
    {
        self.device
    }

    /// How many calls failed: those that answered an error, and writes of some bytes that took
    /// none. At its greatest value the count stays, and a call that leaves it there counts as a
    /// failed one.
    pub fn failures(&self) -> u64
        ensures { result ≡ failures_of self.now }
    {
        let Watched { failures, .. } = self;
        *failures
    }
}

impl<R: Read> Read for Watched<R> {
    ghost remaining = { λ w. R.remaining (device_of w) };

    fn read(&mut self, buf: &mut [u8]) -> io::Result<usize>
        ensures bound { ReadsAtMost result buf.new }
        ensures bytes { ReadConsumes (R.remaining (device_of self.old)) (R.remaining (device_of self.new)) result
            buf.new }
        ensures failures { failures_of self.new ≡ counted (is_err result) (failures_of self.old) }
    {
        let result = self.device.read(buf);
        if result.is_err() {
            self.failures = self.failures.saturating_add(1);
        }
        result
    }
}

impl<W: Write> Write for Watched<W> {
    ghost contents = { λ w. W.contents (device_of w) };

    fn write(&mut self, buf: &[u8]) -> io::Result<usize>
        ensures bound { WritesAtMost result buf.now }
        ensures bytes { WriteAppends (W.contents (device_of self.old))
            (W.contents (device_of self.new)) result buf.now }
        ensures failures { failures_of self.new ≡ counted (took_nothing result buf.now) (failures_of self.old) }
    {
        let result = self.device.write(buf);
        let failed = match &result {
            Ok(n) => *n == 0 && !buf.is_empty(),
            Err(_) => true,
        };
        if failed {
            self.failures = self.failures.saturating_add(1);
        }
        result
    }

    fn flush(&mut self) -> io::Result<()>
        ensures bytes { Keeps (W.contents (device_of self.old)) (W.contents (device_of self.new)) }
        ensures failures { failures_of self.new ≡ counted (is_err result) (failures_of self.old) }
    {
        let result = self.device.flush();
        if result.is_err() {
            self.failures = self.failures.saturating_add(1);
        }
        result
    }
}

/// The device took no more after this many bytes.
#[derive(Clone, Copy, Debug, PartialEq, Eq, Error)]
#[error("the writer took {written} bytes and no more")]
pub struct WriteFault {
    /// How many bytes went out, those at the front.
    pub written: usize,
}

/// Writes all the bytes, or says how many went out before the device failed. It fails only where a
/// call of the device did, so that its count of failures rose. It takes no memory of its own.
pub fn write_to<W: Write>(bytes: &[u8], out: &mut Watched<W>) -> Result<(), WriteFault>
    ensures ok { OnOk result (Appends (W.contents (device_of out.old)) (W.contents (device_of out.new)) bytes.now) }
    ensures part { IfErr result (λ fault. (fault.written < length bytes.now)
        × Appends (W.contents (device_of out.old)) (W.contents (device_of out.new)) (take fault.written bytes.now)) }
    ensures sound { OnOk result (failures_of out.new ≡ failures_of out.old) }
    ensures failed { OnErr result (Rose (failures_of out.old) (failures_of out.new)) }
{
    let mut written = 0;
    while written < bytes.len() {
        match out.write(&bytes[written..]) {
            Ok(n) if n > 0 => written += n,
            _ => return Err(WriteFault { written }),
        }
    }
    Ok(())
}
