//! Devices that are waited for, since a stream that doesn't block may not be ready yet.

ghost use Rattle.std.specs.Prelude.{◌≡◌};
ghost use Rattle.std.specs.Io.{ReadsAtMost, WritesAtMost};
ghost use Rattle.std.specs.Io.KnownBytes.{Keeps, ReadConsumes, WriteAppends};
ghost use Rattle.devices.specs.Waiting.{waited_for};

use std::io::{Error, ErrorKind, Read, Write};
use std::time::{Clock, Duration};
use std::{io, thread};

/// How long it waits before it asks a device again, in milliseconds.
const PAUSE: u64 = 5;

/// A reader or a writer that waits where its device would block, as one behind a stream that somebody else set to be
/// non-blocking. It tells its bytes where the device does. A call ends by `WouldBlock` only where the device did so at
/// each of 2^64 - 1 tries.
#[derive(Drop)]
pub struct Patient<'a, C, D> {
    clock: &'a C,
    device: D,
}

/// Whether a device may do better later.
fn is_early(error: &Error) -> bool {
    error.kind() == ErrorKind::WouldBlock
}

impl<'a, C: Clock, D> Patient<'a, C, D> {
    /// The device, for which this clock is slept by.
    pub fn new(clock: &'a C, device: D) -> Patient<'a, C, D>
        ensures { waited_for result ≡ device }
    {
        Patient { clock, device }
    }

    fn wait(&self) {
        thread::sleep(self.clock, Duration::from_millis(PAUSE));
    }
}

impl<C: Clock, R: Read> Read for Patient<'_, C, R> {
    ghost remaining = { λ p. R.remaining (waited_for p) };

    fn read(&mut self, buf: &mut [u8]) -> io::Result<usize>
        ensures bound { ReadsAtMost result buf.new }
        ensures bytes { ReadConsumes (R.remaining (waited_for self.old)) (R.remaining (waited_for self.new)) result
            buf.new }
    {
        for _ in 0..u64::MAX {
            match self.device.read(buf) {
                Err(error) if is_early(&error) => self.wait(),
                result => return result,
            }
        }
        Err(Error::from(ErrorKind::WouldBlock))
    }
}

impl<C: Clock, W: Write> Write for Patient<'_, C, W> {
    ghost contents = { λ p. W.contents (waited_for p) };

    fn write(&mut self, buf: &[u8]) -> io::Result<usize>
        ensures bound { WritesAtMost result buf.now }
        ensures bytes { WriteAppends (W.contents (waited_for self.old)) (W.contents (waited_for self.new)) result
            buf.now }
    {
        for _ in 0..u64::MAX {
            match self.device.write(buf) {
                Err(error) if is_early(&error) => self.wait(),
                result => return result,
            }
        }
        Err(Error::from(ErrorKind::WouldBlock))
    }

    fn flush(&mut self) -> io::Result<()>
        ensures bytes { Keeps (W.contents (waited_for self.old)) (W.contents (waited_for self.new)) }
    {
        for _ in 0..u64::MAX {
            match self.device.flush() {
                Err(error) if is_early(&error) => self.wait(),
                result => return result,
            }
        }
        Err(Error::from(ErrorKind::WouldBlock))
    }
}
