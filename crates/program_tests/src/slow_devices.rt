//! A reader and a writer for the examples, that take so many bytes a call and fail at a call.

use std::alloc::Global;
use std::io;
use std::io::{Read, Write};

/// Gives as many bytes a call at most, and fails at the call of this number, counted from 0.
#[derive(Drop)]
pub(crate) struct Drip<'a> {
    pub(crate) bytes: &'a [u8],
    pub(crate) most: usize,
    pub(crate) calls: usize,
    pub(crate) fails_at: usize,
}

impl Read for Drip<'_> {
    fn read(&mut self, buf: &mut [u8]) -> io::Result<usize> {
        if self.calls == self.fails_at {
            return Err(io::Error::from(io::ErrorKind::Other));
        }
        self.calls = self.calls.saturating_add(1);
        let count = buf.len().min(self.most).min(self.bytes.len());
        buf[..count].copy_from_slice(&self.bytes[..count]);
        self.bytes = &self.bytes[count..];
        Ok(count)
    }
}

/// Takes as many bytes a call at most, and fails at the call of this number, counted from 0.
#[derive(Drop)]
pub(crate) struct Sip {
    pub(crate) taken: Vec<u8>,
    pub(crate) most: usize,
    pub(crate) calls: usize,
    pub(crate) fails_at: usize,
}

impl Sip {
    /// It has taken nothing yet.
    pub(crate) fn new(alloc: Global, most: usize, fails_at: usize) -> Sip {
        Sip {
            taken: Vec::new(alloc),
            most,
            calls: 0,
            fails_at,
        }
    }
}

impl Write for Sip {
    fn write(&mut self, buf: &[u8]) -> io::Result<usize> {
        if self.calls == self.fails_at {
            return Err(io::Error::from(io::ErrorKind::Other));
        }
        self.calls = self.calls.saturating_add(1);
        let count = buf.len().min(self.most);
        match self.taken.extend_from_slice(&buf[..count]) {
            Ok(()) => Ok(count),
            Err(_) => Err(io::Error::from(io::ErrorKind::OutOfMemory)),
        }
    }

    fn flush(&mut self) -> io::Result<()> {
        if self.calls == self.fails_at {
            return Err(io::Error::from(io::ErrorKind::Other));
        }
        self.calls = self.calls.saturating_add(1);
        Ok(())
    }
}
