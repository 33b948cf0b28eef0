//! Readers and writers that fail, are interrupted, or are slow.

use std::io;
use std::io::{ErrorKind, Read, Write};

/// Gives the same byte, a given number of times at each read, and fails after a given number of reads.
#[derive(Drop)]
pub(crate) struct Repeated {
    pub(crate) byte: u8,
    pub(crate) at_once: usize,
    pub(crate) reads_left: u64,
}

impl Read for Repeated {
    fn read(&mut self, buffer: &mut [u8]) -> io::Result<usize> {
        if self.reads_left == 0 {
            return Err(io::Error::from(ErrorKind::TimedOut));
        }
        self.reads_left = self.reads_left.saturating_sub(1);
        let count = self.at_once.min(buffer.len());
        for byte in &mut buffer[..count] {
            *byte = self.byte;
        }
        Ok(count)
    }
}

/// Is interrupted a given number of times before each read of its text, which gives a limited number of bytes.
#[derive(Drop)]
pub(crate) struct Interrupted<'a> {
    pub(crate) text: &'a [u8],
    pub(crate) at_once: usize,
    pub(crate) times: u64,
    pub(crate) left: u64,
    pub(crate) tries: u64,
}

impl Read for Interrupted<'_> {
    fn read(&mut self, buffer: &mut [u8]) -> io::Result<usize> {
        self.tries = self.tries.saturating_add(1);
        if 0 < self.left {
            self.left = self.left.saturating_sub(1);
            return Err(io::Error::from(ErrorKind::Interrupted));
        }
        self.left = self.times;
        let count = self.at_once.min(buffer.len());
        self.text.read(&mut buffer[..count])
    }
}

/// Takes a limited number of bytes at each write and in all, and is interrupted a given number of times before each
/// write.
#[derive(Drop)]
pub(crate) struct Slow {
    pub(crate) taken: Vec<u8>,
    pub(crate) at_once: usize,
    pub(crate) room: usize,
    pub(crate) times: u64,
    pub(crate) left: u64,
    pub(crate) tries: u64,
}

impl Write for Slow {
    fn write(&mut self, bytes: &[u8]) -> io::Result<usize> {
        self.tries = self.tries.saturating_add(1);
        if 0 < self.left {
            self.left = self.left.saturating_sub(1);
            return Err(io::Error::from(ErrorKind::Interrupted));
        }
        self.left = self.times;
        let count = self.at_once.min(self.room).min(bytes.len());
        self.taken.extend_from_slice(&bytes[..count])?;
        self.room = self.room.saturating_sub(count);
        Ok(count)
    }

    fn flush(&mut self) -> io::Result<()> {
        Ok(())
    }
}

/// Takes a limited number of bytes, and then fails.
#[derive(Drop)]
pub(crate) struct Failing {
    pub(crate) room: usize,
}

impl Write for Failing {
    fn write(&mut self, bytes: &[u8]) -> io::Result<usize> {
        let count = self.room.min(bytes.len());
        if count == 0 {
            return Err(io::Error::from(ErrorKind::BrokenPipe));
        }
        self.room = self.room.saturating_sub(count);
        Ok(count)
    }

    fn flush(&mut self) -> io::Result<()> {
        Ok(())
    }
}
