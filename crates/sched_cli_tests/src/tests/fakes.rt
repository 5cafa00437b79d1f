use std::alloc::Global;
use std::io;
use std::io::{Read, Write};

/// A reader of these bytes that fails after the last one.
#[derive(Drop)]
pub(crate) struct Torn<'a>(pub(crate) &'a [u8]);

impl Read for Torn<'_> {
    fn read(&mut self, buf: &mut [u8]) -> io::Result<usize> {
        let (Some((first, rest)), Some(place)) = (self.0.split_first(), buf.first_mut()) else {
            return Err(io::Error::from(io::ErrorKind::WouldBlock));
        };
        *place = *first;
        self.0 = rest;
        Ok(1)
    }
}

/// A writer that takes one byte a call, and fails where it has no room for another.
#[derive(Drop)]
pub(crate) struct Short {
    pub(crate) taken: Vec<u8>,
    room: usize,
}

impl Short {
    pub(crate) fn new(alloc: Global, room: usize) -> Self {
        Short {
            taken: Vec::new(alloc),
            room,
        }
    }
}

impl Write for Short {
    fn write(&mut self, buf: &[u8]) -> io::Result<usize> {
        let Some(byte) = buf.first() else {
            return Ok(0);
        };
        if self.room == 0 {
            return Err(io::Error::from(io::ErrorKind::WouldBlock));
        }
        self.room -= 1;
        if self.taken.push(*byte).is_err() {
            return Err(io::Error::from(io::ErrorKind::OutOfMemory));
        }
        Ok(1)
    }

    fn flush(&mut self) -> io::Result<()> {
        Ok(())
    }
}

/// A writer whose writes all fail with this kind of error, or take no byte where there is none.
#[derive(Drop)]
pub(crate) struct Stuck(pub(crate) Option<io::ErrorKind>);

impl Write for Stuck {
    fn write(&mut self, _buf: &[u8]) -> io::Result<usize> {
        match self.0 {
            Some(kind) => Err(io::Error::from(kind)),
            None => Ok(0),
        }
    }

    fn flush(&mut self) -> io::Result<()> {
        Ok(())
    }
}

/// A reader of these bytes, one a call.
#[derive(Drop)]
pub(crate) struct Slow<'a>(pub(crate) &'a [u8]);

impl Read for Slow<'_> {
    fn read(&mut self, buf: &mut [u8]) -> io::Result<usize> {
        let (Some((first, rest)), Some(place)) = (self.0.split_first(), buf.first_mut()) else {
            return Ok(0);
        };
        *place = *first;
        self.0 = rest;
        Ok(1)
    }
}

/// A writer that takes all, and counts its calls.
#[derive(Drop)]
pub(crate) struct Whole {
    pub(crate) calls: u64,
}

impl Write for Whole {
    fn write(&mut self, buf: &[u8]) -> io::Result<usize> {
        self.calls = self.calls.saturating_add(1);
        Ok(buf.len())
    }

    fn flush(&mut self) -> io::Result<()> {
        Ok(())
    }
}
