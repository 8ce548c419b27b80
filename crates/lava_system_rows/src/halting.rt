// A stream that halts.

use crate::fault::Fault;
use crate::streams::{answers, outcomes};
use lava_system::real_sink::RealSink;
use lava_system::real_source::RealSource;
use std::alloc::Global;
use std::io;
use std::io::{BufReader, ErrorKind, Read, Write};

/// A stream that is interrupted, gives or takes at most two bytes, fails, and gives or takes one more byte and then none.
#[derive(Drop)]
struct Halting {
    calls: u32,
}

impl Halting {
    // How many bytes the next call gives or takes at most.
    fn turn(&mut self) -> io::Result<usize> {
        self.calls = self.calls.saturating_add(1);
        match self.calls {
            1 => Err(io::Error::from(ErrorKind::Interrupted)),
            2 => Ok(2),
            3 => Err(io::Error::from(ErrorKind::Other)),
            4 => Ok(1),
            _ => Ok(0),
        }
    }
}

impl Read for Halting {
    fn read(&mut self, buf: &mut [u8]) -> io::Result<usize> {
        let count = self.turn()?.min(buf.len());
        for byte in buf.iter_mut() {
            *byte = b'x';
        }
        Ok(count)
    }
}

impl Write for Halting {
    fn write(&mut self, buf: &[u8]) -> io::Result<usize> {
        Ok(self.turn()?.min(buf.len()))
    }

    fn flush(&mut self) -> io::Result<()> {
        Ok(())
    }
}

/// `halting_source`.
pub fn source(alloc: Global) -> Result<String, Fault> {
    let reader = BufReader::new(alloc, Halting { calls: 0 })?;
    answers(alloc, &mut RealSource::new(alloc, reader), 3)
}

/// `halting_sink`.
pub fn sink(alloc: Global) -> Result<String, Fault> {
    outcomes(
        alloc,
        &mut RealSink::new(Halting { calls: 0 }),
        "four,four,",
    )
}
