// A sink over a writer of the system.

ghost use Rattle.std.specs.Prelude.{◌≡◌, None, OnOk, OnErr, IfSome};
ghost use Rattle.std.specs.Io.KnownBytes.{Appends};
ghost use Rattle.lava_streams.specs.Pieces.{AppendsPrefix};

use crate::faults::counted_failed;
use lava_streams::fault::Failed;
use lava_streams::sink::Sink;
use std::io::{ErrorKind, Write};
use std::marker::Model;

/// A sink over a writer, as the standard output or a file. It tells nothing of what it holds. What was put is with the system when `put` answers Ok: it holds nothing back. A write that an interrupt ended is tried again; one that takes nothing of a piece that is not empty is a fault.
#[derive(Drop)]
pub struct RealSink<W> {
    out: W,
    faults: u64,
}

impl<W> Model for RealSink<W> {
    ghost use Rattle.std.specs.Prelude.{ℕ};

    ghost Value = { ℕ };

    ghost view = { λ s. s.faults };
}

impl<W: Write + Drop> RealSink<W> {
    /// The sink over a writer, which contracts see as its count of faults.
    pub fn new(out: W) -> RealSink<W>
        ensures { result ≡ 0 }
    {
        RealSink { out, faults: 0 }
    }
}

impl<W: Write + Drop> Sink for RealSink<W> {
    ghost stand = { λ s. record { count = s; told = None } };

    fn faults(&self) -> u64 {
        self.faults
    }

    fn put(&mut self, piece: &[u8]) -> Result<(), Failed> {
        let written = write_and_flush(&mut self.out, piece);
        counted_failed(&mut self.faults, written)
    }
}

// Writes a whole piece, and nothing of it is held back.
fn write_and_flush<W: Write>(out: &mut W, piece: &[u8]) -> Result<(), Failed>
    ensures ok { OnOk result (Appends (W.contents out.old) (W.contents out.new) piece.now) }
    ensures err { let now = W.contents out.new in
        IfSome (W.contents out.old) (λ held. OnErr result (AppendsPrefix held piece.now now)) }
{
    write_whole(out, piece)?;
    match out.flush() {
        Ok(()) => Ok(()),
        Err(_) => Err(Failed),
    }
}

// Writes a whole piece, or before a fault a prefix of it.
fn write_whole<W: Write>(out: &mut W, piece: &[u8]) -> Result<(), Failed>
    ensures ok { OnOk result (Appends (W.contents out.old) (W.contents out.new) piece.now) }
    ensures err { let now = W.contents out.new in
        IfSome (W.contents out.old) (λ held. OnErr result (AppendsPrefix held piece.now now)) }
{
    let mut done = 0;
    for _ in 0..u64::MAX {
        if done == piece.len() {
            return Ok(());
        }
        match out.write(&piece[done..]) {
            Ok(0) => return Err(Failed),
            Ok(count) => done += count,
            Err(error) => {
                if error.kind() != ErrorKind::Interrupted {
                    return Err(Failed);
                }
            }
        }
    }
    Err(Failed)
}
