// The system's streams and its clock.

use crate::fault::Fault;
use crate::files::new_path;
use crate::shown::{meant, show};
use lava_streams::clock::Clock;
use lava_streams::fault::{Failed, ReadFault};
use lava_streams::sink::Sink;
use lava_streams::source::{LINE_LIMIT, Line, Source};
use lava_system::real_clock::RealClock;
use lava_system::real_sink::RealSink;
use lava_system::real_source::RealSource;
use std::alloc::Global;
use std::fs;
use std::fs::OpenOptions;
use std::io::{BufReader, Write, pipe};

/// `lines TEXT`: up to the second answer that nothing is left.
pub fn lines(rt: &HostRuntime, text: &str) -> Result<String, Fault> {
    let text = meant(rt.alloc(), text)?;
    let (reader, mut writer) = pipe(rt)?;
    writer.write_all(text.as_bytes())?;
    drop(writer);
    let reader = BufReader::with_capacity(rt.alloc(), 2, reader)?;
    let mut source = RealSource::new(rt.alloc(), reader);
    answers(rt.alloc(), &mut source, 5)
}

/// `long_lines`: a line of the limit, one of more bytes, an empty one and a last one.
pub fn long_lines(alloc: Global) -> Result<String, Fault> {
    let mut bytes = vec![in alloc; b'a'; LINE_LIMIT]?;
    bytes.extend_from_slice(b"\nb")?;
    bytes.extend_from_slice(&vec![in alloc; b'b'; LINE_LIMIT]?)?;
    bytes.extend_from_slice(b"\n\nc")?;
    let mut source = RealSource::new(alloc, bytes.as_slice());
    answers(alloc, &mut source, 6)
}

/// What this many calls of a source answer, each with its faults so far.
pub fn answers<S: Source>(alloc: Global, source: &mut S, calls: u32) -> Result<String, Fault> {
    let mut words = String::new(alloc);
    for _ in 0..calls {
        let line = source.line(alloc);
        push_line(&mut words, line)?;
        words.push_str(format!(in alloc; " {} ", source.faults())?.as_str())?;
    }
    Ok(words)
}

// Appends what a source answered: a long line by its length.
fn push_line(words: &mut String, line: Result<Line, ReadFault>) -> Result<(), Fault> {
    match line {
        Ok(Line::Bytes(bytes)) if bytes.len() == LINE_LIMIT => words.push_str("limit")?,
        Ok(Line::Bytes(bytes)) => show(words, bytes.as_slice())?,
        Ok(Line::End) => words.push_str("end")?,
        Ok(Line::TooLong) => words.push_str("too long")?,
        Err(ReadFault::Failed) => words.push_str("failed")?,
        Err(ReadFault::OutOfMemory) => return Err(Fault::OutOfMemory),
    }
    Ok(())
}

/// `put PIECES`: the pieces are parted by a comma.
pub fn put(rt: &HostRuntime, pieces: &str) -> Result<String, Fault> {
    let path = new_path(rt)?;
    let pieces = meant(rt.alloc(), pieces)?;
    let mut sink = RealSink::new(fs::create(rt, path.as_str())?);
    let mut words = outcomes(rt.alloc(), &mut sink, pieces.as_str())?;
    show(&mut words, fs::read(rt, path.as_str())?.as_slice())?;
    fs::remove_file(rt, path.as_str())?;
    Ok(words)
}

/// `full`.
pub fn full(rt: &HostRuntime) -> Result<String, Fault> {
    let full = OpenOptions::new().write(true).open(rt, "/dev/full")?;
    let mut sink = RealSink::new(full);
    outcomes(rt.alloc(), &mut sink, ",one,two")
}

/// What puts of these pieces answer, each with the faults so far.
pub fn outcomes<S: Sink>(alloc: Global, sink: &mut S, pieces: &str) -> Result<String, Fault> {
    let mut words = String::new(alloc);
    for piece in pieces.split(',') {
        match sink.put(piece.as_bytes()) {
            Ok(()) => words.push_str("ok")?,
            Err(Failed) => words.push_str("failed")?,
        }
        words.push_str(format!(in alloc; " {} ", sink.faults())?.as_str())?;
    }
    Ok(words)
}

/// `clock`: whether the moment is later than the first of January 2024, in milliseconds.
pub fn clock(rt: &HostRuntime) -> Result<String, Fault> {
    let mut clock = RealClock::new(rt);
    let is_later = clock.now()? > 1_704_067_200_000;
    Ok(format!(in rt.alloc(); "{is_later} {}", clock.faults())?)
}
