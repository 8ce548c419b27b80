// An input over a reader of the system.

ghost use Rattle.std.specs.Prelude.{◌≡◌, ◌≤◌, ◌==◌, [], length, position, None, IfSome, IfOk, OnErr};
ghost use Rattle.std.specs.List.{position_or_len};
ghost use Rattle.lava_system.specs.Adapters.{IsBegun, Takes};
ghost use Rattle.lava_streams.specs.Lines.{line_of, IsWithinLine};

use crate::faults::{counted, fault_of};
use lava_base::list::List;
use lava_base::memory::OutOfMemory;
use lava_streams::fault::ReadFault;
use lava_streams::source::{LINE_LIMIT, Line, Source};
use std::alloc::Global;
use std::io::{BufRead, ErrorKind};
use std::marker::Model;
use std::{io, mem};

/// An input over a reader with a buffer, as one over the standard input. It tells nothing of what is left. A read of no byte is the end. After a fault or for want of memory no byte is lost: the next call goes on with the bytes that the line has begun with.
#[derive(Drop)]
pub struct RealSource<B> {
    input: B,
    // what the next line begins with, as far as it was read
    begun: List<u8>,
    faults: u64,
}

impl<B> Model for RealSource<B> {
    ghost use Rattle.std.specs.Prelude.{ℕ};
    ghost use Rattle.lava_system.specs.Adapters.{IsBegun};

    ghost Value = { ℕ };

    ghost view = { λ s. s.faults };

    ghost invariant = { λ s. IsBegun s.begun };
}

impl<B: BufRead + Drop> RealSource<B> {
    /// The input over a reader, which contracts see as its count of faults. It takes no memory, and keeps the allocator for the first line.
    pub fn new(alloc: Global, input: B) -> RealSource<B>
        ensures { result ≡ 0 }
    {
        RealSource {
            input,
            begun: List::new(alloc),
            faults: 0,
        }
    }
}

impl<B: BufRead + Drop> Source for RealSource<B> {
    ghost stand = { λ s. record { count = s; told = None } };

    fn faults(&self) -> u64 {
        self.faults
    }

    fn line(&mut self, alloc: Global) -> Result<Line, ReadFault> {
        let line = next_line(alloc, &mut self.input, &mut self.begun);
        counted(&mut self.faults, line)
    }
}

// The next line, which may have begun already.
fn next_line<B: BufRead>(
    alloc: Global,
    input: &mut B,
    begun: &mut List<u8>,
) -> Result<Line, ReadFault>
    requires { IsBegun begun.old }
    ensures begun { IsBegun begun.new }
    ensures within { IfOk result IsWithinLine }
{
    for _ in 0..u64::MAX {
        if let Some(line) = read_on(alloc, input, begun)? {
            return Ok(line);
        }
    }
    Err(ReadFault::Failed)
}

// Goes on with a line by what one read gives, unless an interrupt ended it.
fn read_on<B: BufRead>(
    alloc: Global,
    input: &mut B,
    begun: &mut List<u8>,
) -> Result<Option<Line>, ReadFault>
    requires { IsBegun begun.old }
    ensures begun { IsBegun begun.new }
    ensures within { IfOk result (λ line. IfSome line IsWithinLine) }
{
    let next = match input.fill_buf() {
        Ok(next) => next,
        Err(error) => return interrupted_or_fault(error),
    };
    let (count, line) = take_line(alloc, begun, next)?;
    input.consume(count);
    Ok(line)
}

// No line yet, where an interrupt ended the read.
fn interrupted_or_fault(error: io::Error) -> Result<Option<Line>, ReadFault>
    ensures { IfOk result (λ line. line ≡ None) }
{
    if error.kind() == ErrorKind::Interrupted {
        Ok(None)
    } else {
        Err(fault_of(error))
    }
}

// Goes on with a line by the next bytes of the input, of which there are none at its end. Says how many of them are taken. After a refusal nothing is taken.
fn take_line(
    alloc: Global,
    begun: &mut List<u8>,
    next: &[u8],
) -> Result<(usize, Option<Line>), OutOfMemory>
    requires { IsBegun begun.old }
    ensures takes { IfOk result (λ taken. Takes begun.old next.now taken.0 taken.1 begun.new) }
    ensures within { IfOk result (λ taken. IfSome taken.1 IsWithinLine) }
    ensures begun { IsBegun begun.new }
    ensures err { OnErr result (begun.new ≡ begun.old) }
{
    if next.is_empty() {
        return Ok((0, Some(last_line(alloc, begun))));
    }
    let room = LINE_LIMIT - begun.len();
    let end = line_length(next);
    if end > room {
        *begun = List::new(alloc);
        return Ok((room, Some(Line::TooLong)));
    }
    begun.extend_from_slice(&next[..end])?;
    if end == next.len() {
        return Ok((end, None));
    }
    let line = mem::replace(begun, List::new(alloc));
    Ok((end + 1, Some(Line::Bytes(line))))
}

// The line at the end of the input: what it has begun with, if anything.
fn last_line(alloc: Global, begun: &mut List<u8>) -> Line
    requires { IsBegun begun.old }
    ensures line { (result, []) ≡ line_of begun.old }
    ensures within { IsWithinLine result }
    ensures begun { begun.new ≡ [] }
{
    if begun.is_empty() {
        Line::End
    } else {
        Line::Bytes(mem::replace(begun, List::new(alloc)))
    }
}

// How many bytes stand before the first LF, or in all.
fn line_length(bytes: &[u8]) -> usize
    ensures length { result ≡ position_or_len (λ b. b == 10) bytes.now }
    ensures within { result ≤ length bytes.now }
{
    first_lf(bytes).unwrap_or(bytes.len())
}

// The place of the first LF.
fn first_lf(bytes: &[u8]) -> Option<usize>
    ensures { result ≡ position (λ b. b == 10) bytes.now }
{
    bytes.iter().position(|b| *b == b'\n')
}
