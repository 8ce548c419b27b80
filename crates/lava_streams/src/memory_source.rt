// An input in memory.

ghost use Rattle.std.specs.Prelude.{◌≡◌, ◌++◌, ◌∷◌, [], ◌≤◌, ◌↔◌, ◌==◌, length, position, IsTrue, Some, IfOk, OnOk, OnErr, IsErrOf};
ghost use Rattle.std.specs.List.{position_or_len};
ghost use Rattle.lava_streams.specs.Counts.{Counts};
ghost use Rattle.lava_streams.specs.Failures.{no_failures, failing_at, fails_next, after_call};
ghost use Rattle.lava_streams.specs.Left.{LeavesEnd};
ghost use Rattle.lava_streams.specs.Lines.{line_of, IsWithinLine};

use crate::failing::Failing;
use crate::fault::ReadFault;
use crate::source::{LINE_LIMIT, Line, Source};
use lava_base::list::List;
use lava_base::memory::OutOfMemory;
use std::alloc::Global;
use std::marker::Model;

/// An input in memory, which tells its bytes. Calls of `line` can be made to fail.
#[derive(Drop)]
pub struct MemorySource {
    bytes: List<u8>,
    failing: Failing,
}

impl Model for MemorySource {
    ghost use Rattle.lava_streams.specs.States.{SourceState};

    ghost Value = { SourceState };

    ghost view = { λ s. record { bytes = s.bytes; failing = s.failing } };
}

impl MemorySource {
    /// An input without a byte. It takes no memory, and keeps the allocator for what is given.
    pub fn new(alloc: Global) -> MemorySource
        ensures { result ≡ record { bytes = []; failing = no_failures } }
    {
        MemorySource {
            bytes: List::new(alloc),
            failing: Failing::new(alloc),
        }
    }

    /// Appends bytes to the input. After a refusal the input is as before.
    pub fn give(&mut self, bytes: &[u8]) -> Result<(), OutOfMemory>
        ensures ok { let bytes = self.old.bytes ++ bytes.now in
            OnOk result (self.new ≡ record self.old { bytes = bytes }) }
        ensures err { OnErr result (self.new ≡ self.old) }
    {
        self.bytes.extend_from_slice(bytes)
    }

    /// The bytes that are not yet taken.
    pub fn held(&self) -> &List<u8>
        ensures { result.now ≡ self.now.bytes }
    {
        &self.bytes
    }

    /// Lets the `n`-th call of `line` from now fail. After a refusal the input is as before.
    pub fn fail_at(&mut self, n: u32) -> Result<(), OutOfMemory>
        requires { 1 ≤ n }
        ensures ok { let failing = failing_at self.old.failing n in
            OnOk result (self.new ≡ record self.old { failing = failing }) }
        ensures err { OnErr result (self.new ≡ self.old) }
    {
        self.failing.fail_at(n)
    }
}

impl Source for MemorySource {
    ghost stand = { λ s. record { count = s.failing.faults; told = Some s.bytes } };

    fn faults(&self) -> u64
        ensures { result ≡ self.now.failing.faults }
    {
        self.failing.faults()
    }

    // Every call counts towards those that are to fail, also one that finds no memory for its answer. It fails exactly where it is to. After a fault no byte is taken.
    fn line(&mut self, alloc: Global) -> Result<Line, ReadFault>
        ensures counts { Counts self.old.failing.faults self.new.failing.faults result }
        ensures gives { let first = line_of self.old.bytes in
            IfOk result (λ line. (line ≡ first.0) × (self.new.bytes ≡ first.1)) }
        ensures within { IfOk result IsWithinLine }
        ensures err { OnErr result (LeavesEnd self.old.bytes (Some self.new.bytes)) }
        ensures keeps { OnErr result (self.new.bytes ≡ self.old.bytes) }
        ensures after { self.new.failing ≡ after_call self.old.failing }
        ensures fails { IsErrOf result ReadFault.Failed ↔ IsTrue (fails_next self.old.failing) }
    {
        if self.failing.call() {
            return Err(ReadFault::Failed);
        }
        Ok(take_line(alloc, &mut self.bytes)?)
    }
}

// Takes the first line. After a refusal nothing is taken.
fn take_line(alloc: Global, bytes: &mut List<u8>) -> Result<Line, OutOfMemory>
    ensures gives { let first = line_of bytes.old in
        IfOk result (λ line. (line ≡ first.0) × (bytes.new ≡ first.1)) }
    ensures within { IfOk result IsWithinLine }
    ensures err { OnErr result (bytes.new ≡ bytes.old) }
{
    if bytes.is_empty() {
        return Ok(Line::End);
    }
    let length = line_length(bytes.as_slice());
    if length > LINE_LIMIT {
        bytes.drop_first(LINE_LIMIT);
        return Ok(Line::TooLong);
    }
    let line = List::from_vec(Vec::from_slice(alloc, &bytes.as_slice()[..length])?);
    bytes.drop_first((length + 1).min(bytes.len()));
    Ok(Line::Bytes(line))
}

// How many bytes stand before the first LF, or in all.
fn line_length(bytes: &[u8]) -> usize
    ensures length { result ≡ position_or_len (λ b. b == 10) bytes.now }
    ensures within { result ≤ length bytes.now }
{
    first_lf(bytes).unwrap_or(bytes.len())
}

// The place of the first LF.
fn first_lf(bytes: &[u8]) -> Option<usize>
    ensures { result ≡ position (λ b. b == 10) bytes.now }
{
    bytes.iter().position(|b| *b == b'\n')
}
