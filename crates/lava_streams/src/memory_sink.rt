// A sink in memory.

ghost use Rattle.std.specs.Prelude.{◌≡◌, ◌+◌, ◌++◌, ◌∷◌, [], ◌≤◌, length, vec_len, vec_capacity, Some, is_ok, IfOk, OnOk, OnErr};
ghost use Rattle.lava_streams.specs.Counts.{CountsFailed};
ghost use Rattle.lava_streams.specs.Failures.{no_failures, failing_at, fails_next, after_call};
ghost use Rattle.lava_streams.specs.Pieces.{AppendsPrefix};
ghost use Rattle.lava_streams.specs.States.{takes_piece, after_put};

use crate::failing::Failing;
use crate::fault::Failed;
use crate::sink::Sink;
use lava_base::memory::OutOfMemory;
use std::alloc::Global;
use std::marker::Model;

/// A sink in memory, which tells its bytes and has room for so many. Calls of `put` can be made to fail.
#[derive(Drop)]
pub struct MemorySink {
    bytes: Vec<u8>,
    room: u32,
    failing: Failing,
}

impl Model for MemorySink {
    ghost use Rattle.std.specs.Prelude.{◌≤◌, vec_len, vec_capacity};
    ghost use Rattle.lava_streams.specs.States.{SinkState};

    ghost Value = { SinkState };

    ghost view = { λ s. record { bytes = s.bytes.items; room = s.room; failing = s.failing } };

    ghost invariant = { λ s. (vec_len s.bytes ≤ s.room) × (s.room ≤ vec_capacity s.bytes) };
}

impl MemorySink {
    /// An empty sink with room for `room` bytes. It takes all the memory that the sink ever needs for them.
    pub fn with_room(alloc: Global, room: u32) -> Result<MemorySink, OutOfMemory>
        ensures { IfOk result (λ sink.
            sink ≡ record { bytes = []; room = room; failing = no_failures }) }
    {
        Ok(MemorySink {
            bytes: Vec::with_capacity(alloc, room as usize)?,
            room,
            failing: Failing::new(alloc),
        })
    }

    /// The bytes that were appended.
    pub fn held(&self) -> &[u8]
        ensures { result.now ≡ self.now.bytes }
    {
        self.bytes.as_slice()
    }

    /// Lets the `n`-th call of `put` from now fail. After a refusal the sink is as before.
    pub fn fail_at(&mut self, n: u32) -> Result<(), OutOfMemory>
        requires { 1 ≤ n }
        ensures ok { let failing = failing_at self.old.failing n in
            OnOk result (self.new ≡ record self.old { failing = failing }) }
        ensures err { OnErr result (self.new ≡ self.old) }
    {
        self.failing.fail_at(n)
    }
}

impl Sink for MemorySink {
    ghost stand = { λ s. record { count = s.failing.faults; told = Some s.bytes } };

    fn faults(&self) -> u64
        ensures { result ≡ self.now.failing.faults }
    {
        self.failing.faults()
    }

    // It takes no memory. It fails exactly where it is to, and then takes nothing, and where the piece passes the room, of which as much as fits is appended.
    fn put(&mut self, piece: &[u8]) -> Result<(), Failed>
        ensures counts { CountsFailed self.old.failing.faults self.new.failing.faults result }
        ensures ok { OnOk result (self.new.bytes ≡ self.old.bytes ++ piece.now) }
        ensures err { OnErr result (AppendsPrefix self.old.bytes piece.now (Some self.new.bytes)) }
        ensures takes { is_ok result ≡ takes_piece self.old piece.now }
        ensures after { self.new ≡ after_put self.old piece.now }
    {
        if self.failing.call() {
            return Err(Failed);
        }
        let free = self.room as usize - self.bytes.len();
        if piece.len() > free {
            append(&mut self.bytes, &piece[..free]);
            self.failing.fault();
            return Err(Failed);
        }
        append(&mut self.bytes, piece);
        Ok(())
    }
}

// Appends bytes for which there is room.
fn append(bytes: &mut Vec<u8>, more: &[u8])
    requires { vec_len bytes.old + length more.now ≤ vec_capacity bytes.old }
    ensures appended { bytes.new.items ≡ bytes.old.items ++ more.now }
    ensures len { vec_len bytes.new ≡ vec_len bytes.old + length more.now }
    ensures capacity { vec_capacity bytes.old ≤ vec_capacity bytes.new }
{
    bytes.extend_from_slice(more).unwrap();
}
