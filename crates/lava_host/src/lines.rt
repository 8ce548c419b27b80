// What `console` prints.

ghost use Rattle.std.specs.Prelude.{◌≡◌, true, OnOk};
ghost use Rattle.lava_host.specs.Hosts.{Prints};
ghost use Rattle.lava_host.specs.Printed.{printed_line};

use crate::fault::{HostFault, Which};
use crate::printed::push_line;
use js_desc::reply::Reply;
use js_text::value::Value;
use lava_base::list::List;
use lava_base::memory::OutOfMemory;
use lava_streams::fault::Failed;
use lava_streams::sink::Sink;

/// Prints the values as a line, where lines are emitted. The piece is room that is used again.
pub(crate) fn print<O: Sink>(
    piece: &mut List<u8>,
    emit: bool,
    which: Which,
    values: &[Value],
    sink: &mut O,
) -> Result<Reply, HostFault>
    ensures { Prints emit (printed_line values.now) which (O.Sink.stand sink.old)
        (O.Sink.stand sink.new) result }
{
    if !emit {
        return Ok(Reply::Value(Value::Undefined));
    }
    match line_in(piece, values) {
        Ok(()) => put_line(piece, which, sink),
        Err(OutOfMemory) => Err(HostFault::OutOfMemory),
    }
}

/// Makes the piece the line of these values.
fn line_in(piece: &mut List<u8>, values: &[Value]) -> Result<(), OutOfMemory>
    ensures { OnOk result (piece.new ≡ printed_line values.now) }
{
    piece.truncate(0);
    push_line(piece, values)
}

/// Puts a line.
fn put_line<O: Sink>(line: &List<u8>, which: Which, sink: &mut O) -> Result<Reply, HostFault>
    ensures { let before = O.Sink.stand sink.old in
        let after = O.Sink.stand sink.new in
        Prints true line.now which before after result }
{
    match sink.put(line.as_slice()) {
        Ok(()) => Ok(Reply::Value(Value::Undefined)),
        Err(Failed) => Err(HostFault::Outside(which)),
    }
}
