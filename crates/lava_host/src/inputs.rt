// What `input` and `clock` give.

ghost use Rattle.lava_host.specs.Hosts.{ReadsLine, TakesMoment};

use crate::fault::{HostFault, Which};
use crate::replies::line_reply;
use js_desc::reply::Reply;
use js_text::value::Value;
use lava_streams::clock::Clock;
use lava_streams::fault::{Failed, ReadFault};
use lava_streams::source::Source;
use std::alloc::Global;

/// The next line of the input.
pub(crate) fn read_line<I: Source>(alloc: Global, input: &mut I) -> Result<Reply, HostFault>
    ensures { ReadsLine (I.Source.stand input.old) (I.Source.stand input.new) result }
{
    match input.line(alloc) {
        Ok(line) => Ok(line_reply(alloc, &line)?),
        Err(ReadFault::Failed) => Err(HostFault::Outside(Which::Input)),
        Err(ReadFault::OutOfMemory) => Err(HostFault::OutOfMemory),
    }
}

/// The next moment of the clock.
pub(crate) fn take_moment<C: Clock>(clock: &mut C) -> Result<Reply, HostFault>
    ensures { TakesMoment (C.Clock.stand clock.old) (C.Clock.stand clock.new) result }
{
    match clock.now() {
        Ok(moment) => Ok(Reply::Value(Value::Int(moment as i64))),
        Err(Failed) => Err(HostFault::Outside(Which::Clock)),
    }
}
