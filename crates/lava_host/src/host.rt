// The host, which answers a call of one of its functions.

ghost use Rattle.std.specs.Prelude.{◌≡◌};
ghost use Rattle.lava_host.specs.Hosts.{host_world, called_function, Performs, Replies};

use crate::fault::{HostFault, Which};
use crate::files::{look_for_file, path_of_arguments, read_file};
use crate::function::HostFunction;
use crate::inputs::{read_line, take_moment};
use crate::lines::print;
use crate::replies::throw_of;
use js_desc::ask::Ask;
use js_desc::reply::Reply;
use js_text::value::Value;
use lava_base::ids::Ref;
use lava_base::list::List;
use lava_streams::clock::Clock;
use lava_streams::folder::Folder;
use lava_streams::sink::Sink;
use lava_streams::source::Source;
use std::alloc::Global;

/// The host. It keeps nothing from call to call but room for a line.
#[derive(Drop)]
pub struct Host {
    piece: List<u8>,
}

impl Host {
    /// A host. It takes no memory, and keeps the allocator for its lines.
    pub fn new(alloc: Global) -> Host {
        Host {
            piece: List::new(alloc),
        }
    }

    /// What the host answers to an ask at one of its objects: a Call of one of its functions does what the function does, and all else throws `not a function`.
    ///
    /// Where lines are not emitted, `console` prints nothing. Paths are taken below `dir`. An Error of the host is thrown as its text, of which the machine makes an Error.
    ///
    /// `Outside` comes only where the count of that object rose in this call.
    pub fn answer<F: Folder, I: Source, O: Sink, E: Sink, C: Clock>(
        &mut self,
        alloc: Global,
        target: Ref,
        ask: &Ask,
        emit: bool,
        dir: &str,
        folder: &mut F,
        input: &mut I,
        out: &mut O,
        err: &mut E,
        clock: &mut C,
    ) -> Result<Reply, HostFault>
        ensures { let before = host_world (F.Folder.stand folder.old) (I.Source.stand input.old)
            (O.Sink.stand out.old) (E.Sink.stand err.old) (C.Clock.stand clock.old) in
            let after = host_world (F.Folder.stand folder.new) (I.Source.stand input.new)
            (O.Sink.stand out.new) (E.Sink.stand err.new) (C.Clock.stand clock.new) in
            Replies (called_function target) ask.now emit dir.now before after result }
    {
        match (function_at(target), ask) {
            (Some(function), Ask::Call { args, .. }) => {
                let args = args.as_slice();
                perform(
                    &mut self.piece,
                    alloc,
                    function,
                    args,
                    emit,
                    dir,
                    folder,
                    input,
                    out,
                    err,
                    clock,
                )
            }
            _ => Ok(throw_of(alloc, "not a function")?),
        }
    }
}

/// The function of the host that an ask at this target calls.
fn function_at(target: Ref) -> Option<HostFunction>
    ensures { result ≡ called_function target }
{
    match target {
        Ref::Common(_) => None,
        Ref::Own { party, id } => {
            if party.0 == 0 {
                HostFunction::of(id.0)
            } else {
                None
            }
        }
    }
}

/// Does what a function of the host does.
fn perform<F: Folder, I: Source, O: Sink, E: Sink, C: Clock>(
    piece: &mut List<u8>,
    alloc: Global,
    function: HostFunction,
    args: &[Value],
    emit: bool,
    dir: &str,
    folder: &mut F,
    input: &mut I,
    out: &mut O,
    err: &mut E,
    clock: &mut C,
) -> Result<Reply, HostFault>
    ensures { let before = host_world (F.Folder.stand folder.old) (I.Source.stand input.old)
        (O.Sink.stand out.old) (E.Sink.stand err.old) (C.Clock.stand clock.old) in
        let after = host_world (F.Folder.stand folder.new) (I.Source.stand input.new)
        (O.Sink.stand out.new) (E.Sink.stand err.new) (C.Clock.stand clock.new) in
        Performs function args.now emit dir.now before after result }
{
    match function {
        HostFunction::Log | HostFunction::Info => print(piece, emit, Which::Output, args, out),
        HostFunction::Warn | HostFunction::Error => print(piece, emit, Which::Errors, args, err),
        HostFunction::Line => read_line(alloc, input),
        HostFunction::Now => take_moment(clock),
        HostFunction::ReadFileSync => {
            let path = path_of_arguments(alloc, piece, args)?;
            read_file(alloc, dir, path.as_str(), folder)
        }
        HostFunction::ExistsSync => {
            let path = path_of_arguments(alloc, piece, args)?;
            look_for_file(alloc, dir, path.as_str(), folder)
        }
    }
}
