// The program `lava`: the command over the system's files, its standard streams and its clock.
#![tactic(auto)]

ghost use Rattle.std.specs.Prelude.{◌≡◌, IfOk, OnErr};
ghost use Rattle.lava.specs.Ends.{IsAnswer};

use lava_cli::command::{lava, refuse};
use lava_streams::sink::Sink;
use lava_system::real_clock::RealClock;
use lava_system::real_folder::RealFolder;
use lava_system::real_sink::RealSink;
use lava_system::real_source::RealSource;
use std::io::BufReader;
use std::process::ExitCode;
use std::rt::{Clock, Env, Files};
use std::{env, io};

/// Runs the command that the words ask for, and exits with its status.
fn main(rt: HostRuntime) -> ExitCode {
    let mut out = RealSink::new(rt.stdout());
    let mut err = RealSink::new(rt.stderr());
    let status = match run(&rt, &mut out, &mut err) {
        Ok(answer) => answer,
        Err(error) => refuse(&mut err, error),
    };
    ExitCode::from(status)
}

// The status of the command, unless its words or the input's buffer couldn't be had.
fn run<R: Files + Env + Input + Clock + AllocGlobal, O: Sink, E: Sink>(
    rt: &R,
    out: &mut O,
    err: &mut E,
) -> io::Result<u8>
    ensures answers { let output = IsAnswer (O.stand out.old) (O.stand out.new) in
        IfOk result (λ status. output (E.stand err.old) (E.stand err.new) status) }
    ensures output { OnErr result (out.new ≡ out.old) }
    ensures errors { OnErr result (err.new ≡ err.old) }
{
    let alloc = rt.alloc();
    let words = env::args(rt)?.skip(1).collect::<Vec<_>>(alloc)?;
    let mut input = RealSource::new(alloc, BufReader::new(alloc, rt.reader())?);
    let mut folder = RealFolder::new(rt);
    let mut clock = RealClock::new(rt);
    let status = lava(
        alloc,
        words.as_slice(),
        &mut folder,
        &mut input,
        out,
        err,
        &mut clock,
    );
    Ok(status)
}
