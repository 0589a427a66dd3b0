//! The program.
//!
//! It gives its arguments and its standard streams to `run`, or to `run_live` where the first is `live`, and ends with the
//! status.
#![tactic(auto)]

ghost use Rattle.std.specs.Prelude.{◌↔◌, IsTrue};
ghost use Rattle.run_devices.specs.Devices.{reading, writing};
ghost use Rattle.command_line.specs.Command.{as_words};
ghost use Rattle.synth_cli.specs.Program.{BeginWithLive, DoesAsAsked};

use live_run::{is_live, run_live};
use run_devices::{Sink, Source, StdErrSink, StdSink, StdSource};
use std::alloc::{AllocError, Global};
use std::env;
use std::io::ErrorKind;
use std::process::ExitCode;
use std::rt::Env;
use std::sync::Wait;
use std::thread::Threads;
use synth_run::{Open, run};

/// There was no memory for the arguments.
const NO_MEMORY: u8 = 8;

/// The arguments could not be had, for example where one is no text.
const UNREADABLE_ARGUMENTS: u8 = 10;

fn main(rt: HostRuntime) -> ExitCode {
    let mut source = StdSource::new(rt.stdin());
    let mut out = StdSink::new(rt.stdout());
    let mut err = StdErrSink::new(rt.stderr());
    let arguments = match own_arguments(&rt) {
        Ok(arguments) => arguments,
        Err(status) => return ExitCode::from(status),
    };
    let arguments = match borrowed(rt.alloc(), &arguments) {
        Ok(arguments) => arguments,
        Err(_) => return ExitCode::from(NO_MEMORY),
    };
    let status = carry_out(&rt, rt.alloc(), &arguments, &mut source, &mut out, &mut err);
    ExitCode::from(status)
}

/// Does what the arguments request, and answers the exit status.
pub fn carry_out<R: Threads + Wait + Sync, S: Source, O: Sink, E: Sink>(
    rt: &R,
    alloc: Global,
    arguments: &[&str],
    source: &mut S,
    out: &mut O,
    err: &mut E,
) -> u8
    ensures { let read = reading S.left S.faults S.is_sound source.old source.new in
        let written = writing O.got O.faults O.capacity out.old out.new in
        let reported = writing E.got E.faults E.capacity err.old err.new in
        DoesAsAsked (as_words arguments.now) result read written reported }
{
    if asks_for_live(arguments) {
        run_live(rt, alloc, arguments, source, out, err)
    } else {
        run(rt, alloc, arguments, source, out, err, &Open, &mut None)
    }
}

/// Whether the first argument is `live`.
fn asks_for_live(arguments: &[&str]) -> bool
    ensures { IsTrue result ↔ BeginWithLive (as_words arguments.now) }
{
    arguments.len() > 0 && is_live(arguments[0])
}

/// The arguments after the program's name, or the status with which the program ends without them.
fn own_arguments<R: Env + AllocGlobal>(rt: &R) -> Result<Vec<String>, u8> {
    let args = match env::args(rt) {
        Ok(args) => args,
        Err(e) if e.kind() == ErrorKind::OutOfMemory => return Err(NO_MEMORY),
        Err(_) => return Err(UNREADABLE_ARGUMENTS),
    };
    let mut arguments = Vec::new(rt.alloc());
    for word in args.skip(1) {
        if arguments.push(word).is_err() {
            return Err(NO_MEMORY);
        }
    }
    Ok(arguments)
}

/// The arguments, borrowed.
fn borrowed(alloc: Global, arguments: &[String]) -> Result<Vec<&str>, AllocError> {
    let mut texts = Vec::new(alloc);
    for word in arguments {
        texts.push(word.as_str())?;
    }
    Ok(texts)
}
