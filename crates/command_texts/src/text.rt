//! What a command writes, and how it is written.

ghost use Rattle.std.specs.Prelude.{◌≡◌};
ghost use Rattle.run_devices.specs.Devices.{writing};
ghost use Rattle.controller_table.specs.KindTexts.{bytes_of_rows, IsOfWrittenVersion};
ghost use Rattle.command_texts.specs.Texts.{bytes_of, trace_of, IsReady, CanBeWritten};
ghost use Rattle.run_devices.specs.Transfers.{WritesWhole, StopsShort};

use controller_table::{RowsText, Table};
use grid_quantiser::Point;
use loop_sim::TraceWriter;
use run_devices::{Sink, WriteFault, write_buffered, write_whole};
use std::alloc::{AllocError, Global};

/// How many bytes are asked for before a trace is written: more than its writer takes of the stack.
const TRACE_STACK: usize = 1 << 18;

/// A plant in closed loop with its table, from a state.
#[derive(Drop)]
pub struct Simulation {
    pub table: Table,
    pub start: Point,
    /// Decides the noises.
    pub seed: u64,
    /// How many samples may follow the first.
    pub samples: u32,
}

impl Simulation {
    /// The writer of its trace.
    pub fn writer(&self) -> TraceWriter<'_>
        requires { IsReady self.now }
        ensures { result ≡ trace_of self.now }
    {
        match TraceWriter::new(&self.table, &self.start, self.seed, self.samples) {
            Some(writer) => writer,
            None => unreachable!(),
        }
    }
}

/// What a command writes.
#[derive(Drop)]
pub enum Text {
    /// A table, a stay text or a patrol text.
    Rows(RowsText),
    Line(&'static [u8]),
    Trace(Simulation),
    Summary(Vec<u8>),
}

impl Text {
    /// Writes all of it. All memory is taken before the first byte is written.
    pub fn write<O: Sink>(&self, alloc: Global, out: &mut O) -> Result<(), WriteFault>
        requires { CanBeWritten self.now }
        ensures whole { WritesWhole result (writing O.got O.faults O.capacity out.old out.new) (bytes_of self.now) }
        ensures stopped { StopsShort result (writing O.got O.faults O.capacity out.old out.new) (bytes_of self.now) }
    {
        match self {
            Text::Rows(text) => write_rows(alloc, text, out),
            Text::Line(bytes) => write_bytes(bytes, out),
            Text::Trace(simulation) => {
                ask_for_trace_stack(alloc)?;
                write_trace(alloc, simulation, out)
            }
            Text::Summary(text) => write_bytes(text, out),
        }
    }
}

fn write_bytes<O: Sink>(bytes: &[u8], out: &mut O) -> Result<(), WriteFault>
    ensures whole { WritesWhole result (writing O.got O.faults O.capacity out.old out.new) bytes.now }
    ensures stopped { StopsShort result (writing O.got O.faults O.capacity out.old out.new) bytes.now }
{
    write_whole(out, bytes)?;
    Ok(())
}

fn write_rows<O: Sink>(alloc: Global, text: &RowsText, out: &mut O) -> Result<(), WriteFault>
    requires { IsOfWrittenVersion text.now }
    ensures whole { WritesWhole result (writing O.got O.faults O.capacity out.old out.new) (bytes_of_rows text.now) }
    ensures stopped { StopsShort result (writing O.got O.faults O.capacity out.old out.new) (bytes_of_rows text.now) }
{
    let Ok(mut writer) = text.writer(alloc) else {
        return Err(WriteFault::Memory);
    };
    write_buffered(alloc, out, &mut writer)
}

/// Asks for so much memory as the writer of a trace takes of the stack, and gives it back: a run that has less is to end for want
/// of memory, and not by its stack.
fn ask_for_trace_stack(alloc: Global) -> Result<(), AllocError> {
    let capacity: Vec<u8> = Vec::with_capacity(alloc, TRACE_STACK)?;
    drop(capacity);
    Ok(())
}

/// Stands by itself, since what calls it would take as much of the stack for every word.
#[inline(never)]
fn write_trace<O: Sink>(
    alloc: Global,
    simulation: &Simulation,
    out: &mut O,
) -> Result<(), WriteFault>
    requires { IsReady simulation.now }
    ensures whole { WritesWhole result (writing O.got O.faults O.capacity out.old out.new) (trace_of simulation.now) }
    ensures stopped { StopsShort result (writing O.got O.faults O.capacity out.old out.new) (trace_of simulation.now) }
{
    write_buffered(alloc, out, &mut simulation.writer())
}
