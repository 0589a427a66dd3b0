//! The text of one line of a trace.

ghost use Rattle.std.specs.Prelude.{◌≡◌, ◌+◌, ◌*◌, ◌<◌, ◌≤◌, ◌∷◌, ◌++◌, [], length};
ghost use Rattle.std.specs.Fmt.{decimal};
ghost use Rattle.loop_sim.specs.TraceText.{line_text, trace_header};
ghost use Rattle.loop_sim.specs.inside.StateText.{state_text};
ghost use Rattle.row_runs.specs.declared.line_text.TheConstants.{LINE_CAPACITY};

use crate::sim_line::SimLine;
use controller_table::format_of;
use game_core::Row;
use grid_quantiser::Point;
use itoa::Buffer;
use plant_record::Plant;
use row_runs::LineText;

/// The first line of a trace.
pub(crate) fn write_first(text: &mut LineText)
    ensures { text.new ≡ trace_header }
{
    text.begin();
    text.prepend(b"trace 1");
}

pub(crate) fn write_line(text: &mut LineText, p: &Plant, line: &SimLine)
    ensures text { text.new ≡ line_text p.now line.now }
    ensures some { 0 < length text.new }
{
    match *line {
        SimLine::At { time, x, row } => write_sample(text, p, time, &x, row),
        SimLine::Arrived { time } => write_event(text, b"arrived ", time),
        SimLine::Stopped { time } => write_event(text, b"stopped ", time),
        SimLine::Lost { time, x } => write_loss(text, p, time, &x),
    }
}

fn write_sample(text: &mut LineText, p: &Plant, time: u32, x: &Point, row: Row)
    ensures text { text.new ≡ line_text p.now (SimLine.At time x.now row) }
    ensures some { 0 < length text.new }
{
    text.begin();
    text.prepend_row(format_of(p.goal()), row);
    prepend_state(text, &x[..p.grid().states() as usize]);
    text.prepend_number(time);
}

fn write_loss(text: &mut LineText, p: &Plant, time: u32, x: &Point)
    ensures text { text.new ≡ line_text p.now (SimLine.Lost time x.now) }
    ensures some { 0 < length text.new }
{
    text.begin();
    prepend_state(text, &x[..p.grid().states() as usize]);
    text.prepend_number(time);
    text.prepend(b"lost ");
}

/// A word with a space after it, and a time.
fn write_event(text: &mut LineText, word: &[u8], time: u32)
    requires { length word.now ≤ 200 }
    ensures text { text.new ≡ word.now ++ (decimal time ++ 10 ∷ []) }
    ensures some { 0 < length text.new }
{
    text.begin();
    text.prepend_number(time);
    text.prepend(word);
}

/// Puts the numbers before the rest, each with a space before it.
fn prepend_state(text: &mut LineText, x: &[i128])
    requires { 41 * length x.now + length text.old ≤ LINE_CAPACITY }
    ensures text { text.new ≡ state_text x.now ++ text.old }
    ensures length { length text.new ≤ 41 * length x.now + length text.old }
    ensures grows { length text.old ≤ length text.new }
{
    for at in (0..x.len()).rev() {
        text.prepend(Buffer::new().format(x[at]).as_bytes());
        text.prepend(b" ");
    }
}
