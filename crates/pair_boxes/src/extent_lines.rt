//! The extents of slots, line by line.
ghost use Rattle.std.specs.Prelude.{◌≡◌, ℕ, ◌+◌, ◌^◌, ◌≤◌, ◌<◌, length};
ghost use Rattle.std.specs.List.{All};
ghost use Rattle.fixed_expr.specs.declared.lanes.TheConstants.{LANES};
ghost use Rattle.pair_boxes.specs.inside.Digits.{AreDigitsOf, IsReadable, AreIndicesAt, LieAlong, LieInLines};
ghost use Rattle.pair_boxes.specs.inside.ExtentTables.{HoldExtentsFrom};

use crate::digits::{Digit, Digits};
use crate::state_of::StateOf;
use fixed_expr::LANES;
use grid_quantiser::Extent;
use successor_box::{CellLine, INDICES_LIMIT};

/// To start a thread takes as long as to find so many extents.
pub(crate) const EXTENTS_PER_TASK: usize = 1024;

/// Lines of slots: the state along which each lies, and how many slots there are in one.
#[derive(Clone, Copy)]
struct SlotLines {
    along: u32,
    count: u32,
}

/// The extents of a slot and of the next ones.
pub(crate) fn fill_chunk(of: &StateOf<'_>, digits: &Digits, slot: u32, chunk: &mut [Option<Extent>])
    requires digits { AreDigitsOf of.now.sampled.plant.now of.now.state digits.now.each.items digits.now.slots }
    requires capacity { slot + length chunk.old < 2 ^ 32 }
    ensures long { length chunk.new ≡ length chunk.old }
    ensures each { HoldExtentsFrom of.now.sampled.plant.now of.now.state digits.now.each.items slot chunk.new }
{
    let lines = lines_of(of, digits);
    let mut done: usize = 0;
    while done < chunk.len() {
        let slot = slot + done as u32;
        let left = (lines.count - slot % lines.count) as usize;
        let end = chunk.len().min(done + left.min(LANES));
        fill_line(of, digits, lines.along, slot, &mut chunk[done..end]);
        done = end;
    }
}

/// The lines in which slots lie: along the state that has the lowest digit, or of one slot each where no state has it.
fn lines_of(of: &StateOf<'_>, digits: &Digits) -> SlotLines
    requires { AreDigitsOf of.now.sampled.plant.now of.now.state digits.now.each.items digits.now.slots }
    ensures { LieInLines of.now.sampled.plant.now digits.now.each.items result }
{
    if digits.each.len() > 0 {
        let lowest = digits.each[0];
        if lowest.variable < of.sampled.plant.states() {
            return SlotLines {
                along: lowest.variable,
                count: lowest.count,
            };
        }
    }
    SlotLines { along: 0, count: 1 }
}

/// The extents of slots in a line, up to as many as there are lanes.
fn fill_line(of: &StateOf<'_>, digits: &Digits, along: u32, slot: u32, line: &mut [Option<Extent>])
    requires digits { AreDigitsOf of.now.sampled.plant.now of.now.state digits.now.each.items digits.now.slots }
    requires along { along < length of.now.sampled.plant.now.states }
    requires line { LieAlong digits.now.each.items along slot (length line.old) }
    requires some { 1 ≤ length line.old }
    requires few { length line.old ≤ LANES }
    ensures long { length line.new ≡ length line.old }
    ensures each { HoldExtentsFrom of.now.sampled.plant.now of.now.state digits.now.each.items slot line.new }
{
    let p = of.sampled.plant;
    let indices = indices_at(&digits.each, slot);
    let cells = CellLine::new(p, &indices, along, line.len());
    of.sampled.extents_under(of.state, None, &cells, line);
}

/// The indices of a slot, in each state and each input variable.
fn indices_at(digits: &[Digit], slot: u32) -> [u32; INDICES_LIMIT]
    requires { All IsReadable digits.now }
    ensures { AreIndicesAt digits.now slot result }
{
    let mut indices = [0; INDICES_LIMIT];
    for k in (0..digits.len()).rev() {
        let d = digits[k];
        indices[d.variable as usize] = slot / d.stride % d.count;
    }
    indices
}
