//! The extents of all boxes, state by state.
ghost use Rattle.std.specs.Prelude.{◌≡◌, ◌+◌, ◌^◌, ◌<◌, length, IfOk};
ghost use Rattle.plant_record.specs.Description.{vectors_of};
ghost use Rattle.pair_boxes.specs.inside.Digits.{AreDigitsOf, HoldSlots};
ghost use Rattle.pair_boxes.specs.inside.ExtentTables.{IsExtentTableOf, HoldExtentsFrom};

use crate::digits::{Digit, Digits, indices_of, slot_of};
use crate::extent_lines::{EXTENTS_PER_TASK, fill_chunk};
use crate::state_of::StateOf;
use grid_quantiser::Extent;
use raw_slots::RawList;
use std::alloc::{AllocError, Global};
use std::thread::Threads;

/// The extents along the axis of a state: one for each combination of the indices in the variables of the
/// state's equation, since those of all pairs depend on these. Where the equation shifts with the state itself,
/// the extents are those at its first index, and shift with the cell's own.
#[derive(Drop)]
pub(crate) struct ExtentTable {
    pub(crate) digits: Vec<Digit>,
    pub(crate) inputs: Vec<u32>,
    pub(crate) extents: RawList<Option<Extent>>,
    pub(crate) shifts: bool,
}

/// The extents along the axis of one state, by its digits.
pub(crate) fn build_table<R: Threads + Sync>(
    rt: &R,
    alloc: Global,
    of: &StateOf<'_>,
    digits: Digits,
) -> Result<ExtentTable, AllocError>
    requires { AreDigitsOf of.now.sampled.plant.now of.now.state digits.each.items digits.slots }
    ensures { IfOk result (λ table. IsExtentTableOf of.now.sampled.plant.now of.now.state table) }
{
    let inputs = build_inputs(alloc, of, &digits)?;
    let extents = build_extents(rt, alloc, of, &digits)?;
    Ok(ExtentTable {
        digits: digits.each,
        inputs,
        extents,
        shifts: of.sampled.plant.equation(of.state).shifts_with(of.state),
    })
}

/// What each input brings to the slot of an extent.
fn build_inputs(alloc: Global, of: &StateOf<'_>, digits: &Digits) -> Result<Vec<u32>, AllocError>
    requires { AreDigitsOf of.now.sampled.plant.now of.now.state digits.now.each.items digits.now.slots }
    ensures long { IfOk result (λ inputs. length inputs.items ≡ vectors_of of.now.sampled.plant.now.inputs) }
    ensures each { IfOk result (λ inputs. HoldSlots of.now.sampled.plant.now digits.now.each.items inputs.items) }
{
    let vectors = of.sampled.plant.vectors();
    let mut inputs = Vec::with_capacity(alloc, vectors as usize)?;
    for input in 0..vectors {
        let indices = indices_of(&of.sampled, 0, input);
        inputs.push(slot_of(&digits.each, &indices))?;
    }
    Ok(inputs)
}

/// The extents along the axis of one state, one for each slot.
fn build_extents<R: Threads + Sync>(
    rt: &R,
    alloc: Global,
    of: &StateOf<'_>,
    digits: &Digits,
) -> Result<RawList<Option<Extent>>, AllocError>
    requires { AreDigitsOf of.now.sampled.plant.now of.now.state digits.now.each.items digits.now.slots }
    ensures long { IfOk result (λ extents. length extents ≡ digits.now.slots) }
    ensures each { IfOk result (λ found. HoldExtentsFrom of.now.sampled.plant.now of.now.state digits.now.each.items 0 found) }
{
    RawList::by_chunks(
        rt,
        alloc,
        None,
        digits.slots as usize,
        EXTENTS_PER_TASK,
        |slot: usize, chunk: &mut [Option<Extent>]|
            requires digits { AreDigitsOf of.now.sampled.plant.now of.now.state digits.now.each.items digits.now.slots }
            requires capacity { slot + length chunk.now < 2 ^ 32 }
            ensures { (length chunk.exit.now ≡ length chunk.entry.now) × HoldExtentsFrom of.entry.now.sampled.plant.now of.entry.now.state digits.entry.now.each.items slot chunk.exit.now }
        {
            fill_chunk(of, digits, slot as u32, chunk);
        },
    )
}
