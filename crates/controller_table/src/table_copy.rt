//! Copies of what a table holds.

ghost use Rattle.std.specs.Prelude.{◌≡◌, ◌≤◌, length, IfOk};
ghost use Rattle.plant_record.specs.Limits.{IsWithinLimits};
ghost use Rattle.base.specs.declared.limits.TheConstants.{CELLS_LIMIT};

use base::NoMemory;
use game_core::Answer;
use plant_record::Plant;
use plant_text::{PlantFault, read_front};
use plant_writing::write_plant;
use std::alloc::Global;

/// A copy of a plant, by way of its text: so expressions need no copy of their own.
pub(crate) fn copy_plant(alloc: Global, p: &Plant) -> Result<Plant, NoMemory>
    requires { IsWithinLimits p.now }
    ensures { IfOk result (λ copy. copy ≡ p.now) }
{
    let mut text = Vec::new(alloc);
    write_plant(alloc, p, &mut text)?;
    match read_front(alloc, &text) {
        Ok(front) => Ok(front.plant),
        Err(PlantFault::Memory) => Err(NoMemory),
        Err(PlantFault::Malformed { .. }) => unreachable!(),
        Err(PlantFault::Limit { .. }) => unreachable!(),
    }
}

pub(crate) fn copy_answer(alloc: Global, answer: &Answer) -> Result<Answer, NoMemory>
    requires { length answer.now ≤ CELLS_LIMIT }
    ensures { IfOk result (λ copy. copy ≡ answer.now) }
{
    let cells = answer.cells();
    let mut copy = Answer::blank(alloc, cells)?;
    for cell in 0..cells {
        copy.set(cell, answer.row(cell));
    }
    Ok(copy)
}
