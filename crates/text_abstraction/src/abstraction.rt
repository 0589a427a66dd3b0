//! The forward abstraction of a plant, or why the plant is refused.

ghost use Rattle.std.specs.Prelude.{IfOk, IfErr};
ghost use Rattle.plant_game.specs.Abstraction.{IsGameOf};
ghost use Rattle.abstraction_table.specs.Table.{forward_game};
ghost use Rattle.command_outcomes.specs.IsOutcomeFor.{IsAccepted, IsSolvable};
ghost use Rattle.command_outcomes.specs.Stages.{IsTextRefusal, IsPlantRefusal};
ghost use Rattle.text_abstraction.specs.Causes.{IsStopFor};

use crate::stop::Stop;
use abstraction_table::{ForwardAbstraction, build_forward};
use plant_record::Plant;
use plant_text::read_plant;
use std::alloc::Global;
use std::thread::Threads;
use successor_box::find_slopes;

/// The forward abstraction of a plant: its game without source lists.
pub fn forward_of<R: Threads + Sync>(
    rt: &R,
    alloc: Global,
    plant: &Plant,
) -> Result<ForwardAbstraction, Stop>
    ensures game { IfOk result (λ game. IsGameOf plant.now (forward_game game)) }
    ensures solvable { IfOk result (λ _. IsSolvable plant.now) }
    ensures refused { IfErr result (IsStopFor (IsPlantRefusal plant.now)) }
{
    let slopes = find_slopes(alloc, plant)?;
    let game = build_forward(rt, alloc, plant, &slopes)?;
    Ok(game)
}

/// The plant that the bytes spell, with its forward abstraction.
pub fn forward_of_text<R: Threads + Sync>(
    rt: &R,
    alloc: Global,
    bytes: &[u8],
) -> Result<(Plant, ForwardAbstraction), Stop>
    ensures accepted { IfOk result (λ made. IsAccepted bytes.now made.0) }
    ensures game { IfOk result (λ made. IsGameOf made.0 (forward_game made.1)) }
    ensures solvable { IfOk result (λ made. IsSolvable made.0) }
    ensures refused { IfErr result (IsStopFor (IsTextRefusal IsPlantRefusal bytes.now)) }
{
    let plant = read_plant(alloc, bytes)?;
    let game = forward_of(rt, alloc, &plant)?;
    Ok((plant, game))
}
