//! Building the abstraction of a plant.
ghost use Rattle.std.specs.Prelude.{◌≡◌, IfOk, IfErr};
ghost use Rattle.successor_box.specs.Deviations.{HasNoOverflow, deviations_of};
ghost use Rattle.plant_game.specs.Abstraction.{IsGameOf};
ghost use Rattle.pair_box.specs.PlantBoxes.{AreBoxesOf};
ghost use Rattle.plant_game.specs.Faults.{IsFaultOf};
ghost use Rattle.abstraction_table.specs.Table.{game_in, game_of, boxes_of, forward_game, boxes_forward};

use crate::abstraction::Abstraction;
use crate::boxed_game::BoxedGame;
use crate::forward::ForwardAbstraction;
use base::limits::EDGES_LIMIT;
use game_core::NoMemory;
use pair_boxes::build_boxes;
use plant_game::{BuildFault, build_marks};
use plant_record::Plant;
use source_lists::{build_shapes, build_sources, count_fans};
use std::alloc::Global;
use std::thread::Threads;
use successor_box::{Sampled, Slopes};

/// The forward abstraction of a plant. The number of edges is known before any edge is kept.
/// What can be done side by side is handed to `rayon`.
pub fn build_forward<R: Threads + Sync>(
    rt: &R,
    alloc: Global,
    p: &Plant,
    s: &Slopes,
) -> Result<ForwardAbstraction, BuildFault>
    requires slopes { s.now ≡ deviations_of p.now }
    requires fits { HasNoOverflow p.now }
    ensures game { IfOk result (λ o. IsGameOf p.now (forward_game o)) }
    ensures boxes { IfOk result (λ o. AreBoxesOf p.now (boxes_forward o)) }
    ensures fault { IfErr result (IsFaultOf p.now) }
{
    let boxed = build_game(rt, alloc, &Sampled::new(p, s))?;
    let shapes = build_shapes(alloc, &boxed.grid, &boxed.fans)?;
    Ok(ForwardAbstraction { boxed, shapes })
}

/// The abstraction with the game of a forward abstraction: the pairs that lead to each cell are found, and kept as well. What can
/// be done side by side is handed to `rayon`.
pub fn add_sources<R: Threads + Sync>(
    rt: &R,
    alloc: Global,
    forward: ForwardAbstraction,
) -> Result<Abstraction, NoMemory>
    ensures game { IfOk result (λ a. game_of a ≡ forward_game forward) }
    ensures boxes { IfOk result (λ a. boxes_of a ≡ boxes_forward forward) }
{
    let boxed = forward.boxed;
    let sources = build_sources(
        rt,
        alloc,
        &boxed.grid,
        boxed.boxes.as_slice(),
        &boxed.fans,
        &forward.shapes,
    )?;
    Ok(Abstraction { boxed, sources })
}

/// The abstraction of a plant. What can be done side by side is handed to `rayon`.
pub fn build<R: Threads + Sync>(
    rt: &R,
    alloc: Global,
    p: &Plant,
    s: &Slopes,
) -> Result<Abstraction, BuildFault>
    requires slopes { s.now ≡ deviations_of p.now }
    requires fits { HasNoOverflow p.now }
    ensures game { IfOk result (λ a. IsGameOf p.now (game_of a)) }
    ensures boxes { IfOk result (λ a. AreBoxesOf p.now (boxes_of a)) }
    ensures fault { IfErr result (IsFaultOf p.now) }
{
    let forward = build_forward(rt, alloc, p, s)?;
    Ok(add_sources(rt, alloc, forward)?)
}

/// The game of a plant by the boxes of its pairs.
fn build_game<R: Threads + Sync>(
    rt: &R,
    alloc: Global,
    sampled: &Sampled<'_>,
) -> Result<BoxedGame, BuildFault>
    ensures game { IfOk result (λ g. IsGameOf sampled.now.plant.now (game_in g)) }
    ensures boxes { IfOk result (λ g. AreBoxesOf sampled.now.plant.now g.boxes) }
    ensures fault { IfErr result (IsFaultOf sampled.now.plant.now) }
{
    let p = sampled.plant;
    let grid = *p.grid();
    let boxes = build_boxes(rt, alloc, sampled)?;
    let fans = count_fans(rt, alloc, &grid, boxes.as_slice())?;
    let edges = fans.edges();
    if edges > EDGES_LIMIT {
        return Err(BuildFault::TooManyEdges { edges });
    }
    let marks = build_marks(alloc, p)?;
    Ok(BoxedGame {
        grid,
        inputs: p.vectors(),
        marks,
        boxes,
        fans,
    })
}
