//! The terms of a state of which each pair has its own, found as the boxes are made.
ghost use Rattle.std.specs.Prelude.{◌≡◌, ℕ, ◌*◌, ◌<◌, ◌≤◌, length, IfSome};
ghost use Rattle.fixed_expr.specs.declared.lanes.TheConstants.{LANES};
ghost use Rattle.plant_record.specs.Description.{vectors_of};
ghost use Rattle.successor_box.specs.AdditiveInputs.{AreInputIncrements};
ghost use Rattle.pair_boxes.specs.inside.CellLines.{HaveSums, AddsTo, AreExtentsUnder, AddsTermsUnder, AreSumsUnder, KeepsOtherInputs};

use crate::state_of::StateOf;
use crate::terms::term_of;
use fixed_expr::LANES;
use grid_quantiser::Extent;
use pair_box::PairBox;
use successor_box::{CellLine, INDICES_LIMIT};

/// Adds the terms of a state to the boxes of cells in a line, from the one with these indices on.
pub(crate) fn add_per_pair(
    of: &StateOf<'_>,
    increments: Option<&[i64]>,
    indices: &[u32; INDICES_LIMIT],
    boxes: &mut [PairBox],
)
    requires increments { IfSome increments (λ v. AreInputIncrements of.now.sampled.plant.now of.now.state v.now) }
    requires cells { HaveSums of.now.sampled.plant.now of.now.state indices.now boxes.old }
    ensures long { length boxes.new ≡ length boxes.old }
    ensures added { AddsTo of.now.sampled.plant.now of.now.state indices.now boxes.old boxes.new }
{
    let p = of.sampled.plant;
    let inputs = p.vectors();
    let cells = boxes.len() / inputs as usize;
    let mut line = CellLine::new(p, indices, p.states() - 1, cells);
    let mut extents = [None; LANES];
    let extents = &mut extents[..cells];
    let additive = of.sampled.additive_line(of.state, increments, &mut line);
    for input in 0..inputs {
        line.set_input(&of.sampled, input);
        of.sampled
            .extents_under(of.state, additive.as_ref(), &line, extents);
        add_extents(of, input, extents, boxes);
    }
}

/// Adds the terms of extents to the boxes of as many cells, under one input.
fn add_extents(of: &StateOf<'_>, input: u32, extents: &[Option<Extent>], boxes: &mut [PairBox])
    requires input { input < vectors_of of.now.sampled.plant.now.inputs }
    requires extents { (c : ℕ) × AreExtentsUnder of.now.sampled.plant.now c input of.now.state extents.now }
    requires one_each { length boxes.old ≡ length extents.now * vectors_of of.now.sampled.plant.now.inputs }
    requires few { length extents.now ≤ LANES }
    requires boxes { AreSumsUnder of.now.sampled.plant.now input (length extents.now) boxes.old }
    ensures long { length boxes.new ≡ length boxes.old }
    ensures added { AddsTermsUnder of.now.sampled.plant.now of.now.state input extents.now boxes.old boxes.new }
    ensures others { KeepsOtherInputs of.now.sampled.plant.now input boxes.old boxes.new }
{
    let inputs = of.sampled.plant.vectors() as usize;
    for cell in 0..extents.len() {
        let at = cell * inputs + input as usize;
        boxes[at] = boxes[at].plus(term_of(of, extents[cell], 0));
    }
}
