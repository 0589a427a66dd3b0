//! The forward abstraction of a plant.

ghost use Rattle.std.specs.Prelude.{◌<◌};

use crate::abstraction::{BOXES, is_box};
use crate::games::{CORRIDOR, game_of};
use abstraction_table::{ForwardAbstraction, build_forward};
use game_core::{CellTest, Forward};
use plant_text::read_plant;
use std::test::Fail;
use successor_box::find_slopes;

fn is_forward(forward: &ForwardAbstraction) -> bool {
    if forward.cells() != 5 || forward.inputs() != 2 {
        return false;
    }
    for pair in 0..10 {
        if !is_box(forward.boxes(pair), BOXES[pair as usize]) {
            return false;
        }
    }
    true
}

/// Whether a cell of five is before cell 3.
struct BeforeThree;

impl CellTest for BeforeThree {
    ghost cells = { λ _. 5 };

    ghost passes = { λ _ c. c < 3 };

    fn passes(&self, c: u32) -> bool {
        c < 3
    }
}

/// Pair 0 leads to cells 1 and 2, pair 1 to 2 and 3, pair 3 to 3 and 4, and pair 5 to none.
fn leads_before_three<G: Forward>(game: &G) -> bool {
    game.cells() == 5
        && game.inputs() == 2
        && game.leads_only_to(0, &BeforeThree)
        && !game.leads_only_to(1, &BeforeThree)
        && !game.leads_only_to(3, &BeforeThree)
        && !game.leads_only_to(5, &BeforeThree)
}

#[test]
fn corridor_before_three(rt: HostRuntime) -> Result<(), Fail> {
    let plant = read_plant(rt.alloc(), CORRIDOR)?;
    let slopes = find_slopes(rt.alloc(), &plant)?;
    let boxed = build_forward(&rt, rt.alloc(), &plant, &slopes)?;
    let game = game_of(&rt, CORRIDOR)?;
    let found = leads_before_three(&boxed) && leads_before_three(&game);
    assert!(rt; found);
    Ok(())
}

#[test]
fn corridor_forward(rt: HostRuntime) -> Result<(), Fail> {
    let plant = read_plant(rt.alloc(), CORRIDOR)?;
    let slopes = find_slopes(rt.alloc(), &plant)?;
    assert!(rt; is_forward(&build_forward(&rt, rt.alloc(), &plant, &slopes)?));
    Ok(())
}
