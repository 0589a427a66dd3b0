//! Tests of `successor_box`.

use grid_quantiser::CellBox;
use plant_text::read_plant;
use std::alloc::{AllocError, AllocFailed, Global};
use std::test::Fail;
use successor_box::{SlopeFault, find_slopes, successors};

/// Five cells of three numbers, and a noise whose middle is -2.5.
const DRIFT: &[u8] =
    b"plant 1\nstate x 0 14 3\ninput u -3 4\nnoise w -4 -1\nnext x = x + u + w\ntarget 12 14\ngoal reach\nend\n";

/// The noise lies at most 2 from its centre -3, and a state at most 1 from a cell's, so the box reaches 3 to either side:
/// from the centre 7 of cell 2 under the input 4 to 8 less and plus 3, which the cells 1 to 3 meet; from the centre 1 of cell 0
/// under -3 to -5 less and plus 3, out of the domain.
fn boxes_reach_three_to_either_side(alloc: Global) -> Result<bool, Fail> {
    let plant = read_plant(alloc, DRIFT)?;
    let slopes = find_slopes(alloc, &plant)?;
    Ok(
        plant.grid().cells() == 5
            && plant.vectors() == 2
            && successors(&plant, &slopes, 2, 1) == Some(CellBox { first: 1, last: 3 })
            && successors(&plant, &slopes, 0, 0) == None,
    )
}

#[test]
fn boxes_are_widened_by_the_cell_and_the_noise(rt: HostRuntime) -> Result<(), Fail> {
    assert!(rt; boxes_reach_three_to_either_side(rt.alloc())?);
    Ok(())
}

fn both_refusals_are_want_of_memory() -> bool {
    SlopeFault::from(AllocError) == SlopeFault::Memory
        && SlopeFault::from(AllocFailed { value: 7 }) == SlopeFault::Memory
}

#[test]
fn a_refused_allocation_is_want_of_memory(rt: HostRuntime) {
    assert!(rt; both_refusals_are_want_of_memory());
}
