//! Tests of `plant_text`.

use grid_quantiser::Point;
use plant_text::{GoalKind, Plant, read_front, read_plant, step, write_plant};
use std::alloc::Global;
use std::test::Fail;

/// Five cells of three numbers, x' = x + u * (2 - 1) with u of -3 or 3, the target 12 to 14 and the
/// obstacle 0.
const LOOSE: &[u8] =
    b"# a comment\nplant 1\n\nstate  x 0 14 3\ninput u -3 3\nnext x = (x)+u*(2-1)\nobstacle 0 0\ntarget 12 14\ngoal reach\nend\n";

/// After what was written before, the same in one space between words, no more brackets than are needed,
/// and the target before the obstacle.
const WRITTEN: &[u8] =
    b"table 1\nplant 1\nstate x 0 14 3\ninput u -3 3\nnext x = x + u * (2 - 1)\ntarget 12 14\nobstacle 0 0\ngoal reach\nend\n";

/// A plant text of 79 bytes, and a line after it.
const FRONT: &[u8] =
    b"plant 1\nstate x 0 14 3\ninput u -3 3\nnext x = x + u\ntarget 12 14\ngoal reach\nend\nrows 5\n";

fn on_line(x: i128) -> Point {
    [x, 0, 0, 0, 0, 0]
}

fn is_written_after_the_rest(alloc: Global) -> Result<bool, Fail> {
    let plant = read_plant(alloc, LOOSE)?;
    let mut text = Vec::from_slice(alloc, b"table 1\n")?;
    write_plant(alloc, &plant, &mut text)?;
    Ok(text.as_slice() == WRITTEN)
}

#[test]
fn a_plant_is_appended_in_its_canonical_text(rt: HostRuntime) -> Result<(), Fail> {
    assert!(rt; is_written_after_the_rest(rt.alloc())?);
    Ok(())
}

fn front_is_the_first_79_bytes(alloc: Global) -> Result<bool, Fail> {
    let front = read_front(alloc, FRONT)?;
    let mut text = Vec::new(alloc);
    write_plant(alloc, &front.plant, &mut text)?;
    Ok(front.length == 79 && text.as_slice() == &FRONT[..79])
}

#[test]
fn the_front_is_read_and_no_more(rt: HostRuntime) -> Result<(), Fail> {
    assert!(rt; front_is_the_first_79_bytes(rt.alloc())?);
    Ok(())
}

fn has_the_counts_of_the_text(plant: &Plant) -> bool {
    plant.states() == 1
        && plant.input_variables() == 1
        && plant.noises() == 0
        && plant.vectors() == 2
        && plant.targets() == 1
        && plant.obstacles() == 1
        && plant.goal() == GoalKind::Reach
}

/// The counts are what the calls below ask for.
fn has_the_numbers_of_the_text(plant: &Plant) -> bool {
    plant.input_variables() == 1
        && plant.vectors() == 2
        && plant.input_values(0) == 2
        && plant.input_value(1, 0) == 3
        && plant.targets() == 1
        && plant.target(0) == (on_line(12), on_line(14))
        && plant.obstacles() == 1
        && plant.obstacle(0) == (on_line(0), on_line(0))
}

/// The obstacle touches the cell from 0 to 2, and the cell from 12 to 14 is the target.
fn has_the_marks_of_the_text(plant: &Plant) -> bool {
    plant.grid().cells() == 5
        && [plant.obstacle_cell(0), plant.obstacle_cell(1)] == [true, false]
        && [plant.goal_cell(0), plant.goal_cell(3), plant.goal_cell(4)] == [false, false, true]
}

#[test]
fn a_plant_has_the_counts_of_its_text(rt: HostRuntime) -> Result<(), Fail> {
    assert!(rt; has_the_counts_of_the_text(&read_plant(rt.alloc(), LOOSE)?));
    Ok(())
}

#[test]
fn a_plant_has_the_numbers_of_its_text(rt: HostRuntime) -> Result<(), Fail> {
    assert!(rt; has_the_numbers_of_the_text(&read_plant(rt.alloc(), LOOSE)?));
    Ok(())
}

#[test]
fn cells_are_marked_by_the_boxes_of_the_text(rt: HostRuntime) -> Result<(), Fail> {
    assert!(rt; has_the_marks_of_the_text(&read_plant(rt.alloc(), LOOSE)?));
    Ok(())
}

/// From 13 to 10 and 16, and none from the greatest value, of which there is no third after it.
fn steps_by_three(plant: &Plant) -> bool {
    plant.vectors() == 2
        && step(plant, &on_line(13), 0, &on_line(0)) == Some(on_line(10))
        && step(plant, &on_line(13), 1, &on_line(0)) == Some(on_line(16))
        && step(plant, &on_line(i128::MAX), 1, &on_line(0)) == None
}

#[test]
fn a_step_goes_by_the_input_until_the_range_ends(rt: HostRuntime) -> Result<(), Fail> {
    assert!(rt; steps_by_three(&read_plant(rt.alloc(), LOOSE)?));
    Ok(())
}
