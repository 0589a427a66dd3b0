//! Tests of `grid_quantiser`.

use grid_quantiser::{Axis, CellBox, Extent, Grid, Point};

/// Five cells of three numbers: 0 to 2, 3 to 5, 6 to 8, 9 to 11 and 12 to 14.
const LINE: [Axis; 1] = [Axis {
    lo: 0,
    width: 3,
    count: 5,
}];

/// Six cells of ten numbers from 0 on, by four of five numbers from -10 on.
const PLANE: [Axis; 2] = [
    Axis {
        lo: 0,
        width: 10,
        count: 6,
    },
    Axis {
        lo: -10,
        width: 5,
        count: 4,
    },
];

/// An axis of 2^20 numbers.
const LONG: Axis = Axis {
    lo: 0,
    width: 1,
    count: 1 << 20,
};

fn on_line(x: i128) -> Point {
    [x, 0, 0, 0, 0, 0]
}

fn cells(first: u32, last: u32) -> Option<CellBox> {
    Some(CellBox { first, last })
}

/// 2^20 cells are a grid, and one more or 2^80 are none.
fn only_2_to_20_cells_fit() -> bool {
    let longer = Axis {
        count: (1 << 20) + 1,
        ..LONG
    };
    Grid::new(&[LONG]).is_ok()
        && Grid::new(&[longer]).is_err()
        && Grid::new(&[LONG, LONG, LONG, LONG]).is_err()
}

#[test]
fn more_than_2_to_20_cells_are_refused(rt: HostRuntime) {
    assert!(rt; only_2_to_20_cells_fit());
}

fn cells_of_a_row() -> bool {
    let Ok(grid) = Grid::new(&LINE) else {
        return false;
    };
    let ends = [
        grid.cell_of(&on_line(-1)),
        grid.cell_of(&on_line(0)),
        grid.cell_of(&on_line(2)),
        grid.cell_of(&on_line(3)),
        grid.cell_of(&on_line(14)),
        grid.cell_of(&on_line(15)),
    ];
    ends == [None, Some(0), Some(0), Some(1), Some(4), None] && grid.cells() == 5
}

#[test]
fn cells_hold_the_numbers_between_their_ends(rt: HostRuntime) {
    assert!(rt; cells_of_a_row());
}

/// (35, -6) stands at index 3 of 6 and index 0 of 4, in cell 3 * 4 + 0, which reaches from (30, -10) to (39, -6).
fn cell_12_of_the_plane() -> bool {
    let Ok(grid) = Grid::new(&PLANE) else {
        return false;
    };
    grid.cells() == 24
        && grid.cell_of(&[35, -6, 0, 0, 0, 0]) == Some(12)
        && grid.low(12) == [30, -10, 0, 0, 0, 0]
        && grid.centre(12) == [35, -8, 0, 0, 0, 0]
        && grid.high(12) == [39, -6, 0, 0, 0, 0]
}

#[test]
fn the_first_state_varies_slowest(rt: HostRuntime) {
    assert!(rt; cell_12_of_the_plane());
}

/// Indices 0, 1, 1, 2, 2 and 0 of three each stand for 81 + 27 + 2 * 9 + 2 * 3.
fn cell_132_of_six_states() -> bool {
    let axis = Axis {
        lo: 0,
        width: 2,
        count: 3,
    };
    let Ok(grid) = Grid::new(&[axis, axis, axis, axis, axis, axis]) else {
        return false;
    };
    grid.cells() == 729
        && grid.cell_of(&[1, 2, 3, 4, 5, 0]) == Some(132)
        && grid.centre(132) == [1, 3, 3, 5, 5, 1]
}

#[test]
fn six_states_count_like_digits(rt: HostRuntime) {
    assert!(rt; cell_132_of_six_states());
}

/// From (35, -6) to (41, -5) lie the indices 3 and 4 by 0 and 1: the cells 12, 13, 16 and 17.
fn four_cells_meet_a_box() -> bool {
    let Ok(grid) = Grid::new(&PLANE) else {
        return false;
    };
    let Some(b) = grid.meeting(&[35, -6, 0, 0, 0, 0], &[41, -5, 0, 0, 0, 0]) else {
        return false;
    };
    [b.first, b.last] == [12, 17]
        && grid.box_count(b) == 4
        && grid.nth_of(b, 2) == 16
        && grid.cells() == 24
        && [grid.box_has(b, 14), grid.box_has(b, 16)] == [false, true]
        && grid.meeting(&[35, -6, 0, 0, 0, 0], &[60, -5, 0, 0, 0, 0]) == None
}

#[test]
fn a_box_has_the_cells_that_meet_it(rt: HostRuntime) {
    assert!(rt; four_cells_meet_a_box());
}

/// Of 3 by 3 by 3 cells of two numbers, the indices 0 and 1 by 1 and 2 by 0 to 2.
fn segments_of_three_states() -> bool {
    let axis = Axis {
        lo: 0,
        width: 2,
        count: 3,
    };
    let Ok(grid) = Grid::new(&[axis, axis, axis]) else {
        return false;
    };
    let Some(b) = grid.meeting(&[0, 2, 0, 0, 0, 0], &[3, 5, 5, 0, 0, 0]) else {
        return false;
    };
    let mut segments = grid.segments(b);
    [(3, 3), (6, 3), (12, 3), (15, 3)]
        .iter()
        .all(|segment| segments.next_segment() == Some(*segment))
        && segments.next_segment() == None
        && segments.next_segment() == None
}

#[test]
fn segments_of_a_box_rise_and_then_end(rt: HostRuntime) {
    assert!(rt; segments_of_three_states());
}

/// Cell 12 reaches from (30, -10) to (39, -6).
fn cell_12_lies_in_boxes_and_touches_others() -> bool {
    let Ok(grid) = Grid::new(&PLANE) else {
        return false;
    };
    grid.cells() == 24
        && grid.inside(12, &[30, -10, 0, 0, 0, 0], &[39, -6, 0, 0, 0, 0])
        && !grid.inside(12, &[31, -10, 0, 0, 0, 0], &[99, 99, 0, 0, 0, 0])
        && grid.touches(12, &[39, -6, 0, 0, 0, 0], &[99, 99, 0, 0, 0, 0])
        && !grid.touches(12, &[40, -10, 0, 0, 0, 0], &[49, -6, 0, 0, 0, 0])
}

#[test]
fn a_cell_lies_inside_with_all_its_points_and_touches_with_one(rt: HostRuntime) {
    assert!(rt; cell_12_lies_in_boxes_and_touches_others());
}

/// A part of a cell, a whole cell and parts of two; out of the domain below, above and on both sides; outside, and empty.
fn boxes_of_a_row() -> bool {
    let Ok(grid) = Grid::new(&LINE) else {
        return false;
    };
    let rows = [
        (4, 4, cells(1, 1), None),
        (3, 5, cells(1, 1), cells(1, 1)),
        (4, 7, cells(1, 2), None),
        (-7, 4, cells(0, 1), cells(0, 0)),
        (4, 99, cells(1, 4), cells(2, 4)),
        (-7, 99, cells(0, 4), cells(0, 4)),
        (-7, -1, None, None),
        (15, 99, None, None),
        (5, 4, None, None),
    ];
    rows.iter().all(|(low, high, touching, within)| {
        let (lo, hi) = (on_line(*low), on_line(*high));
        grid.touching(&lo, &hi) == *touching && grid.within(&lo, &hi) == *within
    })
}

#[test]
fn boxes_have_the_cells_that_touch_them_and_those_within(rt: HostRuntime) {
    assert!(rt; boxes_of_a_row());
}

/// From (35, any) to (99, -5) the indices 3 to 5 by 0 and 1 touch, and 4 and 5 by 0 lie within.
fn box_of_a_plane() -> bool {
    let Ok(grid) = Grid::new(&PLANE) else {
        return false;
    };
    let lo = [35, i128::MIN, 0, 0, 0, 0];
    let hi = [99, -5, 0, 0, 0, 0];
    grid.touching(&lo, &hi) == cells(12, 21) && grid.within(&lo, &hi) == cells(16, 20)
}

#[test]
fn boxes_may_reach_to_the_end_of_the_numbers(rt: HostRuntime) {
    assert!(rt; box_of_a_plane());
}

/// 35 and 41 stand at the indices 3 and 4, and 60 past the last. On the axis extended from -60 on -5 and 3 stand at 5 and 6, and
/// -61 before the first.
fn extents_of_the_plane() -> bool {
    let Ok(grid) = Grid::new(&PLANE) else {
        return false;
    };
    grid.states() == 2
        && grid.extent(0, 35, 41) == Some(Extent { first: 3, last: 4 })
        && grid.extent(0, 35, 60) == None
        && grid.extended_quantiser(0).extent(-5, 3) == Some(Extent { first: 5, last: 6 })
        && grid.extended_quantiser(0).extent(-61, 3) == None
}

#[test]
fn an_extent_has_the_indices_of_both_its_ends(rt: HostRuntime) {
    assert!(rt; extents_of_the_plane());
}

/// Cell 13 of the plane stands at the indices 3 of six and 1 of four, and there is no third axis.
fn cell_of_the_plane_has_two_indices() -> bool {
    let Ok(grid) = Grid::new(&PLANE) else {
        return false;
    };
    grid.cells() == 24 && grid.indices(13) == [3, 1, 0, 0, 0, 0]
}

#[test]
fn a_cell_has_no_index_past_the_last_axis(rt: HostRuntime) {
    assert!(rt; cell_of_the_plane_has_two_indices());
}
