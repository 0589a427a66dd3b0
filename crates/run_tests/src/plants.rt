//! The plants of the trials, and the texts that are written for them.

/// Positions 0 to 14 in cells of three; inputs of -3 and 3; the target is 12 to 14.
pub const PLANT: &[u8] =
    b"plant 1\nstate x 0 14 3\ninput u -3 3\nnext x = x + u\ntarget 12 14\ngoal reach\nend\n";

/// From each cell the greater input leads to the next one: no two cells have the same row.
pub const TABLE: &[u8] =
    b"table 2\nplant 1\nstate x 0 14 3\ninput u -3 3\nnext x = x + u\ntarget 12 14\ngoal reach\nend\nrows 5\n0 0 4 1\n1 1 3 1\n2 2 2 1\n3 3 1 1\n4 4 0 -\nend\n";

/// The plant of the trials, which may also stand still. The goal is cell 4, which input 1 keeps; input 2 leads each other cell
/// to the next one.
pub const LINE: &[u8] =
    b"plant 1\nstate x 0 14 3\ninput u -3 0 3\nnext x = x + u\ntarget 12 14\ngoal reach\nend\n";

pub const LINE_TEXT: &[u8] =
    b"stay 1\nplant 1\nstate x 0 14 3\ninput u -3 0 3\nnext x = x + u\ntarget 12 14\ngoal reach\nend\nrows 5\n0 0 4 2\n1 1 3 2\n2 2 2 2\n3 3 1 2\n4 4 0 1\nend\n";

/// The plant of the trials, with a target at either end. Each input leads a cell to its neighbour, so that a target that was
/// reached is left before it is reached again.
pub const DOCKS: &[u8] =
    b"plant 1\nstate x 0 14 3\ninput u -3 3\nnext x = x + u\ntarget 0 2\ntarget 12 14\ngoal reach\nend\n";

pub const DOCKS_TEXT: &[u8] =
    b"patrol 1\nplant 1\nstate x 0 14 3\ninput u -3 3\nnext x = x + u\ntarget 0 2\ntarget 12 14\ngoal reach\nend\nturn 0 rows 5\n0 0 2 1\n1 1 1 0\n2 2 2 0\n3 3 3 0\n4 4 4 0\nturn 1 rows 5\n0 0 4 1\n1 1 3 1\n2 2 2 1\n3 3 1 1\n4 4 2 0\nend\n";
