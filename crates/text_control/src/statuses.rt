//! The numbers by which programs in other languages are told what a call did. include/gaffcurrant.h has them under the same
//! names.

/// The text is open.
pub const OPEN: i32 = 0;
/// The bytes are none of the three texts.
pub const MALFORMED: i32 = 1;
/// The text or its plant exceeds a limit.
pub const LIMIT: i32 = 2;
/// There was no memory left.
pub const NO_MEMORY: i32 = 3;

/// The call did what it was asked for.
pub const DONE: i32 = 0;
/// The inputs are to be applied.
pub const APPLY: i32 = 1;
/// The state has come to the targets: nothing has to be applied.
pub const ARRIVED: i32 = 0;
/// The next turn of a patrol has begun.
pub const NEXT_TURN: i32 = 1;
/// The turn is as before.
pub const SAME_TURN: i32 = 0;
/// The state has a row, of the rank that is told.
pub const RANKED: i32 = 1;
/// The next state lies in its successor box.
pub const FOLLOWED: i32 = 1;
/// It doesn't, or the box leaves the domain.
pub const NOT_FOLLOWED: i32 = 0;
/// The state lies outside the plant's ranges, or the values are no input vector.
pub const NO_INPUT: i32 = -1;
/// The text promises nothing at the state.
pub const NO_ROW: i32 = -1;
/// These aren't as many numbers as there are states and inputs, or there is no such turn.
pub const WRONG_SIZE: i32 = -2;
/// No text is held.
pub const CLOSED: i32 = -3;
/// A number of the plant leaves the range, so that no successor box is told.
pub const OVERFLOW: i32 = -4;
