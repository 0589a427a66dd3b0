//! What a plant aims at, and what it is kept off.

use grid_quantiser::Point;

/// A box of states: the least and the greatest number of each. What stands past the states is 0.
#[derive(Clone, Copy, PartialEq, Eq)]
pub struct StateBox {
    pub low: Point,
    pub high: Point,
}

/// What the controller is to do.
#[derive(Clone, Copy, PartialEq, Eq)]
pub enum GoalKind {
    /// Bring the plant into a target.
    Reach,
    /// Keep the plant off the obstacles for ever.
    Keep,
}
