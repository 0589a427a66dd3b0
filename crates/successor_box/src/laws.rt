//! What holds of every sound plant's successor boxes.

ghost use Rattle.successor_box.specs.Laws.{StepsLieInTheBoxes, StepsStayInRange, BoxesHoldTheSuccessors, EnabledPairsHaveSuccessors, PointsLieWithTheirStates, ExtentsDependOnIndices, ExtentsMakeBoxes};

/// Every step from a cell, under an enabled input and a noise in range, leads into a successor.
pub fn steps_lie_in_the_boxes()
    ensures { StepsLieInTheBoxes }
{}

/// Without an overflow no step from the domain leaves the range.
#[tactic(auto, using(crate::proofs::Steps::step_stays))]
pub fn steps_stay_in_range()
    ensures { StepsStayInRange }
{}

/// The cells of a pair's box are its successors.
#[tactic(auto, using(crate::proofs::Enabled::box_successors))]
pub fn boxes_hold_the_successors()
    ensures { BoxesHoldTheSuccessors }
{}

/// A pair has a successor exactly where its box lies in the domain.
#[tactic(auto, using(crate::proofs::Enabled::enabled_exactly))]
pub fn enabled_pairs_have_successors()
    ensures { EnabledPairsHaveSuccessors }
{}

/// What stands in a point past the states decides nothing.
pub fn points_lie_with_their_states()
    ensures { PointsLieWithTheirStates }
{}

/// The extent of a pair along a state's axis depends on its indices in the variables of the state's equation
/// alone: pairs that are alike in these have one extent. Where the equation shifts with the state itself, the
/// extent depends on the others, and shifts with the pair's index along the axis.
pub fn extents_depend_on_indices()
    ensures { ExtentsDependOnIndices }
{}

/// The box of a pair is made of its extents, state by state.
pub fn extents_make_boxes()
    ensures { ExtentsMakeBoxes }
{}
