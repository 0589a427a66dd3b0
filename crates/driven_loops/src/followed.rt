//! What the text that is written for a plant's bytes does, once it is read again, to a plant that need not obey its equations:
//! on every loop of the answers where each next state lies in the box of the state's cell.

ghost use Rattle.driven_loops.specs.CalledLoops.{CallsAreFollowed, NoFalseAlarms};
ghost use Rattle.driven_loops.specs.FollowedLaws.{FollowedTablesEnd, FollowedTablesKeep, FollowedStayTextsSettle, FollowedPatrolTextsGoOn, LoopsAreFollowed, IndicesTell};

/// A loop by the table of a plant that is to reach its targets ends, in a target.
pub fn followed_tables_end()
    ensures { FollowedTablesEnd }
{}

/// The table of a plant that is to be kept keeps it.
pub fn followed_tables_keep()
    ensures { FollowedTablesKeep }
{}

/// The text of reach and stay settles its plant in the targets.
pub fn followed_stay_texts_settle()
    ensures { FollowedStayTextsSettle }
{}

/// The text of a patrol brings its plant into its targets in turn, for ever.
pub fn followed_patrol_texts_go_on()
    ensures { FollowedPatrolTextsGoOn }
{}

/// Every loop under the plant's equations is such a loop.
pub fn loops_are_followed()
    ensures { LoopsAreFollowed }
{}

/// Whether a next state lies in its box is told by comparing indices.
pub fn indices_tell()
    ensures { IndicesTell }
{}

/// What the C library's clauses say of answers 1 is what the laws on such loops ask for.
pub fn calls_are_followed()
    ensures { CallsAreFollowed }
{}

/// Where a plant obeys its equations C is told that each next state follows.
pub fn no_false_alarms()
    ensures { NoFalseAlarms }
{}
