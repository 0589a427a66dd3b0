//! What the trajectories by a stay text and by a patrol text do. The laws of all texts of a kind are in `controller_table`.

ghost use Rattle.temporal_texts.specs.Laws.{StayTrajectoriesSettle, PatrolTrajectoriesGoOn};

/// A text that settles its plant does so along every trajectory by its rows.
pub fn stay_trajectories_settle()
    ensures { StayTrajectoriesSettle }
{}

/// A text that patrols its plant's targets does so along every trajectory by its rows.
pub fn patrol_trajectories_go_on()
    ensures { PatrolTrajectoriesGoOn }
{}
