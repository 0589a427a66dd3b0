//! What holds of every list of rows.

ghost use Rattle.row_runs.specs.Laws.{RunsEncodeTheRows, OneListOfRuns, RunsDiffer};

/// The runs of rows stand one after another, and give the rows.
pub fn runs_encode_the_rows()
    ensures { RunsEncodeTheRows }
{}

/// No two lists of runs give the same rows.
pub fn one_list_of_runs()
    ensures { OneListOfRuns }
{}

/// No two lists of as many rows have the same runs.
pub fn different_rows_have_different_runs()
    ensures { RunsDiffer }
{}
