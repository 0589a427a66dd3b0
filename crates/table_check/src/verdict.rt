ghost use Rattle.std.specs.Prelude.{◌≡◌};
ghost use Rattle.table_check.specs.Verdicts.{verdict_by};

/// What is said of a table's rows.
#[derive(Clone, Copy, PartialEq, Eq)]
pub enum Verdict {
    /// They are the solution.
    Valid,
    /// The least cell whose row isn't right.
    Invalid { cell: u32 },
}

impl Verdict {
    /// The verdict by the first cell whose row isn't right, where there is one.
    pub fn by_first_wrong(first: Option<u32>) -> Verdict
        ensures { result ≡ verdict_by first }
    {
        match first {
            Some(cell) => Verdict::Invalid { cell },
            None => Verdict::Valid,
        }
    }
}
