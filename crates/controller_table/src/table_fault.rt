use plant_record::LimitKind;

/// Why no table was read.
#[derive(Clone, Copy, Debug, PartialEq, Eq)]
pub enum TableFault {
    /// The first line that doesn't fit after those before it, counted from 1.
    Malformed { line: u32 },
    /// The text or its plant exceeds a limit.
    Limit { what: LimitKind },
    /// There was no memory left.
    Memory,
}
