/// Why a call of a live table was refused. No clause says when `Refused` comes: `left_right` doesn't tell why it
/// refuses, nor `logbook` that a word has one user.
#[derive(Clone, Copy, Debug, PartialEq, Eq)]
pub enum LiveFault {
    /// There was no memory left.
    Memory,
    /// There was no slot for a further reader or told, or the publisher is closed.
    Refused,
}
