//! How a run ends, and how it says so.

ghost use Rattle.std.specs.Fmt.{decimal};
ghost use Rattle.std.specs.List.{flat_map};
ghost use Rattle.std.specs.Prelude.{◌≡◌, ◌++◌, codes};
ghost use Rattle.run_devices.specs.Devices.{writing, Reports};
ghost use Rattle.command_line.specs.declared.outcome.Refusal.TheVariants.{Overflow};
ghost use Rattle.command_line.specs.declared.outcome.Outcome.TheVariants.{Refused, Failed};
ghost use Rattle.command_line.specs.Ends.{failure_of};
ghost use Rattle.command_line.specs.Statuses.{status_of, line_of};

use crate::limits::limit_line;
use itoa::Buffer;
use plant_record::LimitKind;
use run_devices::{ReadFault, Sink, write_pieces};

/// Why there is no answer to a text.
#[derive(Clone, Copy, PartialEq, Eq)]
pub enum Refusal {
    /// The first line that doesn't fit after those before it, counted from 1; one past the last where the text ends too soon.
    Malformed { line: u64 },
    /// A number of this equation leaves the range under this input vector, both counted from 0: the first equation, and for it
    /// the first input vector.
    Overflow { equation: u32, input: u32 },
    /// The text or its plant exceeds a limit.
    Limit { what: LimitKind },
    /// A patrol has more than 2^22 pairs of a turn and a cell.
    TooManyTurns,
    /// A script has more than 67,108,864 bytes.
    ScriptTooLong,
    /// A script announces a ninth table.
    TooManyTables,
    /// The first cell of a table whose row isn't right, counted from 0.
    Invalid { cell: u32 },
    /// A trace would begin where the table has no row.
    NoRow,
}

/// What failed, so that a text has no answer.
#[derive(Clone, Copy, PartialEq, Eq)]
pub enum Failure {
    /// A read failed.
    Read,
    /// A write failed, and a part of the answer was written.
    Write,
    /// There was no memory left, and nothing was written.
    Memory,
}

/// How a run ended.
#[derive(Clone, Copy, PartialEq, Eq)]
pub enum Outcome {
    /// The answer was written whole.
    Done,
    /// The arguments are of no command; nothing was read.
    Usage,
    /// The text is refused.
    Refused(Refusal),
    /// A device failed, or there was no memory left.
    Failed(Failure),
}

impl Refusal {
    fn status(self) -> u8
        ensures { result ≡ status_of (Refused self) }
    {
        match self {
            Refusal::Invalid { .. } | Refusal::NoRow => 1,
            Refusal::Malformed { .. } => 3,
            Refusal::Overflow { .. } => 4,
            Refusal::Limit { .. }
            | Refusal::TooManyTurns
            | Refusal::ScriptTooLong
            | Refusal::TooManyTables => 5,
        }
    }

    /// Writes the line; a sink that fails gets a part of it.
    fn report<E: Sink>(self, err: &mut E)
        ensures { Reports (writing E.got E.faults E.capacity err.old err.new) (line_of (Refused self)) }
    {
        match self {
            Refusal::Malformed { line } => report_number(err, b"malformed: line ", line),
            Refusal::Overflow { equation, input } => report_overflow(err, equation, input),
            Refusal::Limit { what } => report_pieces(err, &[b"limit: ", limit_line(what), b"\n"]),
            Refusal::TooManyTurns => report_pieces(err, &[b"limit: turns\n"]),
            Refusal::ScriptTooLong => report_pieces(err, &[b"limit: script\n"]),
            Refusal::TooManyTables => report_pieces(err, &[b"limit: tables\n"]),
            Refusal::Invalid { cell } => report_number(err, b"invalid: cell ", u64::from(cell)),
            Refusal::NoRow => report_pieces(err, &[b"no row\n"]),
        }
    }
}

impl From<ReadFault> for Failure {
    ghost from_gives = { λ fault failure. failure ≡ failure_of fault };

    fn from(fault: ReadFault) -> Failure {
        match fault {
            ReadFault::Device => Failure::Read,
            ReadFault::Memory => Failure::Memory,
        }
    }
}

impl Failure {
    fn status(self) -> u8
        ensures { result ≡ status_of (Failed self) }
    {
        match self {
            Failure::Read => 6,
            Failure::Write => 7,
            Failure::Memory => 8,
        }
    }

    /// Writes the line; a sink that fails gets a part of it.
    fn report<E: Sink>(self, err: &mut E)
        ensures { Reports (writing E.got E.faults E.capacity err.old err.new) (line_of (Failed self)) }
    {
        match self {
            Failure::Read => report_pieces(err, &[b"read fault\n"]),
            Failure::Write => {}
            Failure::Memory => report_pieces(err, &[b"no memory\n"]),
        }
    }
}

impl Outcome {
    /// The exit status.
    pub fn status(self) -> u8
        ensures { result ≡ status_of self }
    {
        match self {
            Outcome::Done => 0,
            Outcome::Usage => 2,
            Outcome::Refused(refusal) => refusal.status(),
            Outcome::Failed(failure) => failure.status(),
        }
    }

    /// Writes the line; a sink that fails gets a part of it.
    pub fn report<E: Sink>(self, err: &mut E)
        ensures { Reports (writing E.got E.faults E.capacity err.old err.new) (line_of self) }
    {
        match self {
            Outcome::Done => {}
            Outcome::Usage => report_pieces(err, &[b"usage\n"]),
            Outcome::Refused(refusal) => refusal.report(err),
            Outcome::Failed(failure) => failure.report(err),
        }
    }
}

/// Writes a line in pieces.
fn report_pieces<E: Sink>(err: &mut E, pieces: &[&[u8]])
    ensures { Reports (writing E.got E.faults E.capacity err.old err.new) (flat_map (λ piece. piece.now) pieces.now) }
{
    let _ = write_pieces(err, pieces);
}

/// Writes a line of a text and a number.
fn report_number<E: Sink>(err: &mut E, text: &[u8], number: u64)
    ensures { Reports (writing E.got E.faults E.capacity err.old err.new) (text.now ++ decimal number ++ codes "\n") }
{
    let mut buffer = Buffer::new();
    let digits = buffer.format(number).as_bytes();
    report_pieces(err, &[text, digits, b"\n"]);
}

/// Writes the line of an overflow.
fn report_overflow<E: Sink>(err: &mut E, equation: u32, input: u32)
    ensures { let reported = writing E.got E.faults E.capacity err.old err.new in
        Reports reported (line_of (Refused (Overflow equation input))) }
{
    let mut first = Buffer::new();
    let mut second = Buffer::new();
    let equation = first.format(equation).as_bytes();
    let input = second.format(input).as_bytes();
    report_pieces(
        err,
        &[b"overflow: equation ", equation, b" input ", input, b"\n"],
    );
}
