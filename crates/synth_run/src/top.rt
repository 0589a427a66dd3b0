ghost use Rattle.std.specs.Prelude.{◌≡◌, ℕ, List, IfSome, IfOk, IfErr};
ghost use Rattle.run_devices.specs.Devices.{Rose, reading, writing};
ghost use Rattle.command_line.specs.Command.{IsOfCommand, as_words};
ghost use Rattle.synth_run.specs.Sources.{bytes_for, most_read, NoReadFailed};
ghost use Rattle.synth_run.specs.RunClauses.{IsRunWith, IsRun, IsRunOf, IsAnswered, IsCompleteAnswer};
ghost use Rattle.command_line.specs.declared.command.Command.{Command};
ghost use Rattle.text_abstraction.specs.Causes.{IsStopFor};
ghost use Rattle.synth_run.specs.inside.Making.{IsReadFor, IsMade};
ghost use Rattle.synth_run.specs.inside.Working.{HasItsGame, HasItsAnswer, IsStopped, IsWrittenOut, IsLeftAfter};
ghost use Rattle.command_outcomes.specs.Stages.{IsStagedRefusal};
ghost use Rattle.command_texts.specs.Texts.{CanBeWritten};

use crate::commands::check::check;
use crate::commands::demo::demo;
use crate::commands::patrol::patrol;
use crate::commands::sim::sim;
use crate::commands::stay::stay;
use crate::commands::synth::synth;
use crate::commands::upgrade::upgrade;
use crate::work::Work;
use base::limits::{TABLE_LIMIT, TEXT_LIMIT};
use cell_counters::{Board, Root};
use command_line::{Command, Failure, Outcome, parse_command};
use command_texts::Text;
use frontier_pool::Gate;
use run_devices::{Sink, Source, WriteFault, read_up_to};
use std::alloc::Global;
use std::thread::Threads;
use text_abstraction::Stop;

/// The top call: does what the arguments request, and answers the exit status.
///
/// 0: the answer was written. 1: a row of the table isn't right, or there is none where a trace would begin. 2: the arguments are of no command.
/// 3: a line of the text is malformed. 4: a number leaves the range. 5: a limit is exceeded. 6: a read failed. 7: a write failed. 8: there
/// was no memory left.
///
/// The gate is passed before each item of each round of the game's workers (tested: `Gate`). At status 0 of `synth` and `demo`, `played`
/// holds the board on which they solved the game, with its root; at every other end it is None.
pub fn run<R: Threads + Sync, S: Source, O: Sink, E: Sink, G: Gate>(
    rt: &R,
    alloc: Global,
    arguments: &[&str],
    source: &mut S,
    out: &mut O,
    err: &mut E,
    gate: &G,
    played: &mut Option<(Board, Root)>,
) -> u8
    // The headline: status 0 means that the answer was written whole, that of `synth` being the plant's one table.
    ensures solved { let written = writing O.got O.faults O.capacity out.old out.new in
        (command : Command) → IsOfCommand (as_words arguments.now) command → result ≡ 0
        → IfSome (bytes_for command (S.left source.old)) (λ bytes. IsAnswered command bytes written) }

    // Every status: what was read, written and reported, which fault or refusal it means, and what is left of the game.
    ensures gives { let read = reading S.left S.faults S.is_sound source.old source.new in
        let written = writing O.got O.faults O.capacity out.old out.new in
        let reported = writing E.got E.faults E.capacity err.old err.new in
        IsRun (as_words arguments.now) result read written reported played.new }

    // Where no device fails, only want of memory keeps a text from what it demands.
    ensures complete { (command : Command) → IsOfCommand (as_words arguments.now) command
        → NoReadFailed command (S.faults source.old) (S.faults source.new)
        → (Rose (O.faults out.old) (O.faults out.new) → ⊥)
        → IfSome (bytes_for command (S.left source.old)) (IsCompleteAnswer command result) }
{
    let (outcome, solved) = outcome_of(rt, alloc, arguments, source, out, gate);
    *played = solved;
    outcome.report(err);
    outcome.status()
}

/// Does what the arguments request.
fn outcome_of<R: Threads + Sync, S: Source, O: Sink, G: Gate>(
    rt: &R,
    alloc: Global,
    arguments: &[&str],
    source: &mut S,
    out: &mut O,
    gate: &G,
) -> (Outcome, Option<(Board, Root)>)
    ensures { let read = reading S.left S.faults S.is_sound source.old source.new in
        let written = writing O.got O.faults O.capacity out.old out.new in
        IsRunWith (as_words arguments.now) result.0 read written result.1 }
{
    match parse_command(arguments) {
        Some(command) => carry_out(rt, alloc, command, source, out, gate),
        None => (Outcome::Usage, None),
    }
}

/// Works the answer of a command out, and writes it.
fn carry_out<R: Threads + Sync, S: Source, O: Sink, G: Gate>(
    rt: &R,
    alloc: Global,
    command: Command,
    source: &mut S,
    out: &mut O,
    gate: &G,
) -> (Outcome, Option<(Board, Root)>)
    requires { (arguments : List (List ℕ)) × IsOfCommand arguments command }
    ensures { let read = reading S.left S.faults S.is_sound source.old source.new in
        let written = writing O.got O.faults O.capacity out.old out.new in
        IsRunOf command result.0 read written result.1 }
{
    match work_of(rt, alloc, command, source, gate) {
        Ok(work) => finish(alloc, work, out),
        Err(stop) => (stop.outcome(), None),
    }
}

/// What a command writes, and the game that it leaves.
fn work_of<R: Threads + Sync, S: Source, G: Gate>(
    rt: &R,
    alloc: Global,
    command: Command,
    source: &mut S,
    gate: &G,
) -> Result<Work, Stop>
    requires { (arguments : List (List ℕ)) × IsOfCommand arguments command }
    ensures answer { IfOk result (HasItsAnswer command (reading S.left S.faults S.is_sound source.old source.new)) }
    ensures played { IfOk result (HasItsGame command (reading S.left S.faults S.is_sound source.old source.new)) }
    ensures stopped { IfErr result (IsStopped command (reading S.left S.faults S.is_sound source.old source.new)) }
{
    let bytes = read_for(alloc, &command, source)?;
    work_on(rt, alloc, command, &bytes, gate)
}

/// The bytes that a command works on. `demo` works on none, and leaves its source alone.
fn read_for<S: Source>(alloc: Global, command: &Command, source: &mut S) -> Result<Vec<u8>, Stop>
    ensures read { let from = reading S.left S.faults S.is_sound source.old source.new in
        IfOk result (λ bytes. IsReadFor command.now bytes.items from) }
    ensures stopped { IfErr result (IsStopped command.now (reading S.left S.faults S.is_sound source.old source.new)) }
{
    if let Command::Demo { .. } = command {
        return Ok(Vec::new(alloc));
    }
    let bytes = read_up_to(alloc, source, most_read(command))?;
    Ok(bytes)
}

/// How many bytes a command reads at most: one past the limit of its text, or none.
fn most_read(command: &Command) -> usize
    ensures { result ≡ most_read command.now }
{
    match command {
        Command::Synth { .. } | Command::Stay { .. } | Command::Patrol { .. } => TEXT_LIMIT + 1,
        Command::Check | Command::Upgrade | Command::Sim { .. } => TABLE_LIMIT + 1,
        Command::Demo { .. } => 0,
    }
}

/// What a command makes of the bytes that it works on.
fn work_on<R: Threads + Sync, G: Gate>(
    rt: &R,
    alloc: Global,
    command: Command,
    bytes: &[u8],
    gate: &G,
) -> Result<Work, Stop>
    requires { (arguments : List (List ℕ)) × IsOfCommand arguments command }
    ensures made { IfOk result (IsMade command bytes.now) }
    ensures refused { IfErr result (IsStopFor (IsStagedRefusal command bytes.now)) }
{
    match command {
        Command::Synth { workers } => synth(rt, alloc, bytes, workers, gate),
        Command::Check => check(rt, alloc, bytes),
        Command::Upgrade => upgrade(alloc, bytes),
        Command::Sim {
            samples,
            seed,
            start,
        } => sim(alloc, bytes, samples, seed, &start),
        Command::Demo { number, workers } => demo(rt, alloc, number, workers, gate),
        Command::Stay { workers } => stay(rt, alloc, bytes, workers, gate),
        Command::Patrol { workers } => patrol(rt, alloc, bytes, workers, gate),
    }
}

/// Writes the text of a work, and leaves its game where the whole text was written.
fn finish<O: Sink>(alloc: Global, work: Work, out: &mut O) -> (Outcome, Option<(Board, Root)>)
    requires { CanBeWritten work.text }
    ensures written { IsWrittenOut work.text result.0 (writing O.got O.faults O.capacity out.old out.new) }
    ensures left { IsLeftAfter result.0 work.played result.1 }
{
    let outcome = write_out(alloc, &work.text, out);
    (outcome, left_after(outcome, work.played))
}

/// Writes what was worked out.
fn write_out<O: Sink>(alloc: Global, text: &Text, out: &mut O) -> Outcome
    requires { CanBeWritten text.now }
    ensures { IsWrittenOut text.now result (writing O.got O.faults O.capacity out.old out.new) }
{
    match text.write(alloc, out) {
        Ok(()) => Outcome::Done,
        Err(WriteFault::Device) => Outcome::Failed(Failure::Write),
        Err(WriteFault::Memory) => Outcome::Failed(Failure::Memory),
    }
}

/// What is left of a game: all of it where the whole answer was written, else nothing.
fn left_after(outcome: Outcome, played: Option<(Board, Root)>) -> Option<(Board, Root)>
    ensures { IsLeftAfter outcome played result }
{
    match outcome {
        Outcome::Done => played,
        _ => None,
    }
}
