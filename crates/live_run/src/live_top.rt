ghost use Rattle.std.specs.Prelude.{◌≡◌, ℕ, IfSome, IfOk, IfErr};
ghost use Rattle.run_devices.specs.Devices.{Rose, reading, writing};
ghost use Rattle.command_line.specs.Command.{as_words};
ghost use Rattle.base.specs.Workers.{AreWorkers};
ghost use Rattle.live_run.specs.LiveRuns.{IsLiveCommand, IsLiveEnd, IsLiveRunWith, IsLiveRun, IsAnswered, IsCompleteAnswer};
ghost use Rattle.live_run.specs.inside.LiveWorking.{IsWorkedOut, IsStopped, IsWrittenOut};

use crate::answers::answers_to;
use crate::live_arguments::parse_readers;
use crate::live_stop::LiveStop;
use base::limits::SCRIPT_LIMIT;
use command_line::{Failure, Outcome};
use run_devices::{Sink, Source, read_up_to, write_whole};
use std::alloc::Global;
use std::sync::Wait;

/// Answers the live script on the source, by as many readers as the arguments request, and answers the exit status.
///
/// 0: the answers were written. 2: the arguments aren't `live` and a number from 1 to 64. 3: a line of the script is malformed. 5: a limit
/// is exceeded. 6: a read failed. 7: a write failed. 8: there was no memory left.
pub fn run_live<R: Wait, S: Source, O: Sink, E: Sink>(
    rt: &R,
    alloc: Global,
    arguments: &[&str],
    source: &mut S,
    out: &mut O,
    err: &mut E,
) -> u8
    // The headline: status 0 means that the answers were written whole, each by the table published last before its question.
    ensures answered { let written = writing O.got O.faults O.capacity out.old out.new in
        (readers : ℕ) → IsLiveCommand (as_words arguments.now) readers → result ≡ 0
        → IfSome (S.left source.old) (λ script. IsAnswered script written) }

    // Every status: what was read, written and reported, and which fault or refusal it means.
    ensures gives { let read = reading S.left S.faults S.is_sound source.old source.new in
        let written = writing O.got O.faults O.capacity out.old out.new in
        let reported = writing E.got E.faults E.capacity err.old err.new in
        IsLiveRun (as_words arguments.now) result read written reported }

    // Where no device fails, only want of memory keeps a script from its answers, or from the refusal that it has.
    ensures complete { (readers : ℕ) → IsLiveCommand (as_words arguments.now) readers
        → (Rose (S.faults source.old) (S.faults source.new) → ⊥)
        → (Rose (O.faults out.old) (O.faults out.new) → ⊥)
        → IfSome (S.left source.old) (IsCompleteAnswer result) }
{
    let outcome = outcome_of(rt, alloc, arguments, source, out);
    outcome.report(err);
    outcome.status()
}

/// Does what the arguments request.
fn outcome_of<R: Wait, S: Source, O: Sink>(
    rt: &R,
    alloc: Global,
    arguments: &[&str],
    source: &mut S,
    out: &mut O,
) -> Outcome
    ensures { let read = reading S.left S.faults S.is_sound source.old source.new in
        let written = writing O.got O.faults O.capacity out.old out.new in
        IsLiveRunWith (as_words arguments.now) result read written }
{
    match parse_readers(arguments) {
        Some(readers) => carry_out(rt, alloc, readers, source, out),
        None => Outcome::Usage,
    }
}

/// Works the answers out, and writes them.
fn carry_out<R: Wait, S: Source, O: Sink>(
    rt: &R,
    alloc: Global,
    readers: u32,
    source: &mut S,
    out: &mut O,
) -> Outcome
    requires { AreWorkers readers }
    ensures { let read = reading S.left S.faults S.is_sound source.old source.new in
        let written = writing O.got O.faults O.capacity out.old out.new in
        IsLiveEnd result read written }
{
    match answers_on_source(rt, alloc, readers, source) {
        Ok(text) => write_out(&text, out),
        Err(stop) => stop.outcome(),
    }
}

/// The answers to the script on the source.
fn answers_on_source<R: Wait, S: Source>(
    rt: &R,
    alloc: Global,
    readers: u32,
    source: &mut S,
) -> Result<Vec<u8>, LiveStop>
    requires { AreWorkers readers }
    ensures answer { let from = reading S.left S.faults S.is_sound source.old source.new in
        IfOk result (λ text. IsWorkedOut text.items from) }
    ensures stopped { IfErr result (λ stop. IsStopped stop (reading S.left S.faults S.is_sound source.old source.new)) }
{
    let script = read_up_to(alloc, source, SCRIPT_LIMIT + 1)?;
    let text = answers_to(rt, alloc, readers, &script)?;
    Ok(text)
}

/// Writes the answers.
fn write_out<O: Sink>(text: &[u8], out: &mut O) -> Outcome
    ensures { IsWrittenOut text.now result (writing O.got O.faults O.capacity out.old out.new) }
{
    match write_whole(out, text) {
        Ok(()) => Outcome::Done,
        Err(_) => Outcome::Failed(Failure::Write),
    }
}
