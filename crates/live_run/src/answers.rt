ghost use Rattle.std.specs.Prelude.{◌≡◌, ◌++◌, None, OnOk, IfOk, IfErr};
ghost use Rattle.base.specs.Workers.{AreWorkers};
ghost use Rattle.live_script.specs.LiveText.{IsLiveText, answer_line};
ghost use Rattle.live_script.specs.Scripts.{FitsAfter};
ghost use Rattle.live_run.specs.inside.Answering.{IsExecuted, IsUnanswered};

use crate::session::Session;
use controller_table::NoMemory;
use itoa::Buffer;
use live_script::{Script, ScriptCommand, ScriptFault};
use std::alloc::Global;
use std::sync::Wait;

/// The answers to a script, by so many readers.
pub(crate) fn answers_to<R: Wait>(
    rt: &R,
    alloc: Global,
    readers: u32,
    script: &[u8],
) -> Result<Vec<u8>, ScriptFault>
    requires { AreWorkers readers }
    ensures answers { IfOk result (λ text. IsLiveText script.now text.items) }
    ensures refused { IfErr result (IsUnanswered script.now) }
{
    let mut session = Session::new(readers);
    let text = answers_in(rt, alloc, &mut session, script);
    session.close(rt);
    text
}

/// The answers to a script in a session, where no table is published yet.
fn answers_in<R: Wait>(
    rt: &R,
    alloc: Global,
    session: &mut Session,
    script: &[u8],
) -> Result<Vec<u8>, ScriptFault>
    requires { session.old ≡ record { count = 0; table = None } }
    ensures answers { IfOk result (λ text. IsLiveText script.now text.items) }
    ensures refused { IfErr result (IsUnanswered script.now) }
{
    let mut unread = Script::new(script)?;
    let mut text = Vec::new(alloc);
    while let Some(command) = unread.next_command(alloc)? {
        execute(rt, alloc, session, &mut text, command)?;
    }
    Ok(text)
}

/// Does what a command asks for.
fn execute<R: Wait>(
    rt: &R,
    alloc: Global,
    session: &mut Session,
    text: &mut Vec<u8>,
    command: ScriptCommand,
) -> Result<(), NoMemory>
    requires { FitsAfter session.old.count command }
    ensures { OnOk result (IsExecuted command session.old session.new text.old.items text.new.items) }
{
    match command {
        ScriptCommand::Publish(table) => session.publish(rt, alloc, table),
        ScriptCommand::Ask(question) => {
            let answer = session.answer(&question);
            push_line(text, session.count(), answer)
        }
    }
}

/// The line of an answer by the table of this number.
fn push_line(text: &mut Vec<u8>, number: u32, answer: Option<u32>) -> Result<(), NoMemory>
    ensures { OnOk result (text.new.items ≡ text.old.items ++ answer_line number answer) }
{
    let mut buffer = Buffer::new();
    text.extend_from_slice(buffer.format(number).as_bytes())?;
    text.extend_from_slice(b" ")?;
    match answer {
        Some(input) => text.extend_from_slice(buffer.format(input).as_bytes())?,
        None => text.extend_from_slice(b"-")?,
    }
    text.extend_from_slice(b"\n")?;
    Ok(())
}
