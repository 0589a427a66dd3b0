//! Live scripts, and the laws that each is one list of commands or refused.

use crate::live::tables::REACH;
use controller_table::laws::no_text_is_neither;
use live_script::laws::{
    no_script_is_neither, no_script_is_refused, one_live_text, one_script, one_script_refusal,
};
use live_script::{Script, ScriptCommand};
use std::alloc::Global;
use std::test::Fail;

/// A script of one table and one question.
fn script_of(alloc: Global, table: &[u8]) -> Result<Vec<u8>, Fail> {
    let mut script = Vec::from_slice(alloc, b"publish 128\n")?;
    script.extend_from_slice(table)?;
    script.extend_from_slice(b"ask 1\n")?;
    Ok(script)
}

/// Whether a script is a table, a question and its end, as often as it is asked.
fn has_two_commands(alloc: Global, bytes: &[u8]) -> bool {
    one_script();
    one_script_refusal();
    no_script_is_refused();
    no_text_is_neither();
    no_script_is_neither();
    one_live_text();
    let Ok(mut script) = Script::new(bytes) else {
        return false;
    };
    let published = matches!(
        script.next_command(alloc),
        Ok(Some(ScriptCommand::Publish(_)))
    );
    let asked = matches!(script.next_command(alloc), Ok(Some(ScriptCommand::Ask(_))));
    let ended = matches!(script.next_command(alloc), Ok(None));
    let still_ended = matches!(script.next_command(alloc), Ok(None));
    published && asked && ended && still_ended
}

#[test]
fn a_script_stays_at_its_end(rt: HostRuntime) -> Result<(), Fail> {
    let bytes = script_of(rt.alloc(), REACH)?;
    assert!(rt; has_two_commands(rt.alloc(), &bytes));
    Ok(())
}
