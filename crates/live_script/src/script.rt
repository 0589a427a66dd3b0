ghost use Rattle.std.specs.Prelude.{◌≡◌, [], ◌^◌, ◌+◌, ◌<◌, ◌≤◌, ◌++◌, length, IfOk, IfErr, IfSome, OnErr};
ghost use Rattle.std.specs.Option.{IfNone};
ghost use Rattle.controller_table.specs.Tables.{IsTableIn};
ghost use Rattle.row_reading.specs.Found.{Finds};
ghost use Rattle.live_script.specs.Scripts.{publish_line, IsShortScript};
ghost use Rattle.live_script.specs.ScriptRefusals.{IsUnreadAfter, IsScriptRefusedFor};
ghost use Rattle.live_script.specs.ScriptReading.{IsTaken};
ghost use Rattle.live_script.specs.inside.Faults.{of_table};
ghost use Rattle.live_script.specs.inside.QuestionWords.{IsQuestionAfter};
ghost use Rattle.base.specs.declared.limits.TheConstants.{SCRIPT_LIMIT, TABLES_LIMIT};

use crate::command::ScriptCommand;
use crate::question_line::take_question;
use crate::script_fault::ScriptFault;
use crate::table_line::take_announced;
use base::limits::{SCRIPT_LIMIT, TABLES_LIMIT};
use command_line::StateNumbers;
use controller_table::{Table, TableFault, read_table};
use row_reading::line_count;
use std::alloc::Global;
use std::marker::Model;

/// What of a script is still to be read. Seen as its bytes, the number of their first line, and how many tables are
/// published before them.
#[derive(Drop)]
pub struct Script<'a> {
    tables: u32,
    line: u64,
    rest: &'a [u8],
}

impl<'a> Model for Script<'a> {
    ghost use Rattle.std.specs.Prelude.{◌^◌, ◌+◌, ◌<◌, ◌≤◌, length};
    ghost use Rattle.base.specs.declared.limits.TheConstants.{TABLES_LIMIT};
    ghost use Rattle.live_script.specs.ScriptReading.{Unread};

    ghost Value = { Unread };

    ghost view = { λ s. record { tables = s.tables; line = s.line; rest = s.rest.now } };

    ghost invariant = { λ s. (s.tables ≤ TABLES_LIMIT) × (s.line + length s.rest.now < 2 ^ 32) };
}

impl<'a> Script<'a> {
    /// The script that the bytes are, from its front.
    pub fn new(bytes: &'a [u8]) -> Result<Script<'a>, ScriptFault>
        ensures short { IfOk result (λ _. IsShortScript bytes.now) }
        ensures whole { IfOk result (λ script. script ≡ record { tables = 0; line = 1; rest = bytes.now }) }
        ensures refused { IfErr result (λ fault. IsScriptRefusedFor bytes.now fault) }
    {
        if bytes.len() > SCRIPT_LIMIT {
            return Err(ScriptFault::ScriptTooLong);
        }
        Ok(Script {
            tables: 0,
            line: 1,
            rest: bytes,
        })
    }

    /// Takes the next command away. None at the script's end, which leaves the script as it is.
    pub fn next_command(&mut self, alloc: Global) -> Result<Option<ScriptCommand>, ScriptFault>
        ensures taken { IfOk result (λ next. IfSome next (λ command. IsTaken self.old command self.new)) }
        ensures ended { IfOk result (λ next. IfNone next ((self.old.rest ≡ []) × (0 < self.old.tables))) }
        ensures stays { IfOk result (λ next. IfNone next (self.new ≡ self.old)) }
        ensures refused { IfErr result (IsUnreadAfter self.old.tables self.old.line self.old.rest) }
        ensures kept { OnErr result (self.new ≡ self.old) }
    {
        if self.rest.is_empty() && self.tables > 0 {
            return Ok(None);
        }
        if let Some((size, after)) = take_announced(self.rest) {
            let (table, text, rest) = take_table(alloc, self.tables, self.line, size, after)?;
            self.tables += 1;
            self.line += 1 + line_count(text);
            self.rest = rest;
            return Ok(Some(ScriptCommand::Publish(table)));
        }
        let Some((question, rest)) = question_after(self.tables, self.rest) else {
            return Err(ScriptFault::Malformed { line: self.line });
        };
        self.line += 1;
        self.rest = rest;
        Ok(Some(ScriptCommand::Ask(question)))
    }
}

/// The question whose line stands at the front after so many tables, and what stands after it.
fn question_after(tables: u32, bytes: &[u8]) -> Option<(StateNumbers, &[u8])>
    ensures { Finds (λ r. (r.0, r.1.now)) (IsQuestionAfter tables bytes.now) result }
{
    if tables == 0 {
        return None;
    }
    take_question(bytes)
}

/// The table whose text of so many bytes stands after the line that announces it, that text, and what stands after it.
fn take_table(
    alloc: Global,
    tables: u32,
    line: u64,
    size: usize,
    bytes: &[u8],
) -> Result<(Table, &[u8], &[u8]), ScriptFault>
    requires tables { tables ≤ TABLES_LIMIT }
    requires line { line < 2 ^ 32 }
    requires size { (1 ≤ size) × (size ≤ SCRIPT_LIMIT) }
    ensures few { IfOk result (λ _. tables < TABLES_LIMIT) }
    ensures table { IfOk result (λ r. IsTableIn r.0.version r.1.now r.0.plant r.0.rows) }
    ensures cut { IfOk result (λ r. (length r.1.now ≡ size) × (bytes.now ≡ r.1.now ++ r.2.now)) }
    ensures refused { IfErr result (IsUnreadAfter tables line (publish_line size ++ bytes.now)) }
{
    if tables >= TABLES_LIMIT {
        return Err(ScriptFault::TooManyTables);
    }
    if bytes.len() < size {
        return Err(ScriptFault::Malformed { line });
    }
    let (text, rest) = bytes.split_at(size);
    match read_table(alloc, text) {
        Ok(table) => Ok((table, text, rest)),
        Err(fault) => Err(after_line(line, fault)),
    }
}

/// The fault of a script in which the table after the line of this number has this fault.
fn after_line(line: u64, fault: TableFault) -> ScriptFault
    requires { line < 2 ^ 32 }
    ensures { result ≡ of_table line fault }
{
    match fault {
        TableFault::Malformed { line: within } => ScriptFault::Malformed {
            line: line + u64::from(within),
        },
        TableFault::Limit { what } => ScriptFault::Limit { what },
        TableFault::Memory => ScriptFault::Memory,
    }
}
