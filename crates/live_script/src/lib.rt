//! Live scripts: texts that publish tables and ask questions of them.
//!
//! The layer above gives a script's bytes and takes its commands one after the other, each a table or the numbers of a
//! state. Or it gets the first reason, from the front, for which the script is refused. The answers that a script gets
//! are defined in specs/.
#![tactic(auto)]

mod ask_numbers;
mod command;
mod cuts;
pub mod laws;
mod question_line;
mod script;
mod script_fault;
mod table_line;

pub use command::ScriptCommand;
pub use script::Script;
pub use script_fault::ScriptFault;
