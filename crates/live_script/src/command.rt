use command_line::StateNumbers;
use controller_table::Table;

/// What a script asks for.
#[derive(Drop)]
pub enum ScriptCommand {
    /// Bring this table into force.
    Publish(Table),
    /// Answer what the current table chooses.
    Ask(StateNumbers),
}
