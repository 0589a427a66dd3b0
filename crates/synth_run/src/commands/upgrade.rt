//! From the bytes of a table's text to the table that is to be written anew.

ghost use Rattle.std.specs.Prelude.{IfOk, IfErr};
ghost use Rattle.command_line.specs.declared.command.Command.{Command};
ghost use Rattle.command_outcomes.specs.Stages.{IsStagedRefusal};
ghost use Rattle.text_abstraction.specs.Causes.{IsStopFor};
ghost use Rattle.synth_run.specs.inside.Making.{IsMade};

use crate::work::Work;
use command_texts::Text;
use controller_table::read_table;
use std::alloc::Global;
use successor_box::find_slopes;
use text_abstraction::Stop;

/// The table that the bytes are, of a plant whose numbers stay in the range.
pub fn upgrade(alloc: Global, bytes: &[u8]) -> Result<Work, Stop>
    ensures made { IfOk result (IsMade Command.Upgrade bytes.now) }
    ensures refused { IfErr result (IsStopFor (IsStagedRefusal Command.Upgrade bytes.now)) }
{
    let table = read_table(alloc, bytes)?;
    find_slopes(alloc, table.plant())?;
    let text = table.into_text(alloc)?;
    Ok(Work::of_text(Text::Rows(text)))
}
