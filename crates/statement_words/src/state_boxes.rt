//! The boxes of targets and obstacles, as a line spells them.

ghost use Rattle.std.specs.Prelude.{◌≤◌};
ghost use Rattle.line_words.specs.Words.{words_of};
ghost use Rattle.line_words.specs.WordReaders.{FindsInPlace};
ghost use Rattle.statement_words.specs.LineReaders.{SpellsBox};
ghost use Rattle.base.specs.declared.limits.TheConstants.{STATES_LIMIT};

use crate::declarations::take_ends;
use base::limits::STATES_LIMIT;
use line_words::{LineFault, expect_end};
use plant_record::StateBox;

/// `LOW HIGH` for each state in turn. The positions past the states are 0.
pub fn parse_box(bytes: &[u8], states: usize) -> Result<StateBox, LineFault>
    requires { states ≤ STATES_LIMIT }
    ensures { FindsInPlace (λ b. b) (SpellsBox states (words_of bytes.now)) result }
{
    let mut low = [0; STATES_LIMIT];
    let mut high = [0; STATES_LIMIT];
    let mut rest = bytes;
    for i in 0..states {
        let (least, greatest, after) = take_ends(rest)?;
        low[i] = least;
        high[i] = greatest;
        rest = after;
    }
    expect_end(rest)?;
    Ok(StateBox { low, high })
}
