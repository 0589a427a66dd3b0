ghost use Rattle.row_reading.specs.Found.{Finds};
ghost use Rattle.live_script.specs.inside.QuestionWords.{IsQuestionAt, IsSpacedNumberAt};

use crate::ask_numbers::take_number;
use base::limits::STATES_LIMIT;
use command_line::StateNumbers;
use row_reading::after_prefix;

/// The most numbers of a question: those of the states of a plant.
const NUMBERS_LIMIT: u32 = STATES_LIMIT as u32;

/// The question whose line stands at the front, and what stands after it.
pub(crate) fn take_question(bytes: &[u8]) -> Option<(StateNumbers, &[u8])>
    ensures { Finds (λ r. (r.0, r.1.now)) (IsQuestionAt bytes.now) result }
{
    let mut rest = after_prefix(bytes, b"ask")?;
    let mut question = StateNumbers::empty();
    while question.count() < NUMBERS_LIMIT {
        let (number, after) = take_spaced_number(rest)?;
        question.push(i128::from(number));
        if let Some(next) = after_prefix(after, b"\n") {
            return Some((question, next));
        }
        rest = after;
    }
    None
}

/// The number after a space at the front, and the bytes from the separator after it on.
fn take_spaced_number(bytes: &[u8]) -> Option<(i64, &[u8])>
    ensures { Finds (λ r. (r.0, r.1.now)) (IsSpacedNumberAt bytes.now) result }
{
    let word = after_prefix(bytes, b" ")?;
    take_number(word)
}
