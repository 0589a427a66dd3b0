//! The inputs at many states.

ghost use Rattle.std.specs.Prelude.{◌≡◌, ◌↔◌, ◌*◌, length, IsTrue};
ghost use Rattle.text_control.specs.Each.{AreSizedEach, AreReplies, IsReplyEach};

use crate::at_state::control;
use crate::packed_text::PackedText;

/// Puts what is to be applied at each state into its inputs, and the number of the reply there into the replies. The
/// states' numbers stand one state after another, and so do the inputs. False where these aren't as many numbers as
/// the replies' states and inputs have.
pub fn control_each(
    text: &PackedText,
    states: &[i64],
    inputs: &mut [i64],
    replies: &mut [i32],
) -> bool
    ensures { IsReplyEach text.now states.now inputs.old inputs.new replies.old replies.new result }
{
    if !are_sized_each(text, states, inputs, replies.len()) {
        return false;
    }
    reply_each(text, states, inputs, replies);
    true
}

fn are_sized_each(text: &PackedText, states: &[i64], inputs: &[i64], count: usize) -> bool
    ensures { IsTrue result ↔ AreSizedEach text.now count states.now inputs.now }
{
    let plant = text.plant();
    is_product(states.len(), count, plant.states())
        && is_product(inputs.len(), count, plant.input_variables())
}

/// Whether a length is that of so many pieces of this size.
fn is_product(length: usize, count: usize, size: u32) -> bool
    ensures { IsTrue result ↔ (length ≡ count * size) }
{
    match count.checked_mul(size as usize) {
        Some(all) => length == all,
        None => false,
    }
}

fn reply_each(text: &PackedText, states: &[i64], inputs: &mut [i64], replies: &mut [i32])
    requires { AreSizedEach text.now (length replies.old) states.now inputs.old }
    ensures long { length replies.new ≡ length replies.old }
    ensures each { AreReplies text.now states.now inputs.old inputs.new replies.new }
{
    let states_each = text.plant().states() as usize;
    let inputs_each = text.plant().input_variables() as usize;
    for k in 0..replies.len() {
        let state = &states[k * states_each..(k + 1) * states_each];
        let input = &mut inputs[k * inputs_each..(k + 1) * inputs_each];
        replies[k] = control(text, state, input).number();
    }
}
