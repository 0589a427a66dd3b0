//! Controllers for C: a text is read once, and then asked at each sample.
//!
//! The layer above is C code (`include/gaffcurrant.h`). No export has a `requires`: to contracts a controller is the text
//! that it holds, or none. Status 1 of `gaffcurrant_control` says that the values are those of the input vector that the
//! text applies at the state.
#![tactic(auto)]

ghost use Rattle.std.specs.Prelude.{◌≡◌, None};
ghost use Rattle.text_control.specs.Calls.{IsOpened, IsReplied, AreReplied, IsVisited, IsBegun, HasSizes, IsRanked, IsFollowed};

mod controller;
mod held;
mod loose;
mod opening;
mod rank;

use crate::opening::{boxed_text, fault_at, fault_status};
use crate::rank::copy_rank;
pub use controller::Controller;
pub use held::Held;
use std::alloc::Global;
use text_control::statuses::{CLOSED, DONE, OPEN, WRONG_SIZE};
use text_control::{begin_turn, control, control_each, follows, visit};

/// The version of the library, 1.21.0: two digits for each number.
pub const VERSION: u32 = 12_100;

/// Reads the table, the stay text or the patrol text that the bytes are. 0: it is open. Else the controller is closed: 1,
/// the line is the first that doesn't fit; 2, a limit is exceeded; 3, there was no memory.
#[unsafe(no_mangle)]
pub extern "C" fn gaffcurrant_open(
    alloc: Global,
    controller: &mut Controller,
    bytes: &[u8],
    line: &mut u32,
) -> i32
    ensures { IsOpened bytes.now controller.new.held.text result line.new }
{
    gaffcurrant_close(alloc, controller);
    match boxed_text(alloc, bytes) {
        Ok(text) => {
            controller.set(Controller::open(text));
            *line = 0;
            OPEN
        }
        Err(fault) => {
            *line = fault_at(fault);
            fault_status(fault)
        }
    }
}

/// Puts what is to be applied at the state into the inputs. 1: apply them. 0: the state has come to the
/// targets. -1: the text promises nothing there. -2: a wrong number of states or inputs. -3: closed.
#[unsafe(no_mangle)]
pub extern "C" fn gaffcurrant_control(
    controller: &mut Controller,
    state: &[i64],
    input: &mut [i64],
) -> i32
    ensures kept { controller.new.held.text ≡ controller.old.held.text }
    ensures reply { IsReplied controller.old.held.text state.now input.old input.new result }
{
    let Some(text) = controller.text_mut() else {
        return CLOSED;
    };
    control(text, state, input).number()
}

/// Puts what is to be applied at each of many states into its inputs, and what `gaffcurrant_control` answers
/// there into the replies. 0: answered. -2: these aren't as many numbers as the replies' states and inputs. -3: closed.
#[unsafe(no_mangle)]
pub extern "C" fn gaffcurrant_control_each(
    controller: &mut Controller,
    states: &[i64],
    inputs: &mut [i64],
    replies: &mut [i32],
) -> i32
    ensures kept { controller.new.held.text ≡ controller.old.held.text }
    ensures told { AreReplied controller.old.held.text states.now inputs.old inputs.new replies.old replies.new result }
{
    let Some(text) = controller.text_mut() else {
        return CLOSED;
    };
    if control_each(text, states, inputs, replies) {
        DONE
    } else {
        WRONG_SIZE
    }
}

/// Begins the next turn of a patrol where the state is an arrival, and tells the turn that is then due. 1: it has begun. 0:
/// the turn is as before. -2: a wrong number of states. -3: closed.
#[unsafe(no_mangle)]
pub extern "C" fn gaffcurrant_visit(
    controller: &mut Controller,
    state: &[i64],
    turn: &mut u32,
) -> i32
    ensures { IsVisited controller.old.held.text state.now controller.new.held.text turn.new result }
{
    let Some(text) = controller.text_mut() else {
        *turn = 0;
        return CLOSED;
    };
    let visit = visit(text, state);
    *turn = text.turn();
    visit.number()
}

/// Makes a turn of a patrol due, as after a restart of the loop. 0: it is due. -2: there is no such turn. -3: closed.
#[unsafe(no_mangle)]
pub extern "C" fn gaffcurrant_begin_turn(controller: &mut Controller, turn: u32) -> i32
    ensures { IsBegun controller.old.held.text turn controller.new.held.text result }
{
    let Some(text) = controller.text_mut() else {
        return CLOSED;
    };
    if begin_turn(text, turn) {
        DONE
    } else {
        WRONG_SIZE
    }
}

/// How many states and input variables the text's plant has. 0: answered. -3: closed.
#[unsafe(no_mangle)]
pub extern "C" fn gaffcurrant_sizes(
    controller: &mut Controller,
    states: &mut u32,
    inputs: &mut u32,
) -> i32
    ensures kept { controller.new.held.text ≡ controller.old.held.text }
    ensures sizes { HasSizes controller.old.held.text states.new inputs.new result }
{
    *states = 0;
    *inputs = 0;
    let Some(text) = controller.text_mut() else {
        return CLOSED;
    };
    *states = text.plant().states();
    *inputs = text.plant().input_variables();
    DONE
}

/// The rank of the state's row, for the turn that is due. 1: it is given. -1: the state has no row. -2: a wrong number
/// of states. -3: closed.
#[unsafe(no_mangle)]
pub extern "C" fn gaffcurrant_rank(
    controller: &mut Controller,
    state: &[i64],
    rank: &mut u32,
) -> i32
    ensures kept { controller.new.held.text ≡ controller.old.held.text }
    ensures rank { IsRanked controller.old.held.text state.now rank.new result }
{
    let Some(text) = controller.text_mut() else {
        *rank = 0;
        return CLOSED;
    };
    copy_rank(text, state, rank)
}

/// Tells whether the next state lies in the successor box of the state's cell, where the inputs are applied. 1: it does. 0: it
/// doesn't, or the box leaves the ranges. -1: the state is outside the ranges, or the inputs are no input vector. -2: a wrong
/// number of states or inputs. -3: closed. -4: a number of the plant leaves the range.
#[unsafe(no_mangle)]
pub extern "C" fn gaffcurrant_follows(
    controller: &mut Controller,
    state: &[i64],
    input: &[i64],
    next: &[i64],
) -> i32
    ensures kept { controller.new.held.text ≡ controller.old.held.text }
    ensures followed { IsFollowed controller.old.held.text state.now input.now next.now result }
{
    let Some(text) = controller.text_mut() else {
        return CLOSED;
    };
    follows(text, state, input, next).number()
}

/// Lets the text go, if any. That this frees its memory is tested: no clause says so.
#[unsafe(no_mangle)]
pub extern "C" fn gaffcurrant_close(alloc: Global, controller: &mut Controller)
    ensures { controller.new.held.text ≡ None }
{
    controller.set(Controller::closed(alloc));
}

/// The version of the library.
#[unsafe(no_mangle)]
pub extern "C" fn gaffcurrant_version() -> u32
    ensures { result ≡ VERSION }
{
    VERSION
}
