//! The canonical line of a statement.

ghost use Rattle.std.specs.Prelude.{◌≡◌, ◌↔◌, ◌≤◌, ◌++◌, length, codes, IfOk, IsTrue, OnOk};
ghost use Rattle.plant_record.specs.Parts.{variable_names};
ghost use Rattle.plant_reading.specs.StatementsRead.{statement_of};
ghost use Rattle.plant_text.specs.inside.FormedEquations.{HasFormedEquation};
ghost use Rattle.base.specs.declared.limits.TheConstants.{STATES_LIMIT};
ghost use Rattle.plant_text.specs.inside.CanonicalNext.{canonical_line};

use plant_reading::Statement;
use plant_record::Variables;
use plant_writing::{
    goal_line, push_box, push_equation, push_input, push_noise, push_state, version_line,
};
use std::alloc::AllocError;

/// Whether a line is the canonical one of its statement. It is written into `scratch`, whose
/// contents go.
pub fn is_canonical(
    variables: &Variables,
    statement: &Statement<'_>,
    line: &[u8],
    scratch: &mut Vec<u8>,
) -> Result<bool, AllocError>
    requires states { length variables.now.states.items ≤ STATES_LIMIT }
    requires formed { HasFormedEquation (length (variable_names variables.now)) (statement_of statement.now) }
    ensures { IfOk result (λ b. IsTrue b ↔ (line.now ++ codes "\n" ≡ canonical_line variables.now statement.now)) }
{
    scratch.clear();
    push_statement(scratch, variables, statement)?;
    Ok(is_line(scratch, line))
}

/// Whether a text is a line with its line feed.
fn is_line(text: &[u8], line: &[u8]) -> bool
    ensures { IsTrue result ↔ (line.now ++ codes "\n" ≡ text.now) }
{
    match text.split_last() {
        Some((last, front)) => *last == b'\n' && front == line,
        None => false,
    }
}

/// Appends the line of a statement over the variables that are known before it.
fn push_statement(
    text: &mut Vec<u8>,
    variables: &Variables,
    statement: &Statement<'_>,
) -> Result<(), AllocError>
    requires states { length variables.now.states.items ≤ STATES_LIMIT }
    requires formed { HasFormedEquation (length (variable_names variables.now)) (statement_of statement.now) }
    ensures { OnOk result (text.new.items ≡ text.old.items ++ canonical_line variables.now statement.now) }
{
    let states = variables.states.len();
    match statement {
        Statement::Version(version) => text.extend_from_slice(version_line(*version)),
        Statement::State(state) => push_state(text, state),
        Statement::Input(input) => push_input(text, input),
        Statement::Noise(noise) => push_noise(text, noise),
        Statement::Next { state, equation } => push_equation(
            text,
            &variables.names(),
            state,
            equation,
        ),
        Statement::Target(b) => push_box(text, b"target", states, b),
        Statement::Obstacle(b) => push_box(text, b"obstacle", states, b),
        Statement::Goal(goal) => text.extend_from_slice(goal_line(*goal)),
        Statement::End => text.extend_from_slice(b"end\n"),
    }
}
