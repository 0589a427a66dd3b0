//! The canonical text of a plant.

ghost use Rattle.std.specs.Prelude.{◌≡◌, ◌≤◌, ◌++◌, [], ◌∷◌, length, map, codes, IfOk, OnOk, OnErr};
ghost use Rattle.std.specs.List.{All, flat_map};
ghost use Rattle.std.specs.Fmt.{signed_decimal};
ghost use Rattle.fixed_expr.specs.Expression.{expression_of};
ghost use Rattle.fixed_expr.specs.Value.{IsWellFormed};
ghost use Rattle.plant_writing.specs.CanonicalText.{text_of, state_line, input_line, noise_line, equation_line, equation_lines, box_line};
ghost use Rattle.plant_record.specs.Spelling.{version_word, goal_word};
ghost use Rattle.base.specs.Lines.{line};
ghost use Rattle.base.specs.declared.limits.TheConstants.{STATES_LIMIT};

use crate::expression_writer::{Level, push_expression, push_number};
use fixed_expr::Expr;
use plant_record::{
    GoalKind, InputVariable, Names, NoMemory, NoiseVariable, Plant, PlantVersion, StateBox,
    StateVariable,
};
use std::alloc::{AllocError, Global};

/// Appends the canonical text of a plant.
pub fn write_plant(alloc: Global, p: &Plant, to: &mut Vec<u8>) -> Result<(), NoMemory>
    ensures written { OnOk result (to.new.items ≡ to.old.items ++ text_of p.now) }
    ensures unchanged { OnErr result (to.new.items ≡ to.old.items) }
{
    let text = text_of(alloc, p)?;
    to.extend_from_slice(&text)?;
    Ok(())
}

fn text_of(alloc: Global, p: &Plant) -> Result<Vec<u8>, AllocError>
    ensures { IfOk result (λ text. text.items ≡ text_of p.now) }
{
    let parts = p.parts();
    let variables = &parts.variables;
    let states = variables.states.as_slice();
    let mut text = Vec::from_slice(alloc, version_line(parts.version))?;
    push_states(&mut text, states)?;
    push_inputs(&mut text, &variables.inputs)?;
    push_noises(&mut text, &variables.noises)?;
    push_equations(&mut text, &variables.names(), states, &parts.equations)?;
    push_boxes(&mut text, b"target", states.len(), &parts.targets)?;
    push_boxes(&mut text, b"obstacle", states.len(), &parts.obstacles)?;
    text.extend_from_slice(goal_line(parts.goal))?;
    text.extend_from_slice(b"end\n")?;
    Ok(text)
}

/// The first line of a plant's canonical text.
pub fn version_line(version: PlantVersion) -> &'static [u8]
    ensures { result.now ≡ line (codes "plant" ∷ version_word version ∷ []) }
{
    match version {
        PlantVersion::One => b"plant 1\n",
        PlantVersion::Two => b"plant 2\n",
    }
}

/// The line of a plant's goal.
pub fn goal_line(goal: GoalKind) -> &'static [u8]
    ensures { result.now ≡ line (codes "goal" ∷ goal_word goal ∷ []) }
{
    match goal {
        GoalKind::Reach => b"goal reach\n",
        GoalKind::Keep => b"goal keep\n",
    }
}

fn push_states(text: &mut Vec<u8>, states: &[StateVariable]) -> Result<(), AllocError>
    ensures { OnOk result (text.new.items ≡ text.old.items ++ flat_map state_line states.now) }
{
    for state in states {
        push_state(text, state)?;
    }
    Ok(())
}

/// Appends the line of one state. After an Err the text may hold a part of it.
pub fn push_state(text: &mut Vec<u8>, state: &StateVariable) -> Result<(), AllocError>
    ensures { OnOk result (text.new.items ≡ text.old.items ++ state_line state.now) }
{
    text.extend_from_slice(b"state ")?;
    text.extend_from_slice(state.name.as_bytes())?;
    push_spaced(text, state.low)?;
    push_spaced(text, state.high)?;
    push_spaced(text, state.width)?;
    text.extend_from_slice(b"\n")
}

fn push_inputs(text: &mut Vec<u8>, inputs: &[InputVariable]) -> Result<(), AllocError>
    ensures { OnOk result (text.new.items ≡ text.old.items ++ flat_map input_line inputs.now) }
{
    for input in inputs {
        push_input(text, input)?;
    }
    Ok(())
}

/// Appends the line of one input variable. After an Err the text may hold a part of it.
pub fn push_input(text: &mut Vec<u8>, input: &InputVariable) -> Result<(), AllocError>
    ensures { OnOk result (text.new.items ≡ text.old.items ++ input_line input.now) }
{
    text.extend_from_slice(b"input ")?;
    text.extend_from_slice(input.name.as_bytes())?;
    push_values(text, input.values.as_slice())?;
    text.extend_from_slice(b"\n")
}

fn push_values(text: &mut Vec<u8>, values: &[i128]) -> Result<(), AllocError>
    ensures { OnOk result (text.new.items ≡ text.old.items ++ flat_map (λ z. 32 ∷ signed_decimal z) values.now) }
{
    for value in values {
        push_spaced(text, *value)?;
    }
    Ok(())
}

fn push_noises(text: &mut Vec<u8>, noises: &[NoiseVariable]) -> Result<(), AllocError>
    ensures { OnOk result (text.new.items ≡ text.old.items ++ flat_map noise_line noises.now) }
{
    for noise in noises {
        push_noise(text, noise)?;
    }
    Ok(())
}

/// Appends the line of one noise. After an Err the text may hold a part of it.
pub fn push_noise(text: &mut Vec<u8>, noise: &NoiseVariable) -> Result<(), AllocError>
    ensures { OnOk result (text.new.items ≡ text.old.items ++ noise_line noise.now) }
{
    text.extend_from_slice(b"noise ")?;
    text.extend_from_slice(noise.name.as_bytes())?;
    push_spaced(text, noise.low)?;
    push_spaced(text, noise.high)?;
    text.extend_from_slice(b"\n")
}

fn push_equations(
    text: &mut Vec<u8>,
    names: &Names<'_>,
    states: &[StateVariable],
    equations: &[Expr],
) -> Result<(), AllocError>
    requires one_each { length equations.now ≡ length states.now }
    requires formed { All (λ e. IsWellFormed (expression_of e) (length names.now)) equations.now }
    ensures { OnOk result (text.new.items ≡ text.old.items ++ equation_lines names.now states.now (map expression_of equations.now)) }
{
    for (i, equation) in equations.iter().enumerate() {
        push_equation(text, names, states[i].name.as_bytes(), equation)?;
    }
    Ok(())
}

/// Appends the line of one state's equation. After an Err the text may hold a part of it.
pub fn push_equation(
    text: &mut Vec<u8>,
    names: &Names<'_>,
    state: &[u8],
    equation: &Expr,
) -> Result<(), AllocError>
    requires { IsWellFormed (expression_of equation.now) (length names.now) }
    ensures { OnOk result (text.new.items ≡ text.old.items ++ equation_line names.now state.now (expression_of equation.now)) }
{
    text.extend_from_slice(b"next ")?;
    text.extend_from_slice(state)?;
    text.extend_from_slice(b" = ")?;
    push_expression(text, names, Level::Sum, equation)?;
    text.extend_from_slice(b"\n")
}

fn push_boxes(
    text: &mut Vec<u8>,
    keyword: &[u8],
    states: usize,
    boxes: &[StateBox],
) -> Result<(), AllocError>
    requires { states ≤ STATES_LIMIT }
    ensures { OnOk result (text.new.items ≡ text.old.items ++ flat_map (box_line keyword.now states) boxes.now) }
{
    for b in boxes {
        push_box(text, keyword, states, b)?;
    }
    Ok(())
}

/// Appends the line of one target or obstacle, by its keyword. After an Err the text may hold a part of it.
pub fn push_box(
    text: &mut Vec<u8>,
    keyword: &[u8],
    states: usize,
    b: &StateBox,
) -> Result<(), AllocError>
    requires { states ≤ STATES_LIMIT }
    ensures { OnOk result (text.new.items ≡ text.old.items ++ box_line keyword.now states b.now) }
{
    text.extend_from_slice(keyword)?;
    for i in 0..states {
        push_spaced(text, b.low[i])?;
        push_spaced(text, b.high[i])?;
    }
    text.extend_from_slice(b"\n")
}

/// A space and a number.
fn push_spaced(text: &mut Vec<u8>, number: i128) -> Result<(), AllocError>
    ensures { OnOk result (text.new.items ≡ text.old.items ++ 32 ∷ signed_decimal number) }
{
    text.extend_from_slice(b" ")?;
    push_number(text, number)
}
