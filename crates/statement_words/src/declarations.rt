//! What the words after a line's first word say of a variable, a box or the goal.

ghost use Rattle.std.specs.Prelude.{◌≡◌, ◌↔◌, ◌<◌, ◌%◌, IsTrue, ◌≤ℤ◌};
ghost use Rattle.plant_record.specs.Spelling.{version_word, goal_word};
ghost use Rattle.line_words.specs.Numbers.{IsLiteral};
ghost use Rattle.line_words.specs.Words.{words_of};
ghost use Rattle.line_words.specs.WordReaders.{Finds, FindsInPlace};
ghost use Rattle.statement_words.specs.LineReaders.{HasWholeCells, StartsWithEnds, SpellsVersion, SpellsState, SpellsCells, SpellsInput, SpellsNoise, SpellsValues, SpellsGoal};

use base::limits::VALUES_LIMIT;
use line_words::{
    LineFault, expect_end, expect_number, next_word, only_word, take_name, take_number,
};
use plant_record::{
    GoalKind, InputVariable, Name, NoiseVariable, PlantVersion, StateVariable, Values,
    numbers_along,
};
use std::alloc::Global;

/// `1` or `2`.
pub fn parse_version(bytes: &[u8]) -> Result<PlantVersion, LineFault>
    ensures { FindsInPlace (λ v. v) (SpellsVersion (words_of bytes.now)) result }
{
    parse_version_word(only_word(bytes)?)
}

fn parse_version_word(word: &[u8]) -> Result<PlantVersion, LineFault>
    ensures { FindsInPlace (λ v. v) (λ v. word.now ≡ version_word v) result }
{
    match word {
        b"1" => Ok(PlantVersion::One),
        b"2" => Ok(PlantVersion::Two),
        _ => Err(LineFault::Malformed),
    }
}

/// `NAME LOW HIGH WIDTH`.
pub fn parse_state(alloc: Global, bytes: &[u8]) -> Result<StateVariable, LineFault>
    ensures { Finds (λ s. s) (SpellsState (words_of bytes.now)) result }
{
    let (name, rest) = take_name(bytes)?;
    let (low, high, width) = parse_axis(rest)?;
    let name = Name::new(alloc, name)?;
    Ok(StateVariable {
        name,
        low,
        high,
        width,
    })
}

/// `LOW HIGH WIDTH`.
fn parse_axis(bytes: &[u8]) -> Result<(i128, i128, i128), LineFault>
    ensures { FindsInPlace (λ r. (r.0, r.1, r.2)) (SpellsCells (words_of bytes.now)) result }
{
    let (low, high, rest) = take_ends(bytes)?;
    let (width, rest) = take_number(rest)?;
    expect_end(rest)?;
    if !has_whole_cells(low, high, width) {
        return Err(LineFault::Malformed);
    }
    Ok((low, high, width))
}

fn has_whole_cells(low: i128, high: i128, width: i128) -> bool
    requires low { IsLiteral low }
    requires high { IsLiteral high }
    ensures { IsTrue result ↔ HasWholeCells low high width }
{
    1 <= width && divides(width.unsigned_abs(), numbers_along(low, high))
}

fn divides(k: u128, n: u128) -> bool
    requires { 0 < k }
    ensures { IsTrue result ↔ (n % k ≡ 0) }
{
    n % k == 0
}

/// `NAME VALUE ..`.
pub fn parse_input(alloc: Global, bytes: &[u8]) -> Result<InputVariable, LineFault>
    ensures { Finds (λ i. i) (SpellsInput (words_of bytes.now)) result }
{
    let (name, rest) = take_name(bytes)?;
    let values = parse_values(alloc, rest)?;
    let name = Name::new(alloc, name)?;
    Ok(InputVariable { name, values })
}

/// 1 to 64 numbers.
fn parse_values(alloc: Global, bytes: &[u8]) -> Result<Values, LineFault>
    ensures { Finds (λ v. v) (SpellsValues (words_of bytes.now)) result }
{
    let mut numbers = Vec::new(alloc);
    let mut rest = bytes;
    while let Some((word, after)) = next_word(rest) {
        if numbers.len() == VALUES_LIMIT {
            return Err(LineFault::Malformed);
        }
        numbers.push(expect_number(word)?)?;
        rest = after;
    }
    if numbers.is_empty() {
        return Err(LineFault::Malformed);
    }
    Ok(Values::new(numbers))
}

/// `NAME LOW HIGH`.
pub fn parse_noise(alloc: Global, bytes: &[u8]) -> Result<NoiseVariable, LineFault>
    ensures { Finds (λ w. w) (SpellsNoise (words_of bytes.now)) result }
{
    let (name, rest) = take_name(bytes)?;
    let (low, high, rest) = take_ends(rest)?;
    expect_end(rest)?;
    let name = Name::new(alloc, name)?;
    Ok(NoiseVariable { name, low, high })
}

/// Two numbers in order, and what stands after them.
pub fn take_ends(bytes: &[u8]) -> Result<(i128, i128, &[u8]), LineFault>
    ensures { FindsInPlace (λ r. ((r.0, r.1), words_of r.2.now)) (StartsWithEnds (words_of bytes.now)) result }
{
    let (low, rest) = take_number(bytes)?;
    let (high, rest) = take_number(rest)?;
    if !is_ordered(low, high) {
        return Err(LineFault::Malformed);
    }
    Ok((low, high, rest))
}

fn is_ordered(least: i128, greatest: i128) -> bool
    ensures { IsTrue result ↔ (least ≤ℤ greatest) }
{
    least <= greatest
}

/// `reach` or `keep`.
pub fn parse_goal(bytes: &[u8]) -> Result<GoalKind, LineFault>
    ensures { FindsInPlace (λ kind. kind) (SpellsGoal (words_of bytes.now)) result }
{
    parse_goal_word(only_word(bytes)?)
}

fn parse_goal_word(word: &[u8]) -> Result<GoalKind, LineFault>
    ensures { FindsInPlace (λ kind. kind) (λ kind. word.now ≡ goal_word kind) result }
{
    match word {
        b"reach" => Ok(GoalKind::Reach),
        b"keep" => Ok(GoalKind::Keep),
        _ => Err(LineFault::Malformed),
    }
}
