//! What one line of a plant text states.

ghost use Rattle.std.specs.Prelude.{◌≡◌, ◌≢◌, ◌≤◌, ◌∷◌, length, codes, IfOk, Err, AllPairs};
ghost use Rattle.std.specs.List.{All};
ghost use Rattle.line_words.specs.Names.{IsName};
ghost use Rattle.line_words.specs.WordReaders.{Finds, FindsInPlace};
ghost use Rattle.plant_record.specs.Parts.{variable_names};
ghost use Rattle.plant_reading.specs.StatementsRead.{statement_of, StatesOver};
ghost use Rattle.plant_reading.specs.inside.Keywords.{keyword_text};
ghost use Rattle.line_words.specs.declared.line_fault.LineFault.TheVariants.{Malformed};
ghost use Rattle.plant_reading.specs.Statements.{Statement as Stated};
ghost use Rattle.line_words.specs.Words.{words_of};
ghost use Rattle.base.specs.declared.limits.TheConstants.{STATES_LIMIT, VARIABLES_LIMIT};

use crate::equations::parse_equation;
use fixed_expr::Expr;
use line_words::{LineFault, expect_end, expect_word, next_word};
use plant_record::{
    GoalKind, InputVariable, NoiseVariable, PlantVersion, StateBox, StateVariable, Variables,
};
use statement_words::{
    parse_box, parse_goal, parse_input, parse_noise, parse_state, parse_version,
};
use std::alloc::Global;

/// What a line states.
#[derive(Drop)]
pub enum Statement<'a> {
    Version(PlantVersion),
    State(StateVariable),
    Input(InputVariable),
    Noise(NoiseVariable),
    /// The equation of a state, which is named as the line names it.
    Next { state: &'a [u8], equation: Expr },
    Target(StateBox),
    Obstacle(StateBox),
    Goal(GoalKind),
    End,
}

/// The word that a statement begins with.
#[derive(Clone, Copy)]
pub enum Keyword {
    Plant,
    State,
    Input,
    Noise,
    Next,
    Target,
    Obstacle,
    Goal,
    End,
}

const KEYWORDS: [Keyword; 9] = [
    Keyword::Plant,
    Keyword::State,
    Keyword::Input,
    Keyword::Noise,
    Keyword::Next,
    Keyword::Target,
    Keyword::Obstacle,
    Keyword::Goal,
    Keyword::End,
];

/// The word itself.
fn text_of(keyword: Keyword) -> &'static [u8]
    ensures { result.now ≡ keyword_text keyword }
{
    match keyword {
        Keyword::Plant => b"plant",
        Keyword::State => b"state",
        Keyword::Input => b"input",
        Keyword::Noise => b"noise",
        Keyword::Next => b"next",
        Keyword::Target => b"target",
        Keyword::Obstacle => b"obstacle",
        Keyword::Goal => b"goal",
        Keyword::End => b"end",
    }
}

fn parse_keyword(word: &[u8]) -> Result<Keyword, LineFault>
    ensures { FindsInPlace (λ k. k) (λ k. word.now ≡ keyword_text k) result }
{
    for keyword in KEYWORDS {
        if word == text_of(keyword) {
            return Ok(keyword);
        }
    }
    Err(LineFault::Malformed)
}

/// The statement of a line.
pub fn parse_statement<'a>(
    alloc: Global,
    variables: &Variables,
    line: &'a [u8],
) -> Result<Statement<'a>, LineFault>
    requires few { length (variable_names variables.now) ≤ VARIABLES_LIMIT }
    requires differ { AllPairs (λ a b. a ≢ b) (variable_names variables.now) }
    requires named { All IsName (variable_names variables.now) }
    requires states { length variables.now.states.items ≤ STATES_LIMIT }
    ensures found { IfOk result (λ s. StatesOver variables.now (words_of line.now) (statement_of s)) }
    ensures refused { result ≡ Err Malformed → (s : Stated) → StatesOver variables.now (words_of line.now) s → ⊥ }
{
    let Some((word, rest)) = next_word(line) else {
        return Err(LineFault::Malformed);
    };
    let keyword = parse_keyword(word)?;
    statement_after(alloc, variables, keyword, rest)
}

/// The statement of a line that begins with a keyword, from the bytes after that.
fn statement_after<'a>(
    alloc: Global,
    variables: &Variables,
    keyword: Keyword,
    bytes: &'a [u8],
) -> Result<Statement<'a>, LineFault>
    requires few { length (variable_names variables.now) ≤ VARIABLES_LIMIT }
    requires differ { AllPairs (λ a b. a ≢ b) (variable_names variables.now) }
    requires named { All IsName (variable_names variables.now) }
    requires states { length variables.now.states.items ≤ STATES_LIMIT }
    ensures { Finds statement_of (StatesOver variables.now (keyword_text keyword ∷ words_of bytes.now)) result }
{
    match keyword {
        Keyword::Plant => Ok(Statement::Version(parse_version(bytes)?)),
        Keyword::State => Ok(Statement::State(parse_state(alloc, bytes)?)),
        Keyword::Input => Ok(Statement::Input(parse_input(alloc, bytes)?)),
        Keyword::Noise => Ok(Statement::Noise(parse_noise(alloc, bytes)?)),
        Keyword::Next => equation_after(alloc, variables, bytes),
        Keyword::Target => Ok(Statement::Target(parse_box(bytes, variables.states.len())?)),
        Keyword::Obstacle => Ok(Statement::Obstacle(parse_box(bytes, variables.states.len())?)),
        Keyword::Goal => Ok(Statement::Goal(parse_goal(bytes)?)),
        Keyword::End => {
            expect_end(bytes)?;
            Ok(Statement::End)
        }
    }
}

/// `NAME = EXPRESSION`.
fn equation_after<'a>(
    alloc: Global,
    variables: &Variables,
    bytes: &'a [u8],
) -> Result<Statement<'a>, LineFault>
    requires few { length (variable_names variables.now) ≤ VARIABLES_LIMIT }
    requires differ { AllPairs (λ a b. a ≢ b) (variable_names variables.now) }
    requires named { All IsName (variable_names variables.now) }
    ensures { Finds statement_of (StatesOver variables.now (codes "next" ∷ words_of bytes.now)) result }
{
    let Some((state, rest)) = next_word(bytes) else {
        return Err(LineFault::Malformed);
    };
    let rest = expect_word(rest, b"=")?;
    let equation = parse_equation(alloc, variables, rest)?;
    Ok(Statement::Next { state, equation })
}
