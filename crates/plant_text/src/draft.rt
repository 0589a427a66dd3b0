ghost use Rattle.std.specs.Prelude.{◌≡◌, ◌≢◌, ◌↔◌, [], length, None, Some, Err, IsTrue, IfOk, IfErr, OnOk, true, false};
ghost use Rattle.line_words.specs.declared.line_fault.LineFault.TheVariants.{Malformed};
ghost use Rattle.fixed_expr.specs.Expression.{expression_of};
ghost use Rattle.plant_record.specs.declared.aims.GoalKind.TheVariants.{Keep};
ghost use Rattle.plant_record.specs.declared.version.PlantVersion.TheVariants.{One};
ghost use Rattle.plant_record.specs.Equations.{HasNoLut};
ghost use Rattle.plant_reading.specs.Statements.{State, Input, Noise, Next, Target, Obstacle, Goal};
ghost use Rattle.plant_text.specs.Grammar.{PartialPlant, nothing_yet, names_in, HasEquations, IsNewIn, FitsAfter, with_statement, Extends, IsWhole};
ghost use Rattle.plant_record.specs.Description.{Description};
ghost use Rattle.plant_record.specs.Limits.{IsWithinLimits, Exceeds};
ghost use Rattle.plant_text.specs.inside.PartialPlantRules.{KeepsRules};
ghost use Rattle.plant_reading.specs.StatementsRead.{statement_of};
ghost use Rattle.plant_text.specs.inside.DraftsInMemory.{partial_of, TakesState, TakesInput, TakesNoise};
ghost use Rattle.plant_text.specs.CanonicalFronts.{IsInOrder, ExtendsCanonically};
ghost use Rattle.plant_text.specs.inside.FormedEquations.{HasFormedEquation};
ghost use Rattle.plant_text.specs.inside.CanonicalNext.{IsCanonicalNext, FitsInOrder, IsNextState};

use crate::statement_writer::is_canonical;
use crate::version_rules::has_no_lut;
use base::limits::{BOXES_LIMIT, INPUTS_LIMIT, NOISES_LIMIT, STATES_LIMIT};
use fixed_expr::Expr;
use plant_reading::{LineFault, Statement, is_skipped, parse_statement};
use plant_record::{
    GoalKind, LimitKind, Name, Plant, PlantParts, PlantVersion, StateBox, Variables,
};
use std::alloc::Global;

/// The part of a plant that the lines so far spell.
#[derive(Drop)]
pub struct Draft {
    version: Option<PlantVersion>,
    variables: Variables,
    equations: Vec<Expr>,
    targets: Vec<StateBox>,
    obstacles: Vec<StateBox>,
    goal: Option<GoalKind>,
    ended: bool,
}

impl Draft {
    pub fn new(alloc: Global) -> Draft
        ensures { partial_of result ≡ nothing_yet }
    {
        Draft {
            version: None,
            variables: Variables {
                states: Vec::new(alloc),
                inputs: Vec::new(alloc),
                noises: Vec::new(alloc),
            },
            equations: Vec::new(alloc),
            targets: Vec::new(alloc),
            obstacles: Vec::new(alloc),
            goal: None,
            ended: false,
        }
    }

    /// Skips a line, or takes in what it states.
    pub fn read_line(&mut self, alloc: Global, line: &[u8]) -> Result<(), LineFault>
        requires { KeepsRules (partial_of self.old) }
        ensures read { OnOk result (Extends (partial_of self.old) line.now (partial_of self.new)) }
        ensures rules { OnOk result (KeepsRules (partial_of self.new)) }
        ensures refused { result ≡ Err Malformed → (r : PartialPlant) → Extends (partial_of self.old) line.now r → ⊥ }
    {
        if is_skipped(line) {
            return Ok(());
        }
        let statement = parse_statement(alloc, &self.variables, line)?;
        if !self.fits(&statement) {
            return Err(LineFault::Malformed);
        }
        self.add(statement)
    }

    /// Takes in what a line states, where it does so in its canonical spelling and in the canonical
    /// order. The spelling is written into `scratch`, whose contents go.
    pub fn read_canonical_line(
        &mut self,
        alloc: Global,
        line: &[u8],
        scratch: &mut Vec<u8>,
    ) -> Result<(), LineFault>
        requires { KeepsRules (partial_of self.old) }
        ensures read { OnOk result (ExtendsCanonically (partial_of self.old) line.now (partial_of self.new)) }
        ensures rules { OnOk result (KeepsRules (partial_of self.new)) }
        ensures refused { result ≡ Err Malformed → (r : PartialPlant) → ExtendsCanonically (partial_of self.old) line.now r → ⊥ }
    {
        let statement = parse_statement(alloc, &self.variables, line)?;
        self.check_canonical(&statement, line, scratch)?;
        self.add(statement)
    }

    /// Whether the last line stands.
    pub fn has_ended(&self) -> bool
        ensures { result ≡ self.now.ended }
    {
        self.ended
    }

    /// The plant that the lines spell, or the first limit that it exceeds.
    pub fn finish(self) -> Result<Plant, LimitKind>
        requires rules { KeepsRules (partial_of self) }
        requires closed { self.ended ≡ true }
        ensures whole { IfOk result (λ p. IsWhole (partial_of self) p) }
        ensures limits { IfOk result (λ p. IsWithinLimits p) }
        ensures exceeded { IfErr result (λ what. (p : Description) × IsWhole (partial_of self) p × Exceeds p what) }
    {
        let Draft {
            version,
            variables,
            equations,
            targets,
            obstacles,
            goal,
            ended: _,
        } = self;
        let Some(version) = version else {
            unreachable!();
        };
        let Some(goal) = goal else {
            unreachable!();
        };
        Plant::new(PlantParts {
            version,
            variables,
            equations,
            targets,
            obstacles,
            goal,
        })
    }

    /// Whether a statement may stand after the lines so far.
    fn fits(&self, statement: &Statement) -> bool
        requires { KeepsRules (partial_of self.now) }
        ensures { IsTrue result ↔ FitsAfter (partial_of self.now) (statement_of statement.now) }
    {
        match statement {
            Statement::Version(_) => self.version.is_none(),
            Statement::State(s) => self.takes_state() && self.is_new(&s.name),
            Statement::Input(i) => self.takes_input() && self.is_new(&i.name),
            Statement::Noise(w) => self.takes_noise() && self.is_new(&w.name),
            Statement::Next { state, equation } => self.is_next(state) && self.takes(equation),
            Statement::Target(_) => self.takes_boxes() && self.targets.len() < BOXES_LIMIT,
            Statement::Obstacle(_) => self.takes_boxes() && self.obstacles.len() < BOXES_LIMIT,
            Statement::Goal(kind) => self.takes_boxes() && self.takes_goal(*kind),
            Statement::End => self.goal.is_some() && !self.ended,
        }
    }

    /// Whether a statement may stand after the lines so far, and in the canonical order.
    fn fits_in_order(&self, statement: &Statement) -> bool
        requires { KeepsRules (partial_of self.now) }
        ensures { IsTrue result ↔ FitsInOrder (partial_of self.now) (statement_of statement.now) }
    {
        self.fits(statement) && self.is_in_order(statement)
    }

    /// Refuses a statement that may not stand after the lines so far or in the canonical order, or whose
    /// canonical line is another one.
    fn check_canonical(
        &self,
        statement: &Statement<'_>,
        line: &[u8],
        scratch: &mut Vec<u8>,
    ) -> Result<(), LineFault>
        requires rules { KeepsRules (partial_of self.now) }
        requires formed { HasFormedEquation (length (names_in (partial_of self.now))) (statement_of statement.now) }
        ensures taken { OnOk result (IsCanonicalNext (partial_of self.now) line.now (statement_of statement.now)) }
        ensures refused { result ≡ Err Malformed → IsCanonicalNext (partial_of self.now) line.now (statement_of statement.now) → ⊥ }
    {
        if !self.fits_in_order(statement) {
            return Err(LineFault::Malformed);
        }
        if !is_canonical(&self.variables, statement, line, scratch)? {
            return Err(LineFault::Malformed);
        }
        Ok(())
    }

    /// Whether no obstacle stands before a target.
    fn is_in_order(&self, statement: &Statement) -> bool
        ensures { IsTrue result ↔ IsInOrder (partial_of self.now) (statement_of statement.now) }
    {
        match statement {
            Statement::Target(_) => self.obstacles.is_empty(),
            _ => true,
        }
    }

    fn takes_state(&self) -> bool
        ensures { IsTrue result ↔ TakesState self.now }
    {
        self.version.is_some()
            && self.variables.inputs.is_empty()
            && self.variables.noises.is_empty()
            && self.equations.is_empty()
            && self.variables.states.len() < STATES_LIMIT
    }

    fn takes_input(&self) -> bool
        ensures { IsTrue result ↔ TakesInput self.now }
    {
        !self.variables.states.is_empty()
            && self.variables.noises.is_empty()
            && self.equations.is_empty()
            && self.variables.inputs.len() < INPUTS_LIMIT
    }

    fn takes_noise(&self) -> bool
        ensures { IsTrue result ↔ TakesNoise self.now }
    {
        !self.variables.states.is_empty()
            && self.equations.is_empty()
            && self.variables.noises.len() < NOISES_LIMIT
    }

    fn is_new(&self, name: &Name) -> bool
        requires { KeepsRules (partial_of self.now) }
        ensures { IsTrue result ↔ IsNewIn (partial_of self.now) name.now }
    {
        self.variables.position_of(name.as_bytes()).is_none()
    }

    /// Whether the next equation is that of this state.
    fn is_next(&self, state: &[u8]) -> bool
        ensures { IsTrue result ↔ IsNextState (partial_of self.now) state.now }
    {
        match self.variables.states.get(self.equations.len()) {
            Some(next) => next.name.as_bytes() == state,
            None => false,
        }
    }

    /// Whether the version has what stands in an equation.
    fn takes(&self, equation: &Expr) -> bool
        ensures { IsTrue result ↔ ((partial_of self.now).version ≡ Some One → HasNoLut (expression_of equation.now)) }
    {
        self.version != Some(PlantVersion::One) || has_no_lut(equation)
    }

    /// Whether all equations stand, and no goal yet.
    fn takes_boxes(&self) -> bool
        ensures { IsTrue result ↔ (HasEquations (partial_of self.now) × ((partial_of self.now).goal ≡ None)) }
    {
        !self.variables.states.is_empty()
            && self.equations.len() == self.variables.states.len()
            && self.goal.is_none()
    }

    fn takes_goal(&self, kind: GoalKind) -> bool
        ensures { IsTrue result ↔ (kind ≡ Keep → (partial_of self.now).targets ≡ []) }
    {
        kind == GoalKind::Reach || self.targets.is_empty()
    }

    fn add(&mut self, statement: Statement) -> Result<(), LineFault>
        ensures added { OnOk result (partial_of self.new ≡ with_statement (partial_of self.old) (statement_of statement.entry)) }
        ensures memory { result ≢ Err Malformed }
    {
        match statement {
            Statement::Version(version) => self.version = Some(version),
            Statement::State(s) => self.variables.states.push(s)?,
            Statement::Input(i) => self.variables.inputs.push(i)?,
            Statement::Noise(w) => self.variables.noises.push(w)?,
            Statement::Next { state: _, equation } => self.equations.push(equation)?,
            Statement::Target(b) => self.targets.push(b)?,
            Statement::Obstacle(b) => self.obstacles.push(b)?,
            Statement::Goal(kind) => self.goal = Some(kind),
            Statement::End => self.ended = true,
        }
        Ok(())
    }
}
