//! A plant: what it is made of, what it keeps, and what it does from one sample to the next.

ghost use Rattle.std.specs.Prelude.{◌≡◌, ℕ, ◌+◌, ◌<◌, ◌≤◌, ◌↔◌, length, map, slice_get, slice_index, slice_index_or, pos, IfOk, IfErr, IsTrue, Some};
ghost use Rattle.std.specs.Option.{option_map};
ghost use Rattle.fixed_expr.specs.Expression.{expression_of};
ghost use Rattle.grid_quantiser.specs.Axes.{cells_of};
ghost use Rattle.plant_record.specs.declared.variables.NoiseVariable.{NoiseVariable};
ghost use Rattle.plant_record.specs.Description.{axes_of, value_counts, vectors_of, vector_of};
ghost use Rattle.mixed_radix.specs.Radix.{size, AreDigits, AreDigitsOf};
ghost use Rattle.line_words.specs.Numbers.{IsLiteral};
ghost use Rattle.plant_record.specs.ValueIndices.{value_count, value_index, value_at};
ghost use Rattle.plant_record.specs.VariableKinds.{IsVariableAt};
ghost use Rattle.plant_record.specs.Plants.{IsPlant};
ghost use Rattle.plant_record.specs.Limits.{IsWithinLimits, Exceeds};
ghost use Rattle.plant_record.specs.CellMarks.{IsGoalCell, IsObstacleCell};
ghost use Rattle.plant_record.specs.Parts.{description_of};
ghost use Rattle.plant_record.specs.States.{state_point};
ghost use Rattle.plant_record.specs.Versions.{version_number};
ghost use Rattle.base.specs.declared.limits.TheConstants.{INPUTS_LIMIT, VARIABLES_LIMIT, VECTORS_LIMIT};

use crate::aims::GoalKind;
use crate::cell_marks::{lies_in_one, touches_one};
use crate::limit_kind::LimitKind;
use crate::plant_parts::{PlantParts, grid_of, value_counts};
use crate::variables::Variable;
use crate::version::PlantVersion;
use base::limits::{INPUTS_LIMIT, PAIRS_LIMIT, STATES_LIMIT, VECTORS_LIMIT};
use fixed_expr::Expr;
use grid_quantiser::{Grid, Point};
use mixed_radix::{DIGITS_LIMIT, decode, encode, size};
use std::marker::Model;

/// A plant within the limits, seen as its description.
#[derive(Drop)]
pub struct Plant {
    parts: PlantParts,
    grid: Grid,
    /// How many values each input variable has.
    counts: [u32; INPUTS_LIMIT],
}

impl Model for Plant {
    ghost use Rattle.std.specs.Coded.{codes};
    ghost use Rattle.fixed_expr.specs.inside.Postfix.{expression_code};
    ghost use Rattle.plant_record.specs.Description.{Description};
    ghost use Rattle.plant_record.specs.Parts.{description_of};
    ghost use Rattle.plant_record.specs.inside.PlantsInMemory.{IsStored};

    ghost Value = { Description };

    ghost coded = { Prim.hlevel (codes, expression_code) };

    ghost view = { λ p. description_of p.parts };

    ghost invariant = { λ p. IsStored (description_of p.parts) p.grid p.counts };
}

impl Plant {
    /// The plant of the parts, or the first limit that they exceed. It takes no memory.
    pub fn new(parts: PlantParts) -> Result<Plant, LimitKind>
        requires { IsPlant (description_of parts) }
        ensures kept { IfOk result (λ p. p ≡ description_of parts) }
        ensures limits { IfOk result (λ p. IsWithinLimits p) }
        ensures exceeded { IfErr result (λ what. Exceeds (description_of parts) what) }
    {
        let counts = value_counts(&parts.variables.inputs);
        let vectors = size(&counts[..parts.variables.inputs.len()]);
        if vectors > VECTORS_LIMIT {
            return Err(LimitKind::Vectors);
        }
        let Ok(grid) = grid_of(&parts.variables.states) else {
            return Err(LimitKind::Cells);
        };
        if u64::from(grid.cells()) * u64::from(vectors) > PAIRS_LIMIT {
            return Err(LimitKind::Pairs);
        }
        Ok(Plant {
            parts,
            grid,
            counts,
        })
    }

    /// What the plant is made of, as a text says it.
    pub fn parts(&self) -> &PlantParts
        ensures parts { description_of result.now ≡ self.now }
        ensures limits { IsWithinLimits self.now }
    {
        &self.parts
    }

    /// The number of the version, 1 or 2.
    pub fn version(&self) -> u32
        ensures { result ≡ version_number self.now.version }
    {
        self.parts.version.number()
    }

    /// By which rules the text of the plant is read, and its boxes are made.
    pub fn plant_version(&self) -> PlantVersion
        ensures { result ≡ self.now.version }
    {
        self.parts.version
    }

    /// How many states there are.
    pub fn states(&self) -> u32
        ensures { result ≡ length self.now.states }
    {
        self.parts.variables.states.len() as u32
    }

    /// How many input variables there are: an input vector has a value for each.
    pub fn input_variables(&self) -> u32
        ensures { result ≡ length self.now.inputs }
    {
        self.parts.variables.inputs.len() as u32
    }

    /// How many noises there are.
    pub fn noises(&self) -> u32
        ensures { result ≡ length self.now.noises }
    {
        self.parts.variables.noises.len() as u32
    }

    /// How many variables there are: the states, the input variables and the noises.
    pub fn variables(&self) -> u32
        ensures count { result ≡ length self.now.states + length self.now.inputs + length self.now.noises }
        ensures bound { result ≤ VARIABLES_LIMIT }
        ensures limits { IsWithinLimits self.now }
    {
        (self.parts.variables.states.len()
            + self.parts.variables.inputs.len()
            + self.parts.variables.noises.len()) as u32
    }

    /// The variable at a position: the states come first, then the input variables, then the noises.
    #[inline]
    pub fn variable(&self, k: u32) -> Variable
        requires { k < length self.now.states + length self.now.inputs + length self.now.noises }
        ensures { IsVariableAt self.now k result }
    {
        let states = self.states();
        let inputs = self.input_variables();
        if k < states {
            Variable::State(k)
        } else if k - states < inputs {
            Variable::Input(k - states)
        } else {
            Variable::Noise(k - states - inputs)
        }
    }

    /// How many input vectors there are.
    pub fn vectors(&self) -> u32
        ensures count { result ≡ vectors_of self.now.inputs }
        ensures some { 1 ≤ result }
    {
        size(self.value_counts())
    }

    /// What the controller is to do.
    pub fn goal(&self) -> GoalKind
        ensures { result ≡ self.now.goal }
    {
        self.parts.goal
    }

    /// The grid of the states, with an axis for each.
    pub fn grid(&self) -> &Grid
        ensures { result.now ≡ axes_of self.now }
    {
        &self.grid
    }

    /// A state as a point, with 0 past the states.
    pub fn state_point(&self, x: &Point) -> Point
        ensures { result ≡ state_point self.now x.now }
    {
        let mut at = [0; STATES_LIMIT];
        for i in 0..self.parts.variables.states.len() {
            at[i] = x[i];
        }
        at
    }

    /// The equation of a state.
    pub fn equation(&self, i: u32) -> &Expr
        requires { i < length self.now.equations }
        ensures { slice_get self.now.equations i ≡ Some (expression_of result.now) }
    {
        &self.parts.equations[i as usize]
    }

    /// How many values each input variable has.
    #[inline]
    fn value_counts(&self) -> &[u32]
        ensures same { result.now ≡ value_counts self.now.inputs }
        ensures few { length result.now ≤ INPUTS_LIMIT }
        ensures some { 0 < size result.now }
        ensures limit { size result.now ≤ VECTORS_LIMIT }
    {
        &self.counts[..self.parts.variables.inputs.len()]
    }

    /// How many values an input variable has.
    pub fn input_values(&self, variable: u32) -> u32
        requires { variable < length self.now.inputs }
        ensures { result ≡ value_count self.now.inputs variable }
    {
        self.counts[variable as usize]
    }

    /// The indices of the values of an input vector, one for each input variable, and 0 past the last.
    pub fn input_indices(&self, input: u32) -> [u32; DIGITS_LIMIT]
        requires { input < vectors_of self.now.inputs }
        ensures digits { AreDigitsOf (value_counts self.now.inputs) input result }
        ensures each { (j : ℕ) → j < length self.now.inputs → slice_index result j ≡ value_index self.now.inputs j input }
        ensures past { (j : ℕ) → length self.now.inputs ≤ j → slice_index result j ≡ 0 }
    {
        decode(self.value_counts(), input)
    }

    /// The number of the input vector whose values have these indices. Those past the last variable are not looked at.
    pub fn input_number(&self, indices: &[u32]) -> u32
        requires { AreDigits (value_counts self.now.inputs) indices.now }
        ensures number { AreDigitsOf (value_counts self.now.inputs) result indices.now }
        ensures each { (j : ℕ) → j < length self.now.inputs → slice_index indices.now j ≡ value_index self.now.inputs j result }
        ensures below { result < vectors_of self.now.inputs }
    {
        encode(self.value_counts(), indices)
    }

    /// The value at an index among those of an input variable.
    pub fn value_at(&self, variable: u32, index: u32) -> i128
        requires variable { variable < length self.now.inputs }
        requires index { index < value_count self.now.inputs variable }
        ensures value { result ≡ value_at self.now.inputs variable index }
        ensures vectors { (u : ℕ) → u < vectors_of self.now.inputs → value_index self.now.inputs variable u ≡ index → result ≡ slice_index_or (vector_of self.now.inputs u) variable (pos 0) }
        ensures literal { IsLiteral result }
    {
        self.parts.variables.inputs[variable as usize]
            .values
            .as_slice()[index as usize]
    }

    /// The value of an input variable in an input vector.
    pub fn input_value(&self, input: u32, variable: u32) -> i128
        requires input { input < vectors_of self.now.inputs }
        requires variable { variable < length self.now.inputs }
        ensures { result ≡ slice_index_or (vector_of self.now.inputs input) variable (pos 0) }
    {
        let indices = self.input_indices(input);
        self.value_at(variable, indices[variable as usize])
    }

    /// The least and the greatest value of a noise.
    pub fn noise_range(&self, k: u32) -> (i128, i128)
        requires { k < length self.now.noises }
        ensures { option_map (λ (w : NoiseVariable). (w.low, w.high)) (slice_get self.now.noises k) ≡ Some result }
    {
        let noise = &self.parts.variables.noises[k as usize];
        (noise.low, noise.high)
    }

    /// How many targets there are.
    pub fn targets(&self) -> u32
        ensures { result ≡ length self.now.targets }
    {
        self.parts.targets.len() as u32
    }

    /// The least and the greatest corner of a target.
    pub fn target(&self, k: u32) -> (Point, Point)
        requires { k < length self.now.targets }
        ensures { slice_get self.now.targets k ≡ Some (record { low = result.0; high = result.1 }) }
    {
        let target = &self.parts.targets[k as usize];
        (target.low, target.high)
    }

    /// How many obstacles there are.
    pub fn obstacles(&self) -> u32
        ensures { result ≡ length self.now.obstacles }
    {
        self.parts.obstacles.len() as u32
    }

    /// The least and the greatest corner of an obstacle.
    pub fn obstacle(&self, k: u32) -> (Point, Point)
        requires { k < length self.now.obstacles }
        ensures { slice_get self.now.obstacles k ≡ Some (record { low = result.0; high = result.1 }) }
    {
        let obstacle = &self.parts.obstacles[k as usize];
        (obstacle.low, obstacle.high)
    }

    /// Whether a cell is a goal: all its points lie in one target, and none in an obstacle.
    pub fn goal_cell(&self, c: u32) -> bool
        requires { c < cells_of (axes_of self.now) }
        ensures { IsTrue result ↔ IsGoalCell self.now c }
    {
        lies_in_one(&self.grid, c, &self.parts.targets) && !self.obstacle_cell(c)
    }

    /// Whether some point of a cell lies in an obstacle.
    pub fn obstacle_cell(&self, c: u32) -> bool
        requires { c < cells_of (axes_of self.now) }
        ensures { IsTrue result ↔ IsObstacleCell self.now c }
    {
        touches_one(&self.grid, c, &self.parts.obstacles)
    }

    /// The equations, where they lie in memory.
    pub fn equations(&self) -> &[Expr]
        ensures same { map expression_of result.now ≡ self.now.equations }
        ensures limits { IsWithinLimits self.now }
    {
        &self.parts.equations
    }
}
