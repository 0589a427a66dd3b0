ghost use Rattle.std.specs.Prelude.{◌≡◌, ◌<◌, ◌≤ℤ◌, [], length, slice_index_or, pos, ℕ, IfOk, IfErr, SomeIff};
ghost use Rattle.std.specs.List.{All};
ghost use Rattle.fixed_expr.specs.Expression.{expression_of};
ghost use Rattle.fixed_expr.specs.Value.{IsWellFormed};
ghost use Rattle.plant_record.specs.Description.{vectors_of};
ghost use Rattle.plant_record.specs.Steps.{equation_at};
ghost use Rattle.successor_box.specs.Deviations.{AnswersDeviation, HasNoOverflowAt, HasNoOverflow, deviations_of, deviations_along, IsOverflow};
ghost use Rattle.successor_box.specs.inside.Area.{AreRadii, IsOverflowAlong};
ghost use Rattle.successor_box.specs.inside.Lines.{deviation_along};

use crate::area::{domain_area, radii};
use crate::slope_fault::SlopeFault;
use base::limits::VARIABLES_LIMIT;
use fixed_expr::Expr;
use fixed_expr::arithmetic::{add_in_range, sub_in_range};
use growth_bound::span_and_deviation;
use interval_eval::Interval;
use plant_record::Plant;
use std::alloc::Global;
use std::marker::Model;

/// How far each equation of a plant moves within a cell, by input vector.
#[derive(Drop)]
pub struct Slopes {
    by_equation: Vec<Vec<i128>>,
}

impl Model for Slopes {
    ghost use Rattle.std.specs.Prelude.{List, ℤ, map};
    ghost use Rattle.std.specs.Global.{Vec};

    ghost Value = { List (List ℤ) };

    ghost view = { λ s. map (λ (deviations : Vec ℤ). deviations.items) s.by_equation.items };
}

impl Slopes {
    /// How far an equation moves within a cell, under an input vector.
    #[inline]
    pub fn of(&self, equation: u32, input: u32) -> i128
        requires equation { equation < length self.now }
        requires input { input < length (slice_index_or self.now equation []) }
        ensures { result ≡ slice_index_or (slice_index_or self.now equation []) input (pos 0) }
    {
        self.by_equation[equation as usize][input as usize]
    }
}

/// The deviations of a plant's equations. It takes memory for a number for each equation and input
/// vector, and none for what lies between.
#[tactic(auto, using(crate::proofs::DeviationLanes::equations_count))]
pub fn find_slopes(alloc: Global, p: &Plant) -> Result<Slopes, SlopeFault>
    ensures found { IfOk result (λ s. s ≡ deviations_of p.now) }
    ensures fits { IfOk result (λ _. HasNoOverflow p.now) }
    ensures overflow { IfErr result (λ f. IsOverflow p.now f) }
{
    let radii = radii(p);
    let mut by_equation = Vec::new(alloc);
    for equation in 0..p.equations().len() {
        by_equation.push(deviations_along(alloc, p, &radii, equation as u32)?)?;
    }
    Ok(Slopes { by_equation })
}

/// The deviations of one equation, by input vector.
fn deviations_along(
    alloc: Global,
    p: &Plant,
    radii: &[i128; VARIABLES_LIMIT],
    equation: u32,
) -> Result<Vec<i128>, SlopeFault>
    requires equation { equation < length p.now.equations }
    requires radii { AreRadii p.now radii.now }
    ensures found { IfOk result (λ deviations. deviations.items ≡ deviations_along p.now (equation_at p.now equation)) }
    ensures fits { IfOk result (λ _. (u : ℕ) → u < vectors_of p.now.inputs → HasNoOverflowAt p.now equation u) }
    ensures overflow { IfErr result (λ f. IsOverflowAlong p.now equation f) }
{
    let vectors = p.vectors();
    let mut deviations = Vec::with_capacity(alloc, vectors as usize)?;
    for input in 0..vectors {
        match deviation_at(p, radii, equation, input) {
            Some(deviation) => deviations.push(deviation)?,
            None => return Err(SlopeFault::Overflow { equation, input }),
        }
    }
    Ok(deviations)
}

/// How far an equation moves under an input vector: None where a number leaves the range.
#[tactic(auto, using(crate::proofs::CellRanges::equation_is, crate::proofs::Steps::formed_over, crate::proofs::Radii::radii_not_negative))]
fn deviation_at(
    p: &Plant,
    radii: &[i128; VARIABLES_LIMIT],
    equation: u32,
    input: u32,
) -> Option<i128>
    requires equation { equation < length p.now.equations }
    requires input { input < vectors_of p.now.inputs }
    requires radii { AreRadii p.now radii.now }
    ensures { SomeIff result (HasNoOverflowAt p.now equation input) (deviation_along p.now equation input) }
{
    let count = p.variables() as usize;
    deviation_over(
        p.equation(equation),
        &domain_area(p, input)[..count],
        &radii[..count],
    )
}

/// How far an expression moves over an area: None where a number leaves the range.
fn deviation_over(e: &Expr, area: &[Interval], radii: &[i128]) -> Option<i128>
    requires well_formed { IsWellFormed (expression_of e.now) (length area.now) }
    requires one_for_each { length radii.now ≡ length area.now }
    requires not_negative { All (λ r. pos 0 ≤ℤ r) radii.now }
    ensures { AnswersDeviation result (expression_of e.now) area.now radii.now }
{
    let (ends, deviation) = span_and_deviation(e, area, radii)?;
    sub_in_range(ends.lo, deviation)?;
    add_in_range(ends.hi, deviation)?;
    Some(deviation)
}
