//! What holds of every plant.

ghost use Rattle.plant_record.specs.Soundness.{PlantsAreSound, VectorsHaveOneEach};
ghost use Rattle.plant_record.specs.ValueIndices.{InputsDependOnTheirIndices};
ghost use Rattle.plant_record.specs.Limits.{IsWithinLimits};

use crate::plant::Plant;

/// A plant has a grid of whole cells, and a well-formed equation for each state.
pub fn plants_are_sound()
    ensures { PlantsAreSound }
{}

/// An input vector has one number for each input variable.
pub fn vectors_have_one_each()
    ensures { VectorsHaveOneEach }
{}

/// The value of a variable in an input vector depends on its index among the variable's values alone.
pub fn inputs_depend_on_their_indices()
    ensures { InputsDependOnTheirIndices }
{}

/// Every `Plant` is within the limits.
pub fn every_plant_is_within_limits(p: &Plant)
    ensures { IsWithinLimits p.now }
{
    p.equations();
}
