//! A plant with how far its equations move within a cell.

ghost use Rattle.std.specs.Prelude.{◌≡◌};
ghost use Rattle.plant_record.specs.Limits.{IsWithinLimits};
ghost use Rattle.successor_box.specs.Deviations.{HasNoOverflow, deviations_of};
ghost use Rattle.successor_box.specs.inside.Props.{IsWithinLimits-prop, HasNoOverflow-prop};

use crate::slopes::Slopes;
use plant_record::Plant;
use plant_record::laws::every_plant_is_within_limits;

/// A plant within the limits with the deviations of its equations, none of which overflows.
#[derive(Clone, Copy)]
pub struct Sampled<'a> {
    pub plant: &'a Plant,
    pub slopes: &'a Slopes,
    pub ghost within: { IsWithinLimits plant.now } by { IsWithinLimits-prop plant.now },
    pub ghost deviations: { slopes.now ≡ deviations_of plant.now },
    pub ghost fits: { HasNoOverflow plant.now } by { HasNoOverflow-prop plant.now },
}

impl<'a> Sampled<'a> {
    /// A plant with what `find_slopes` found of it.
    pub fn new(plant: &'a Plant, slopes: &'a Slopes) -> Sampled<'a>
        requires slopes { slopes.now ≡ deviations_of plant.now }
        requires fits { HasNoOverflow plant.now }
        ensures plant { result.plant.now ≡ plant.now }
        ensures slopes { result.slopes.now ≡ slopes.now }
    {
        every_plant_is_within_limits(plant);
        Sampled { plant, slopes }
    }
}
