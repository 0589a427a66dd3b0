//! A state of a plant, with what is known of it.
ghost use Rattle.std.specs.Prelude.{◌≡◌, ◌<◌, length};
ghost use Rattle.pair_boxes.specs.inside.Terms.{stride_of};

use successor_box::Sampled;

/// A state of a plant, and how many cells an index along its axis makes.
#[derive(Clone, Copy)]
pub(crate) struct StateOf<'a> {
    pub(crate) sampled: Sampled<'a>,
    pub(crate) state: u32,
    pub(crate) stride: u32,
    ghost equation: { state < length sampled.plant.now.equations },
    ghost stride_is: { stride ≡ stride_of sampled.plant.now state },
}
