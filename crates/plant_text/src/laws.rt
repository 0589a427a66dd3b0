//! What holds of every plant and of its text.

ghost use Rattle.plant_text.specs.Laws.{OnePlantPerText, OnePlantAtTheFront, SpelledPlantsArePlants, OneRefusal, NoPlantTextIsRefused, CanonicalTextsSpell, CanonicalTextsReadBack, NumbersAreWords, OneFront, OneFrontRefusal, NoFrontIsRefused, NoPlantTextIsNeither, NoFrontIsNeither};

/// No bytes spell two plants.
pub fn one_plant_per_text()
    ensures { OnePlantPerText }
{}

/// A text starts with the canonical text of at most one plant.
pub fn one_plant_at_the_front()
    ensures { OnePlantAtTheFront }
{}

/// No bytes have two plants at their front.
pub fn one_front()
    ensures { OneFront }
{}

/// Bytes have at most one reason why no plant is read at their front.
pub fn one_front_refusal()
    ensures { OneFrontRefusal }
{}

/// No front is refused that is the canonical text of a plant within the limits.
pub fn no_front_is_refused()
    ensures { NoFrontIsRefused }
{}

/// No front is neither the canonical text of a plant within the limits nor refused.
pub fn no_front_is_neither()
    ensures { NoFrontIsNeither }
{}

/// What bytes spell is a plant.
pub fn spelled_plants_are_plants()
    ensures { SpelledPlantsArePlants }
{}

/// A text has at most one reason to be refused.
pub fn one_refusal()
    ensures { OneRefusal }
{}

/// No text of at most 65,536 bytes is refused that spells a plant within the limits.
pub fn no_plant_text_is_refused()
    ensures { NoPlantTextIsRefused }
{}

/// No text of at most 65,536 bytes is neither that of a plant within the limits nor refused; a longer one is refused.
pub fn no_plant_text_is_neither()
    ensures { NoPlantTextIsNeither }
{}

/// The canonical text of a plant spells it.
pub fn canonical_texts_spell()
    ensures { CanonicalTextsSpell }
{}

/// The canonical text of a plant within the limits reads back, where it has at most 65,536 bytes:
/// `read_plant` answers that plant, or want of memory.
pub fn canonical_texts_read_back()
    ensures { CanonicalTextsReadBack }
{}

/// A number's text has no space and no line feed.
pub fn numbers_are_words()
    ensures { NumbersAreWords }
{}
