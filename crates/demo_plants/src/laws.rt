//! What holds of every demo plant.

ghost use Rattle.demo_plants.specs.Laws.{DemoPlantsAreWithinLimits, DemoTextsSpell, DemoPlantsHaveNoOverflow, DemoPlantsHaveFewEdges, DemoPlantsAreSolvable, OneDemoLine};

/// A demo plant is within the limits on input vectors, cells and pairs.
pub fn demo_plants_are_within_limits()
    ensures { DemoPlantsAreWithinLimits }
{}

/// The text of a demo plant is its canonical text, which spells it.
pub fn demo_texts_spell()
    ensures { DemoTextsSpell }
{}

/// No equation of a demo plant overflows, under any input vector.
pub fn demo_plants_have_no_overflow()
    ensures { DemoPlantsHaveNoOverflow }
{}

/// A demo plant has at most nine edges for each pair of a cell and an input vector.
pub fn demo_plants_have_few_edges()
    ensures { DemoPlantsHaveFewEdges }
{}

/// No deviation and no number of edges refuses a demo plant.
pub fn demo_plants_are_solvable()
    ensures { DemoPlantsAreSolvable }
{}

/// A demo plant has one line.
pub fn one_demo_line()
    ensures { OneDemoLine }
{}
