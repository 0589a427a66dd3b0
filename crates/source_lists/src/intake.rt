//! What takes in the pairs that lead to the cells of a band: it counts them, or keeps them.
ghost use Rattle.std.specs.Prelude.{◌≡◌, ◌+◌, ◌^◌, ◌<◌, map};
ghost use Rattle.std.specs.List.{All};

use edge_rows::RowFill;

/// What takes in pairs at slots, one for each cell of a band.
pub(crate) trait Intake {
    ghost use Rattle.std.specs.Prelude.{ℕ, ◌+◌, ◌≤◌, List};
    ghost use Rattle.std.specs.List.{range_with_len};
    ghost use Rattle.source_lists.specs.inside.Intakes.{IsIntake};

    /// How many slots there are.
    ghost slots: { Self → ℕ };

    /// That there is room for one more pair at each of these slots.
    ghost HasRoomFor: { Self → List ℕ → Type 0 };

    /// That a pair was added at each of these slots.
    ghost IsAdded: { ℕ → Self → Self → List ℕ → Type 0 };

    /// Adds a pair at each of these slots.
    fn add(&mut self, first: u32, len: u32, pair: u32)
        requires within { first + len ≤ slots self.old }
        requires room { HasRoomFor self.old (range_with_len first len) }
        ensures { IsAdded pair self.old self.new (range_with_len first len) };

    ghost lawful: { IsIntake Self slots HasRoomFor IsAdded };
}

/// Counts, one for each slot.
#[derive(Drop)]
pub(crate) struct Counts {
    pub(crate) each: Vec<u32>,
}

impl Intake for Counts {
    ghost use Rattle.std.specs.Prelude.{length};
    ghost use Rattle.source_lists.specs.inside.Tallies.{AreCounted, CountsFit};
    ghost use Rattle.source_lists.specs.inside.IntakeLaws.{counts_lawful};

    ghost slots = { λ counts. length counts.each.items };

    ghost HasRoomFor = { λ counts at. CountsFit counts.each.items at };

    ghost IsAdded = { λ pair before after at. AreCounted before.each.items after.each.items at };

    #[inline]
    fn add(&mut self, first: u32, len: u32, _pair: u32) {
        let from = first as usize;
        let to = from + len as usize;
        add_one(&mut self.each[from..to]);
    }

    ghost lawful = { counts_lawful (λ counts. counts.each.items) };
}

/// Lists of pairs, one for each slot.
impl Intake for RowFill {
    ghost use Rattle.std.specs.Prelude.{length};
    ghost use Rattle.source_lists.specs.inside.Tallies.{ArePut, HasCapacityFor};
    ghost use Rattle.source_lists.specs.inside.IntakeLaws.{lists_lawful};

    ghost slots = { λ fill. length fill.rows };

    ghost HasRoomFor = { HasCapacityFor };

    ghost IsAdded = { ArePut };

    #[inline]
    fn add(&mut self, first: u32, len: u32, pair: u32) {
        self.put_each(first, len, pair);
    }

    ghost lawful = { lists_lawful };
}

/// Adds one to each count.
#[inline]
fn add_one(counts: &mut [u32])
    requires { All (λ count. count + 1 < 2 ^ 32) counts.old }
    ensures { counts.new ≡ map (λ count. count + 1) counts.old }
{
    for count in counts {
        *count += 1;
    }
}
