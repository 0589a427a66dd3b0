//! The noises of a sample, drawn by a generator.

ghost use Rattle.std.specs.Prelude.{◌≡◌, ◌+◌, ◌/◌, ◌%◌, ◌^◌, ◌<◌, nat_abs, pos, ◌+ℤ◌, ◌-ℤ◌, length};
ghost use Rattle.grid_quantiser.specs.Cells.{point_of};
ghost use Rattle.plant_record.specs.Limits.{IsWithinLimits};
ghost use Rattle.loop_sim.specs.Noise.{generator, next_state, noises_from};
ghost use Rattle.base.specs.declared.limits.TheConstants.{NUMBER_LIMIT};

use base::limits::STATES_LIMIT;
use grid_quantiser::Point;
use plant_record::Plant;

/// The multiplier of the generator, that of MMIX by Knuth.
const MULTIPLIER: u64 = 6364136223846793005;

/// The increment of that generator.
const INCREMENT: u64 = 1442695040888963407;

/// The noises that follow a state of the generator, one for each noise of the plant, and the state
/// after them.
pub(crate) fn draw(p: &Plant, before: u64) -> (Point, u64)
    requires plant { IsWithinLimits p.now }
    ensures noises { result.0 ≡ point_of (noises_from p.now.noises before 0) }
    ensures state { result.1 ≡ generator before (length p.now.noises) }
{
    let mut noises = [0; STATES_LIMIT];
    let mut state = before;
    for k in 0..p.noises() {
        state = next_state(state);
        let (low, high) = p.noise_range(k);
        noises[k as usize] = noise_of(low, high, state);
    }
    (noises, state)
}

fn next_state(state: u64) -> u64
    ensures { result ≡ next_state state }
{
    state.wrapping_mul(MULTIPLIER).wrapping_add(INCREMENT)
}

/// The number of a range that a state of the generator gives.
fn noise_of(low: i128, high: i128, state: u64) -> i128
    requires low { nat_abs low < NUMBER_LIMIT }
    requires high { nat_abs high < NUMBER_LIMIT }
    ensures { result ≡ low +ℤ pos (state / 2 ^ 33 % (nat_abs (high -ℤ low) + 1)) }
{
    low + i128::from((state >> 33) % count(low, high))
}

/// How many numbers a range has.
fn count(low: i128, high: i128) -> u64
    requires low { nat_abs low < NUMBER_LIMIT }
    requires high { nat_abs high < NUMBER_LIMIT }
    ensures count { result ≡ nat_abs (high -ℤ low) + 1 }
    ensures bound { result < 2 ^ 62 }
{
    (high - low).unsigned_abs() as u64 + 1
}
