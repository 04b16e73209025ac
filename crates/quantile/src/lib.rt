// The deductible at a level of METHOD 7 (§1): the first place where the running sums of the cells reach the level.
#![tactic(auto)]

ghost use Rattle.std.specs.Prelude.{◌≡◌, position};
ghost use Rattle.fund.specs.Quantile.{reaches, quantile};

use fund::Fund;

// Whether a sum is at least the level.
fn reaches(level: u64, sum: i64) -> bool
    ensures { result ≡ reaches level sum }
{
    0 <= sum && level <= sum.unsigned_abs()
}

// The first sum that is at least the level.
fn first_reached(level: u64, sums: &[i64]) -> Option<usize>
    ensures { result ≡ position (reaches level) sums.now }
{
    sums.iter().position(|sum| reaches(level, *sum))
}

// The smallest x up to the horizon whose sum is at least the level, or none. The sums may fall, so every place is asked from 0 on.
pub fn quantile(level: u64, horizon: usize, sums: &[i64]) -> Option<u64>
    ensures { result ≡ quantile level horizon sums.now }
{
    if Fund::MOST_LEVEL < level {
        return None;
    }
    let count = sums.len().min(horizon.saturating_add(1));
    first_reached(level, &sums[..count]).map(|x| x as u64)
}
