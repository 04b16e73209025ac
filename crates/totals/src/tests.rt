// The tests of the totals: the ranges that a file's header and lives have, then the refusals 7, 8 and 9.
ghost use Rattle.totals.specs.Tests.{Tested};

use super::Totals;
use fund::{Fund, Refusal, Refused};

// The totals, or the first refusal. The five numbers are the lengths of the result slices.
pub fn tested_totals(
    fund: Fund,
    totals: Option<Totals>,
    transform: usize,
    h: usize,
    f: usize,
    r: usize,
    sums: usize,
) -> Result<Totals, Refused>
    ensures { Tested fund totals (record { D = transform; H = h; f = f; R = r; F = sums }) result }
{
    let Some(t) = totals else {
        return Err(Refusal::Range.at(0));
    };
    if Fund::MOST_LOAD < t.load {
        return Err(Refusal::Load.at(0));
    }
    if Fund::MOST_TRUNCATION < t.truncation {
        return Err(Refusal::Order.at(0));
    }
    // one of the five slices has fewer than X + 1 cells
    let horizon = fund.horizon as usize;
    if transform <= horizon || h <= horizon || f <= horizon || r <= horizon || sums <= horizon {
        return Err(Refusal::Short.at(0));
    }
    Ok(t)
}
