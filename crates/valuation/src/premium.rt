// The premium of METHOD 7 and its bound: the sums over the cells below the deductible M, each with its weight M - x.
ghost use Rattle.std.specs.Prelude.{◌+◌, ◌*◌, ◌^◌, ◌<◌, ◌≤◌, nat_abs};
ghost use Rattle.fund.specs.Limits.{most_deductible, most_bound, most_truncation};
ghost use Rattle.totals.specs.Table.{most_mean};
ghost use Rattle.recursion_limits.specs.Limits.{most_cell};
ghost use Rattle.valuation.specs.Premium.{Cells, CellWeighed, BelowTo, StopLossIs};

use rounding::UNIT;
use whole::{Signed, Sums};

// The premium, and the bound within which it is right.
#[derive(Clone, Copy, PartialEq, Eq)]
pub(crate) struct StopLoss {
    pub(crate) premium: i64,
    pub(crate) within: u64,
}

pub(crate) fn premium(
    deductible: usize,
    mean: u64,
    truncation: u64,
    f: &[i64],
    r: &[u64],
) -> StopLoss
    requires cells { Cells deductible f.now r.now }
    requires mean_le_most_mean { (mean ≤ most_mean) × (truncation ≤ most_truncation) }
    ensures { StopLossIs deductible mean truncation f.now r.now result }
{
    let s = below(deductible, f, r);
    let m = deductible as u64;
    let excess = Signed::difference(mean + s.plus, m * UNIT + s.minus);
    StopLoss {
        premium: excess.as_i64(),
        within: s.bound + 2 * m * truncation,
    }
}

// The sums over x below the deductible.
fn below(deductible: usize, f: &[i64], r: &[u64]) -> Sums
    requires { Cells deductible f.now r.now }
    ensures { BelowTo deductible f.now r.now deductible result }
{
    let mut s = Sums::default();
    for x in 0..deductible {
        s = with_cell(s, (deductible - x) as u64, f[x], r[x]);
    }
    s
}

// One cell more, with its weight.
fn with_cell(s: Sums, weight: u64, f: i64, r: u64) -> Sums
    requires plus_bound { (s.plus ≤ most_deductible * most_cell) × (s.minus ≤ most_deductible * most_cell) × (s.bound ≤ 10 ^ 18) }
    requires weight_le_most_deductible { (weight ≤ most_deductible) × (nat_abs f ≤ most_cell) × (r ≤ most_bound) }
    ensures { CellWeighed s weight (record { f = f; R = r }) result }
{
    let part = Signed {
        negative: f < 0,
        size: weight * f.unsigned_abs(),
    };
    s.with_part(part, weight * r)
}
