// What the first lines of a table add up to: the load, the truncation figure, the mean, and the start; and the refusals that these decide.
#![tactic(auto)]

mod figures;
mod inside;
mod product;
mod tests;

ghost use Rattle.std.specs.Prelude.{◌≡◌, ◌*◌, ◌≤◌, length};
ghost use Rattle.fund.specs.Folding.{copies};
ghost use Rattle.fund.specs.Limits.{most_lives};
ghost use Rattle.totals.specs.Table.{Points};
ghost use Rattle.totals.specs.Inside.{HeaderIn};
ghost use Rattle.start.specs.Terms.{most_t};
ghost use Rattle.totals.specs.Totals.{StartedWith, LivesTotals, TotalsFor};

use fund::{Fund, ModelPoint};
use product::Product;
use start::StartSum;
pub use tests::tested_totals;
use whole::Signed;

// What a table adds up to. `cell` and `bound` are f(0) and R(0).
#[derive(Clone, Copy, PartialEq, Eq, Default)]
pub struct Totals {
    pub load: u64,
    pub truncation: u64,
    pub mean: u64,
    pub cell: i64,
    pub bound: u64,
}

// The totals with f(0) and R(0).
fn with_start(load: u64, truncation: u64, mean: u64, first: StartSum, product: Product) -> Totals
    requires { (product.size ≤ 200 * most_t) × (first.bound ≤ 64000) × (product.singles ≤ most_lives) }
    ensures { StartedWith load truncation mean first product result }
{
    let cell = Signed {
        size: product.size,
        ..first.sum
    };
    Totals {
        load,
        truncation,
        mean,
        cell: cell.as_i64(),
        bound: first.bound + product.singles,
    }
}

// One walk for each sum, and one for the product, which starts from the sum of t.
fn lives_totals(fund: Fund, points: &[ModelPoint]) -> Totals
    requires { Points points.now × HeaderIn fund }
    ensures { LivesTotals fund (copies points.now) result }
{
    let lambda = figures::lambda(points, fund.frequency);
    let load = figures::load(points, lambda);
    let truncation = figures::truncation(points, fund.order);
    let mean = figures::mean(points, fund.frequency);
    let first = start::sums(lambda);
    let product = product::multiplied(points, first.sum.size);
    with_start(load, truncation, mean, first, product)
}

// The totals of a table, or none where its lines, their count or the header are outside their ranges.
pub fn first_totals(fund: Fund, points: &[ModelPoint]) -> Option<Totals>
    ensures { TotalsFor fund (length points.now) points.now result }
{
    if !inside::inside(fund, points) {
        return None;
    }
    Some(lives_totals(fund, points))
}
