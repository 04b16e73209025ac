// The transform of a table of model points: D and H, from the terms of each line's lives, once the totals have passed the refusals 7, 8 and 9.
#![tactic(auto)]

mod terms;

ghost use Rattle.std.specs.Prelude.{length};
ghost use Rattle.transform.specs.Transformed.{lengths_of, TransformedFor};

use fund::{Fund, ModelPoint, Refused};
use terms::Filling;
use totals::Totals;

// A table has no transform: refusal 7, 8 or 9 with the table's totals, or range with none.
#[derive(Clone, Copy, PartialEq, Eq)]
pub struct NotTransformed {
    pub refused: Refused,
    pub totals: Option<Totals>,
}

// The totals of a table and its transform, D and H up to the horizon and zeros beyond it, or refusal 7, 8 or 9 with the totals, and zeros.
// The three numbers are the lengths of the other result slices.
pub fn transformed(
    fund: Fund,
    points: &[ModelPoint],
    f: usize,
    r: usize,
    sums: usize,
    transform: &mut [i64],
    h: &mut [u64],
) -> Result<Totals, NotTransformed>
    ensures { TransformedFor fund (length points.now) points.now (lengths_of transform.old h.old f r sums) result
        transform.new h.new }
{
    let totals = totals::first_totals(fund, points);
    let known = totals::tested_totals(fund, totals, transform.len(), h.len(), f, r, sums);
    transform.fill(0);
    h.fill(0);
    let totals = match known {
        Ok(totals) => totals,
        Err(refused) => return Err(NotTransformed { refused, totals }),
    };
    let filling = Filling {
        horizon: fund.horizon,
        order: fund.order,
        frequency: fund.frequency,
    };
    terms::fill_transform(points, filling, transform, h);
    Ok(totals)
}
