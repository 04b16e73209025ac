// Whether a header and the member lines of a table are in the ranges that reading and refusal 6 leave.
ghost use Rattle.std.specs.Prelude.{◌≡◌, ◌≤◌, length};
ghost use Rattle.std.specs.List.{list_all};
ghost use Rattle.fund.specs.Limits.{most_lives};
ghost use Rattle.widths.specs.Lives.{InRange};
ghost use Rattle.laws.specs.Tells.{Tells};
ghost use Rattle.totals.specs.Inside.{HeaderIn, point_inside, inside};

use super::figures;
use fund::{Fund, Life, ModelPoint};

// The least number of lives in all that is out of range.
const TOO_MANY_LIVES: u64 = Fund::MOST_LIVES + 1;

// Whether the lives in all are not too many, and the header is in its ranges.
fn headed(fund: Fund, lives: u64) -> bool
    ensures { Tells result ((lives ≤ most_lives) × HeaderIn fund) }
{
    lives <= Fund::MOST_LIVES
        && fund.horizon <= Fund::MOST_HORIZON
        && fund.order <= Fund::MOST_ORDER
        && fund.frequency.death <= Fund::MOST_FREQUENCY
        && fund.frequency.disability <= Fund::MOST_FREQUENCY
        && Fund::LEAST_WORTH <= fund.worth
        && fund.worth <= Fund::MOST_WORTH
        && fund.deductible <= fund.horizon + 1
}

// Group 1 has refusal 6, and a rate with amount 0 is 0.
fn life_inside(m: Life) -> bool
    ensures { Tells result (InRange m) }
{
    Fund::LEAST_GROUP <= m.group
        && m.group <= Fund::MOST_GROUP
        && m.q <= Fund::MOST_RATE
        && m.i <= Fund::MOST_RATE - m.q
        && (m.group != Fund::SINGLE || m.q + m.i < Fund::HALF)
        && (0 < m.d || m.q == 0)
        && (0 < m.e || m.i == 0)
        && m.d <= Fund::MOST_AMOUNT
        && m.e <= Fund::MOST_AMOUNT
}

fn point_inside(p: ModelPoint) -> bool
    ensures { result ≡ point_inside p }
{
    life_inside(p.life) && p.lives <= Fund::MOST_LIVES
}

fn all_inside(points: &[ModelPoint]) -> bool
    ensures { result ≡ list_all point_inside points.now }
{
    points.iter().all(|p| point_inside(*p))
}

// Whether the header and all lines are in their ranges, and the lines are not too many.
pub(crate) fn inside(fund: Fund, points: &[ModelPoint]) -> bool
    ensures { result ≡ inside fund (length points.now) points.now }
{
    if Fund::MOST_MEMBERS < points.len() as u64 {
        return false;
    }
    headed(fund, figures::lives_in_all(points, TOO_MANY_LIVES)) && all_inside(points)
}
