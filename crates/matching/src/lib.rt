// Members matched with the rates in force at their ages: the refusals 3 to 6, and the model point of each member line.

#![tactic(auto)]

mod points;

ghost use Rattle.std.specs.Prelude.{◌≡◌, [], suc, ltb, OnErr};
ghost use Rattle.matching.specs.Matching.{with_points, matched_rows};

use arrayvec::ArrayVec;
use fund::{Fund, ModelPoint, Refusal, Refused};
use rows::Rows;

// 4: the deductible is above X + 1, which is not formed, as it may not fit.
fn is_above(deductible: u64, horizon: u64) -> bool
    ensures { result ≡ ltb (suc horizon) deductible }
{
    horizon < deductible.saturating_sub(1)
}

// Adds the model points of rows of any number, in the members' order, or answers the first of the refusals 3 to 6. More rows than a file has are
// range, at no line.
fn add_points(
    rows: Rows<'_>,
    points: &mut ArrayVec<ModelPoint, { Fund::MEMBER_ROWS }>,
) -> Result<(), Refused>
    requires { points.old.items ≡ [] }
    ensures { with_points points.new.items result ≡ matched_rows rows.entry }
{
    let fund = rows.fund;
    if Fund::RATE_ROWS < rows.rates.len() || Fund::MEMBER_ROWS < rows.members.len() {
        return Err(Refusal::Range.at(0));
    }
    if fund.rates != fund.members {
        return Err(Refusal::Edition.at(0));
    }
    if is_above(fund.deductible, fund.horizon) {
        return Err(Refusal::Deductible.at(0));
    }
    // the header lines and the rate lines stand before the first member
    let line = Fund::HEADER_LINES as u64 + rows.rates.len() as u64 + 1;
    points::model_points(rows.rates, rows.members, line, points)?;
    points::not_half(points.as_slice(), line)
}

// The model points of rows of any number in place of those that are there, or the first of the refusals 3 to 6, and none. A table that is lent
// is not copied.
#[inline(never)]
pub fn match_points(
    rows: Rows<'_>,
    points: &mut ArrayVec<ModelPoint, { Fund::MEMBER_ROWS }>,
) -> Result<(), Refused>
    ensures matched { with_points points.new.items result ≡ matched_rows rows.entry }
    ensures refused { OnErr result (points.new.items ≡ []) }
{
    points.clear();
    match add_points(rows, points) {
        Ok(()) => Ok(()),
        Err(refused) => {
            points.clear();
            Err(refused)
        }
    }
}

// The model points of rows of any number, or the first of the refusals 3 to 6.
pub fn matched(rows: Rows<'_>) -> Result<ArrayVec<ModelPoint, { Fund::MEMBER_ROWS }>, Refused>
    ensures { result ≡ matched_rows rows.entry }
{
    let mut points = ArrayVec::new();
    match_points(rows, &mut points)?;
    Ok(points)
}
