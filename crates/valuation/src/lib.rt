// The valuation of a fund: from its model points to the transform, the start, the recursion, the premium and their bounds, or the first of
// the refusals 7 to 10.
#![tactic(auto)]

mod premium;
mod sums;

ghost use Rattle.std.specs.Prelude.{◌≡◌, length};
ghost use Rattle.fund.specs.Cells.{lengths, SameSlices};
ghost use Rattle.valuation.specs.Valued.{left_valued, left_in, lengths_in, valuation};
ghost use Rattle.valuation.specs.Steps.{Ready, refusal_of, RecursedFor, SettledFor, AnsweredFor};

use fund::{Cells, Figures, Fund, ModelPoint, Refusal, Refused};
use recursion::{Broken, Start, Transform};
use totals::Totals;

// Refusal 10. A fund's own transform breaks no other limit.
fn refusal(limit: Broken) -> Refused
    ensures { result ≡ refusal_of limit }
{
    match limit {
        Broken::Wide(x) => Refusal::Wide.at(x),
        _ => Refusal::Range.at(0),
    }
}

// The figures of a fund whose cells stand, or refusal 10 with a transform of zeros.
fn settled(
    fund: Fund,
    t: Totals,
    done: Result<(), Broken>,
    transform: &mut [i64],
    h: &mut [u64],
    f: &[i64],
    r: &[u64],
    sums: &mut [i64],
) -> Result<Figures, Refused>
    requires { RecursedFor fund t done transform.old h.old f.now r.now (length sums.old) }
    ensures { SettledFor fund t transform.old h.old f.now r.now (length sums.old)
        (left_in result transform.new h.new f.now r.now sums.new) }
{
    if let Err(limit) = done {
        transform.fill(0);
        h.fill(0);
        sums.fill(0);
        return Err(refusal(limit));
    }
    sums::running_sums(fund.horizon as usize, f, sums);
    let priced = premium::premium(fund.deductible as usize, t.mean, t.truncation, f, r);
    let gross = tariff::gross_premium(fund, priced.premium, priced.within);
    Ok(Figures {
        truncation: t.truncation,
        mean: t.mean,
        premium: priced.premium,
        within: priced.within,
        gross: gross.unwrap_or(0),
    })
}

// The recursion and what follows it, for a transform that is filled.
fn recursed(
    fund: Fund,
    t: Totals,
    transform: &mut [i64],
    h: &mut [u64],
    f: &mut [i64],
    r: &mut [u64],
    sums: &mut [i64],
) -> Result<Figures, Refused>
    requires { Ready fund t transform.old h.old (length f.old) (length r.old) (length sums.old) }
    ensures { AnsweredFor fund t transform.old h.old (length f.old) (length r.old) (length sums.old)
        (left_in result transform.new h.new f.new r.new sums.new) }
{
    let start = Start {
        cell: t.cell,
        bound: t.bound,
    };
    let filled = Transform {
        horizon: fund.horizon as usize,
        d: &transform[..],
        h: &h[..],
    };
    let done = recursion::recursion(filled, start, f, r);
    settled(fund, t, done, transform, h, &f[..], &r[..], sums)
}

// The same of the slices by name.
fn value_in(
    fund: Fund,
    points: &[ModelPoint],
    transform: &mut [i64],
    h: &mut [u64],
    f: &mut [i64],
    r: &mut [u64],
    sums: &mut [i64],
) -> Result<Figures, Refused>
    ensures { left_in result transform.new h.new f.new r.new sums.new ≡
        valuation fund (length points.now) points.now (lengths_in transform.old h.old f.old r.old sums.old) }
{
    let known = transform::transformed(fund, points, f.len(), r.len(), sums.len(), transform, h);
    match known {
        Ok(totals) => recursed(fund, totals, transform, h, f, r, sums),
        Err(stop) => {
            f.fill(0);
            r.fill(0);
            sums.fill(0);
            Err(stop.refused)
        }
    }
}

// The valuation of a table of model points, into five result slices: a refusal leaves zeros.
#[inline(never)]
pub fn value(fund: Fund, points: &[ModelPoint], cells: &mut Cells) -> Result<Figures, Refused>
    ensures same_slices { SameSlices cells.old cells.new }
    ensures left { left_valued result cells.new ≡ valuation fund (length points.now) points.now (lengths cells.old) }
{
    value_in(
        fund,
        points,
        cells.transform,
        cells.h,
        cells.f,
        cells.r,
        cells.sums,
    )
}
