// The figures of a fund that add up over its lives: lambda, load, truncation figure, mean, and the lives themselves. Each is one walk over
// the table, by what a line adds to it.
ghost use Rattle.std.specs.Prelude.{◌≡◌, ℕ, ⊤, min, ◌+◌, ◌-◌, ◌*◌, ◌^◌, ◌<◌, ◌≤◌};
ghost use Rattle.rounding.specs.Rounding.{up as up_of};
ghost use Rattle.fund.specs.declared.Life.{Life};
ghost use Rattle.fund.specs.declared.ModelPoint.{ModelPoint};
ghost use Rattle.fund.specs.Base.{total};
ghost use Rattle.fund.specs.Limits.{most_order, most_truncation, half_rate};
ghost use Rattle.fund.specs.Folding.{copies, claim, stay};
ghost use Rattle.fund.specs.Transform.{lambda as lambda_of, truncation as truncation_of, mean as mean_of, unit, w};
ghost use Rattle.laws.specs.Accepted.{All};
ghost use Rattle.laws.specs.Copies.{lives_of};
ghost use Rattle.laws.specs.Ranges.{FrequenciesOk};
ghost use Rattle.widths.specs.Lives.{InRange};
ghost use Rattle.widths.specs.Parts.{lambda_part, single_load, truncation_part, mean_part};
ghost use Rattle.totals.specs.Table.{PointIn, Points, most_lambda, most_singles, most_mean};

use fund::{Frequencies, Fund, Life, ModelPoint};
use rounding::UNIT;
use whole::up;

// Lambda of a table in its ranges is at most this: 5,000,000 × 10^6 for each of 1,000 lives.
const MOST_LAMBDA: u64 = Fund::MOST_LIVES * 5000000 * 1000000;

// What the lives of group 1 add to its load is at most this: 10^12 for each of 1,000.
const MOST_SINGLES: u64 = Fund::MOST_LIVES * UNIT;

// The least truncation figure that is refused.
const LEAST_REFUSED: u64 = Fund::MOST_TRUNCATION + 1;

// A mean of a fund that is not refused is at most this.
const MOST_MEAN: u64 = Fund::MOST_AMOUNT * Fund::MOST_LOAD;

// A figure by what a life adds to it, and by its largest: larger ones are not told apart.
trait Figure {
    ghost part: { Self → Life → ℕ };

    ghost most: { Self → ℕ };

    ghost Takes: { Self → ModelPoint → Type 0 };

    // The figure with one line more.
    fn with_line(&self, sum: u64, p: ModelPoint) -> u64
        requires { Takes self.now p × (sum ≤ most self.now) }
        ensures { result ≡ min (sum + p.lives * part self.now p.life) (most self.now) };
}

// The walk.
fn total<F: Figure>(figure: &F, points: &[ModelPoint]) -> u64
    requires { All (F.Takes figure.now) points.now }
    ensures { result ≡ min (total (F.part figure.now) (copies points.now)) (F.most figure.now) }
{
    let mut sum: u64 = 0;
    for p in points {
        sum = figure.with_line(sum, *p);
    }
    sum
}

#[derive(Clone, Copy)]
struct LambdaFigure {
    frequency: Frequencies,
}

impl Figure for LambdaFigure {
    ghost part = { λ it. lambda_part it.frequency };

    ghost most = { λ _. most_lambda };

    ghost Takes = { λ it p. PointIn p × FrequenciesOk it.frequency };

    fn with_line(&self, sum: u64, p: ModelPoint) -> u64 {
        let frequency = self.frequency;
        let line = p.lives * lambda_part(p.life, frequency);
        (sum + line).min(MOST_LAMBDA)
    }
}

// What a life adds to lambda.
fn lambda_part(m: Life, ab: Frequencies) -> u64
    requires { InRange m × FrequenciesOk ab }
    ensures { result ≡ lambda_part ab m }
{
    if m.group == Fund::SINGLE {
        return 0;
    }
    (m.q * ab.death + m.i * ab.disability) * 1000
}

// Lambda, in units.
pub(crate) fn lambda(points: &[ModelPoint], frequency: Frequencies) -> u64
    requires { Points points.now × FrequenciesOk frequency }
    ensures { result ≡ lambda_of frequency (copies points.now) }
{
    total(&LambdaFigure { frequency }, points)
}

#[derive(Clone, Copy)]
struct LoadFigure;

impl Figure for LoadFigure {
    ghost part = { λ _. single_load };

    ghost most = { λ _. most_singles };

    ghost Takes = { λ _. PointIn };

    fn with_line(&self, sum: u64, p: ModelPoint) -> u64 {
        let line = p.lives * single_part(p.life);
        (sum + line).min(MOST_SINGLES)
    }
}

// What a life of group 1 adds to the load.
fn single_part(m: Life) -> u64
    requires { InRange m }
    ensures { result ≡ single_load m }
{
    if m.group == Fund::SINGLE {
        let claim = m.q + m.i;
        return up(UNIT * claim, Fund::MOST_RATE - claim);
    }
    0
}

// The load, in units: lambda, and what the lives of group 1 add to it.
pub(crate) fn load(points: &[ModelPoint], lambda: u64) -> u64
    requires { Points points.now × (lambda ≤ most_lambda) }
    ensures { result ≡ lambda + total single_load (copies points.now) }
{
    lambda + total(&LoadFigure, points)
}

#[derive(Clone, Copy)]
struct TruncationFigure {
    order: u64,
}

impl Figure for TruncationFigure {
    ghost part = { λ it. truncation_part it.order };

    ghost most = { λ _. most_truncation + 1 };

    ghost Takes = { λ it p. PointIn p × (it.order ≤ most_order) };

    // A part can be 10^18, and 1,000 of them pass a word.
    fn with_line(&self, sum: u64, p: ModelPoint) -> u64 {
        let part = truncation_part(p.life, self.order).min(LEAST_REFUSED);
        (sum + p.lives * part).min(LEAST_REFUSED)
    }
}

// w(n) from w(n-1).
fn next_weight(m: Life, last: u64) -> u64
    requires { (claim m < half_rate) × (last ≤ unit) }
    ensures { result ≡ up_of (last * claim m) (stay m) }
{
    let claim = m.q + m.i;
    up(last * claim, Fund::MOST_RATE - claim)
}

// w(n), from w(0) = 10^12.
fn weight(m: Life, n: u64) -> u64
    requires { claim m < half_rate }
    ensures { result ≡ w m n }
{
    let mut last = UNIT;
    for _k in 0..n {
        last = next_weight(m, last);
    }
    last
}

// What a life adds to the truncation figure of order r.
fn truncation_part(m: Life, r: u64) -> u64
    requires { InRange m × (r ≤ most_order) }
    ensures { result ≡ truncation_part r m }
{
    if m.group == Fund::SINGLE {
        let claim = m.q + m.i;
        let stay = Fund::MOST_RATE - claim;
        return up(weight(m, r + 1) * stay, (stay - claim) * (r + 1));
    }
    0
}

// The truncation figure of order r, or one more than its largest where it is larger.
pub(crate) fn truncation(points: &[ModelPoint], order: u64) -> u64
    requires { Points points.now × (order ≤ most_order) }
    ensures { result ≡ min (truncation_of order (copies points.now)) (most_truncation + 1) }
{
    total(&TruncationFigure { order }, points)
}

#[derive(Clone, Copy)]
struct MeanFigure {
    frequency: Frequencies,
}

impl Figure for MeanFigure {
    ghost part = { λ it. mean_part it.frequency };

    ghost most = { λ _. most_mean };

    ghost Takes = { λ it p. PointIn p × FrequenciesOk it.frequency };

    // A part is at most 65,535 × 6 × 10^12 units: 1,000 of them pass a word, and in thousands of units do not.
    fn with_line(&self, sum: u64, p: ModelPoint) -> u64 {
        let frequency = self.frequency;
        let thousands = (p.lives * mean_part(p.life, frequency)).min(MOST_MEAN / 1000);
        (sum + thousands * 1000).min(MOST_MEAN)
    }
}

// An amount by its rate, or by a rate times a frequency.
fn weighed(weight: u64, amount: u64) -> u64
    requires { weight * amount < 2 ^ 64 }
    ensures { result ≡ weight * amount }
{
    weight * amount
}

// What a life adds to the mean, in thousands of units.
fn mean_part(m: Life, ab: Frequencies) -> u64
    requires { InRange m × FrequenciesOk ab }
    ensures { result * 1000 ≡ mean_part ab m }
{
    if m.group == Fund::SINGLE {
        return (weighed(m.q, m.d) + weighed(m.i, m.e)) * 1000;
    }
    weighed(m.q * ab.death, m.d) + weighed(m.i * ab.disability, m.e)
}

// The mean, in units, or the largest of a fund that is not refused where it is larger.
pub(crate) fn mean(points: &[ModelPoint], frequency: Frequencies) -> u64
    requires { Points points.now × FrequenciesOk frequency }
    ensures { result ≡ min (mean_of frequency (copies points.now)) most_mean }
{
    total(&MeanFigure { frequency }, points)
}

#[derive(Clone, Copy)]
struct LivesFigure {
    most: u64,
}

impl Figure for LivesFigure {
    ghost part = { λ _ _. 1 };

    ghost most = { λ it. it.most };

    ghost Takes = { λ _ _. ⊤ };

    // No sum wraps, whatever the line says.
    fn with_line(&self, sum: u64, p: ModelPoint) -> u64 {
        sum + p.lives.min(self.most - sum)
    }
}

// The lives in all, up to `most`.
pub(crate) fn lives_in_all(points: &[ModelPoint], most: u64) -> u64
    ensures { result ≡ min (lives_of points.now) most }
{
    total(&LivesFigure { most }, points)
}
