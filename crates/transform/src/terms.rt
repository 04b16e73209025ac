// The transform: the terms of each line's lives, added to D and H at their places.
ghost use Rattle.std.specs.Prelude.{◌≡◌, true, ◌||◌, suc, ◌+◌, ◌*◌, ◌-◌, ◌^◌, ◌<◌, ◌≤◌, ltb, eqb, pos, nat_abs, ◌+ℤ◌, ◌*ℤ◌, length, get_or, set};
ghost use Rattle.rounding.specs.Rounding.{near};
ghost use Rattle.fund.specs.Base.{alternate};
ghost use Rattle.fund.specs.Limits.{half_rate, most_order};
ghost use Rattle.fund.specs.Folding.{claim, stay, single};
ghost use Rattle.fund.specs.Transform.{place_of, placed as placed_of, replaced_term, replaced_terms, row as row_of, row_terms, single_terms};
ghost use Rattle.laws.specs.Ranges.{FrequenciesOk};
ghost use Rattle.laws.specs.Weights.{most_weight};
ghost use Rattle.widths.specs.Lives.{InRange};
ghost use Rattle.widths.specs.AddedTerms.{add_d, add_h, Room, RoomD, SingleRow, TermRoom, terms_at, times};
ghost use Rattle.whole.specs.Sign.{signed};
ghost use Rattle.transform.specs.Filling.{PointFits, PointAdded, TableFits, TableAdded};

use fund::{Frequencies, Fund, Life, ModelPoint};
use rounding::UNIT;
use whole::nearest;

// How the cells are filled: up to which horizon, by which order and at which frequencies.
#[derive(Clone, Copy)]
pub(crate) struct Filling {
    pub(crate) horizon: u64,
    pub(crate) order: u64,
    pub(crate) frequency: Frequencies,
}

// A number of a row, from the two above it. Their sum is below 5×10^17, so one word is enough; where it is 0, nothing is divided.
fn entry(m: Life, left: u64, v: u64) -> u64
    requires { (claim m < half_rate) × (m.q * left + m.i * v < 5 * 10 ^ 17) }
    ensures { result ≡ near (m.q * left + m.i * v) (stay m) }
{
    let sum = m.q * left + m.i * v;
    if sum == 0 {
        return 0;
    }
    nearest(sum, Fund::MOST_RATE - (m.q + m.i))
}

// The row after row n, in its columns 0 to n + 1: v(n+1,l) comes from v(n,l-1) by q and from v(n,l) by i.
fn next_row(row: [u64; 13], m: Life, n: u64) -> [u64; 13]
    requires { (claim m < half_rate) × (n < most_order) × (row ≡ row_of m n) }
    ensures { result ≡ row_of m (n + 1) }
{
    let mut out = [0u64; 13];
    let mut left: u64 = 0;
    for l in 0..n as usize + 2 {
        let v = row[l];
        out[l] = entry(m, left, v);
        left = v;
    }
    out
}

// A rate above 0, or none of its steps.
fn reached(rate: u64, l: u64, end: u64) -> bool
    ensures { result ≡ (ltb 0 rate || eqb l end) }
{
    0 < rate || l == end
}

// Where the term of row n and column l stands.
fn place(m: Life, n: u64, l: u64) -> u64
    requires { InRange m × (n ≤ most_order) × (l ≤ n) }
    ensures { result ≡ place_of m n l }
{
    m.d * l + m.e * (n - l)
}

// Whether that term, at x, is placed.
fn placed(horizon: u64, x: u64, m: Life, n: u64, l: u64) -> bool
    requires { x ≡ place_of m n l }
    ensures { result ≡ placed_of horizon m n l }
{
    x <= horizon && reached(m.q, l, 0) && reached(m.i, l, n)
}

// A cell with an amount added or subtracted.
fn moved(cell: i64, minus: bool, amount: u64) -> i64
    requires { nat_abs cell + amount ≤ 2 ^ 62 }
    ensures { result ≡ cell +ℤ signed minus amount }
{
    let z = amount as i64;
    if minus {
        return cell - z;
    }
    cell + z
}

// The cell at a place, moved by an amount.
fn shift(transform: &mut [i64], x: usize, minus: bool, amount: u64)
    requires { (x < length transform.old) × (nat_abs (get_or transform.old x (pos 0)) + amount ≤ 2 ^ 62) }
    ensures { transform.new ≡ set transform.old x (get_or transform.old x (pos 0) +ℤ signed minus amount) }
{
    transform[x] = moved(transform[x], minus, amount);
}

// A placed number v of row n, for each of so many lives: nearest(x×v/n) is added to D at x for odd n, subtracted for even n, and x is added to
// H. Both products with the lives fit, as the terms of a fund that passes 7 add to at most 400,000×10^12 in D and 10^9 in H.
fn add_term(transform: &mut [i64], h: &mut [u64], x: u64, v: u64, n: u64, lives: u64)
    requires { TermRoom transform.old h.old x v n lives }
    ensures transform_after { transform.new ≡
        set transform.old x (get_or transform.old x (pos 0) +ℤ pos lives *ℤ alternate (suc n) (pos (near (x * v) n))) }
    ensures h_after { h.new ≡ set h.old x (get_or h.old x 0 + lives * x) }
{
    let k = x as usize;
    h[k] += lives * x;
    if v == 0 {
        return;
    }
    shift(transform, k, n % 2 == 0, lives * nearest(x * v, n));
}

// The term of row n and column l, if it is placed.
fn add_at(transform: &mut [i64], h: &mut [u64], horizon: u64, p: ModelPoint, v: u64, n: u64, l: u64)
    requires { SingleRow p.life n × (l ≤ n) × (v ≡ get_or (row_of p.life n) l 0)
        × Room horizon transform.old h.old (times p.lives (terms_at horizon p.life n l)) }
    ensures transform_after { transform.new ≡ add_d transform.old (times p.lives (terms_at horizon p.life n l)) }
    ensures h_after { h.new ≡ add_h h.old (times p.lives (terms_at horizon p.life n l)) }
{
    let x = place(p.life, n, l);
    if !placed(horizon, x, p.life, n, l) {
        return;
    }
    add_term(transform, h, x, v, n, p.lives);
}

// The terms of row n.
fn add_row(
    transform: &mut [i64],
    h: &mut [u64],
    horizon: u64,
    p: ModelPoint,
    row: [u64; 13],
    n: u64,
)
    requires { SingleRow p.life n × (row ≡ row_of p.life n)
        × Room horizon transform.old h.old (times p.lives (row_terms horizon p.life n (n + 1))) }
    ensures transform_after { transform.new ≡ add_d transform.old (times p.lives (row_terms horizon p.life n (n + 1))) }
    ensures h_after { h.new ≡ add_h h.old (times p.lives (row_terms horizon p.life n (n + 1))) }
{
    for l in 0..n + 1 {
        let k = l as usize;
        add_at(transform, h, horizon, p, row[k], n, l);
    }
}

// The terms of the lives of a line of group 1, row by row: the triangle is worked once for all of them.
fn add_single(transform: &mut [i64], h: &mut [u64], horizon: u64, p: ModelPoint, order: u64)
    requires { InRange p.life × (single p.life ≡ true) × (order ≤ most_order)
        × Room horizon transform.old h.old (times p.lives (single_terms horizon p.life order)) }
    ensures transform_after { transform.new ≡ add_d transform.old (times p.lives (single_terms horizon p.life order)) }
    ensures h_after { h.new ≡ add_h h.old (times p.lives (single_terms horizon p.life order)) }
{
    let mut row = [UNIT, 0, 0, 0, 0, 0, 0, 0, 0, 0, 0, 0, 0];
    for n in 0..order {
        let next = next_row(row, p.life, n);
        add_row(transform, h, horizon, p, next, n + 1);
        row = next;
    }
}

// One of the two terms of each of so many lives of group 2: the weight w times its place k.
fn add_replaced_term(transform: &mut [i64], horizon: u64, w: u64, k: u64, lives: u64)
    requires { (w ≤ most_weight) × RoomD horizon transform.old (times lives (replaced_term horizon w k)) }
    ensures { transform.new ≡ add_d transform.old (times lives (replaced_term horizon w k)) }
{
    if w == 0 || k == 0 || horizon < k {
        return;
    }
    shift(transform, k as usize, false, lives * (w * k));
}

// The terms of the lives of a line of group 2, by death and by disability.
fn add_replaced(transform: &mut [i64], horizon: u64, p: ModelPoint, ab: Frequencies)
    requires { InRange p.life × FrequenciesOk ab × RoomD horizon transform.old (times p.lives (replaced_terms horizon ab p.life)) }
    ensures { transform.new ≡ add_d transform.old (times p.lives (replaced_terms horizon ab p.life)) }
{
    add_replaced_term(
        transform,
        horizon,
        p.life.q * ab.death * 1000,
        p.life.d,
        p.lives,
    );
    add_replaced_term(
        transform,
        horizon,
        p.life.i * ab.disability * 1000,
        p.life.e,
        p.lives,
    );
}

// The terms of the lives of a line.
fn add_point(transform: &mut [i64], h: &mut [u64], p: ModelPoint, x: Filling)
    requires { PointFits transform.old h.old p x }
    ensures { PointAdded transform.old h.old p x transform.new h.new }
{
    if p.life.group == Fund::SINGLE {
        add_single(transform, h, x.horizon, p, x.order);
        return;
    }
    add_replaced(transform, x.horizon, p, x.frequency);
}

// D and H of the lives of all lines, into slices that are 0 up to the horizon. Cells beyond it stay as they are.
pub(crate) fn fill_transform(
    points: &[ModelPoint],
    x: Filling,
    transform: &mut [i64],
    h: &mut [u64],
)
    requires { TableFits points.now x transform.old h.old }
    ensures { TableAdded points.now x transform.old h.old transform.new h.new }
{
    for p in points {
        add_point(transform, h, *p, x);
    }
}
