// The limits of the recursion, tested in their order: X, the lengths of the slices, each H(k), then the sum of |D(k)| and the start.
#![tactic(auto)]

ghost use Rattle.std.specs.Prelude.{◌≡◌, ◌&&◌, [], ◌∷◌, ◌<◌, leb, nat_abs, length};
ghost use Rattle.fund.specs.Limits.{most_bound};
ghost use Rattle.fund.specs.Refusals.{any_short};
ghost use Rattle.recursion_limits.specs.Limits.{most_transform, most_cell, sizes};
ghost use Rattle.recursion_limits.specs.Tests.{cell_of, ErrorAt, Tests};

use fund::Fund;

// A limit that is broken: a slice has fewer than X + 1 cells, a limit of the transform or of the start (at k for an H(k), else at 0),
// or the first x whose bound or whose |f| is above its limit. The tests here find the first two.
#[derive(Clone, Copy, PartialEq, Eq)]
pub enum Broken {
    Short,
    Outside(u64),
    Wide(u64),
    Large(u64),
}

// D and H, lent, of which the recursion reads those of 1 to X.
#[derive(Clone, Copy)]
pub struct Transform<'a> {
    pub horizon: usize,
    pub d: &'a [i64],
    pub h: &'a [u64],
}

// f(0) and R(0).
#[derive(Clone, Copy, PartialEq, Eq)]
pub struct Start {
    pub cell: i64,
    pub bound: u64,
}

// The sum of |D(k)|, an H(k), and an |f(x)| are at most these.
const MOST_TRANSFORM: u64 = 400000 * rounding::UNIT;

const MOST_ERROR: u64 = 1000000000;

pub const MOST_CELL: u64 = 2 * rounding::UNIT;

// Whether one of four slices has fewer than X + 1 cells.
fn short(horizon: usize, d: usize, h: usize, f: usize, r: usize) -> bool
    ensures { result ≡ any_short (d ∷ h ∷ f ∷ r ∷ []) horizon }
{
    d <= horizon || h <= horizon || f <= horizon || r <= horizon
}

// The first k from 1 to X whose H(k) is above its limit.
fn error_at(horizon: usize, h: &[u64]) -> Option<u64>
    requires { horizon < length h.now }
    ensures { ErrorAt horizon h.now result }
{
    for k in 0..horizon {
        if MOST_ERROR < h[k + 1] {
            return Some((k + 1) as u64);
        }
    }
    None
}

// Whether the sum of |D(k)|, k from 1 to X, is within its limit.
fn sizes_within(horizon: usize, d: &[i64]) -> bool
    requires { horizon < length d.now }
    ensures { result ≡ leb (sizes d.now horizon) most_transform }
{
    let mut left = MOST_TRANSFORM;
    for k in 0..horizon {
        let size = d[k + 1].unsigned_abs();
        if left < size {
            return false;
        }
        left -= size;
    }
    true
}

// Whether f(0) and R(0) are within the limits of a cell.
fn start_within(start: Start) -> bool
    ensures { result ≡ (leb (nat_abs start.cell) most_cell && leb start.bound most_bound) }
{
    start.cell.unsigned_abs() <= MOST_CELL && start.bound <= Fund::MOST_BOUND
}

// Whether all limits are kept, for slices of f and R with `cells` and `bounds` cells.
pub fn tested(t: Transform, start: Start, cells: usize, bounds: usize) -> Result<(), Broken>
    ensures { Tests t.entry.horizon t.entry.d.now t.entry.h.now (cell_of start) cells bounds result }
{
    if Fund::MOST_HORIZON < t.horizon as u64 {
        return Err(Broken::Outside(0));
    }
    if short(t.horizon, t.d.len(), t.h.len(), cells, bounds) {
        return Err(Broken::Short);
    }
    if let Some(k) = error_at(t.horizon, t.h) {
        return Err(Broken::Outside(k));
    }
    if sizes_within(t.horizon, t.d) && start_within(start) {
        return Ok(());
    }
    Err(Broken::Outside(0))
}
