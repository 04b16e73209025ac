// The steps of the recursion: the sums over k for each x, the cell from them, and the tests of the cell.
ghost use Rattle.std.specs.Prelude.{◌≡◌, suc, ◌+◌, ◌<◌, ◌≤◌, pos, length, replicate, set};
ghost use Rattle.rounding.specs.Rounding.{near, nearest, up};
ghost use Rattle.whole.specs.Sums.{sum_of};
ghost use Rattle.recursion_limits.specs.Limits.{CellFits, TransformFits};
ghost use Rattle.recursion_limits.specs.Tests.{cell_of as cell_of_start, Kept};
ghost use Rattle.recursion.specs.Slices.{cell_in, CellsFit};
ghost use Rattle.recursion.specs.Places.{PlacesOf};
ghost use Rattle.recursion.specs.Steps.{most_part_sum, SumsTo, StepsFor, StepsFrom};

use super::places::Places;
use super::products;
use fund::Fund;
use recursion_limits::{Broken, MOST_CELL, Start, Transform};
use whole::{Signed, Sums};

pub(crate) fn clear_cells(f: &mut [i64], r: &mut [u64])
    ensures { (f.new ≡ replicate (length f.old) (pos 0)) × (r.new ≡ replicate (length r.old) 0) }
{
    f.fill(0);
    r.fill(0);
}

// f(0) and R(0) in their cells, and zeros in all others.
fn start_cells(start: Start, f: &mut [i64], r: &mut [u64])
    requires { (0 < length f.old) × (0 < length r.old) }
    ensures { (f.new ≡ set (replicate (length f.old) (pos 0)) 0 start.cell) × (r.new ≡ set (replicate (length r.old) 0) 0 start.bound) }
{
    clear_cells(f, r);
    f[0] = start.cell;
    r[0] = start.bound;
}

// The start and all steps from it.
pub(crate) fn all_steps(
    t: Transform,
    start: Start,
    f: &mut [i64],
    r: &mut [u64],
) -> Result<(), Broken>
    requires { Kept t.horizon t.d.now t.h.now (cell_of_start start) (length f.old) (length r.old) }
    ensures { StepsFrom t.entry.horizon t.entry.d.now t.entry.h.now (cell_of_start start)
        (length f.old) (length r.old) f.new r.new result }
{
    start_cells(start, f, r);
    let mut places = Places::none();
    places.fill(t);
    fill_cells(t, &places, f, r)
}

// Fills f and r from 1 to the horizon, or stops at the first cell that is too wide, or too large.
fn fill_cells(t: Transform, places: &Places, f: &mut [i64], r: &mut [u64]) -> Result<(), Broken>
    requires transform_fits { TransformFits t.horizon t.d.now t.h.now }
    requires horizon_in_bounds { (t.horizon < length f.old) × (t.horizon < length r.old) × CellFits (cell_in f.old r.old 0) }
    requires places_of { PlacesOf t.horizon t.d.now t.h.now places.now.list.items places.now.small }
    ensures { StepsFor t.entry.horizon t.entry.d.now t.entry.h.now f.old r.old f.new r.new result }
{
    for last in 0..t.horizon {
        let s = sums(t, &f[..], &r[..], last, places);
        let x = (last + 1) as u64;
        let bound = bound_of(s, x);
        if Fund::MOST_BOUND < bound {
            return Err(Broken::Wide(x));
        }
        let cell = cell_of(s, x);
        if MOST_CELL < cell.unsigned_abs() {
            return Err(Broken::Large(x));
        }
        f[last + 1] = cell;
        r[last + 1] = bound;
    }
    Ok(())
}

// The sums for the cell after `last`: D(1), D(2), .. meet f(last), f(last - 1), .. to f(0). Only places are visited.
fn sums(t: Transform, f: &[i64], r: &[u64], last: usize, places: &Places) -> Sums
    requires transform_fits { TransformFits t.horizon t.d.now t.h.now }
    requires cells_fit { CellsFit f.now r.now last × (last < t.horizon) }
    requires places_of { PlacesOf t.horizon t.d.now t.h.now places.now.list.items places.now.small }
    ensures { SumsTo t.entry.d.now t.entry.h.now f.now r.now last (suc last) result }
{
    let small = places.small;
    let mut s = Sums::default();
    for place in places.list.as_slice() {
        let k = *place;
        if last < k {
            return s;
        }
        s = products::add(small, s, t.d[k + 1], t.h[k + 1], f[last - k], r[last - k]);
    }
    s
}

// f(x), the nearest of the sum over x.
fn cell_of(s: Sums, x: u64) -> i64
    requires { (s.plus ≤ most_part_sum) × (s.minus ≤ most_part_sum) × (0 < x) }
    ensures { result ≡ nearest (sum_of s) x }
{
    nearest_over(Signed::difference(s.plus, s.minus), x).as_i64()
}

// The magnitude is rounded, so halves go away from zero on both sides.
fn nearest_over(sum: Signed, x: u64) -> Signed
    ensures { (result.negative ≡ sum.negative) × (result.size ≡ near sum.size x) }
{
    Signed {
        negative: sum.negative,
        size: whole::nearest(sum.size, x),
    }
}

// R(x), the sum over x, up, and one more.
fn bound_of(s: Sums, x: u64) -> u64
    requires { (s.bound ≤ most_part_sum) × (0 < x) }
    ensures { result ≡ up s.bound x + 1 }
{
    whole::up(s.bound, x) + 1
}
