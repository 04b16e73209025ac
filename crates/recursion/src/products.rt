// What one k of the recursion adds: the rounded products of D(k) and H(k) with a cell's figures.
ghost use Rattle.std.specs.Prelude.{◌≡◌, true, ◌*◌, ◌^◌, ◌≤◌};
ghost use Rattle.rounding.specs.Rounding.{near, up};
ghost use Rattle.recursion_limits.specs.Limits.{most_cell};
ghost use Rattle.recursion.specs.Places.{most_small_size, SmallEntry};
ghost use Rattle.recursion.specs.Steps.{opposite, SumsFit, ProductAdded};

use rounding::MILLION;
use whole::{Signed, Sums};

const HALF_UNIT: u64 = rounding::UNIT / 2;

// The base in which a small |D(k)| is taken apart: both parts times any |f(x)| fit a word.
const BASE: u64 = 8 * MILLION;

const UNIT_OVER_BASE: u64 = rounding::UNIT / BASE;

pub(crate) fn add(small: bool, s: Sums, d: i64, h: u64, f: i64, r: u64) -> Sums
    requires sums_fit { SumsFit s (record { D = d; H = h }) (record { f = f; R = r }) }
    requires small_entry { small ≡ true → SmallEntry d h }
    ensures { ProductAdded s (record { D = d; H = h }) (record { f = f; R = r }) result }
{
    if small {
        return add_small(s, d, h, f, r);
    }
    add_wide(s, d, h, f, r)
}

// Every product fits a word, or is taken apart into two that do.
fn add_small(s: Sums, d: i64, h: u64, f: i64, r: u64) -> Sums
    requires sums_fit { SumsFit s (record { D = d; H = h }) (record { f = f; R = r }) }
    requires small_entry { SmallEntry d h }
    ensures { ProductAdded s (record { D = d; H = h }) (record { f = f; R = r }) result }
{
    let size = d.unsigned_abs();
    let cell = f.unsigned_abs();
    let part = Signed {
        negative: opposite(d, f),
        size: product_nearest(size, cell),
    };
    let bound = product_up(size, r) + error_up(h, cell + r);
    s.with_part(part, bound)
}

// a * b / 10^12, up.
fn product_up(a: u64, b: u64) -> u64
    requires { a * b ≤ 18000003 * 10 ^ 12 }
    ensures { result ≡ up (a * b) (10 ^ 12) }
{
    (a * b + (rounding::UNIT - 1)) / rounding::UNIT
}

// The same for an H(k): where it is 0, no product is formed.
fn error_up(a: u64, b: u64) -> u64
    requires { a * b ≤ 18000003 * 10 ^ 12 }
    ensures { result ≡ up (a * b) (10 ^ 12) }
{
    if a == 0 {
        return 0;
    }
    product_up(a, b)
}

// a * b / 10^12, to the nearest: a in base 8 * 10^6, from its high part down.
fn product_nearest(a: u64, b: u64) -> u64
    requires { (a ≤ most_small_size) × (b ≤ most_cell) }
    ensures { result ≡ near (a * b) (10 ^ 12) }
{
    (a / BASE * b + (a % BASE * b + HALF_UNIT) / BASE) / UNIT_OVER_BASE
}

// The same for any factors within the limits: none is formed for f where D is 0.
fn add_wide(s: Sums, d: i64, h: u64, f: i64, r: u64) -> Sums
    requires { SumsFit s (record { D = d; H = h }) (record { f = f; R = r }) }
    ensures { ProductAdded s (record { D = d; H = h }) (record { f = f; R = r }) result }
{
    let size = d.unsigned_abs();
    if size == 0 {
        if h == 0 {
            return s;
        }
        let none = Signed {
            negative: false,
            size: 0,
        };
        return s.with_part(none, rounding::up_per_unit(h, f.unsigned_abs() + r));
    }
    let cell = f.unsigned_abs();
    let part = Signed {
        negative: opposite(d, f),
        size: rounding::nearest_per_unit(size, cell),
    };
    let bound = rounding::up_per_unit(size, r) + rounding::up_per_unit(h, cell + r);
    s.with_part(part, bound)
}

// Whether one of the two is negative and the other is not.
fn opposite(d: i64, f: i64) -> bool
    ensures { result ≡ opposite d f }
{
    (d < 0) != (f < 0)
}
