// From a float to a cell, and from a cell to the number that it is taken as. A blank and a subnormal are told by their bits, before
// any float operation: a host may have its processor take subnormals as 0. No float is converted: it is compared with the
// conversion of a whole number, which comes from the float's bits, or for a rate is sought by halves.
ghost use Rattle.std.specs.Prelude.{◌≡◌, ◌^◌, ◌≤◌, not, T};
ghost use Rattle.std.specs.Float.{binary64};
ghost use Rattle.std.specs.Float.Ieee.{of_bits, is_nan};
ghost use Rattle.fund.specs.SheetCells.{cell_of, whole_of, rate_of, whole_in, amount_of, rate_in};
ghost use Rattle.sheet_cells.specs.Part.{OnlyWhole};
ghost use Rattle.sheet_cells.specs.Plain.{subnormal, Plain, NoNan};

use crate::floats;
use fund::Fund;

// The cell of x, whose bits these are.
pub(crate) fn classed(bits: u64, x: f64) -> Option<f64>
    requires { x ≡ of_bits binary64 bits }
    ensures { (result ≡ cell_of x) × NoNan result }
{
    if floats::is_nan(bits) { None } else { Some(x) }
}

// Whether the exponent's bits are 0 and the fraction's are not.
fn is_subnormal(x: f64) -> bool
    requires { T (not (is_nan x)) }
    ensures { result ≡ subnormal x }
{
    let size = f64::to_bits(x) % 0x8000_0000_0000_0000;
    0 < size && size < 0x10_0000_0000_0000
}

// The only whole number up to 2^53 that the float of these bits can equal: its size, without a fraction and cut to 2^53.
fn whole_part(bits: u64) -> u64
    ensures { OnlyWhole (of_bits binary64 bits) result }
{
    let exponent = bits % 0x8000_0000_0000_0000 / 0x10_0000_0000_0000;
    if exponent < 1023 {
        return 0;
    }
    if 1075 < exponent {
        return 0x20_0000_0000_0000;
    }
    (0x10_0000_0000_0000 + bits % 0x10_0000_0000_0000) >> (1075 - exponent)
}

// A number that is no subnormal, as a whole number up to `most`; up to 2^53 these are floats.
fn whole(x: f64, most: u64) -> Option<u64>
    requires { (most ≤ 2 ^ 53) × Plain x }
    ensures { result ≡ whole_of x most }
{
    let k = whole_part(f64::to_bits(x));
    if k <= most && x == k as f64 {
        return Some(k);
    }
    None
}

// A number that is no subnormal, as a rate in millionths; each quotient is one division, rounded once.
fn rate(x: f64) -> Option<u64>
    requires { Plain x }
    ensures { result ≡ rate_of x }
{
    let mut lo = 0u64;
    let mut hi = Fund::MOST_RATE + 1;
    while lo < hi {
        let mid = lo + (hi - lo) / 2;
        let quotient = mid as f64 / 1000000.0;
        if x == quotient {
            return Some(mid);
        }
        if x < quotient {
            hi = mid;
        } else {
            lo = mid + 1;
        }
    }
    None
}

// x as a whole number up to `most`: a subnormal is none.
fn whole_of(x: f64, most: u64) -> Option<u64>
    requires { (most ≤ 2 ^ 53) × T (not (is_nan x)) }
    ensures { result ≡ whole_of x most }
{
    if is_subnormal(x) {
        return None;
    }
    whole(x, most)
}

// A whole number from `least` to `most`.
pub(crate) fn number(least: u64, most: u64, cell: Option<f64>) -> Option<u64>
    requires { (most ≤ 2 ^ 53) × NoNan cell }
    ensures { result ≡ whole_in least most cell }
{
    let x = cell?;
    let n = whole_of(x, most)?;
    if n < least {
        return None;
    }
    Some(n)
}

// "A blank is allowed only in an amount and is 0 there."
pub(crate) fn amount(cell: Option<f64>) -> Option<u64>
    requires { NoNan cell }
    ensures { result ≡ amount_of cell }
{
    match cell {
        None => Some(0),
        Some(x) => whole_of(x, Fund::MOST_AMOUNT),
    }
}

// A rate: a blank and a subnormal are none.
pub(crate) fn rate_in(cell: Option<f64>) -> Option<u64>
    requires { NoNan cell }
    ensures { result ≡ rate_in cell }
{
    let q = cell?;
    if is_subnormal(q) {
        return None;
    }
    rate(q)
}
