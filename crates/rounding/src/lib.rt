// Products of two words, divided by a unit and rounded, which are wider than a word.
// A product is taken apart in base 10^6, so that every part fits a word. Where b is below the unit, every divisor but n
// is a constant.

#![tactic(auto)]

ghost use Rattle.std.specs.Prelude.{◌≡◌, ℕ, ◌+◌, ◌*◌, ◌/◌, ◌^◌, ◌<◌, ◌≤◌, IfSome, Some};
ghost use Rattle.rounding.specs.Division.{Divided};
ghost use Rattle.rounding.specs.Rounding.{near, up};
ghost use Rattle.rounding.specs.Word.{word, scaled};

// A certain rate, in millionths.
pub const MILLION: u64 = 1000000;

// 1, in units of 10^-12.
pub const UNIT: u64 = 1000000000000;

// A product divided by a unit: None where the quotient does not fit.
#[derive(Clone, Copy)]
struct Division {
    quotient: u64,
    remainder: u64,
}

// a * b / 10^12, to the nearest.
pub fn nearest_per_unit(a: u64, b: u64) -> u64
    ensures { result ≡ word (near (a * b) (10 ^ 12)) }
{
    if a <= 1000000000000000000 && b <= 10000000000000 {
        return raised(a, b, UNIT / 2);
    }
    nearest_of::<UNIT>(by_unit(a, b))
}

// a * b / 10^12, up.
pub fn up_per_unit(a: u64, b: u64) -> u64
    ensures { result ≡ word (up (a * b) (10 ^ 12)) }
{
    if a <= 1000000000000000000 && b <= 10000000000000 {
        return raised(a, b, UNIT - 1);
    }
    up_of(by_unit(a, b))
}

// a * b with less than a unit added, divided by 10^12, for factors whose parts fit a word with no test: a in base 10^6,
// from its highest part down.
fn raised(a: u64, b: u64, add: u64) -> u64
    requires { (a ≤ 10 ^ 18) × (b ≤ 10 ^ 13) × (add < 10 ^ 12) }
    ensures { result ≡ (a * b + add) / 10 ^ 12 }
{
    let high = a / UNIT;
    let low = a % UNIT;
    let middle = low / MILLION * b;
    let rest = middle % MILLION * MILLION + low % MILLION * b + add;
    high * b + middle / MILLION + rest / UNIT
}

// a * b / 10^6, to the nearest.
pub fn nearest_per_million(a: u64, b: u64) -> u64
    ensures { result ≡ word (near (a * b) (10 ^ 6)) }
{
    nearest_of::<MILLION>(by_million(a, b))
}

// a * b / (n * 10^12), to the nearest.
pub fn nearest_per_units(a: u64, b: u64, n: u64) -> u64
    ensures { result ≡ scaled near (a * b) n (10 ^ 12) }
{
    nearest_of_units(by_unit(a, b), n)
}

// The nearest of what was divided by the unit U.
fn nearest_of<const U: u64>(d: Option<Division>) -> u64
    requires { (0 < U) × IfSome d (λ d. d.remainder < U) }
    ensures { (p : ℕ) → Divided p U d → result ≡ word (near p U) }
{
    match d {
        None => u64::MAX,
        Some(d) => {
            if d.remainder < U - d.remainder {
                d.quotient
            } else {
                d.quotient.saturating_add(1)
            }
        }
    }
}

// What was divided by 10^12, up.
fn up_of(d: Option<Division>) -> u64
    ensures { (p : ℕ) → Divided p (10 ^ 12) d → result ≡ word (up p (10 ^ 12)) }
{
    match d {
        None => u64::MAX,
        Some(d) => {
            if d.remainder == 0 {
                d.quotient
            } else {
                d.quotient.saturating_add(1)
            }
        }
    }
}

// The nearest of what was divided by 10^12, over n. Twice what is left is 2 * left units and twice the remainder,
// which has `carry` whole units.
fn nearest_of_units(d: Option<Division>, n: u64) -> u64
    requires { IfSome d (λ d. d.remainder < 10 ^ 12) }
    ensures { (p : ℕ) → Divided p (10 ^ 12) d → result ≡ scaled near p n (10 ^ 12) }
{
    if n == 0 {
        return 0;
    }
    let Some(d) = d else {
        return u64::MAX;
    };
    let whole = d.quotient / n;
    let left = d.quotient % n;
    let carry = 2 * d.remainder / UNIT;
    if left + carry < n - left {
        return whole;
    }
    whole.saturating_add(1)
}

// a * b, divided by 10^12.
fn by_unit(a: u64, b: u64) -> Option<Division>
    ensures { Divided (a * b) (10 ^ 12) result }
{
    with_whole(a, b / UNIT, part_by_unit(a, b % UNIT))
}

// a * b, divided by 10^6.
fn by_million(a: u64, b: u64) -> Option<Division>
    ensures { Divided (a * b) (10 ^ 6) result }
{
    with_whole(a, b / MILLION, part_by_million(a, b % MILLION))
}

// A part, with a times so many whole units added.
fn with_whole(a: u64, whole: u64, part: Division) -> Option<Division>
    ensures { (p unit : ℕ) → Divided p unit (Some part) → Divided (a * whole * unit + p) unit result }
{
    let quotient = a.checked_mul(whole)?.checked_add(part.quotient)?;
    Some(Division {
        quotient,
        remainder: part.remainder,
    })
}

// a * b, divided by 10^12, for b below it: a in base 10^6, from its highest part down.
fn part_by_unit(a: u64, b: u64) -> Division
    requires { b < 10 ^ 12 }
    ensures { Divided (a * b) (10 ^ 12) (Some result) }
{
    let high = a / UNIT;
    let low = a % UNIT;
    let middle = low / MILLION * b;
    let rest = middle % MILLION * MILLION + low % MILLION * b;
    Division {
        quotient: high * b + middle / MILLION + rest / UNIT,
        remainder: rest % UNIT,
    }
}

// a * b, divided by 10^6, for b below it.
fn part_by_million(a: u64, b: u64) -> Division
    requires { b < 10 ^ 6 }
    ensures { Divided (a * b) (10 ^ 6) (Some result) }
{
    let rest = a % MILLION * b;
    Division {
        quotient: a / MILLION * b + rest / MILLION,
        remainder: rest % MILLION,
    }
}
