// The sums that the start of METHOD 6's recursion is made of: the alternating sum of t(n), and the sum of its bounds c(n).
#![tactic(auto)]

ghost use Rattle.std.specs.Prelude.{◌≡◌, ◌*◌, ◌^◌, ◌<◌, ◌≤◌};
ghost use Rattle.fund.specs.Limits.{most_load};
ghost use Rattle.rounding.specs.Rounding.{near};
ghost use Rattle.start.specs.Terms.{most_t, most_c, next_c, TermsTo, StartSums};

use fund::Fund;
use rounding::UNIT;
use whole::{Signed, Sums};

// The sum that f(0) starts from, and the sum that R(0) starts from.
#[derive(Clone, Copy, PartialEq, Eq)]
pub struct StartSum {
    pub sum: Signed,
    pub bound: u64,
}

// t(n) from t(n-1): all are 0 from the first that is.
fn next_term(t: u64, lambda: u64, n: u64) -> u64
    requires { (t ≤ most_t) × (lambda ≤ most_load) × (0 < n) }
    ensures { result ≡ near (t * lambda) (n * 10 ^ 12) }
{
    if t == 0 {
        return 0;
    }
    rounding::nearest_per_units(t, lambda, n)
}

// c(n) from c(n-1): all are 0 if lambda is. The product is at most 1,000 times the largest load, so it is a word.
fn next_bound(c: u64, lambda: u64, n: u64) -> u64
    requires { (c ≤ most_c) × (lambda ≤ most_load) × (0 < n) × (n ≤ 64) }
    ensures { result ≡ next_c lambda c n }
{
    if lambda == 0 {
        return 0;
    }
    whole::up(c * lambda, n * UNIT) + 1
}

// The sums for n to 63.
fn terms(lambda: u64) -> Sums
    requires { lambda ≤ most_load }
    ensures { TermsTo lambda 64 result }
{
    let mut s = Sums::default();
    let mut t = UNIT;
    let mut c: u64 = 0;
    for n in 0..64 {
        let part = Signed {
            negative: n % 2 == 1,
            size: t,
        };
        s = s.with_part(part, c);
        t = next_term(t, lambda, n + 1);
        c = next_bound(c, lambda, n + 1);
    }
    s
}

// The sums of a lambda up to the largest load: a fund with more is refused.
pub fn sums(lambda: u64) -> StartSum
    ensures { StartSums lambda result }
{
    let parts = terms(lambda.min(Fund::MOST_LOAD));
    StartSum {
        sum: Signed::difference(parts.plus, parts.minus),
        bound: parts.bound,
    }
}
