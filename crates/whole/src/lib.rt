// Whole numbers with a sign, in words: sums keep apart what is added and what is subtracted, and an i64 only holds what is stored.
#![tactic(auto)]

ghost use Rattle.std.specs.Prelude.{◌≡◌, ◌+◌, ◌≤◌, min, pos, ◌-ℤ◌, nat_lt};
ghost use Rattle.rounding.specs.Rounding.{near, up as up_of};
ghost use Rattle.whole.specs.Sign.{most_value, signed, signed_of};
ghost use Rattle.whole.specs.Sums.{with_part};

// A number by its sign and its magnitude.
#[derive(Clone, Copy, PartialEq, Eq)]
pub struct Signed {
    pub negative: bool,
    pub size: u64,
}

impl From<i64> for Signed {
    ghost from_gives = { λ x s. s ≡ signed_of x };

    fn from(x: i64) -> Signed {
        Signed {
            negative: x < 0,
            size: x.unsigned_abs(),
        }
    }
}

impl Signed {
    // plus - minus.
    pub fn difference(plus: u64, minus: u64) -> Signed
        ensures { (signed result.negative result.size ≡ pos plus -ℤ pos minus) × (result.size ≤ plus + minus) × (result.negative ≡ nat_lt plus minus) }
    {
        Signed {
            negative: plus < minus,
            size: plus.abs_diff(minus),
        }
    }

    // The number itself; a magnitude above the largest i64 is taken as that.
    pub fn as_i64(self) -> i64
        ensures { result ≡ signed self.negative (min self.size most_value) }
    {
        let size = self.size.min(i64::MAX as u64) as i64;
        if self.negative { -size } else { size }
    }
}

// The parts of a sum that are not negative and those that are, and the sum of the bounds that go with them.
#[derive(Clone, Copy, PartialEq, Eq, Default)]
pub struct Sums {
    pub plus: u64,
    pub minus: u64,
    pub bound: u64,
}

impl Sums {
    // One part more, on the side of its sign, with its bound.
    pub fn with_part(self, part: Signed, bound: u64) -> Sums
        ensures { result ≡ with_part self part.negative part.size bound }
    {
        let bound = self.bound.wrapping_add(bound);
        if part.negative {
            Sums {
                minus: self.minus.wrapping_add(part.size),
                bound,
                ..self
            }
        } else {
            Sums {
                plus: self.plus.wrapping_add(part.size),
                bound,
                ..self
            }
        }
    }
}

// a / b, up; a division by 0 is 0.
pub fn up(a: u64, b: u64) -> u64
    ensures { result ≡ up_of a b }
{
    if b == 0 {
        return 0;
    }
    a.div_ceil(b)
}

// a / b to the nearest, halves up; a division by 0 is 0.
pub fn nearest(a: u64, b: u64) -> u64
    ensures { result ≡ near a b }
{
    if b == 0 {
        return 0;
    }
    let quotient = a / b;
    let rest = a % b;
    if rest < b - rest {
        return quotient;
    }
    quotient + 1
}
