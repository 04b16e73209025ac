// The running sums of the cells: F(x) is f(0) + .. + f(x).
ghost use Rattle.std.specs.Prelude.{◌≡◌, ◌++◌, suc, ◌+◌, ◌^◌, ◌≤◌, pos, nat_abs, ◌+ℤ◌, length, drop};
ghost use Rattle.fund.specs.Base.{table};
ghost use Rattle.fund.specs.Quantile.{running_sum};
ghost use Rattle.fund.specs.Answer.{lent};
ghost use Rattle.valuation.specs.Sums.{SumsFit};

fn plus(sum: i64, f: i64) -> i64
    requires { nat_abs sum + nat_abs f ≤ 2 ^ 62 }
    ensures { result ≡ sum +ℤ f }
{
    sum + f
}

// The sums up to the horizon; cells beyond it stay as they are.
fn fill_sums(horizon: usize, f: &[i64], sums: &mut [i64])
    requires { SumsFit horizon f.now (length sums.old) }
    ensures { sums.new ≡ table (suc horizon) (running_sum f.now) ++ drop (suc horizon) sums.old }
{
    let mut sum: i64 = 0;
    for x in 0..horizon + 1 {
        sum = plus(sum, f[x]);
        sums[x] = sum;
    }
}

// The sums up to the horizon, and zeros beyond it.
pub(crate) fn running_sums(horizon: usize, f: &[i64], sums: &mut [i64])
    requires { SumsFit horizon f.now (length sums.old) }
    ensures { sums.new ≡ lent (pos 0) (length sums.old) (table (suc horizon) (running_sum f.now)) }
{
    sums.fill(0);
    fill_sums(horizon, f, sums);
}
