// The pool's tariff of METHOD 7 (§3): a premium and its bound, loaded by the deductible, in whole centimes.
#![tactic(auto)]

ghost use Rattle.std.specs.Prelude.{◌≡◌, ◌+◌, ◌*◌, ◌^◌, ◌<◌, ◌≤◌};
ghost use Rattle.rounding.specs.Rounding.{up};
ghost use Rattle.fund.specs.Tariff.{loading};
ghost use Rattle.tariff.specs.Gross.{gross_of, InTwoWords};

use fund::Fund;

// The unit of a premium times the unit of a loading.
const SCALE: u64 = 1000000000000000;

// The scale's two factors: a part of the sum below the first, times the loaded worth, fits a word.
const PART: u64 = 100000000;

const PARTS: u64 = 10000000;

// A number that may be more than a word: high * 10^15 + low.
#[derive(Clone, Copy)]
struct TwoWords {
    high: u64,
    low: u64,
}

// The loading of a deductible, in thousandths.
fn loading(deductible: u64) -> u64
    ensures { result ≡ loading deductible }
{
    if deductible < Fund::SECOND_STEP {
        Fund::FIRST_LOADING
    } else if deductible < Fund::THIRD_STEP {
        Fund::SECOND_LOADING
    } else if deductible < Fund::FOURTH_STEP {
        Fund::THIRD_LOADING
    } else {
        Fund::FOURTH_LOADING
    }
}

// The premium with its bound.
fn with_bound(premium: i64, within: u64) -> TwoWords
    ensures { InTwoWords premium within result }
{
    let size = premium.unsigned_abs();
    if premium < 0 {
        let left = within.saturating_sub(size);
        return TwoWords {
            high: left / SCALE,
            low: left % SCALE,
        };
    }
    TwoWords {
        high: size / SCALE + within / SCALE,
        low: size % SCALE + within % SCALE,
    }
}

// high * 10^15 + low, times the loaded worth, divided by 10^15 once, up: less than 10^15 is added before the division.
fn centimes(high: u64, low: u64, loaded: u64) -> u64
    requires { (high ≤ 27669) × (low < 2 * 10 ^ 15) × (loaded ≤ 21000000000) }
    ensures { result ≡ up ((high * 10 ^ 15 + low) * loaded) (10 ^ 15) }
{
    let rest = low % PART * loaded + (SCALE - 1);
    high * loaded + (low / PART * loaded + rest / PART) / PARTS
}

// The gross premium of a fund with these terms, in whole centimes, whatever the premium and its bound; of a worth that no fund may state, none.
pub fn gross_premium(fund: Fund, premium: i64, within: u64) -> Option<u64>
    ensures { result ≡ gross_of fund premium within }
{
    if fund.worth < Fund::LEAST_WORTH || Fund::MOST_WORTH < fund.worth {
        return None;
    }
    // The loaded worth of one unit.
    let loaded = fund.worth * loading(fund.deductible);
    let sum = with_bound(premium, within);
    Some(centimes(sum.high, sum.low, loaded))
}
