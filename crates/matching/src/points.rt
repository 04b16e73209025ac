// The model point of each member line: its amounts and the folded rates in force at its age, and how many lives it stands for.
ghost use Rattle.std.specs.Prelude.{◌≡◌, ◌+◌, ◌^◌, ◌≤◌, ◌<◌, length, eqb, if◌then◌else◌, [], Some, position};
ghost use Rattle.fund.specs.Limits.{most_members};
ghost use Rattle.fund.specs.Folding.{rate_in_force, folded as folded_of};
ghost use Rattle.fund.specs.Refusals.{half};
ghost use Rattle.matching.specs.Matching.{with_points};
ghost use Rattle.matching.specs.Points.{model_points, not_half};

use arrayvec::ArrayVec;
use fund::{Fund, Life, Member, ModelPoint, Rate, Refusal, Refused};

// The last row that is not above the age; the rows rise.
fn rate_in_force(rates: &[Rate], age: u64) -> Option<Rate>
    ensures { result ≡ rate_in_force rates.now age }
{
    let mut held = None;
    for rate in rates {
        if age < rate.age {
            return held;
        }
        held = Some(*rate);
    }
    held
}

// "If d = 0, q counts as 0; if e = 0, i counts as 0."
fn counted(amount: u64, rate: u64) -> u64
    ensures { result ≡ (if eqb amount 0 then 0 else rate) }
{
    if amount == 0 { 0 } else { rate }
}

fn folded(rate: Rate, m: Member) -> Life
    ensures { result ≡ folded_of (Some rate) m }
{
    Life {
        group: m.group,
        q: counted(m.d, rate.q),
        i: counted(m.e, rate.i),
        d: m.d,
        e: m.e,
    }
}

// The model points of the members in place (a Result would hold a copy of the table), or 5 at the first whose age no rate is in force at;
// `line` is the line of the first member.
pub(crate) fn model_points(
    rates: &[Rate],
    members: &[Member],
    line: u64,
    points: &mut ArrayVec<ModelPoint, { Fund::MEMBER_ROWS }>,
) -> Result<(), Refused>
    requires sizes { (length members.now ≤ most_members) × (line + length members.now < 2 ^ 64) }
    requires none_yet { points.old.items ≡ [] }
    ensures { with_points points.new.items result ≡ model_points rates.now members.now line }
{
    for (k, m) in members.iter().enumerate() {
        let Some(rate) = rate_in_force(rates, m.age) else {
            return Err(Refusal::Unmatched.at(line + k as u64));
        };
        points.push(ModelPoint {
            life: folded(rate, *m),
            lives: m.lives,
        });
    }
    Ok(())
}

// 6: "group 1, q + i at least 500,000 after folding". The sum q + i is not formed, as it may not fit.
fn is_half(m: Life) -> bool
    ensures { result ≡ half m }
{
    m.group == Fund::SINGLE && Fund::HALF.saturating_sub(m.q) <= m.i
}

fn first_half(points: &[ModelPoint]) -> Option<usize>
    ensures { result ≡ position (λ p. half p.life) points.now }
{
    points.iter().position(|p| is_half(p.life))
}

// 6 at the first model point that is half.
pub(crate) fn not_half(points: &[ModelPoint], line: u64) -> Result<(), Refused>
    requires { line + length points.now < 2 ^ 64 }
    ensures { with_points points.now result ≡ not_half points.now line }
{
    match first_half(points) {
        Some(k) => Err(Refusal::Half.at(line + k as u64)),
        None => Ok(()),
    }
}
