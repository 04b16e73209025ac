// What the figures of two funds say of the premium's move from the old one to the new one, and what differs between their files beside the
// editions and the rate lines.
#![tactic(auto)]

mod files;

ghost use Rattle.std.specs.Prelude.{◌≡◌, ◌+◌, ◌^◌, ◌≤◌, pos, nat_abs, ◌+ℤ◌, ◌-ℤ◌};
ghost use Rattle.fund.specs.Limits.{least_worth, most_worth};
ghost use Rattle.moves.specs.Move.{excess as excess_of, move_of, most_within, FiguresIn, figures_in, moved_of};

pub use files::{Differences, MemberLine, differing};
use fund::{Figures, Fund};

// The limits of figures that are compared: no accepted fund is above them.
const MOST_PREMIUM: u64 = 1000000000000000000;

const MOST_WITHIN: u64 = 1000000000000000;

const MOST_GROSS: u64 = 100000000000000000;

// The premium's move, the most that arithmetic can have to do with it, and the ends of the interval in which the exact move lies, in units of
// 10^-12; the move of the gross premium, and the ends of the interval in which that of the exact premium's loaded worth lies, in centimes.
#[derive(Clone, Copy, PartialEq, Eq)]
pub struct Move {
    pub premium: i64,
    pub arithmetic: u64,
    pub least: i64,
    pub most: i64,
    pub gross: i64,
    pub gross_least: i64,
    pub gross_most: i64,
}

// The figures of a fund are within the limits.
fn is_inside(fund: Fund, figures: Figures) -> bool
    ensures { result ≡ figures_in fund figures }
{
    Fund::LEAST_WORTH <= fund.worth
        && fund.worth <= Fund::MOST_WORTH
        && figures.premium.unsigned_abs() <= MOST_PREMIUM
        && figures.within <= MOST_WITHIN
        && figures.gross <= MOST_GROSS
}

// The bound loaded twice, as the tariff loads a premium with its bound, and a centime.
fn excess(fund: Fund, within: u64) -> u64
    requires { (least_worth ≤ fund.worth) × (fund.worth ≤ most_worth) × (within ≤ most_within) }
    ensures { result ≡ excess_of fund within }
{
    match tariff::gross_premium(fund, within as i64, within) {
        Some(centimes) => centimes + 1,
        None => 0,
    }
}

fn above(z: i64, n: u64) -> i64
    requires { nat_abs z + n ≤ 2 ^ 62 }
    ensures { result ≡ z +ℤ pos n }
{
    z + n as i64
}

fn below(z: i64, n: u64) -> i64
    requires { nat_abs z + n ≤ 2 ^ 62 }
    ensures { result ≡ z -ℤ pos n }
{
    z - n as i64
}

// The move of figures within the limits.
#[tactic(auto, using(crate::proofs::GrossExcess::excess_small, crate::proofs::GrossExcess::gross_small))]
fn move_of(old: Fund, before: Figures, new: Fund, after: Figures) -> Move
    requires { FiguresIn old before × FiguresIn new after }
    ensures { result ≡ move_of old before new after }
{
    let premium = after.premium - before.premium;
    let arithmetic = before.within + after.within;
    let gross = below(after.gross as i64, before.gross);
    Move {
        premium,
        arithmetic,
        least: below(premium, arithmetic),
        most: above(premium, arithmetic),
        gross,
        gross_least: below(gross, excess(new, after.within)),
        gross_most: above(gross, excess(old, before.within)),
    }
}

// The premium's move from the old fund's figures to the new one's; of figures above the limits, none.
pub fn move_between(old: Fund, before: Figures, new: Fund, after: Figures) -> Option<Move>
    ensures { result ≡ moved_of old before new after }
{
    if is_inside(old, before) && is_inside(new, after) {
        Some(move_of(old, before, new, after))
    } else {
        None
    }
}
