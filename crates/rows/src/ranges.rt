// Whether the numbers of a row are in range behind the rows before it.
ghost use Rattle.std.specs.Prelude.{◌≡◌, ◌&&◌, ◌+◌, leb};
ghost use Rattle.fund.specs.Limits.{least_lives, most_lives};
ghost use Rattle.fund.specs.Reading.{between};
ghost use Rattle.rows.specs.Rows.{rate_fits, member_fits};

use fund::{Fund, Member, Rate};

pub fn within(least: u64, most: u64, n: u64) -> bool
    ensures { result ≡ between least most n }
{
    least <= n && n <= most
}

// The rate row behind `rated` others; `least` is the least age that is above theirs.
pub fn rate_in_range(rated: usize, least: u64, r: Rate) -> bool
    ensures { result ≡ rate_fits rated least r }
{
    rated < Fund::RATE_ROWS
        && r.age <= Fund::MOST_AGE
        && least <= r.age
        && r.q <= Fund::MOST_RATE
        && r.i <= Fund::MOST_RATE
        && r.q + r.i <= Fund::MOST_RATE
}

// The lives of a member row behind rows of so many: "lives in all are at most 1,000, else range (2) at the line that passes it".
fn lives_in_range(before: u64, lives: u64) -> bool
    ensures { result ≡ (between least_lives most_lives lives && leb (before + lives) most_lives) }
{
    within(Fund::LEAST_LIVES, Fund::MOST_LIVES, lives) && before <= Fund::MOST_LIVES - lives
}

// The member row behind `enrolled` others, which stand for so many lives.
pub fn member_in_range(enrolled: usize, lives: u64, m: Member) -> bool
    ensures { result ≡ member_fits enrolled lives m }
{
    enrolled < Fund::MEMBER_ROWS
        && m.age <= Fund::MOST_AGE
        && within(Fund::LEAST_GROUP, Fund::MOST_GROUP, m.group)
        && m.d <= Fund::MOST_AMOUNT
        && m.e <= Fund::MOST_AMOUNT
        && lives_in_range(lives, m.lives)
}
