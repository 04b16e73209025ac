// A row of a sheet, from its bytes to bits and floats, from floats to cells, from cells to numbers, and these to a rate or a member; or it is not taken.

#![tactic(auto)]

mod floats;
mod number;

ghost use Rattle.std.specs.Prelude.{◌≡◌};
ghost use Rattle.fund.specs.SheetCells.{rate_row_of, member_row_of};

use floats::{float, word};
use fund::{Fund, Member, MemberFloats, Rate, RateFloats};
use number::{amount, classed, number, rate_in};

// A row of the rates' sheet: the bits of its cells, and the record of floats that they are. Each is classified by its bits, then taken or not.
pub fn rate_row(row: &[u8]) -> Option<Rate>
    ensures { result ≡ rate_row_of row.now }
{
    if row.len() != Fund::RATE_WIDTH {
        return None;
    }
    let age = word(row, 0);
    let q = word(row, 8);
    let i = word(row, 16);
    let r = RateFloats {
        age: float(age),
        q: float(q),
        i: float(i),
    };
    Some(Rate {
        age: number(0, Fund::MOST_AGE, classed(age, r.age))?,
        q: rate_in(classed(q, r.q))?,
        i: rate_in(classed(i, r.i))?,
    })
}

// A row of the members' sheet, in the same way.
pub fn member_row(row: &[u8]) -> Option<Member>
    ensures { result ≡ member_row_of row.now }
{
    if row.len() != Fund::MEMBER_WIDTH {
        return None;
    }
    let age = word(row, 0);
    let group = word(row, 8);
    let d = word(row, 16);
    let e = word(row, 24);
    let lives = word(row, 32);
    let r = MemberFloats {
        age: float(age),
        group: float(group),
        d: float(d),
        e: float(e),
        lives: float(lives),
    };
    Some(Member {
        age: number(0, Fund::MOST_AGE, classed(age, r.age))?,
        group: number(Fund::LEAST_GROUP, Fund::MOST_GROUP, classed(group, r.group))?,
        d: amount(classed(d, r.d))?,
        e: amount(classed(e, r.e))?,
        lives: number(Fund::LEAST_LIVES, Fund::MOST_LIVES, classed(lives, r.lives))?,
    })
}
