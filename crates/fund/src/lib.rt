// The types of the method, docs/METHOD.md: a fund file's header, rate and member rows, and what a pricing call answers. Their meaning is
// in specs/, in the document's order; the code here ties the limits and the refusals' numbers to it.

#![tactic(auto)]

ghost use Rattle.std.specs.Prelude.{◌≡◌, length};
ghost use Rattle.fund.specs.Limits.{limits};
ghost use Rattle.fund.specs.Reading.{header_lines};
ghost use Rattle.fund.specs.Refusals.{number_of};
ghost use Rattle.fund.specs.Answer.{no_figures};
ghost use Rattle.fund.specs.Cells.{lengths, LentAs, SameSlices, Zeros};

// The fund record: the figures of a file's header lines, in their order.
#[derive(Clone, Copy, PartialEq, Eq, Default)]
pub struct Fund {
    pub rates: u64,
    pub members: u64,
    pub horizon: u64,
    pub order: u64,
    pub frequency: Frequencies,
    pub deductible: u64,
    pub worth: u64,
}

// How often a place of group 2 is filled again, in thousandths: a deceased member's and a disabled member's.
#[derive(Clone, Copy, PartialEq, Eq, Default)]
pub struct Frequencies {
    pub death: u64,
    pub disability: u64,
}

// A rate line: the death rate q and the disability rate i from an age on, until the next row's age, in millionths.
#[derive(Clone, Copy, PartialEq, Eq, Default)]
pub struct Rate {
    pub age: u64,
    pub q: u64,
    pub i: u64,
}

// A member line: group 1 or 2, the amounts at death d and at disability e, and how many lives the line stands for.
#[derive(Clone, Copy, PartialEq, Eq, Default)]
pub struct Member {
    pub age: u64,
    pub group: u64,
    pub d: u64,
    pub e: u64,
    pub lives: u64,
}

// One life, with the folded rates in force at its age.
#[derive(Clone, Copy, PartialEq, Eq, Default)]
pub struct Life {
    pub group: u64,
    pub q: u64,
    pub i: u64,
    pub d: u64,
    pub e: u64,
}

// The member record of the lent table: what each life of a member line is, and how many of them there are.
#[derive(Clone, Copy, PartialEq, Eq, Default)]
pub struct ModelPoint {
    pub life: Life,
    pub lives: u64,
}

// A row of the rates' sheet: its age, q and i.
#[derive(Clone, Copy)]
pub struct RateFloats {
    pub age: f64,
    pub q: f64,
    pub i: f64,
}

// A row of the members' sheet, a record of five such floats: age, group, the amounts at death d and at disability e, and the lives.
#[derive(Clone, Copy)]
pub struct MemberFloats {
    pub age: f64,
    pub group: f64,
    pub d: f64,
    pub e: f64,
    pub lives: f64,
}

// A row of a sheet, rate rows first.
#[derive(Clone, Copy, PartialEq, Eq)]
pub enum SheetRow {
    Rate(Rate),
    Member(Member),
}

// Why pricing stops, in the order of METHOD 2's table; last (§6): "11 (cell)".
#[derive(Clone, Copy, PartialEq, Eq)]
pub enum Refusal {
    Form,
    Range,
    Edition,
    Deductible,
    Unmatched,
    Half,
    Load,
    Order,
    Short,
    Wide,
    Cell,
}

// A refusal at a place: "its number and place".
#[derive(Clone, Copy, PartialEq, Eq)]
pub struct Refused {
    pub why: Refusal,
    pub place: u64,
}

// What a pricing call says of a file: it is accepted, or refused at a place.
pub type Verdict = Result<(), Refused>;

// A fund's figures beside its cells: the truncation figure E, the mean, the premium, the premium's bound, and the gross premium.
#[derive(Clone, Copy, PartialEq, Eq, Default)]
pub struct Figures {
    pub truncation: u64,
    pub mean: u64,
    pub premium: i64,
    pub within: u64,
    pub gross: u64,
}

// The result slices that a caller lends, for D, H, f, R and F.
#[derive(Drop)]
pub struct Cells<'a> {
    pub transform: &'a mut [i64],
    pub h: &'a mut [u64],
    pub f: &'a mut [i64],
    pub r: &'a mut [u64],
    pub sums: &'a mut [i64],
}

impl<'a> Cells<'a> {
    pub fn new(
        transform: &'a mut [i64],
        h: &'a mut [u64],
        f: &'a mut [i64],
        r: &'a mut [u64],
        sums: &'a mut [i64],
    ) -> Cells<'a>
        ensures { LentAs result transform.entry h.entry f.entry r.entry sums.entry }
    {
        Cells {
            transform,
            h,
            f,
            r,
            sums,
        }
    }

    // "zero in every lent result cell"
    pub fn clear(&mut self)
        ensures same_slices { SameSlices self.old self.new }
        ensures zeros { Zeros (lengths self.old) self.new }
    {
        self.transform.fill(0);
        self.h.fill(0);
        self.f.fill(0);
        self.r.fill(0);
        self.sums.fill(0);
    }
}

impl Fund {
    // The digits of a number.
    pub const MOST_DIGITS: u64 = 7;

    pub const LEAST_EDITION: u64 = 1900;

    pub const MOST_EDITION: u64 = 2999;

    pub const MOST_HORIZON: u64 = 4095;

    pub const LEAST_ORDER: u64 = 1;

    pub const MOST_ORDER: u64 = 12;

    pub const MOST_FREQUENCY: u64 = 5000;

    pub const MOST_DEDUCTIBLE: u64 = 4096;

    pub const LEAST_WORTH: u64 = 1;

    pub const MOST_WORTH: u64 = 9999999;

    pub const MOST_RATES: u64 = 121;

    pub const MOST_AGE: u64 = 120;

    pub const MOST_RATE: u64 = 1000000;

    pub const MOST_MEMBERS: u64 = 1000;

    pub const LEAST_GROUP: u64 = 1;

    pub const MOST_GROUP: u64 = 2;

    // Group 1 is taken one by one.
    pub const SINGLE: u64 = Fund::LEAST_GROUP;

    pub const MOST_AMOUNT: u64 = 65535;

    // The lives of a member line, and of all of them together.
    pub const LEAST_LIVES: u64 = 1;

    pub const MOST_LIVES: u64 = 1000;

    pub const HALF: u64 = 500000;

    pub const MOST_LOAD: u64 = 8000000000000;

    pub const MOST_TRUNCATION: u64 = 100000000;

    pub const MOST_BOUND: u64 = 250000;

    pub const MOST_LEVEL: u64 = 1000000000000;

    // The tariff's steps: the deductible that each begins at but the first, which begins at 0, and its loading in thousandths.
    pub const SECOND_STEP: u64 = 100;

    pub const THIRD_STEP: u64 = 300;

    pub const FOURTH_STEP: u64 = 600;

    pub const FIRST_LOADING: u64 = 1500;

    pub const SECOND_LOADING: u64 = 1700;

    pub const THIRD_LOADING: u64 = 1900;

    pub const FOURTH_LOADING: u64 = 2100;

    // The lengths of a table of rate rows and of a table of member rows.
    pub const RATE_ROWS: usize = Fund::MOST_RATES as usize;

    pub const MEMBER_ROWS: usize = Fund::MOST_MEMBERS as usize;

    pub const HEADER_LINES: usize = 7;

    // The bytes of a row of either sheet: three cells and five.
    pub const RATE_WIDTH: usize = 24;

    pub const MEMBER_WIDTH: usize = 40;

    // The header lines of the definition are as many.
    pub fn header_lines() -> usize
        ensures { result ≡ length header_lines }
    {
        Fund::HEADER_LINES
    }

    // The constants are the limits that the definitions use, in their order.
    pub fn limits() -> [u64; 31]
        ensures { result ≡ limits }
    {
        [
            Fund::MOST_DIGITS,
            Fund::LEAST_EDITION,
            Fund::MOST_EDITION,
            Fund::MOST_HORIZON,
            Fund::LEAST_ORDER,
            Fund::MOST_ORDER,
            Fund::MOST_FREQUENCY,
            Fund::MOST_DEDUCTIBLE,
            Fund::LEAST_WORTH,
            Fund::MOST_WORTH,
            Fund::MOST_RATES,
            Fund::MOST_AGE,
            Fund::MOST_RATE,
            Fund::MOST_MEMBERS,
            Fund::LEAST_GROUP,
            Fund::MOST_GROUP,
            Fund::MOST_AMOUNT,
            Fund::LEAST_LIVES,
            Fund::MOST_LIVES,
            Fund::HALF,
            Fund::MOST_LOAD,
            Fund::MOST_TRUNCATION,
            Fund::MOST_BOUND,
            Fund::MOST_LEVEL,
            Fund::SECOND_STEP,
            Fund::THIRD_STEP,
            Fund::FOURTH_STEP,
            Fund::FIRST_LOADING,
            Fund::SECOND_LOADING,
            Fund::THIRD_LOADING,
            Fund::FOURTH_LOADING,
        ]
    }
}

// "zero for every figure"
pub fn no_figures() -> Figures
    ensures { result ≡ no_figures }
{
    Figures {
        truncation: 0,
        mean: 0,
        premium: 0,
        within: 0,
        gross: 0,
    }
}

// METHOD 2's number of a refusal.
impl From<Refusal> for u64 {
    ghost from_gives = { λ why n. n ≡ number_of why };

    fn from(why: Refusal) -> u64 {
        match why {
            Refusal::Form => 1,
            Refusal::Range => 2,
            Refusal::Edition => 3,
            Refusal::Deductible => 4,
            Refusal::Unmatched => 5,
            Refusal::Half => 6,
            Refusal::Load => 7,
            Refusal::Order => 8,
            Refusal::Short => 9,
            Refusal::Wide => 10,
            Refusal::Cell => 11,
        }
    }
}

impl Refusal {
    // The refusal at a place.
    pub fn at(self, place: u64) -> Refused
        ensures { result ≡ record { why = self; place = place } }
    {
        Refused { why: self, place }
    }
}
