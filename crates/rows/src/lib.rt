// What reading gives, from a file or from sheets: the header's figures and the rows, or a refusal; and whether a row is in range.

#![tactic(auto)]

mod member_table;
mod ranges;
mod rate_table;
mod so_far;

ghost use Rattle.rows.specs.Read.{RowsOf};

use fund::{Fund, Member, Rate};
pub use member_table::MemberTable;
pub use ranges::{member_in_range, rate_in_range, within};
pub use rate_table::RateTable;
pub use so_far::RowsSoFar;

// What was read: the header's figures, the rate rows and the member rows.
#[derive(Clone, Copy)]
pub struct FileRead {
    pub fund: Fund,
    pub rates: RateTable,
    pub members: MemberTable,
}

// A fund's header and rows, wherever the rows stand.
#[derive(Clone, Copy)]
pub struct Rows<'a> {
    pub fund: Fund,
    pub rates: &'a [Rate],
    pub members: &'a [Member],
}

impl FileRead {
    pub fn rows(&self) -> Rows<'_>
        ensures { RowsOf self.now result.fund result.rates.now result.members.now }
    {
        Rows {
            fund: self.fund,
            rates: self.rates.as_slice(),
            members: self.members.as_slice(),
        }
    }
}
