// The rows that are read so far, of a file or of sheets.
ghost use Rattle.std.specs.Prelude.{◌≡◌, [], ◌+◌, ◌≤◌, length};
ghost use Rattle.fund.specs.Limits.{most_rates, most_members};
ghost use Rattle.fund.specs.declared.Refusal.TheVariants.{Range};
ghost use Rattle.fund.specs.Verdict.{refused_at};
ghost use Rattle.fund.specs.Reading.{lives_in_all, rate_in_range, member_in_range};
ghost use Rattle.rows.specs.Read.{with_rows};
ghost use Rattle.rows.specs.Rows.{least_age, line_place, in_range_or, rates_with, members_with};

use crate::{FileRead, MemberTable, RateTable, member_in_range, rate_in_range};
use fund::{Fund, Member, Rate, Refusal, Refused};

// The rows, the least age that a rate row behind them may have, and the lives of the member rows together.
#[derive(Drop)]
pub struct RowsSoFar {
    rates: RateTable,
    members: MemberTable,
    least: u64,
    lives: u64,
    ghost least_is: { least_age rates.items ≡ least },
    ghost lives_are: { lives_in_all members.items ≡ lives },
}

impl RowsSoFar {
    pub fn new() -> RowsSoFar
        ensures rates { result.rates.items ≡ [] }
        ensures members { result.members.items ≡ [] }
    {
        RowsSoFar {
            rates: RateTable::new(),
            members: MemberTable::new(),
            least: 0,
            lives: 0,
        }
    }

    pub fn members_read(&self) -> usize
        ensures { result ≡ length self.now.members.items }
    {
        self.members.len()
    }

    // The place of the next row, counted from 1.
    pub fn place(&self) -> u64
        ensures value { result ≡ length self.now.rates.items + length self.now.members.items + 1 }
        ensures few { result ≤ most_rates + most_members + 1 }
    {
        self.rates.len() as u64 + self.members.len() as u64 + 1
    }

    // The line that the next row has in a file.
    pub fn line(&self) -> u64
        ensures value { result ≡ line_place (length self.now.rates.items) (length self.now.members.items) }
        ensures few { result ≤ most_rates + most_members + 8 }
    {
        Fund::HEADER_LINES as u64 + self.place()
    }

    // The next row is out of range, at its line.
    fn out_of_range(&self) -> Result<(), Refused>
        ensures { result ≡ refused_at Range (line_place (length self.now.rates.items) (length self.now.members.items)) }
    {
        Err(Refusal::Range.at(self.line()))
    }

    // A rate row behind these, or range at its line.
    pub fn add_rate(&mut self, r: Rate) -> Result<(), Refused>
        ensures answer { result ≡ in_range_or (rate_in_range self.old.rates.items r) (line_place (length self.old.rates.items) (length self.old.members.items)) }
        ensures rates { self.new.rates.items ≡ rates_with self.old.rates.items r }
        ensures members { self.new.members.items ≡ self.old.members.items }
    {
        if !rate_in_range(self.rates.len(), self.least, r) {
            return self.out_of_range();
        }
        self.rates.push(r);
        self.least = r.age + 1;
        Ok(())
    }

    // A member row behind these, or range at its line.
    pub fn add_member(&mut self, m: Member) -> Result<(), Refused>
        ensures answer { result ≡ in_range_or (member_in_range self.old.members.items m) (line_place (length self.old.rates.items) (length self.old.members.items)) }
        ensures rates { self.new.rates.items ≡ self.old.rates.items }
        ensures members { self.new.members.items ≡ members_with self.old.members.items m }
    {
        if !member_in_range(self.members.len(), self.lives, m) {
            return self.out_of_range();
        }
        self.members.push(m);
        self.lives += m.lives;
        Ok(())
    }

    // What was read, with the header's figures.
    pub fn read(&self, fund: Fund) -> FileRead
        ensures { result ≡ with_rows fund self.now.rates.items self.now.members.items }
    {
        FileRead {
            fund,
            rates: self.rates,
            members: self.members,
        }
    }
}
